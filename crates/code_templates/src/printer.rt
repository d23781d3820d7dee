//! Templates of the printer. Each names its holes, by their numbers from 0 on. See "Templates" in
//! docs/COMPILED.md.

ghost use Rattle.std.specs.Prelude.{ℕ, List, ◌∷◌, All};
ghost use Rattle.code_templates.specs.Laws.{runs_of, StartTextLaw, WriteByteLaw, PushWorkLaw};
ghost use Rattle.code_templates.specs.Laws.{PopWorkLaw, GoToPartLaw, GoToTextLaw, HaltLaw};
ghost use Rattle.code_templates.specs.Rows.{HoleIsNumbered, Say};
ghost use Rattle.code_templates.specs.Templates as code;

use crate::macros::{row, rows};
use crate::template::{Hole, Row, Template};

/// Holes value, trail: the outcome becomes the record; goes to the place value or to the place
/// trail.
#[tactic(auto, using(crate::proofs::Public::start_text))]
pub fn start_text() -> Template<6>
    ensures holes { All HoleIsNumbered result.rows }
    ensures operators { (value trail : ℕ) (more : List ℕ) →
        Say result.rows (value ∷ trail ∷ more) (code.start_text value trail) }
    ensures law { StartTextLaw (runs_of result.rows) }
{
    Template {
        rows: rows! {
            set(5, [1]);
            set(6, [0]);
            cmov(5, 6, 3);
            cmov(2, 4, 4);
            cmov(2, 3, 3);
            load(0, 5);
        },
    }
}

/// Hole c: writes the byte c.
#[tactic(auto, using(crate::proofs::Public::write_byte))]
pub fn write_byte() -> Template<2>
    ensures holes { All HoleIsNumbered result.rows }
    ensures operators { (c : ℕ) (more : List ℕ) →
        Say result.rows (c ∷ more) (code.write_byte c) }
    ensures law { WriteByteLaw (runs_of result.rows) }
{
    Template {
        rows: rows! {
            set(7, [0]);
            out(7);
        },
    }
}

/// Hole place: puts the place and the record on the stack.
#[tactic(auto, using(crate::proofs::Public::push_work))]
pub fn push_work() -> Template<9>
    ensures holes { All HoleIsNumbered result.rows }
    ensures operators { (place : ℕ) (more : List ℕ) →
        Say result.rows (place ∷ more) (code.push_work place) }
    ensures law { PushWorkLaw (runs_of result.rows) }
{
    Template {
        rows: rows! {
            set(7, 3);
            alloc(4, 7);
            set(7, [0]);
            amend(4, 0, 7);
            set(7, 1);
            amend(4, 7, 2);
            set(7, 2);
            amend(4, 7, 3);
            cmov(3, 4, 4);
        },
    }
}

/// No holes: takes a place and a record from the stack, and goes there.
#[tactic(auto, using(crate::proofs::Public::pop_work))]
pub fn pop_work() -> Template<6>
    ensures holes { All HoleIsNumbered result.rows }
    ensures operators { (more : List ℕ) →
        Say result.rows more code.pop_work }
    ensures law { PopWorkLaw (runs_of result.rows) }
{
    Template {
        rows: rows! {
            index(5, 3, 0);
            set(7, 1);
            index(2, 3, 7);
            set(7, 2);
            index(3, 3, 7);
            load(0, 5);
        },
    }
}

/// Holes f, place: the record becomes its own word f; goes to the place.
#[tactic(auto, using(crate::proofs::Public::go_to_part))]
pub fn go_to_part() -> Template<4>
    ensures holes { All HoleIsNumbered result.rows }
    ensures operators { (f place : ℕ) (more : List ℕ) →
        Say result.rows (f ∷ place ∷ more) (code.go_to_part f place) }
    ensures law { GoToPartLaw (runs_of result.rows) }
{
    Template {
        rows: rows! {
            set(7, [0]);
            index(2, 2, 7);
            set(7, [1]);
            load(0, 7);
        },
    }
}

/// Hole j: goes to the place that stands in array 0 at j and as many words further as word 0 of the
/// record says.
#[tactic(auto, using(crate::proofs::Public::go_to_text))]
pub fn go_to_text() -> Template<5>
    ensures holes { All HoleIsNumbered result.rows }
    ensures operators { (j : ℕ) (more : List ℕ) →
        Say result.rows (j ∷ more) (code.go_to_text j) }
    ensures law { GoToTextLaw (runs_of result.rows) }
{
    Template {
        rows: rows! {
            index(5, 2, 0);
            set(7, [0]);
            add(5, 5, 7);
            index(5, 0, 5);
            load(0, 5);
        },
    }
}

/// No holes: halts.
#[tactic(auto, using(crate::proofs::Public::halt))]
pub fn halt() -> Template<1>
    ensures holes { All HoleIsNumbered result.rows }
    ensures operators { (more : List ℕ) →
        Say result.rows more code.halt }
    ensures law { HaltLaw (runs_of result.rows) }
{
    Template {
        rows: rows! {
            halt();
        },
    }
}

//! Templates of the boot. Each names its holes, by their numbers from 0 on. See "Templates" in
//! docs/COMPILED.md.

ghost use Rattle.std.specs.Prelude.{ℕ, List, ◌∷◌, All};
ghost use Rattle.code_templates.specs.Laws.{runs_of, MakeTableLaw, CopyBlockLaw};
ghost use Rattle.code_templates.specs.Rows.{HoleIsNumbered, Say};
ghost use Rattle.code_templates.specs.Templates as code;

use crate::macros::{row, rows};
use crate::template::{Hole, Row, Template};

/// Hole count: the table becomes a new array of so many words.
#[tactic(auto, using(crate::proofs::Public::make_table))]
pub fn make_table() -> Template<2>
    ensures holes { All HoleIsNumbered result.rows }
    ensures operators { (count : ℕ) (more : List ℕ) →
        Say result.rows (count ∷ more) (code.make_table count) }
    ensures law { MakeTableLaw (runs_of result.rows) }
{
    Template {
        rows: rows! {
            set(7, [0]);
            alloc(1, 7);
        },
    }
}

/// Holes size, i, place, loop, done: word i of the table becomes a new array, a copy of so many
/// words of array 0 from the place on. Loop is the place 3 words further than the template, and
/// done that 12 words further.
#[tactic(auto, using(crate::proofs::Public::copy_block))]
pub fn copy_block() -> Template<14>
    ensures holes { All HoleIsNumbered result.rows }
    ensures operators { (size i place loop done : ℕ) (more : List ℕ) →
        Say result.rows (size ∷ i ∷ place ∷ loop ∷ done ∷ more)
        (code.copy_block size i place loop done) }
    ensures law { CopyBlockLaw (runs_of result.rows) }
{
    Template {
        rows: rows! {
            set(3, [0]);
            alloc(4, 3);
            nand(7, 0, 0);
            add(3, 3, 7);
            set(5, [2]);
            add(5, 5, 3);
            index(5, 0, 5);
            amend(4, 3, 5);
            set(5, [4]);
            set(6, [3]);
            cmov(5, 6, 3);
            load(0, 5);
            set(5, [1]);
            amend(1, 5, 4);
        },
    }
}

//! Templates of a module's block. Each names its holes, by their numbers from 0 on. See
//! "Templates" in docs/COMPILED.md.

ghost use Rattle.std.specs.Prelude.{ℕ, List, ◌∷◌, All};
ghost use Rattle.code_templates.specs.Laws.{runs_of, MakeCellLaw, SetSlotLaw, ChooseSlotLaw};
ghost use Rattle.code_templates.specs.Laws.{ReadPartLaw, BranchOnSlotLaw, CallBlockLaw};
ghost use Rattle.code_templates.specs.Laws.{TakeOutcomeLaw, ReturnOutcomeLaw};
ghost use Rattle.code_templates.specs.Rows.{HoleIsNumbered, Say};
ghost use Rattle.code_templates.specs.Templates as code;

use crate::macros::{row, rows};
use crate::template::{Hole, Row, Template};

/// Holes a, b, i, j, d: slot d becomes a new cell, with word i from slot a and word j from slot b.
#[tactic(auto, using(crate::proofs::Public::make_cell))]
pub fn make_cell() -> Template<12>
    ensures holes { All HoleIsNumbered result.rows }
    ensures operators { (a b i j d : ℕ) (more : List ℕ) →
        Say result.rows (a ∷ b ∷ i ∷ j ∷ d ∷ more) (code.make_cell a b i j d) }
    ensures law { MakeCellLaw (runs_of result.rows) }
{
    Template {
        rows: rows! {
            set(7, [0]);
            index(3, 2, 7);
            set(7, [1]);
            index(4, 2, 7);
            set(7, 4);
            alloc(5, 7);
            set(7, [2]);
            amend(5, 7, 3);
            set(7, [3]);
            amend(5, 7, 4);
            set(7, [4]);
            amend(2, 7, 5);
        },
    }
}

/// Holes k, d: slot d becomes k.
#[tactic(auto, using(crate::proofs::Public::set_slot))]
pub fn set_slot() -> Template<3>
    ensures holes { All HoleIsNumbered result.rows }
    ensures operators { (k d : ℕ) (more : List ℕ) →
        Say result.rows (k ∷ d ∷ more) (code.set_slot k d) }
    ensures law { SetSlotLaw (runs_of result.rows) }
{
    Template {
        rows: rows! {
            set(3, [0]);
            set(7, [1]);
            amend(2, 7, 3);
        },
    }
}

/// Holes c, a, b, d: slot d becomes slot a where slot c isn't 0, and else slot b.
#[tactic(auto, using(crate::proofs::Public::choose_slot))]
pub fn choose_slot() -> Template<9>
    ensures holes { All HoleIsNumbered result.rows }
    ensures operators { (c a b d : ℕ) (more : List ℕ) →
        Say result.rows (c ∷ a ∷ b ∷ d ∷ more) (code.choose_slot c a b d) }
    ensures law { ChooseSlotLaw (runs_of result.rows) }
{
    Template {
        rows: rows! {
            set(7, [2]);
            index(3, 2, 7);
            set(7, [1]);
            index(4, 2, 7);
            set(7, [0]);
            index(5, 2, 7);
            cmov(3, 4, 5);
            set(7, [3]);
            amend(2, 7, 3);
        },
    }
}

/// Holes x, f, d: slot d becomes word f of the array in slot x.
#[tactic(auto, using(crate::proofs::Public::read_part))]
pub fn read_part() -> Template<6>
    ensures holes { All HoleIsNumbered result.rows }
    ensures operators { (x f d : ℕ) (more : List ℕ) →
        Say result.rows (x ∷ f ∷ d ∷ more) (code.read_part x f d) }
    ensures law { ReadPartLaw (runs_of result.rows) }
{
    Template {
        rows: rows! {
            set(7, [0]);
            index(3, 2, 7);
            set(7, [1]);
            index(3, 3, 7);
            set(7, [2]);
            amend(2, 7, 3);
        },
    }
}

/// Holes x, none, some: goes to the place none where slot x is 0, and else to the place some.
#[tactic(auto, using(crate::proofs::Public::branch_on_slot))]
pub fn branch_on_slot() -> Template<6>
    ensures holes { All HoleIsNumbered result.rows }
    ensures operators { (x none some : ℕ) (more : List ℕ) →
        Say result.rows (x ∷ none ∷ some ∷ more) (code.branch_on_slot x none some) }
    ensures law { BranchOnSlotLaw (runs_of result.rows) }
{
    Template {
        rows: rows! {
            set(7, [0]);
            index(4, 2, 7);
            set(5, [1]);
            set(6, [2]);
            cmov(5, 6, 4);
            load(0, 5);
        },
    }
}

/// Holes n, w, callee, size, own, back: calls block callee with slots n and w, in a new frame of so
/// many words, to return to block own at offset back.
#[tactic(auto, using(crate::proofs::Public::call_block))]
pub fn call_block() -> Template<21>
    ensures holes { All HoleIsNumbered result.rows }
    ensures operators { (n w callee size own back : ℕ) (more : List ℕ) →
        Say result.rows (n ∷ w ∷ callee ∷ size ∷ own ∷ back ∷ more)
        (code.call_block n w callee size own back) }
    ensures law { CallBlockLaw (runs_of result.rows) }
{
    Template {
        rows: rows! {
            set(7, [0]);
            index(3, 2, 7);
            set(7, [1]);
            index(4, 2, 7);
            set(7, [2]);
            index(5, 1, 7);
            set(7, [3]);
            alloc(6, 7);
            amend(6, 0, 2);
            cmov(2, 6, 6);
            set(7, 1);
            set(6, [4]);
            amend(2, 7, 6);
            set(7, 2);
            set(6, [5]);
            amend(2, 7, 6);
            set(7, 3);
            amend(2, 7, 3);
            set(7, 4);
            amend(2, 7, 4);
            load(5, 0);
        },
    }
}

/// Holes v, x: slots v and x become the outcome that a block returned.
#[tactic(auto, using(crate::proofs::Public::take_outcome))]
pub fn take_outcome() -> Template<4>
    ensures holes { All HoleIsNumbered result.rows }
    ensures operators { (v x : ℕ) (more : List ℕ) →
        Say result.rows (v ∷ x ∷ more) (code.take_outcome v x) }
    ensures law { TakeOutcomeLaw (runs_of result.rows) }
{
    Template {
        rows: rows! {
            set(7, [0]);
            amend(2, 7, 3);
            set(7, [1]);
            amend(2, 7, 4);
        },
    }
}

/// No holes: returns to the caller with the outcome in slots 5 and 6.
#[tactic(auto, using(crate::proofs::Public::return_outcome))]
pub fn return_outcome() -> Template<11>
    ensures holes { All HoleIsNumbered result.rows }
    ensures operators { (more : List ℕ) →
        Say result.rows more code.return_outcome }
    ensures law { ReturnOutcomeLaw (runs_of result.rows) }
{
    Template {
        rows: rows! {
            set(7, 5);
            index(3, 2, 7);
            set(7, 6);
            index(4, 2, 7);
            set(7, 1);
            index(5, 2, 7);
            index(5, 1, 5);
            set(7, 2);
            index(6, 2, 7);
            index(2, 2, 0);
            load(5, 6);
        },
    }
}

//! The machine with which the work on a scroll begins.

ghost use Rattle.std.specs.Prelude.{◌≡◌, ◌≤◌, length, IfOk, IfErr};
ghost use Rattle.um_word.specs.Scroll.{most_scroll_bytes, scroll};
ghost use Rattle.um_machine.specs.MachineView.{machine_of};
ghost use Rattle.codex_top.specs.Limits.{limits};

use crate::line::Line;
use array_store::{MOST_ARRAYS, MOST_WORDS};
use std::alloc::Global;
use um_machine::{Machine, Stop};
use umix_base::Limits;

/// The limits of every machine.
const LIMITS: Limits = Limits {
    arrays: MOST_ARRAYS,
    words: MOST_WORDS,
};

/// The machine with which the run of a scroll's words begins, or there is no memory for it.
pub fn start(alloc: Global, words: Vec<u32>) -> Result<Machine, Line>
    requires { length (scroll words.items) ≤ most_scroll_bytes }
    ensures machine { IfOk result (λ machine. machine ≡ machine_of words.items limits) }
    ensures line { IfErr result (λ line. line ≡ Line.NoMemory) }
{
    match Machine::new(alloc, words, LIMITS) {
        Ok(machine) => Ok(machine),
        // A scroll has fewer words than the limit allows.
        Err(Stop::WordsFull(_)) => unreachable!(),
        Err(_) => Err(Line::NoMemory),
    }
}

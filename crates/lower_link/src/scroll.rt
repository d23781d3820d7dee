ghost use Rattle.std.specs.Prelude.{◌≡◌, ℕ, ◌+◌, ◌*◌, ◌<◌, ◌≤◌, length, All, IfOk};
ghost use Rattle.two_d.specs.Programs.{module_at, main_of};
ghost use Rattle.two_d.specs.Weights.{part};
ghost use Rattle.lower_emit.specs.Tables.{IsLight};
ghost use Rattle.lower_link.specs.inner.Linking.{words_of_block};
ghost use Rattle.lower_link.specs.inner.Scrolls.{IsScrollOf};

use crate::linking::{Linked, link};
use crate::printer::printer;
use lower_emit::part_of;
use std::alloc::Global;
use two_d::Program;
use umix_base::Memory;

/// The words of the frame of `main`.
fn main_frame(program: &Program) -> u32
    requires light { IsLight program.now }
    ensures frame { result ≡ 12 + part (module_at program.now (main_of program.now)) }
    ensures small { result ≤ 262156 }
{
    12 + part_of(&program.modules()[program.main()]) as u32
}

/// The scroll of a program, of the blocks of its modules: boot, blocks and printer.
pub(crate) fn scroll_of(
    alloc: Global,
    program: &Program,
    mut blocks: Vec<Vec<u32>>,
) -> Result<Linked, Memory>
    requires light { IsLight program.now }
    requires one_each { length blocks.items ≡ length program.now }
    requires some { All (λ block. 1 ≤ length block.items) blocks.items }
    requires short { (m : ℕ) → m < length program.now →
        length (words_of_block blocks.items m) ≤ 18 * part (module_at program.now m) }
    ensures { IfOk result (λ linked. IsScrollOf program.now blocks.items linked) }
{
    blocks.push(printer(alloc, program)?)?;
    link(alloc, &blocks, program.main(), main_frame(program))
}

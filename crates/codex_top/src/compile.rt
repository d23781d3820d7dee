//! The command `compile`: compiles a program into a scroll.

ghost use Rattle.std.specs.Prelude.{ℕ, ◌^◌, ◌<◌, slice_index};
ghost use Rattle.codex_top.specs.Outside.{shelved, IsShelfCounted};
ghost use Rattle.codex_top.specs.Commands.{CompileEnds};

use crate::end::End;
use crate::reading::read_program;
use crate::sending::write_scroll;
use std::alloc::Global;
use umix_base::Shelf;

/// Compiles the program in a file, and writes the scroll of its words into another.
pub fn compile<F: Shelf>(alloc: Global, file: &str, out: &str, shelf: &mut F) -> End
    ensures ends { CompileEnds file.now out.now
        (shelved F.Shelf shelf.old) (shelved F.Shelf shelf.new) result }
    ensures counted { IsShelfCounted (shelved F.Shelf shelf.old) (shelved F.Shelf shelf.new) }
{
    let program = read_program(alloc, file, shelf)?;
    let linked = lower_link::compile(alloc, &program)?;
    words_fit(&linked.words);
    write_scroll(alloc, out, &linked.words, shelf)
}

// a word has 32 bits: a fact of its type
fn words_fit(words: &[u32])
    ensures { (at : ℕ) → slice_index words.now at < 2 ^ 32 }
{
    let _ = words;
}

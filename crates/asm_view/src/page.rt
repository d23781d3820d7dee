ghost use Rattle.std.specs.Prelude.{IfOk};
ghost use Rattle.asm_view.specs.Pages.{IsPage};

use crate::listing::listing;
use crate::refused::refused_page;
use std::alloc::Global;
use um_asm::{assemble, text_lines};
use umix_base::Memory;

/// What a page tells of an assembly text.
#[derive(Clone, Copy, PartialEq, Eq, Debug)]
pub enum Answer {
    /// It has words.
    Accepted,
    /// It has a fault.
    Refused,
}

/// A page, and what it tells.
#[derive(Debug, Drop)]
pub struct Page {
    /// What it tells.
    pub answer: Answer,
    /// Its bytes: lines that end with LF.
    pub bytes: Vec<u8>,
}

/// The page of an assembly text: how many words it has, and each of its lines with its number and its
/// words, each with where it stands in its block and in the scroll, from 0; or the line that `asm` tells of its first fault, the faulty line, and what it would have been (docs/EXPLAIN.md, "The
/// page of an assembly text"). Takes time and memory linear in the text and its words.
pub fn asm_page(alloc: Global, text: &[u8]) -> Result<Page, Memory>
    ensures { IfOk result (λ page. IsPage text.now page.answer page.bytes.items) }
{
    let lines = text_lines(alloc, text)?;
    match assemble(alloc, text) {
        Ok(words) => {
            let bytes = listing(alloc, &words, &lines)?;
            Ok(Page {
                answer: Answer::Accepted,
                bytes,
            })
        }
        Err(fault) => {
            let bytes = refused_page(alloc, &fault, &lines)?;
            Ok(Page {
                answer: Answer::Refused,
                bytes,
            })
        }
    }
}

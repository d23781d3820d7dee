//! The lines of a text where they stand, for a listing.

ghost use Rattle.std.specs.Prelude.{◌≡◌, IfOk, map};
ghost use Rattle.um_asm.specs.TextLines.{base_of, head_of, text_lines};
ghost use Rattle.um_asm.specs.inner.Parts.{block_read_at};
ghost use Rattle.um_asm.specs.inner.TextParts.{head_read, text_line_read};

use crate::lines::first_line;
use crate::position::Position;
use crate::reading::{is_printable, line_at};
use crate::token::{cut, is_label, trim, trim_start};
use std::alloc::Global;
use umix_base::Memory;

/// How a line begins. `N` is a part of the text.
#[derive(Clone, Copy, Debug)]
pub enum Head<N> {
    /// With what isn't told, since some byte of the line isn't from 32 to 126.
    Unprintable,
    /// With something before a colon that is no label.
    BadLabel,
    /// With this word, behind its label if it has one; without a byte where there is no word.
    Word(N),
}

/// A line of a text where it stands. `N` is a part of the text.
#[derive(Clone, Copy, Debug)]
pub struct TextLine<N> {
    /// Its number, from 1.
    pub number: usize,
    /// How many words of the scroll come before the first of its block; 0 outside blocks.
    pub base: usize,
    /// How many words of the scroll come before its own.
    pub place: usize,
    /// How many words it gives.
    pub count: usize,
    /// Its bytes, without the line's end.
    pub bytes: N,
    /// How it begins.
    pub head: Head<N>,
}

/// The lines of a text where they stand: also of a text that has a fault, whose faulty lines count
/// as "Faults" in docs/ASSEMBLY.md tells. Linear in the text; copies none of it.
pub fn text_lines<'a>(alloc: Global, text: &'a [u8]) -> Result<Vec<TextLine<&'a [u8]>>, Memory>
    ensures { IfOk result (λ found. map text_line_read found.items ≡ text_lines text.now) }
{
    let mut found = Vec::new(alloc);
    let mut position = Position::start();
    let mut rest = text;
    while let Some((bytes, behind)) = first_line(rest) {
        let line = line_at(bytes);
        let next = position.after(&line);
        found.push(TextLine {
            number: position.number,
            base: base_of(&position),
            place: position.place,
            count: next.place - position.place,
            bytes,
            head: head_of(bytes),
        })?;
        position = next;
        rest = behind;
    }
    Ok(found)
}

fn base_of(position: &Position<&[u8]>) -> usize
    ensures { result ≡ base_of (block_read_at position.now) }
{
    match position.block {
        Some(block) => block.first,
        None => 0,
    }
}

fn head_of(line: &[u8]) -> Head<&[u8]>
    ensures { head_read result ≡ head_of line.now }
{
    if !is_printable(line) {
        return Head::Unprintable;
    }
    let (text, _comment) = cut(line, b';');
    let (label, rest) = cut(text, b':');
    match rest {
        None => Head::Word(cut(trim(text), b' ').0),
        Some(rest) if is_label(trim_start(label)) => Head::Word(cut(trim(rest), b' ').0),
        Some(_) => Head::BadLabel,
    }
}

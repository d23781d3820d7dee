//! Where a line stands.

ghost use Rattle.std.specs.Prelude.{◌≡◌, ◌+◌, ◌<◌, ◌^◌, None};
ghost use Rattle.std.specs.Option.{option_map};
ghost use Rattle.um_asm.specs.Lines.{size_of};
ghost use Rattle.um_asm.specs.Scopes.{block_after, place_in_block, scope_of};
ghost use Rattle.um_asm.specs.inner.Parts.{block_read_at, block_read, said_read, IsBehind};

use crate::line::{Line, Statement};

/// A block of a text, whose name is `N`, a part of the text.
#[derive(Clone, Copy, Debug)]
pub(crate) struct Block<N> {
    pub name: N,
    /// The line that begins it.
    pub begun: usize,
    /// The place of its first word in the scroll.
    pub first: usize,
}

/// A line by its number from 1, its block, and how many words of the scroll come before it.
#[derive(Clone, Copy, Debug)]
pub(crate) struct Position<N> {
    pub number: usize,
    pub block: Option<Block<N>>,
    pub place: usize,
}

impl<'a> Position<&'a [u8]> {
    /// The first line of a text.
    pub(crate) fn start() -> Position<&'a [u8]>
        ensures number { result.number ≡ 1 }
        ensures block { result.block ≡ None }
        ensures place { result.place ≡ 0 }
    {
        Position {
            number: 1,
            block: None,
            place: 0,
        }
    }

    /// The line that begins the block.
    pub(crate) fn scope(&self) -> Option<usize>
        ensures { result ≡ scope_of (block_read_at self.now) }
    {
        match self.block {
            Some(block) => Some(block.begun),
            None => None,
        }
    }

    /// The place of the next word, counted from the first word of the block.
    pub(crate) fn place_in_scope(&self) -> usize
        requires { IsBehind self.now.place (block_read_at self.now) }
        ensures { result ≡ place_in_block (block_read_at self.now) self.now.place }
    {
        match self.block {
            Some(block) => self.place - block.first,
            None => self.place,
        }
    }

    /// The position behind this line.
    pub(crate) fn after(&self, line: &Option<Line<&'a [u8]>>) -> Position<&'a [u8]>
        requires number { self.now.number + 1 < 2 ^ 64 }
        requires place { self.now.place + size_of (said_read line.now) < 2 ^ 64 }
        ensures number { result.number ≡ self.now.number + 1 }
        ensures block { block_read_at result
            ≡ block_after self.now.number self.now.place (block_read_at self.now) (said_read line.now) }
        ensures place { result.place ≡ self.now.place + size_of (said_read line.now) }
    {
        Position {
            number: self.number + 1,
            block: self.block_after(line),
            place: self.place + size_of(line),
        }
    }

    fn block_after(&self, line: &Option<Line<&'a [u8]>>) -> Option<Block<&'a [u8]>>
        ensures { option_map block_read result
            ≡ block_after self.now.number self.now.place (block_read_at self.now) (said_read line.now) }
    {
        match (self.block, *line) {
            (None, Some(Line::Array(name))) => Some(Block {
                name,
                begun: self.number,
                first: self.place,
            }),
            (Some(_), Some(Line::End)) => None,
            (block, _) => block,
        }
    }
}

/// How many words a line gives.
fn size_of(line: &Option<Line<&[u8]>>) -> usize
    ensures { result ≡ size_of (said_read line.now) }
{
    match *line {
        Some(Line::Code(_, Some(Statement::Hex(digits)))) => digits.len() / 8,
        Some(Line::Code(_, Some(_))) => 1,
        _ => 0,
    }
}

ghost use Rattle.std.specs.Prelude.{◌≡◌, ℕ, ◌≤◌, ◌<◌, ◌^◌, List, IfOk, IfSome, IfNone, length};
ghost use Rattle.std.specs.Prelude.{IsTrue, ◌↔◌, ◌+◌, vec_len, slice_index_or, [], ◌∷◌};
ghost use Rattle.std.specs.Str.{IsAscii};
ghost use Rattle.std.specs.Str.Lines.{lines};
ghost use Rattle.two_d.specs.Cells.{cell, grid_of, place_at, MayStand, IsBadByte, IsTooLong};
ghost use Rattle.two_d.specs.Places.{IsLeast};
ghost use Rattle.two_d.specs.Reading.{Gives};
ghost use Rattle.grid_reader.specs.Faults.{fault_of};
ghost use Rattle.grid_reader.specs.Rows.{rows, IsSmall};

use crate::fault::GridFault;
use std::alloc::{AllocError, Global};
use std::marker::Model;
use umix_base::Place;

const MAX_BYTES: usize = 262_144;

const MAX_COLUMNS: usize = 4_096;

/// The cells of a drawn program. Rows and columns are numbered from 1.
#[derive(Debug, Drop)]
pub struct Grid {
    lines: Vec<Vec<u8>>,
}

impl Model for Grid {
    ghost use Rattle.std.specs.Prelude.{List, ℕ};
    ghost use Rattle.grid_reader.specs.Rows.{rows, IsSmall};

    ghost Value = { List (List ℕ) };

    ghost view = { λ grid. rows grid.lines.items };

    ghost invariant = { λ grid. IsSmall (rows grid.lines.items) };
}

impl Grid {
    /// The byte at a place, and a space outside all lines. Takes no memory.
    pub fn cell(&self, place: Place) -> u8
        ensures byte { result ≡ cell self.now place }
        ensures small { IsSmall self.now }
    {
        cell_of(&self.lines, place)
    }

    /// How many rows there are.
    pub(crate) fn height(&self) -> u32
        ensures rows { result ≡ length self.now }
        ensures few { result ≤ 262145 }
    {
        self.lines.len() as u32
    }

    /// How many columns a row has.
    pub(crate) fn width(&self, row: u32) -> u32
        ensures columns { result ≡ length (slice_index_or ([] ∷ self.now) row []) }
        ensures narrow { result ≤ 4096 }
    {
        width_of(&self.lines, row)
    }
}

/// The cells of a text, or the first of `TooLong`, `BadByte` and `LineTooLong`, in this order
/// (docs/GRID.md, "Cells"). Takes time linear in the bytes.
pub fn read_grid(alloc: Global, bytes: &[u8]) -> Result<Grid, GridFault>
    ensures { Gives (λ grid. grid) fault_of result (grid_of bytes.now) }
{
    if bytes.len() > MAX_BYTES {
        return Err(GridFault::TooLong);
    }
    if let Some(at) = first_bad_byte(bytes) {
        return Err(GridFault::BadByte(place_of(bytes, at)));
    }
    let lines = lines_of(alloc, text_of(bytes))?;
    if let Some(line) = first_long_line(&lines) {
        return Err(GridFault::LineTooLong(Place {
            row: line as u32 + 1,
            col: 4_097,
        }));
    }
    Ok(Grid { lines })
}

fn cell_of(lines: &[Vec<u8>], place: Place) -> u8
    ensures { result ≡ cell (rows lines.now) place }
{
    if place.row == 0 || place.col == 0 {
        return b' ';
    }
    match lines.get(place.row as usize - 1) {
        Some(line) => line.get(place.col as usize - 1).copied().unwrap_or(b' '),
        None => b' ',
    }
}

fn width_of(lines: &[Vec<u8>], row: u32) -> u32
    requires { IsSmall (rows lines.now) }
    ensures columns { result ≡ length (slice_index_or ([] ∷ rows lines.now) row []) }
    ensures narrow { result ≤ 4096 }
{
    if row == 0 {
        return 0;
    }
    match lines.get(row as usize - 1) {
        Some(line) => line.len() as u32,
        None => 0,
    }
}

/// Whether the byte is printable, an LF, or a CR right before an LF.
fn may_stand(bytes: &[u8], at: usize) -> bool
    requires { at < length bytes.now }
    ensures { IsTrue result ↔ MayStand bytes.now at }
{
    match bytes[at] {
        b' '..=b'~' | b'\n' => true,
        b'\r' => at + 1 < bytes.len() && bytes[at + 1] == b'\n',
        _ => false,
    }
}

fn first_bad_byte(bytes: &[u8]) -> Option<usize>
    ensures found { IfSome result (IsLeast (IsBadByte bytes.now)) }
    ensures none { IfNone result ((i : ℕ) → i < length bytes.now → MayStand bytes.now i) }
{
    for at in 0..bytes.len() {
        if !may_stand(bytes, at) {
            return Some(at);
        }
    }
    None
}

/// The place of a byte of a text.
fn place_of(bytes: &[u8], at: usize) -> Place
    requires at { at < length bytes.now }
    requires short { length bytes.now ≤ 262144 }
    ensures { result ≡ place_at bytes.now at }
{
    let mut row = 1;
    let mut col = 1;
    for byte in &bytes[..at] {
        if *byte == b'\n' {
            row += 1;
            col = 1;
        } else {
            col += 1;
        }
    }
    Place { row, col }
}

fn text_of(bytes: &[u8]) -> &str
    requires { IsAscii bytes.now }
    ensures { result.now ≡ bytes.now }
{
    match str::from_utf8(bytes) {
        Ok(text) => text,
        Err(_) => unreachable!(),
    }
}

fn lines_of(alloc: Global, text: &str) -> Result<Vec<Vec<u8>>, AllocError>
    ensures lines { IfOk result (λ v. rows v.items ≡ lines text.now) }
    ensures few { IfOk result (λ v. vec_len v ≤ length text.now + 1) }
{
    let mut lines = Vec::new(alloc);
    for line in text.lines() {
        lines.push(Vec::from_slice(alloc, line.as_bytes())?)?;
    }
    Ok(lines)
}

fn first_long_line(lines: &[Vec<u8>]) -> Option<usize>
    ensures found { IfSome result (IsLeast (IsTooLong (rows lines.now))) }
    ensures within { IfSome result (λ i. i < length lines.now) }
    ensures none { IfNone result ((i : ℕ) → IsTooLong (rows lines.now) i → ⊥) }
{
    for (i, line) in lines.iter().enumerate() {
        if line.len() > MAX_COLUMNS {
            return Some(i);
        }
    }
    None
}

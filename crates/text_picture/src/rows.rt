//! The rows of a text.

ghost use Rattle.std.specs.Prelude.{◌≡◌, ◌-◌, ◌<◌, ◌≤◌, ◌==◌, [], IfOk, take, drop, slice_index_or};
ghost use Rattle.std.specs.List.{slice_split};
ghost use Rattle.text_picture.specs.Rows as plain;
ghost use Rattle.text_picture.specs.Rows.{rows_read};

use std::alloc::{AllocError, Global};

/// So many of what stands between the LFs of a text, from a number on, which counts from 1.
pub(crate) fn rows_from(
    alloc: Global,
    text: &[u8],
    first: usize,
    count: usize,
) -> Result<Vec<&[u8]>, AllocError>
    requires { 1 ≤ first }
    ensures { IfOk result (λ rows. rows_read rows.items
        ≡ take count (drop (first - 1) (slice_split (λ b. b == 10) text.now))) }
{
    text.split(|byte| *byte == b'\n')
        .skip(first - 1)
        .take(count)
        .collect(alloc)
}

/// The bytes without the last one, if it is this one.
pub(crate) fn less_end(bytes: &[u8], end: u8) -> &[u8]
    requires { 0 < end }
    ensures { result.now ≡ plain.less_end end bytes.now }
{
    let count = bytes.len();
    if count > 0 && bytes[count - 1] == end {
        &bytes[..count - 1]
    } else {
        bytes
    }
}

/// The row at a place among these, from 0; an empty one where there is none.
#[tactic(auto, using(crate::proofs::Pushed::row_there, crate::proofs::Pushed::row_none))]
pub(crate) fn row_at<'a>(rows: &[&'a [u8]], place: usize) -> &'a [u8]
    ensures { result.now ≡ slice_index_or (rows_read rows.now) place [] }
{
    match rows.get(place) {
        Some(row) => row,
        None => &[],
    }
}

/// What stands in a row from a column on.
pub(crate) fn from_column(row: &[u8], first: usize) -> &[u8]
    requires { 1 ≤ first }
    ensures { result.now ≡ drop (first - 1) row.now }
{
    if row.len() < first {
        &[]
    } else {
        &row[first - 1..]
    }
}

/// The first cells of a row, up to so many.
pub(crate) fn first_cells(row: &[u8], count: usize) -> &[u8]
    ensures { result.now ≡ take count row.now }
{
    if row.len() <= count {
        row
    } else {
        &row[..count]
    }
}

/// A byte as it is shown.
pub(crate) fn shown(byte: u8) -> u8
    ensures { result ≡ plain.shown byte }
{
    match byte {
        b' '..=b'~' => byte,
        _ => b'?',
    }
}

ghost use Rattle.std.specs.Prelude.{◌≡◌, ◌+◌, ◌++◌, ◌≤◌, ◌<◌, ◌^◌, ℕ, List, IfOk, OnOk, length};
ghost use Rattle.text_picture.specs.Pictures as plain;
ghost use Rattle.text_picture.specs.Pictures.{lined, lines_around, lines_of_row, picture_lines};
ghost use Rattle.text_picture.specs.Rows.{rows_read, text_rows};
ghost use Rattle.text_picture.specs.inner.Shown.{shown_rows};

use crate::lines::{push_mark, push_row, push_ruler};
use crate::rows::{less_end, row_at, rows_from};
use std::alloc::Global;
use umix_base::{Memory, Place};

/// The rows of a text around a place, at most four above it and four below: a ruler of columns,
/// each row with its number, and under the row of the place a `^` under its cell. Of a wide row at
/// most 80 columns around the place are shown, and a byte that isn't printable ASCII is shown as
/// `?`. Takes time linear in the text, and memory for what is shown.
pub fn picture(alloc: Global, text: &[u8], mark: Place) -> Result<Vec<u8>, Memory>
    ensures { IfOk result (λ page. page.items ≡ lined (picture_lines text.now mark)) }
{
    let rows = rows_around(alloc, text, mark.row as usize)?;
    let mut page = Vec::new(alloc);
    push_ruler(&mut page, first_column(mark.col as usize))?;
    push_rows(&mut page, &rows, mark)?;
    Ok(page)
}

/// The rows of a text that are shown around a row.
fn rows_around(alloc: Global, text: &[u8], row: usize) -> Result<Vec<&[u8]>, Memory>
    requires { row < 2 ^ 32 }
    ensures shown { IfOk result (λ rows. rows_read rows.items ≡ shown_rows (text_rows text.now) row) }
    ensures few { IfOk result (λ rows. length rows.items ≤ 9) }
{
    let first = first_row(row);
    let rows = rows_from(alloc, less_end(text, b'\n'), first, row + 5 - first)?;
    Ok(rows)
}

/// The lines of the rows around a place, of those that are shown.
fn push_rows(page: &mut Vec<u8>, rows: &[&[u8]], mark: Place) -> Result<(), Memory>
    requires { length rows.now ≤ 9 }
    ensures { OnOk result ((all : List (List ℕ)) → rows_read rows.now ≡ shown_rows all mark.row →
        page.new.items ≡ page.old.items ++ lined (lines_around all mark)) }
{
    let top = first_row(mark.row as usize);
    for k in 0..rows.len().max(mark.row as usize + 1 - top) {
        push_lines(page, mark, top + k, row_at(rows, k))?;
    }
    Ok(())
}

/// The lines of a row of this number.
fn push_lines(page: &mut Vec<u8>, mark: Place, number: usize, row: &[u8]) -> Result<(), Memory>
    ensures { OnOk result
        (page.new.items ≡ page.old.items ++ lined (lines_of_row mark number row.now)) }
{
    let first = first_column(mark.col as usize);
    push_row(page, first, number, row)?;
    if number != mark.row as usize {
        return Ok(());
    }
    push_mark(page, first, mark.col as usize)?;
    Ok(())
}

/// The first column that is shown around a column.
fn first_column(col: usize) -> usize
    ensures starts { 1 ≤ result }
    ensures column { result ≡ plain.first_column col }
{
    if col > 80 { col - 40 } else { 1 }
}

/// The first row that is shown around a row.
fn first_row(row: usize) -> usize
    requires { row < 2 ^ 32 }
    ensures starts { 1 ≤ result }
    ensures few { result < 2 ^ 32 }
    ensures row { result ≡ plain.first_row row }
{
    if row > 4 { row - 4 } else { 1 }
}

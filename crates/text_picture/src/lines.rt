//! The lines of a picture.

ghost use Rattle.std.specs.Prelude.{◌≡◌, ◌+◌, ◌-◌, ◌++◌, ◌<◌, ◌≤◌, ◌^◌, ◌∷◌, [], OnOk, map};
ghost use Rattle.std.specs.List.{range_with_len};
ghost use Rattle.text_picture.specs.Pictures as plain;
ghost use Rattle.text_picture.specs.Rows.{cells_from};

use crate::rows::{first_cells, from_column, less_end, shown};
use itoa::Buffer;
use umix_base::Memory;

/// How many columns are shown.
const COLUMNS: usize = 80;

/// The columns of a label.
const BLANKS: &[u8] = b"       ";

/// The ruler of the columns from the first on.
pub(crate) fn push_ruler(page: &mut Vec<u8>, first: usize) -> Result<(), Memory>
    requires { first < 2 ^ 33 }
    ensures { OnOk result (page.new.items ≡ page.old.items ++ (plain.ruler first ++ 10 ∷ [])) }
{
    push_margin(page, b"")?;
    push_signs(page, first, COLUMNS)?;
    page.push(b'\n')?;
    Ok(())
}

/// The line of a row with its number.
pub(crate) fn push_row(
    page: &mut Vec<u8>,
    first: usize,
    number: usize,
    row: &[u8],
) -> Result<(), Memory>
    requires { 1 ≤ first }
    ensures { OnOk result
        (page.new.items ≡ page.old.items ++ (plain.row_line first number row.now ++ 10 ∷ [])) }
{
    let mut buffer = Buffer::new();
    push_margin(page, buffer.format(number).as_bytes())?;
    push_cells(page, first, row)?;
    page.push(b'\n')?;
    Ok(())
}

/// The line with the mark of a column.
pub(crate) fn push_mark(page: &mut Vec<u8>, first: usize, col: usize) -> Result<(), Memory>
    ensures { OnOk result
        (page.new.items ≡ page.old.items ++ (plain.mark_line first col ++ 10 ∷ [])) }
{
    push_margin(page, b"")?;
    push_blanks(page, first, col)?;
    page.extend_from_slice(b"^\n")?;
    Ok(())
}

/// What stands to the left of the cells.
fn push_margin(page: &mut Vec<u8>, label: &[u8]) -> Result<(), Memory>
    ensures { OnOk result (page.new.items ≡ page.old.items ++ plain.margin label.now) }
{
    if label.len() < BLANKS.len() {
        page.extend_from_slice(&BLANKS[label.len()..])?;
    }
    page.extend_from_slice(label)?;
    page.extend_from_slice(b" | ")?;
    Ok(())
}

/// The signs of the ruler for so many columns from the first on.
fn push_signs(page: &mut Vec<u8>, first: usize, count: usize) -> Result<(), Memory>
    requires { first + count < 2 ^ 64 }
    ensures { OnOk result
        (page.new.items ≡ page.old.items ++ map plain.ruler_sign (range_with_len first count)) }
{
    for k in 0..count {
        page.push(ruler_sign(first + k))?;
    }
    Ok(())
}

/// The sign of a column in the ruler.
fn ruler_sign(col: usize) -> u8
    ensures { result ≡ plain.ruler_sign col }
{
    if col % 10 == 0 {
        b'0' + (col / 10 % 10) as u8
    } else if col % 5 == 0 {
        b'+'
    } else {
        b'.'
    }
}

/// The cells of a row.
fn push_cells(page: &mut Vec<u8>, first: usize, row: &[u8]) -> Result<(), Memory>
    requires { 1 ≤ first }
    ensures { OnOk result (page.new.items ≡ page.old.items ++ cells_from first row.now) }
{
    let cells = first_cells(from_column(less_end(row, b'\r'), first), COLUMNS);
    for k in 0..cells.len() {
        page.push(shown(cells[k]))?;
    }
    Ok(())
}

/// A space for each column before the mark's.
fn push_blanks(page: &mut Vec<u8>, first: usize, col: usize) -> Result<(), Memory>
    ensures { OnOk result (page.new.items
        ≡ page.old.items ++ map (λ _. 32) (range_with_len first (col - first))) }
{
    for _ in 0..col.saturating_sub(first) {
        page.push(b' ')?;
    }
    Ok(())
}

//! The rows of a listing.

ghost use Rattle.std.specs.Prelude.{◌≡◌, ◌∷◌, [], ◌++◌, OnOk, map, take, decimal, slice_index};
ghost use Rattle.text_picture.specs.Pictures.{lined};
ghost use Rattle.text_picture.specs.Rows.{shown};
ghost use Rattle.um_asm.specs.inner.TextParts.{text_line_read};
ghost use Rattle.asm_view.specs.Rows.{column, hex_digits, more_row, more_rows, plain_row, row, rows_at};
ghost use Rattle.asm_view.specs.Rows.{source_part, word_columns, word_part};

use itoa::Buffer;
use um_asm::TextLine;
use umix_base::Memory;

/// The columns of a label.
const BLANKS: &[u8] = b"         ";

/// Adds a line with its number and its words, a row for each.
pub(crate) fn push_rows_of(
    page: &mut Vec<u8>,
    words: &[u32],
    line: &TextLine<&[u8]>,
) -> Result<(), Memory>
    ensures { OnOk result (page.new.items
        ≡ page.old.items ++ lined (rows_at words.now (text_line_read line.now))) }
{
    push_row(page, words, line)?;
    push_more_rows(page, words, line)?;
    Ok(())
}

/// Adds a line with its number and its first word.
fn push_row(page: &mut Vec<u8>, words: &[u32], line: &TextLine<&[u8]>) -> Result<(), Memory>
    ensures { OnOk result (page.new.items
        ≡ page.old.items ++ (row words.now (text_line_read line.now) ++ 10 ∷ [])) }
{
    push_number(page, line.number)?;
    push_first(page, words, line)?;
    push_source(page, line.bytes, 61)?;
    page.push(b'\n')?;
    Ok(())
}

/// Adds the other words of a line.
fn push_more_rows(page: &mut Vec<u8>, words: &[u32], line: &TextLine<&[u8]>) -> Result<(), Memory>
    ensures { OnOk result (page.new.items
        ≡ page.old.items ++ lined (more_rows words.now (text_line_read line.now))) }
{
    let end = line.place.saturating_add(line.count).min(words.len());
    for at in line.place.saturating_add(1)..end {
        push_more_row(page, words, line.base, at)?;
    }
    Ok(())
}

/// Adds a word more of a line.
fn push_more_row(page: &mut Vec<u8>, words: &[u32], base: usize, at: usize) -> Result<(), Memory>
    ensures { OnOk result (page.new.items
        ≡ page.old.items ++ (more_row words.now base at ++ 10 ∷ [])) }
{
    push_column(page, b"")?;
    push_word(page, words, base, at)?;
    page.push(b'\n')?;
    Ok(())
}

/// Adds a line with its number alone.
pub(crate) fn push_plain_row(page: &mut Vec<u8>, line: &TextLine<&[u8]>) -> Result<(), Memory>
    ensures { OnOk result (page.new.items
        ≡ page.old.items ++ (plain_row (text_line_read line.now) ++ 10 ∷ [])) }
{
    push_number(page, line.number)?;
    push_source(page, line.bytes, 88)?;
    page.push(b'\n')?;
    Ok(())
}

/// Adds the first word of a line.
fn push_first(page: &mut Vec<u8>, words: &[u32], line: &TextLine<&[u8]>) -> Result<(), Memory>
    ensures { OnOk result (page.new.items
        ≡ page.old.items ++ word_part words.now (text_line_read line.now)) }
{
    if line.count == 0 {
        push_column(page, b"")?;
        push_column(page, b"")?;
        push_column(page, b"")?;
        return Ok(());
    }
    push_word(page, words, line.base, line.place)?;
    Ok(())
}

/// Adds where a word stands in its block and in the scroll, and the word.
fn push_word(page: &mut Vec<u8>, words: &[u32], base: usize, at: usize) -> Result<(), Memory>
    ensures { OnOk result (page.new.items ≡ page.old.items ++ word_columns words.now base at) }
{
    push_number(page, at.saturating_sub(base))?;
    push_number(page, at)?;
    push_hex(page, word_at(words, at))?;
    Ok(())
}

/// The word at a place, from 0; 0 where there is none.
fn word_at(words: &[u32], place: usize) -> u32
    ensures { result ≡ slice_index words.now place }
{
    match words.get(place) {
        Some(word) => *word,
        None => 0,
    }
}

/// Adds a label on the right of its columns.
fn push_column(page: &mut Vec<u8>, label: &[u8]) -> Result<(), Memory>
    ensures { OnOk result (page.new.items ≡ page.old.items ++ column label.now) }
{
    if label.len() < BLANKS.len() {
        page.extend_from_slice(&BLANKS[label.len()..])?;
    }
    page.extend_from_slice(label)?;
    Ok(())
}

fn push_number(page: &mut Vec<u8>, number: usize) -> Result<(), Memory>
    ensures { OnOk result (page.new.items ≡ page.old.items ++ column (decimal number)) }
{
    let mut buffer = Buffer::new();
    push_column(page, buffer.format(number).as_bytes())
}

fn push_hex(page: &mut Vec<u8>, word: u32) -> Result<(), Memory>
    ensures { OnOk result (page.new.items ≡ page.old.items ++ column (hex_digits word)) }
{
    let mut digits = [0u8; 8];
    let _ = hex::encode_to_slice(&word.to_be_bytes(), &mut digits);
    push_column(page, &digits)
}

/// Adds the first bytes of a line, up to so many.
fn push_source(page: &mut Vec<u8>, bytes: &[u8], count: usize) -> Result<(), Memory>
    ensures { OnOk result (page.new.items ≡ page.old.items ++ source_part count bytes.now) }
{
    page.extend_from_slice(b" | ")?;
    push_shown(page, first_bytes(bytes, count))
}

fn push_shown(page: &mut Vec<u8>, bytes: &[u8]) -> Result<(), Memory>
    ensures { OnOk result (page.new.items ≡ page.old.items ++ map shown bytes.now) }
{
    for k in 0..bytes.len() {
        page.push(shown(bytes[k]))?;
    }
    Ok(())
}

fn first_bytes(bytes: &[u8], count: usize) -> &[u8]
    ensures { result.now ≡ take count bytes.now }
{
    if bytes.len() <= count {
        bytes
    } else {
        &bytes[..count]
    }
}

/// A byte as it is shown.
fn shown(byte: u8) -> u8
    ensures { result ≡ shown byte }
{
    match byte {
        b' '..=b'~' => byte,
        _ => b'?',
    }
}

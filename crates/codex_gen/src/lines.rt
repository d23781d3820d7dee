ghost use Rattle.codex_gen.specs.Generated.{edges, joined_by, middles, strip, strip_columns};
ghost use Rattle.grid_picture.specs.Lined.{lined};
ghost use Rattle.codex_gen.specs.inner.Rows.{between, more_parts, part, texts_of};
ghost use Rattle.std.specs.Prelude.{◌≡◌, ◌++◌, ◌<◌, ◌≤◌, ◌^◌, ◌∷◌, [], OnOk, length, map, replicate};

use umix_base::Memory;

/// What stands in a line for each box.
#[derive(Clone, Copy)]
enum Row {
    /// Its upper or its lower edge.
    Edge,
    /// Its text, between its sides.
    Middle,
}

/// A module whose boxes stand side by side, each wired to the next and the last to the exit.
pub fn push_strip(
    text: &mut Vec<u8>,
    name: &[u8],
    west: bool,
    texts: &[Vec<u8>],
) -> Result<(), Memory>
    requires narrow { strip_columns (texts_of texts.now) < 2 ^ 32 }
    requires named { length name.now ≤ strip_columns (texts_of texts.now) }
    ensures { OnOk result
        (text.new.items ≡ text.old.items ++ lined (strip name.now west (texts_of texts.now))) }
{
    let columns = columns(texts);
    push_border(text, b',', columns)?;
    push_name(text, name, columns - name.len())?;
    push_edges(text, texts)?;
    push_middles(text, west, texts)?;
    push_edges(text, texts)?;
    push_border(text, b'\'', columns)
}

/// The columns within the borders.
fn columns(texts: &[Vec<u8>]) -> usize
    requires { strip_columns (texts_of texts.now) < 2 ^ 32 }
    ensures { result ≡ strip_columns (texts_of texts.now) }
{
    let mut boxes = 0;
    for one in texts {
        boxes += one.len() + 2;
    }
    1 + boxes + 2 * texts.len().saturating_sub(1)
}

fn push_border(text: &mut Vec<u8>, corner: u8, columns: usize) -> Result<(), Memory>
    ensures { OnOk result (text.new.items
        ≡ text.old.items ++ (((corner ∷ replicate columns 46) ++ corner ∷ []) ++ 10 ∷ [])) }
{
    text.push(corner)?;
    push_many(text, b'.', columns)?;
    text.push(corner)?;
    text.push(b'\n')?;
    Ok(())
}

fn push_name(text: &mut Vec<u8>, name: &[u8], spaces: usize) -> Result<(), Memory>
    ensures { OnOk result (text.new.items
        ≡ text.old.items ++ ((((58 ∷ name.now) ++ replicate spaces 32) ++ 58 ∷ []) ++ 10 ∷ [])) }
{
    text.push(b':')?;
    text.extend_from_slice(name)?;
    push_many(text, b' ', spaces)?;
    text.extend_from_slice(b":\n")?;
    Ok(())
}

fn push_edges(text: &mut Vec<u8>, texts: &[Vec<u8>]) -> Result<(), Memory>
    ensures { OnOk result
        (text.new.items ≡ text.old.items ++ (edges (texts_of texts.now) ++ 10 ∷ [])) }
{
    text.extend_from_slice(b": ")?;
    push_parts(text, Row::Edge, texts)?;
    text.extend_from_slice(b":\n")?;
    Ok(())
}

fn push_middles(text: &mut Vec<u8>, west: bool, texts: &[Vec<u8>]) -> Result<(), Memory>
    ensures { OnOk result
        (text.new.items ≡ text.old.items ++ (middles west (texts_of texts.now) ++ 10 ∷ [])) }
{
    text.extend_from_slice(if west { b"->" } else { b": " })?;
    push_parts(text, Row::Middle, texts)?;
    text.extend_from_slice(b"-\n")?;
    Ok(())
}

/// The parts of all boxes in this row.
fn push_parts(text: &mut Vec<u8>, row: Row, texts: &[Vec<u8>]) -> Result<(), Memory>
    ensures { OnOk result (text.new.items
        ≡ text.old.items ++ joined_by (between row) (map (part row) (texts_of texts.now))) }
{
    let [first, more @ ..] = texts else {
        return Ok(());
    };
    push_part(text, row, first)?;
    push_more(text, row, more)
}

/// The parts of the boxes behind the first.
fn push_more(text: &mut Vec<u8>, row: Row, texts: &[Vec<u8>]) -> Result<(), Memory>
    ensures { OnOk result
        (text.new.items ≡ text.old.items ++ more_parts row (texts_of texts.now)) }
{
    for one in texts {
        push_between(text, row)?;
        push_part(text, row, one)?;
    }
    Ok(())
}

fn push_between(text: &mut Vec<u8>, row: Row) -> Result<(), Memory>
    ensures { OnOk result (text.new.items ≡ text.old.items ++ between row) }
{
    match row {
        Row::Edge => text.extend_from_slice(b"  ")?,
        Row::Middle => text.extend_from_slice(b"->")?,
    }
    Ok(())
}

fn push_part(text: &mut Vec<u8>, row: Row, one: &[u8]) -> Result<(), Memory>
    ensures { OnOk result (text.new.items ≡ text.old.items ++ part row one.now) }
{
    match row {
        Row::Edge => {
            text.push(b'*')?;
            push_many(text, b'=', one.len())?;
            text.push(b'*')?;
        }
        Row::Middle => {
            text.push(b'!')?;
            text.extend_from_slice(one)?;
            text.push(b'!')?;
        }
    }
    Ok(())
}

fn push_many(text: &mut Vec<u8>, byte: u8, count: usize) -> Result<(), Memory>
    ensures { OnOk result (text.new.items ≡ text.old.items ++ replicate count byte) }
{
    for _ in 0..count {
        text.push(byte)?;
    }
    Ok(())
}

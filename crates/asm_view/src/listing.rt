//! The listing of a text that has words.

ghost use Rattle.std.specs.Prelude.{◌≡◌, ◌++◌, IfOk, OnOk, map};
ghost use Rattle.std.specs.List.{flat_map};
ghost use Rattle.text_picture.specs.Pictures.{lined};
ghost use Rattle.um_asm.specs.inner.TextParts.{text_line_read};
ghost use Rattle.asm_view.specs.Pages as plain;
ghost use Rattle.asm_view.specs.Rows.{rows_at};

use crate::rows::push_rows_of;
use itoa::Buffer;
use std::alloc::Global;
use um_asm::TextLine;
use umix_base::Memory;

/// How many words there are, and each line with its words.
pub(crate) fn listing(
    alloc: Global,
    words: &[u32],
    lines: &[TextLine<&[u8]>],
) -> Result<Vec<u8>, Memory>
    ensures { IfOk result (λ page.
        page.items ≡ plain.listing words.now (map text_line_read lines.now)) }
{
    let mut buffer = Buffer::new();
    let mut page = Vec::from_slice(alloc, b"ok ")?;
    page.extend_from_slice(buffer.format(words.len()).as_bytes())?;
    page.extend_from_slice(b"\n")?;
    push_rows(&mut page, words, lines)?;
    Ok(page)
}

/// Adds each line with its words.
fn push_rows(page: &mut Vec<u8>, words: &[u32], lines: &[TextLine<&[u8]>]) -> Result<(), Memory>
    ensures { OnOk result (page.new.items
        ≡ page.old.items ++ lined (flat_map (rows_at words.now) (map text_line_read lines.now))) }
{
    for line in lines {
        push_rows_of(page, words, line)?;
    }
    Ok(())
}

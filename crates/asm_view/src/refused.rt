//! The page of a text that has a fault.

ghost use Rattle.std.specs.Prelude.{◌≡◌, ◌++◌, IfOk, OnOk, None, map, MatchOption};
ghost use Rattle.std.specs.Option.{option_map};
ghost use Rattle.um_asm.specs.declared.fault.AsmFault.TheVariants as asm;
ghost use Rattle.um_asm.specs.inner.TextParts.{head_read, text_line_read};
ghost use Rattle.asm_view.specs.Pages as plain;
ghost use Rattle.asm_view.specs.Pages.{number_part, fault_page, faulty_row, told_as};

use crate::hints::hint_of;
use crate::rows::push_plain_row;
use itoa::Buffer;
use std::alloc::Global;
use um_asm::{AsmFault, Head, TextLine};
use umix_base::Memory;

/// The page of a text with this fault; want of memory isn't one.
pub(crate) fn refused_page(
    alloc: Global,
    fault: &AsmFault,
    lines: &[TextLine<&[u8]>],
) -> Result<Vec<u8>, Memory>
    ensures known { IfOk result (λ _. fault.now ≡ asm.Memory → ⊥) }
    ensures page { IfOk result (λ page.
        page.items ≡ fault_page (map text_line_read lines.now) fault.now) }
{
    let Some(number) = number_of(fault) else {
        return Err(Memory);
    };
    let line = line_at(lines, line_of(fault));
    let mut buffer = Buffer::new();
    let mut page = Vec::from_slice(alloc, b"refused ")?;
    page.extend_from_slice(buffer.format(number).as_bytes())?;
    page.extend_from_slice(b" ")?;
    page.extend_from_slice(name_of(fault).as_bytes())?;
    push_number_part(&mut page, line_of(fault))?;
    push_faulty(&mut page, line)?;
    page.extend_from_slice(hint_of(fault, head_at(line)).as_bytes())?;
    page.extend_from_slice(b"\n")?;
    Ok(page)
}

/// The number of a fault; none for want of memory.
fn number_of(fault: &AsmFault) -> Option<u8>
    ensures { MatchOption result (fault.now ≡ asm.Memory)
        (λ number. (number ≡ (told_as fault.now).0) × (fault.now ≡ asm.Memory → ⊥)) }
{
    match fault {
        AsmFault::BadLine(_) => Some(41),
        AsmFault::SameLabel(_) => Some(42),
        AsmFault::NoLabel(_) => Some(43),
        AsmFault::ValueTooLarge(_) => Some(44),
        AsmFault::TooLong => Some(45),
        AsmFault::Memory => None,
    }
}

/// The name of a fault.
fn name_of(fault: &AsmFault) -> &'static str
    ensures { result.now ≡ (told_as fault.now).1 }
{
    match fault {
        AsmFault::BadLine(_) => "BadLine",
        AsmFault::SameLabel(_) => "SameLabel",
        AsmFault::NoLabel(_) => "NoLabel",
        AsmFault::ValueTooLarge(_) => "ValueTooLarge",
        AsmFault::TooLong => "TooManyWords",
        AsmFault::Memory => "",
    }
}

/// The number of the faulty line, from 1, where there is one.
fn line_of(fault: &AsmFault) -> Option<usize>
    ensures { result ≡ (told_as fault.now).2 }
{
    match fault {
        AsmFault::BadLine(line)
        | AsmFault::SameLabel(line)
        | AsmFault::NoLabel(line)
        | AsmFault::ValueTooLarge(line) => Some(*line),
        AsmFault::TooLong | AsmFault::Memory => None,
    }
}

/// The line of a number, from 1.
fn line_at<'a, 'b>(
    lines: &'b [TextLine<&'a [u8]>],
    number: Option<usize>,
) -> Option<TextLine<&'a [u8]>>
    ensures { option_map text_line_read result
        ≡ plain.line_at (map text_line_read lines.now) number }
{
    lines.get(number?.saturating_sub(1)).copied()
}

/// How a line begins.
fn head_at<'a>(line: Option<TextLine<&'a [u8]>>) -> Head<&'a [u8]>
    ensures { head_read result ≡ plain.head_at (option_map text_line_read line.entry) }
{
    match line {
        Some(line) => line.head,
        None => Head::Unprintable,
    }
}

/// Adds what follows the name in the line of a fault.
fn push_number_part(page: &mut Vec<u8>, line: Option<usize>) -> Result<(), Memory>
    ensures { OnOk result (page.new.items ≡ page.old.items ++ number_part line) }
{
    let Some(line) = line else {
        page.push(b'\n')?;
        return Ok(());
    };
    let mut buffer = Buffer::new();
    page.extend_from_slice(b" ")?;
    page.extend_from_slice(buffer.format(line).as_bytes())?;
    page.push(b'\n')?;
    Ok(())
}

/// Adds the faulty line, where there is one.
fn push_faulty(page: &mut Vec<u8>, line: Option<TextLine<&[u8]>>) -> Result<(), Memory>
    ensures { OnOk result (page.new.items
        ≡ page.old.items ++ faulty_row (option_map text_line_read line.entry)) }
{
    match line {
        Some(line) => push_plain_row(page, &line),
        None => Ok(()),
    }
}

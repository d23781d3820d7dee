//! What a line's bytes say.

ghost use Rattle.std.specs.Prelude.{◌≡◌, ◌<◌, ◌∷◌, Some, IfSome};
ghost use Rattle.std.specs.List.{list_all};
ghost use Rattle.std.specs.Option.{option_map, option_copied};
ghost use Rattle.um_asm.specs.inner.Parts.{line_read, statement_read, pair_read, triple_read};
ghost use Rattle.um_asm.specs.inner.Parts.{HasRight, IsRight};
ghost use Rattle.um_asm.specs.Tokens.{behind_byte, is_printable};
ghost use Rattle.um_asm.specs.Lines.{operands_in, one_operand, two_operands, three_operands};
ghost use Rattle.um_asm.specs.Lines.{one_register, two_registers, three_registers, operator_at};
ghost use Rattle.um_asm.specs.Lines.{word_at, hex_at, statement_at, labelled_at, array_line};
ghost use Rattle.um_asm.specs.Lines.{end_at, unlabelled_at, content_at, parsed_line};

use crate::line::{Line, Statement};
use crate::mnemonic::Mnemonic;
use crate::token::{cut, is_label, is_numeral, register_at, trim, trim_start, value_at};
use um_word::Op;

/// What the line says, if it is of the forms of a line. Linear in its bytes.
pub(crate) fn line_at(line: &[u8]) -> Option<Line<&[u8]>>
    ensures right { IfSome result HasRight }
    ensures line { option_map line_read result ≡ parsed_line line.now }
{
    if !is_printable(line) {
        return None;
    }
    let (text, _comment) = cut(line, b';');
    content_at(text)
}

/// A line whose comment is gone.
fn content_at(text: &[u8]) -> Option<Line<&[u8]>>
    ensures right { IfSome result HasRight }
    ensures line { option_map line_read result ≡ content_at text.now (behind_byte 58 text.now) }
{
    let (label, rest) = cut(text, b':');
    match rest {
        None => unlabelled_at(trim(text)),
        Some(rest) => {
            let label = trim_start(label);
            if !is_label(label) {
                return None;
            }
            labelled_at(Some(label), trim(rest))
        }
    }
}

pub(crate) fn is_printable(line: &[u8]) -> bool
    ensures { result ≡ list_all is_printable line.now }
{
    line.iter().all(|byte| *byte >= 32 && *byte <= 126)
}

/// A line without a label.
fn unlabelled_at(text: &[u8]) -> Option<Line<&[u8]>>
    ensures right { IfSome result HasRight }
    ensures line { option_map line_read result ≡ unlabelled_at text.now }
{
    let (word, operands) = cut(text, b' ');
    if word == b".array".as_slice() {
        array_at(operands)
    } else if word == b".end".as_slice() {
        end_at(operands)
    } else {
        labelled_at(None, text)
    }
}

fn array_at(operands: Option<&[u8]>) -> Option<Line<&[u8]>>
    ensures right { IfSome result HasRight }
    ensures line { option_map line_read result
        ≡ array_line (operands_in (option_copied operands.entry)) }
{
    let name = one_operand(operands)?;
    if is_label(name) {
        Some(Line::Array(name))
    } else {
        None
    }
}

fn end_at(operands: Option<&[u8]>) -> Option<Line<&[u8]>>
    ensures right { IfSome result HasRight }
    ensures line { option_map line_read result
        ≡ end_at (operands_in (option_copied operands.entry)) }
{
    match operands {
        None => Some(Line::End),
        Some(_) => None,
    }
}

/// What stands behind the label, if there is one: nothing, or a statement.
fn labelled_at<'a>(label: Option<&'a [u8]>, text: &'a [u8]) -> Option<Line<&'a [u8]>>
    ensures right { IfSome result HasRight }
    ensures line { option_map line_read result ≡ labelled_at (option_copied label.entry) text.now }
{
    if text.is_empty() {
        return Some(Line::Code(label, None));
    }
    let statement = statement_at(text)?;
    Some(Line::Code(label, Some(statement)))
}

fn statement_at(text: &[u8]) -> Option<Statement<&[u8]>>
    ensures right { IfSome result IsRight }
    ensures statement { option_map statement_read result ≡ statement_at text.now }
{
    let (word, operands) = cut(text, b' ');
    if word == b".word".as_slice() {
        word_at(operands)
    } else if word == b".hex".as_slice() {
        hex_at(operands)
    } else {
        operator_at(operands, Mnemonic::read(word)?)
    }
}

fn word_at(operands: Option<&[u8]>) -> Option<Statement<&[u8]>>
    ensures right { IfSome result IsRight }
    ensures statement { option_map statement_read result
        ≡ word_at (operands_in (option_copied operands.entry)) }
{
    let token = one_operand(operands)?;
    let value = value_at(token)?;
    Some(Statement::Word(value))
}

fn hex_at(operands: Option<&[u8]>) -> Option<Statement<&[u8]>>
    ensures right { IfSome result IsRight }
    ensures statement { option_map statement_read result
        ≡ hex_at (operands_in (option_copied operands.entry)) }
{
    let digits = one_operand(operands)?;
    if is_numeral(digits, 16) && digits.len() % 8 == 0 && digits.len() <= 64 {
        Some(Statement::Hex(digits))
    } else {
        None
    }
}

fn operator_at(operands: Option<&[u8]>, mnemonic: Mnemonic) -> Option<Statement<&[u8]>>
    ensures right { IfSome result IsRight }
    ensures statement { option_map statement_read result
        ≡ operator_at (operands_in (option_copied operands.entry)) mnemonic }
{
    let operator = match mnemonic {
        Mnemonic::Cmov => {
            let (a, b, c) = three_registers(operands)?;
            Op::Move(a, b, c)
        }
        Mnemonic::Index => {
            let (a, b, c) = three_registers(operands)?;
            Op::Index(a, b, c)
        }
        Mnemonic::Amend => {
            let (a, b, c) = three_registers(operands)?;
            Op::Amend(a, b, c)
        }
        Mnemonic::Add => {
            let (a, b, c) = three_registers(operands)?;
            Op::Add(a, b, c)
        }
        Mnemonic::Mul => {
            let (a, b, c) = three_registers(operands)?;
            Op::Mul(a, b, c)
        }
        Mnemonic::Div => {
            let (a, b, c) = three_registers(operands)?;
            Op::Div(a, b, c)
        }
        Mnemonic::Nand => {
            let (a, b, c) = three_registers(operands)?;
            Op::Nand(a, b, c)
        }
        Mnemonic::Halt => match operands {
            None => Op::Halt,
            Some(_) => return None,
        },
        Mnemonic::Alloc => {
            let (b, c) = two_registers(operands)?;
            Op::Alloc(b, c)
        }
        Mnemonic::Load => {
            let (b, c) = two_registers(operands)?;
            Op::Load(b, c)
        }
        Mnemonic::Abandon => Op::Abandon(one_register(operands)?),
        Mnemonic::Out => Op::Out(one_register(operands)?),
        Mnemonic::In => Op::Input(one_register(operands)?),
        Mnemonic::Set => {
            let (register, value) = two_operands(operands)?;
            let register = register_at(register)?;
            return Some(Statement::SetTo(register, value_at(value)?));
        }
    };
    Some(Statement::Operator(operator))
}

/// The operand before the first comma, and what stands behind that comma.
fn first_operand(text: &[u8]) -> (&[u8], Option<&[u8]>)
    ensures { operands_in (Some text.now) ≡ result.0.now ∷ operands_in (option_copied result.1) }
{
    let (operand, rest) = cut(text, b',');
    (trim(operand), rest)
}

fn one_operand(operands: Option<&[u8]>) -> Option<&[u8]>
    ensures { option_copied result ≡ one_operand (operands_in (option_copied operands.entry)) }
{
    let (operand, rest) = first_operand(operands?);
    match rest {
        None => Some(operand),
        Some(_) => None,
    }
}

fn two_operands(operands: Option<&[u8]>) -> Option<(&[u8], &[u8])>
    ensures { option_map pair_read result
        ≡ two_operands (operands_in (option_copied operands.entry)) }
{
    let (first, rest) = first_operand(operands?);
    let second = one_operand(rest)?;
    Some((first, second))
}

fn three_operands(operands: Option<&[u8]>) -> Option<(&[u8], &[u8], &[u8])>
    ensures { option_map triple_read result
        ≡ three_operands (operands_in (option_copied operands.entry)) }
{
    let (first, rest) = first_operand(operands?);
    let (second, third) = two_operands(rest)?;
    Some((first, second, third))
}

fn one_register(operands: Option<&[u8]>) -> Option<u32>
    ensures below { IfSome result (λ c. c < 8) }
    ensures register { result ≡ one_register (operands_in (option_copied operands.entry)) }
{
    register_at(one_operand(operands)?)
}

fn two_registers(operands: Option<&[u8]>) -> Option<(u32, u32)>
    ensures below { IfSome result (λ r. (r.0 < 8) × (r.1 < 8)) }
    ensures registers { result ≡ two_registers (operands_in (option_copied operands.entry)) }
{
    let (b, c) = two_operands(operands)?;
    Some((register_at(b)?, register_at(c)?))
}

fn three_registers(operands: Option<&[u8]>) -> Option<(u32, u32, u32)>
    ensures below { IfSome result (λ r. (r.0 < 8) × (r.1 < 8) × (r.2 < 8)) }
    ensures registers { result ≡ three_registers (operands_in (option_copied operands.entry)) }
{
    let (a, b, c) = three_operands(operands)?;
    Some((register_at(a)?, register_at(b)?, register_at(c)?))
}

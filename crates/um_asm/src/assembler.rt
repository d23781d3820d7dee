//! Texts to words.

ghost use Rattle.std.specs.Prelude.{◌≡◌, ◌++◌, ◌⊎◌, Some, None, Ok, Err, IsTrue, IfOk, IfErr};
ghost use Rattle.std.specs.Prelude.{IfSome, OnOk, MatchResult};
ghost use Rattle.um_asm.specs.declared.fault.AsmFault.TheVariants as fault;
ghost use Rattle.um_asm.specs.Lines.{are_hex_words};
ghost use Rattle.um_asm.specs.Scopes.{all_standing};
ghost use Rattle.um_asm.specs.Assembly.{assembled, hex_words, is_defined_before, label_in};
ghost use Rattle.um_asm.specs.Assembly.{line_words, lines_words, said_words, value_number, said_by};
ghost use Rattle.um_asm.specs.Assembly.{statement_words, up_to};
ghost use Rattle.um_asm.specs.inner.Parts.{block_read_at, line_read, said_in, said_read};
ghost use Rattle.um_asm.specs.inner.Parts.{statement_read, unended_from, value_read, HasRight};
ghost use Rattle.um_asm.specs.inner.Parts.{IsRight, Pushes};
ghost use Rattle.um_asm.specs.inner.Definitions.{meaning_in};

use crate::fault::AsmFault;
use crate::labels::{Definition, Labels};
use crate::line::{Line, Statement, Value};
use crate::lines::first_line;
use crate::number::{hex_word, number_up_to};
use crate::position::Position;
use crate::reading::line_at;
use std::alloc::Global;
use um_word::{MOST_SCROLL_WORDS, Op, encode};

/// The greatest value of `set`.
const MOST_SET: u32 = 0x1ff_ffff;

/// The words of an assembly text. See docs/ASSEMBLY.md.
///
/// Refused with the fault of the first faulty line, and with `TooLong` where no line is faulty and
/// there are too many words. Linear in the text; beside the text and the words it keeps the labels.
pub fn assemble(alloc: Global, text: &[u8]) -> Result<Vec<u32>, AsmFault>
    // The words are those of the text.
    ensures words { IfOk result (λ words. assembled text.now ≡ Ok words.items) }
    // The fault is that of the text, unless memory is wanting.
    ensures fault { IfErr result (λ e. (e ≡ fault.Memory) ⊎ (assembled text.now ≡ Err e)) }
{
    let labels = Labels::of(alloc, text)?;
    let words = words_of(alloc, text, &labels)?;
    if words.len() > MOST_SCROLL_WORDS {
        return Err(AsmFault::TooLong);
    }
    Ok(words)
}

fn words_of<'a>(alloc: Global, text: &'a [u8], labels: &Labels<'a>) -> Result<Vec<u32>, AsmFault>
    requires { labels.now.unended ≡ unended_from 1 None 0 (said_by text.now) }
    ensures { let meaning = meaning_in labels.now.definitions in
        let words = lines_words meaning (all_standing (said_by text.now)) in
        MatchResult result (λ v. words ≡ Ok v.items) (λ e. (e ≡ fault.Memory) ⊎ (words ≡ Err e)) }
{
    let mut words = Vec::new(alloc);
    let mut position = Position::start();
    let mut rest = text;
    while let Some((line, behind)) = first_line(rest) {
        let line = line_at(line);
        push_line(&mut words, labels, &position, &line)?;
        position = position.after(&line);
        rest = behind;
    }
    Ok(words)
}

/// What the line says, if it may stand here.
fn standing_line<'a>(
    labels: &Labels<'a>,
    position: &Position<&'a [u8]>,
    line: &Option<Line<&'a [u8]>>,
) -> Option<Line<&'a [u8]>>
    requires { IfSome line.now HasRight }
    ensures line { said_read result
        ≡ said_in labels.now.unended position.now.number (block_read_at position.now)
        (said_read line.now) }
    ensures right { IfSome result HasRight }
{
    match (*line, position.block) {
        (Some(Line::Array(_)), Some(_)) => None,
        (Some(Line::Array(_)), None) if labels.unended == Some(position.number) => None,
        (Some(Line::End), None) => None,
        (line, _) => line,
    }
}

/// Adds the words of the line.
fn push_line<'a>(
    words: &mut Vec<u32>,
    labels: &Labels<'a>,
    position: &Position<&'a [u8]>,
    line: &Option<Line<&'a [u8]>>,
) -> Result<(), AsmFault>
    requires { IfSome line.now HasRight }
    ensures { Pushes words.old.items words.new.items
        (line_words (meaning_in labels.now.definitions) position.now.number (block_read_at position.now)
        (said_in labels.now.unended position.now.number (block_read_at position.now)
        (said_read line.now)))
        result }
{
    let number = position.number;
    match standing_line(labels, position, line) {
        None => Err(AsmFault::BadLine(number)),
        Some(line) => {
            if is_defined_before(labels, position, &line) {
                return Err(AsmFault::SameLabel(number));
            }
            push_said(words, labels, position, line)
        }
    }
}

fn push_said<'a>(
    words: &mut Vec<u32>,
    labels: &Labels<'a>,
    position: &Position<&'a [u8]>,
    line: Line<&'a [u8]>,
) -> Result<(), AsmFault>
    requires { HasRight line }
    ensures { Pushes words.old.items words.new.items
        (said_words (meaning_in labels.now.definitions) position.now.number (block_read_at position.now)
        (line_read line.entry))
        result }
{
    match line {
        Line::Code(_, Some(statement)) => push_statement(words, labels, position, statement),
        _ => Ok(()),
    }
}

/// Whether the line's label or block name was defined on an earlier line of its scope.
fn is_defined_before<'a>(
    labels: &Labels<'a>,
    position: &Position<&'a [u8]>,
    line: &Line<&'a [u8]>,
) -> bool
    ensures { result
        ≡ is_defined_before (meaning_in labels.now.definitions) position.now.number
        (block_read_at position.now) (line_read line.now) }
{
    let first = match *line {
        Line::Code(Some(label), _) => labels.get(position.scope(), label),
        Line::Array(name) => labels.get(None, name),
        _ => None,
    };
    match first {
        Some(definition) => definition.line < position.number,
        None => false,
    }
}

fn push_statement<'a>(
    words: &mut Vec<u32>,
    labels: &Labels<'a>,
    position: &Position<&'a [u8]>,
    statement: Statement<&'a [u8]>,
) -> Result<(), AsmFault>
    requires { IsRight statement }
    ensures { Pushes words.old.items words.new.items
        (statement_words (meaning_in labels.now.definitions) position.now.number
        (block_read_at position.now) (statement_read statement.entry))
        result }
{
    match statement {
        Statement::Operator(operator) => words.push(encode(&operator))?,
        Statement::SetTo(register, value) => {
            let value = number_of(labels, position, value, MOST_SET)?;
            words.push(encode(&Op::Set(register, value)))?;
        }
        Statement::Word(value) => words.push(number_of(labels, position, value, u32::MAX)?)?,
        Statement::Hex(digits) => push_hex(words, digits)?,
    }
    Ok(())
}

/// The number that a value stands for, where it is at most the greatest.
fn number_of<'a>(
    labels: &Labels<'a>,
    position: &Position<&'a [u8]>,
    value: Value<&'a [u8]>,
    greatest: u32,
) -> Result<u32, AsmFault>
    ensures { result
        ≡ up_to greatest position.now.number
        (value_number (meaning_in labels.now.definitions) (block_read_at position.now)
        (value_read value.entry)) }
{
    let line = position.number;
    match value {
        Value::Decimal(digits) => {
            number_up_to(digits, 10, greatest).ok_or(AsmFault::ValueTooLarge(line))
        }
        Value::Hexadecimal(digits) => {
            number_up_to(digits, 16, greatest).ok_or(AsmFault::ValueTooLarge(line))
        }
        Value::Label(name) => {
            let Some(definition) = label_in(labels, position, name) else {
                return Err(AsmFault::NoLabel(line));
            };
            at_most(definition.place, line, greatest)
        }
        Value::Length(name) => {
            let Some(
                Definition {
                    length: Some(length),
                    ..
                },
            ) = labels.get(None, name)
            else {
                return Err(AsmFault::NoLabel(line));
            };
            at_most(length, line, greatest)
        }
    }
}

/// What a label stands for: in its block first, and then outside.
fn label_in<'a>(
    labels: &Labels<'a>,
    position: &Position<&'a [u8]>,
    name: &'a [u8],
) -> Option<Definition>
    ensures { result
        ≡ label_in (meaning_in labels.now.definitions) (block_read_at position.now) name.now }
{
    match labels.get(position.scope(), name) {
        Some(definition) => Some(definition),
        None => labels.get(None, name),
    }
}

fn at_most(number: usize, line: usize, greatest: u32) -> Result<u32, AsmFault>
    ensures { result ≡ up_to greatest line (Some number) }
{
    if number <= greatest as usize {
        Ok(number as u32)
    } else {
        Err(AsmFault::ValueTooLarge(line))
    }
}

/// Adds the words of digits, eight to a word.
fn push_hex(words: &mut Vec<u32>, digits: &[u8]) -> Result<(), AsmFault>
    requires { IsTrue (are_hex_words digits.now) }
    ensures ok { OnOk result (words.new.items ≡ words.old.items ++ hex_words digits.now) }
    ensures err { IfErr result (λ e. e ≡ fault.Memory) }
{
    let mut rest = digits;
    while rest.len() >= 8 {
        let (eight, behind) = rest.split_at(8);
        words.push(hex_word(eight))?;
        rest = behind;
    }
    Ok(())
}

//! Words to texts.

ghost use Rattle.std.specs.Prelude.{◌≡◌, ◌<◌, ◌≤◌, ◌^◌, ◌++◌, All, length, Ok, IfOk, OnOk};
ghost use Rattle.um_asm.specs.Listing.{register_text, one, two, three, statement_text};
ghost use Rattle.um_asm.specs.Listing.{operator_text, hex_text, word_text, listing};
ghost use Rattle.um_asm.specs.Mnemonics.{mnemonic_text};
ghost use Rattle.um_word.specs.Scroll.{most_scroll_words};
ghost use Rattle.um_asm.specs.Assembly.{assembled};
ghost use Rattle.um_word.specs.Operators.{decode_word, IsEncodable};
ghost use Rattle.um_word.specs.declared.op.Op.TheVariants as op;

use crate::mnemonic::Mnemonic;
use itoa::Buffer;
use std::alloc::Global;
use um_word::{Op, decode, encode};
use umix_base::Memory;

/// The text that shows the words, a line for each: as a statement where the word is `encode` of its
/// operator, and else as `.hex` and its digits. Assembling it gives the same words, where there are
/// at most 16,777,216. See "Disassembly" in docs/ASSEMBLY.md. Linear in the words.
pub fn disassemble(alloc: Global, words: &[u32]) -> Result<Vec<u8>, Memory>
    ensures listing { IfOk result (λ text. text.items ≡ listing words.now) }
    ensures assembles { length words.now ≤ most_scroll_words →
        IfOk result (λ text. assembled text.items ≡ Ok words.now) }
{
    words_fit(words);
    let mut text = Vec::new(alloc);
    for word in words {
        push_word(&mut text, *word)?;
        text.push(b'\n')?;
    }
    Ok(text)
}

// a word has 32 bits: a fact of its type
fn words_fit(words: &[u32])
    ensures { All (λ word. word < 2 ^ 32) words.now }
{
    let _ = words;
}

fn push_word(text: &mut Vec<u8>, word: u32) -> Result<(), Memory>
    ensures { OnOk result (text.new.items
        ≡ text.old.items ++ word_text word (decode_word word)) }
{
    match decode(word) {
        Some(operator) if encode(&operator) == word => push_operator(text, &operator),
        _ => push_hex(text, word),
    }
}

fn push_hex(text: &mut Vec<u8>, word: u32) -> Result<(), Memory>
    ensures { OnOk result (text.new.items ≡ text.old.items ++ hex_text word) }
{
    let mut digits = [0u8; 8];
    let _ = hex::encode_to_slice(&word.to_be_bytes(), &mut digits);
    text.extend_from_slice(b".hex ")?;
    text.extend_from_slice(&digits)?;
    Ok(())
}

fn push_operator(text: &mut Vec<u8>, operator: &Op) -> Result<(), Memory>
    requires { IsEncodable operator.now }
    ensures { OnOk result (text.new.items ≡ text.old.items ++ operator_text operator.now) }
{
    match *operator {
        Op::Move(a, b, c) => push_ternary(text, Mnemonic::Cmov, a, b, c),
        Op::Index(a, b, c) => push_ternary(text, Mnemonic::Index, a, b, c),
        Op::Amend(a, b, c) => push_ternary(text, Mnemonic::Amend, a, b, c),
        Op::Add(a, b, c) => push_ternary(text, Mnemonic::Add, a, b, c),
        Op::Mul(a, b, c) => push_ternary(text, Mnemonic::Mul, a, b, c),
        Op::Div(a, b, c) => push_ternary(text, Mnemonic::Div, a, b, c),
        Op::Nand(a, b, c) => push_ternary(text, Mnemonic::Nand, a, b, c),
        Op::Halt => push_mnemonic(text, Mnemonic::Halt),
        Op::Alloc(b, c) => push_binary(text, Mnemonic::Alloc, b, c),
        Op::Abandon(c) => push_unary(text, Mnemonic::Abandon, c),
        Op::Out(c) => push_unary(text, Mnemonic::Out, c),
        Op::Input(c) => push_unary(text, Mnemonic::In, c),
        Op::Load(b, c) => push_binary(text, Mnemonic::Load, b, c),
        Op::Set(a, value) => push_set(text, a, value),
    }
}

fn push_mnemonic(text: &mut Vec<u8>, mnemonic: Mnemonic) -> Result<(), Memory>
    ensures { OnOk result (text.new.items ≡ text.old.items ++ mnemonic_text mnemonic) }
{
    text.extend_from_slice(mnemonic.text())?;
    Ok(())
}

fn push_register(text: &mut Vec<u8>, before: &[u8], register: u32) -> Result<(), Memory>
    requires { register < 8 }
    ensures { OnOk result (text.new.items
        ≡ text.old.items ++ before.now ++ register_text register) }
{
    text.extend_from_slice(before)?;
    text.extend_from_slice(&[b'r', b'0' + register as u8])?;
    Ok(())
}

fn push_unary(text: &mut Vec<u8>, mnemonic: Mnemonic, c: u32) -> Result<(), Memory>
    requires { c < 8 }
    ensures { OnOk result (text.new.items
        ≡ text.old.items ++ statement_text mnemonic (one c)) }
{
    push_mnemonic(text, mnemonic)?;
    push_register(text, b" ", c)
}

fn push_binary(text: &mut Vec<u8>, mnemonic: Mnemonic, b: u32, c: u32) -> Result<(), Memory>
    requires { (b < 8) × (c < 8) }
    ensures { OnOk result (text.new.items
        ≡ text.old.items ++ statement_text mnemonic (two b c)) }
{
    push_unary(text, mnemonic, b)?;
    push_register(text, b", ", c)
}

fn push_ternary(
    text: &mut Vec<u8>,
    mnemonic: Mnemonic,
    a: u32,
    b: u32,
    c: u32,
) -> Result<(), Memory>
    requires { (a < 8) × (b < 8) × (c < 8) }
    ensures { OnOk result (text.new.items
        ≡ text.old.items ++ statement_text mnemonic (three a b c)) }
{
    push_binary(text, mnemonic, a, b)?;
    push_register(text, b", ", c)
}

fn push_set(text: &mut Vec<u8>, a: u32, value: u32) -> Result<(), Memory>
    requires { a < 8 }
    ensures { OnOk result (text.new.items ≡ text.old.items ++ operator_text (op.Set a value)) }
{
    push_unary(text, Mnemonic::Set, a)?;
    text.extend_from_slice(b", ")?;
    let mut digits = Buffer::new();
    text.extend_from_slice(digits.format(value).as_bytes())?;
    Ok(())
}

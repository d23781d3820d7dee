//! The tokens of a line.

ghost use Rattle.std.specs.Prelude.{◌≡◌, ◌+◌, ◌<◌, ◌≤◌, ◌==◌, length, MatchOption, IfSome};
ghost use Rattle.std.specs.Char.{is_digit};
ghost use Rattle.std.specs.List.{list_all, position};
ghost use Rattle.std.specs.Option.{option_map, option_copied};
ghost use Rattle.um_asm.specs.inner.Parts.{value_read};
ghost use Rattle.um_asm.specs.Tokens.{before, behind_byte, trimmed, trimmed_end, trimmed_start};
ghost use Rattle.um_asm.specs.Tokens.{is_label_byte, is_label, is_numeral, register_at};
ghost use Rattle.um_asm.specs.Tokens.{behind_prefix, is_len, value_written};

use crate::line::Value;

/// The place of the first `mark`.
pub(crate) fn find(text: &[u8], mark: u8) -> Option<usize>
    ensures { result ≡ position (λ b. b == mark) text.now }
{
    text.iter().position(|byte| *byte == mark)
}

/// What stands before the first `mark`, and what stands after it, if there is one.
pub(crate) fn cut(text: &[u8], mark: u8) -> (&[u8], Option<&[u8]>)
    ensures front { result.0.now ≡ before mark text.now }
    ensures back { option_copied result.1 ≡ behind_byte mark text.now }
    ensures parts { MatchOption result.1 (length result.0.now ≤ length text.now)
        (λ rest. length result.0.now + length rest.now < length text.now) }
{
    match find(text, mark) {
        Some(at) => (&text[..at], Some(&text[at + 1..])),
        None => (text, None),
    }
}

pub(crate) fn trim_start(text: &[u8]) -> &[u8]
    ensures { result.now ≡ trimmed_start text.now }
{
    let mut rest = text;
    while let [b' ', behind @ ..] = rest {
        rest = behind;
    }
    rest
}

fn trim_end(text: &[u8]) -> &[u8]
    ensures { result.now ≡ trimmed_end text.now }
{
    let mut rest = text;
    while let [front @ .., b' '] = rest {
        rest = front;
    }
    rest
}

pub(crate) fn trim(text: &[u8]) -> &[u8]
    ensures { result.now ≡ trimmed text.now }
{
    trim_end(trim_start(text))
}

fn is_label_byte(byte: u8) -> bool
    ensures { result ≡ is_label_byte byte }
{
    byte.is_ascii_alphanumeric() || byte == b'_'
}

fn are_label_bytes(bytes: &[u8]) -> bool
    ensures { result ≡ list_all is_label_byte bytes.now }
{
    bytes.iter().all(|byte| is_label_byte(*byte))
}

pub(crate) fn is_label(token: &[u8]) -> bool
    ensures { result ≡ is_label token.now }
{
    match token {
        [] => false,
        [first, rest @ ..] => {
            first.is_ascii_alphabetic() && rest.len() < 32 && are_label_bytes(rest)
        }
    }
}

fn are_digits(bytes: &[u8], radix: u32) -> bool
    requires { (2 ≤ radix) × (radix ≤ 36) }
    ensures { result ≡ list_all (λ b. is_digit b radix) bytes.now }
{
    bytes.iter().all(|byte| char::from(*byte).is_digit(radix))
}

/// One digit or more of the radix.
pub(crate) fn is_numeral(token: &[u8], radix: u32) -> bool
    requires { (2 ≤ radix) × (radix ≤ 36) }
    ensures { result ≡ is_numeral radix token.now }
{
    !token.is_empty() && are_digits(token, radix)
}

/// The register `r0` to `r7` that a token names.
pub(crate) fn register_at(token: &[u8]) -> Option<u32>
    ensures register { result ≡ register_at token.now }
    ensures below { IfSome result (λ a. a < 8) }
{
    match token {
        [b'r', digit @ b'0'..=b'7'] => Some((*digit - b'0') as u32),
        _ => None,
    }
}

fn behind_prefix(token: &[u8]) -> &[u8]
    ensures { result.now ≡ behind_prefix token.now }
{
    match token {
        [b'0', b'x', digits @ ..] => digits,
        _ => &[],
    }
}

fn is_len(suffix: Option<&[u8]>) -> bool
    ensures { result ≡ is_len (option_copied suffix.entry) }
{
    match suffix {
        Some(suffix) => suffix == b"len".as_slice(),
        None => false,
    }
}

pub(crate) fn value_at(token: &[u8]) -> Option<Value<&[u8]>>
    ensures { option_map value_read result ≡ value_written token.now }
{
    if is_numeral(token, 10) {
        return Some(Value::Decimal(token));
    }
    let digits = behind_prefix(token);
    if is_numeral(digits, 16) {
        return Some(Value::Hexadecimal(digits));
    }
    if is_label(token) {
        return Some(Value::Label(token));
    }
    let (name, suffix) = cut(token, b'.');
    if is_label(name) && is_len(suffix) {
        return Some(Value::Length(name));
    }
    None
}

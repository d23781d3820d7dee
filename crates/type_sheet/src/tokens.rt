//! The words of a line: numbers, sides and forms.

ghost use Rattle.std.specs.Prelude.{◌≡◌, ◌++◌, ◌∷◌, [], ℕ, List, decimal, IfOk, MatchOption};
ghost use Rattle.two_d.specs.Canonical.{shown_side};
ghost use Rattle.two_d.specs.Names.{IsName, IsNameByte};
ghost use Rattle.two_d.specs.declared.command.Side.{Side as SideForm};
ghost use Rattle.type_sheet.specs.declared.line.Form.{Form as KindForm};
ghost use Rattle.type_sheet.specs.Lines.{form_text, IsBoxNumber, IsForm};

use crate::line::Form;
use crate::lines::cut;
use itoa::Buffer;
use std::alloc::Global;
use std::str;
use two_d::{Name, Side};
use umix_base::Memory;

/// The number of a box that the text writes in decimal, or `None` exactly where it writes none.
pub(crate) fn number_of(text: &[u8]) -> Option<u32>
    ensures { MatchOption result
        ((k : ℕ) → IsBoxNumber k → decimal k ≡ text.now → ⊥)
        (λ k. IsBoxNumber k × (decimal k ≡ text.now)) }
{
    let Ok(digits) = str::from_utf8(text) else {
        return None;
    };
    let Ok(number) = digits.parse::<u32>() else {
        return None;
    };
    if number == 0 {
        return None;
    }
    let mut buffer = Buffer::new();
    if buffer.format(number) != digits {
        return None;
    }
    Some(number)
}

/// The side that the text names, or `None` exactly where it names none.
pub(crate) fn side_of(text: &[u8]) -> Option<Side>
    ensures { MatchOption result
        ((side : SideForm) → shown_side side ≡ text.now → ⊥) (λ side. shown_side side ≡ text.now) }
{
    if text == b"S".as_slice() {
        return Some(Side::S);
    }
    if text == b"E".as_slice() {
        return Some(Side::E);
    }
    None
}

/// What the values of a type are, by the text, or `None` exactly where it has none of the forms.
pub(crate) fn form_of(alloc: Global, text: &[u8]) -> Result<Option<Form>, Memory>
    ensures { IfOk result (λ found. MatchOption found
        ((form : KindForm) → IsForm form → form_text form ≡ text.now → ⊥)
        (λ form. IsForm form × (form_text form ≡ text.now))) }
{
    if text == b"()".as_slice() {
        return Ok(Some(Form::Unit));
    }
    if let Some(inner) = between(text, b'(', b')') {
        return pair_of(alloc, inner);
    }
    if let Some(inner) = between(text, b'[', b']') {
        return sum_of(alloc, inner);
    }
    Ok(None)
}

/// `B,C`
fn pair_of(alloc: Global, text: &[u8]) -> Result<Option<Form>, Memory>
    ensures { IfOk result (λ found. MatchOption found
        ((b c : List ℕ) → IsName b → IsName c → b ++ 44 ∷ c ≡ text.now → ⊥)
        (λ form. IsForm form × (form_text form ≡ 40 ∷ (text.now ++ 41 ∷ [])))) }
{
    match names_in(alloc, text, b',')? {
        Some((first, second)) => Ok(Some(Form::Pair(first, second))),
        None => Ok(None),
    }
}

/// `B|C`
fn sum_of(alloc: Global, text: &[u8]) -> Result<Option<Form>, Memory>
    ensures { IfOk result (λ found. MatchOption found
        ((b c : List ℕ) → IsName b → IsName c → b ++ 124 ∷ c ≡ text.now → ⊥)
        (λ form. IsForm form × (form_text form ≡ 91 ∷ (text.now ++ 93 ∷ [])))) }
{
    match names_in(alloc, text, b'|')? {
        Some((first, second)) => Ok(Some(Form::Sum(first, second))),
        None => Ok(None),
    }
}

/// What stands between the first and the last byte, if they are these.
fn between(text: &[u8], first: u8, last: u8) -> Option<&[u8]>
    ensures { MatchOption result
        ((inner : List ℕ) → text.now ≡ first ∷ (inner ++ last ∷ []) → ⊥)
        (λ inner. text.now ≡ first ∷ (inner.now ++ last ∷ [])) }
{
    let [begin, inner @ .., end] = text else {
        return None;
    };
    if *begin != first || *end != last {
        return None;
    }
    Some(inner)
}

/// The two names that the text joins by a mark.
fn names_in(alloc: Global, text: &[u8], mark: u8) -> Result<Option<(Name, Name)>, Memory>
    requires { IsNameByte mark → ⊥ }
    ensures { IfOk result (λ found. MatchOption found
        ((b c : List ℕ) → IsName b → IsName c → b ++ mark ∷ c ≡ text.now → ⊥)
        (λ x. IsName x.0 × IsName x.1 × (x.0 ++ mark ∷ x.1 ≡ text.now))) }
{
    let (first, rest) = cut(text, mark);
    let Some(second) = rest else {
        return Ok(None);
    };
    let Some(first) = Name::read(alloc, first)? else {
        return Ok(None);
    };
    let Some(second) = Name::read(alloc, second)? else {
        return Ok(None);
    };
    Ok(Some((first, second)))
}

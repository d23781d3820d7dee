//! What a line of a sheet says.

ghost use Rattle.std.specs.Prelude.{◌≡◌, ℕ, ◌==◌, ◌∷◌, ⊤, List, Option, codes, IfOk, IfSome, MatchOption};
ghost use Rattle.std.specs.List.{slice_split};
ghost use Rattle.std.specs.Option.{option_copied};
ghost use Rattle.two_d.specs.Names.{IsName};
ghost use Rattle.two_d.specs.declared.command.Side.{Side as SideForm};
ghost use Rattle.type_sheet.specs.declared.line.Form.{Form as KindForm};
ghost use Rattle.type_sheet.specs.declared.line.Line.{Line as LineForm};
ghost use Rattle.type_sheet.specs.declared.line.Line.TheVariants.{Kind, Module, Wire, Of};
ghost use Rattle.type_sheet.specs.Lines.{IsLine, IsTextOf};
ghost use Rattle.type_sheet.specs.inner.Words.{words_read, entry_words, AreSaid, AreWordsOf};

use crate::line::Line;
use crate::tokens::{form_of, number_of, side_of};
use std::alloc::{AllocError, Global};
use two_d::Name;
use umix_base::Memory;

/// The line that a text writes, or `None` exactly where it has none of the forms.
pub(crate) fn line_at(alloc: Global, text: &[u8]) -> Result<Option<Line>, Memory>
    ensures { IfOk result (λ found. MatchOption found
        ((l : LineForm) → IsTextOf text.now l → ⊥) (IsTextOf text.now)) }
{
    let words = words_of(alloc, text)?;
    line_of(alloc, &words)
}

/// The parts of a text between spaces.
fn words_of(alloc: Global, text: &[u8]) -> Result<Vec<&[u8]>, AllocError>
    ensures { IfOk result (λ words. words_read words.items ≡ slice_split (λ b. b == 32) text.now) }
{
    text.split(|byte| *byte == b' ').collect(alloc)
}

/// The line of these words.
fn line_of(alloc: Global, words: &[&[u8]]) -> Result<Option<Line>, Memory>
    ensures { IfOk result (λ found. MatchOption found
        ((l : LineForm) → AreWordsOf (words_read words.now) l →
        ⊥) (AreWordsOf (words_read words.now))) }
{
    let [keyword, words @ ..] = words else {
        return Ok(None);
    };
    if *keyword == b"type".as_slice() {
        return kind_of(alloc, words);
    }
    if *keyword == b"module".as_slice() {
        return module_of(alloc, words);
    }
    if *keyword == b"wire".as_slice() {
        return wire_of(alloc, words);
    }
    if *keyword == b"of".as_slice() {
        return expression_of(alloc, words);
    }
    Ok(None)
}

/// `A = ..`
fn kind_of(alloc: Global, words: &[&[u8]]) -> Result<Option<Line>, Memory>
    ensures { IfOk result (λ found. MatchOption found
        ((a : List ℕ) (form : KindForm) → AreSaid (words_read words.now) (Kind a form) → ⊥)
        (λ l. AreWordsOf (codes "type" ∷ words_read words.now) l)) }
{
    let [name, equals, form] = words else {
        return Ok(None);
    };
    if *equals != b"=".as_slice() {
        return Ok(None);
    }
    let Some(name) = Name::read(alloc, name)? else {
        return Ok(None);
    };
    let Some(form) = form_of(alloc, form)? else {
        return Ok(None);
    };
    Ok(Some(Line::Kind(name, form)))
}

/// `M n A w B e C`, of which `n A` and `w B` may be missing
fn module_of(alloc: Global, words: &[&[u8]]) -> Result<Option<Line>, Memory>
    ensures { IfOk result (λ found. MatchOption found
        ((m : List ℕ) (n w : Option (List ℕ)) (e : List ℕ) →
        AreSaid (words_read words.now) (Module m n w e) → ⊥)
        (λ l. AreWordsOf (codes "module" ∷ words_read words.now) l)) }
{
    let [name, words @ ..] = words else {
        return Ok(None);
    };
    let (north, words) = entry_in(words, b"n");
    let (west, words) = entry_in(words, b"w");
    let [mark, kind] = words else {
        return Ok(None);
    };
    if *mark != b"e".as_slice() {
        return Ok(None);
    }
    module_named(alloc, name, north, west, kind)
}

/// The type behind the word of an entry, if the words begin with it, and the words behind.
fn entry_in<'a, 'b>(words: &'b [&'a [u8]], entry: &[u8]) -> (Option<&'a [u8]>, &'b [&'a [u8]])
    ensures words { words_read words.now
        ≡ entry_words entry.now (option_copied result.0) (words_read result.1.now) }
    ensures missing { MatchOption result.0
        ((a : List ℕ) (rest : List (List ℕ)) → words_read words.now
        ≡ entry.now ∷ a ∷ rest → ⊥) (λ _. ⊤) }
{
    let [word, kind, rest @ ..] = words else {
        return (None, words);
    };
    if *word != entry {
        return (None, words);
    }
    (Some(*kind), rest)
}

/// The line of a module and its types, if these are names.
fn module_named(
    alloc: Global,
    name: &[u8],
    north: Option<&[u8]>,
    west: Option<&[u8]>,
    kind: &[u8],
) -> Result<Option<Line>, Memory>
    ensures { let line = Module name.now (option_copied north.entry)
        (option_copied west.entry) kind.now in
        IfOk result (λ found. MatchOption found (IsLine line → ⊥) (λ l. (l ≡ line) × IsLine line)) }
{
    let Some(name) = Name::read(alloc, name)? else {
        return Ok(None);
    };
    let Some(north) = entry_named(alloc, north)? else {
        return Ok(None);
    };
    let Some(west) = entry_named(alloc, west)? else {
        return Ok(None);
    };
    let Some(kind) = Name::read(alloc, kind)? else {
        return Ok(None);
    };
    Ok(Some(Line::Module(name, north, west, kind)))
}

/// The type of an entry, if the entry is there, or `None` exactly where the type is no name.
fn entry_named(alloc: Global, entry: Option<&[u8]>) -> Result<Option<Option<Name>>, Memory>
    ensures { let kind = option_copied entry.entry in
        IfOk result (λ found. MatchOption found (IfSome kind IsName → ⊥)
        (λ name. (name ≡ kind) × IfSome kind IsName)) }
{
    let Some(kind) = entry else {
        return Ok(Some(None));
    };
    match Name::read(alloc, kind)? {
        Some(name) => Ok(Some(Some(name))),
        None => Ok(None),
    }
}

/// `M K S A` or `M K E A`
fn wire_of(alloc: Global, words: &[&[u8]]) -> Result<Option<Line>, Memory>
    ensures { IfOk result (λ found. MatchOption found
        ((m : List ℕ) (k : ℕ) (side : SideForm) (a : List ℕ) →
        AreSaid (words_read words.now) (Wire m k side a) → ⊥)
        (λ l. AreWordsOf (codes "wire" ∷ words_read words.now) l)) }
{
    let [name, number, side, kind] = words else {
        return Ok(None);
    };
    let Some(number) = number_of(number) else {
        return Ok(None);
    };
    let Some(side) = side_of(side) else {
        return Ok(None);
    };
    let Some(name) = Name::read(alloc, name)? else {
        return Ok(None);
    };
    let Some(kind) = Name::read(alloc, kind)? else {
        return Ok(None);
    };
    Ok(Some(Line::Wire(name, number, side, kind)))
}

/// `M K A`
fn expression_of(alloc: Global, words: &[&[u8]]) -> Result<Option<Line>, Memory>
    ensures { IfOk result (λ found. MatchOption found
        ((m : List ℕ) (k : ℕ) (a : List ℕ) → AreSaid (words_read words.now) (Of m k a) → ⊥)
        (λ l. AreWordsOf (codes "of" ∷ words_read words.now) l)) }
{
    let [name, number, kind] = words else {
        return Ok(None);
    };
    let Some(number) = number_of(number) else {
        return Ok(None);
    };
    let Some(name) = Name::read(alloc, name)? else {
        return Ok(None);
    };
    let Some(kind) = Name::read(alloc, kind)? else {
        return Ok(None);
    };
    Ok(Some(Line::Of(name, number, kind)))
}

ghost use Rattle.codex_gen.specs.Answers.{IsGenerated};
ghost use Rattle.codex_gen.specs.Generated.{form_texts, grid_of_number, main_texts, module_name};
ghost use Rattle.codex_gen.specs.Generated.{strip, value_of_number, words_after};
ghost use Rattle.grid_picture.specs.Lined.{lined};
ghost use Rattle.codex_gen.specs.inner.Rows.{next_text, texts_of};
ghost use Rattle.std.specs.Prelude.{◌≡◌, ◌+◌, ◌%◌, ◌++◌, ◌<◌, ◌∷◌, [], IfOk, OnOk, codes, decimal, false, true};

use crate::lines::push_strip;
use itoa::Buffer;
use rand_core::utils::NextWord;
use rand_pcg::Lcg64Xsh32;
use std::alloc::Global;
use umix_base::Memory;

/// The stream of the generator.
const STREAM: u64 = 54;

/// The words of the list that are handed out.
const LISTED: usize = 16;

/// The grid of a number: `main`, and 24 to 55 modules, each of which works on the value of the one
/// before it. docs/GENERATED.md, "The grid". Linear in its bytes.
///
/// # Errors
/// Only where there is no memory.
pub fn generate(alloc: Global, number: u64) -> Result<Vec<u8>, Memory>
    ensures grid { IfOk result (λ text. text.items ≡ grid_of_number number) }
    ensures program { IfOk result (λ text. IsGenerated text.items (value_of_number number)) }
{
    let mut words = Lcg64Xsh32::new(number, STREAM);
    let count = module_count(words.next_word());
    let mut text = Vec::new(alloc);
    push_main(alloc, &mut text)?;
    for i in 0..count {
        let form = words.next_word() % 5;
        push_module(alloc, &mut text, i, form, i + 1 < count)?;
    }
    Ok(text)
}

/// The 16 words that follow those of which the grid is made. docs/GENERATED.md, "The generator".
///
/// # Errors
/// Only where there is no memory.
pub fn list_words(alloc: Global, number: u64) -> Result<Vec<u32>, Memory>
    ensures { IfOk result (λ list. list.items ≡ words_after number) }
{
    let mut words = Lcg64Xsh32::new(number, STREAM);
    let count = module_count(words.next_word());
    for _ in 0..count {
        words.next_word();
    }
    let mut list = Vec::new(alloc);
    for _ in 0..LISTED {
        list.push(words.next_word())?;
    }
    Ok(list)
}

/// How many modules beside `main`: 24 to 55.
fn module_count(word: u32) -> u32
    ensures { result ≡ 24 + word % 32 }
{
    24 + word % 32
}

/// A word with a number behind it.
fn numbered(alloc: Global, word: &[u8], number: u32) -> Result<Vec<u8>, Memory>
    ensures { IfOk result (λ text. text.items ≡ word.now ++ decimal number) }
{
    let mut text = Vec::from_slice(alloc, word)?;
    let mut buffer = Buffer::new();
    text.extend_from_slice(buffer.format(number).as_bytes())?;
    Ok(text)
}

fn push_main(alloc: Global, text: &mut Vec<u8>) -> Result<(), Memory>
    ensures { OnOk result (text.new.items ≡ text.old.items
        ++ lined (strip (codes "main") false main_texts)) }
{
    let texts = two_texts(alloc, b"send[((),E)]", b"use m0")?;
    push_strip(text, b"main", false, &texts)
}

/// Module i of a form, which uses the next one or is the last.
fn push_module(
    alloc: Global,
    text: &mut Vec<u8>,
    i: u32,
    form: u32,
    goes_on: bool,
) -> Result<(), Memory>
    requires { i < 99 }
    ensures { OnOk result (text.new.items ≡ text.old.items
        ++ lined (strip (module_name i) true (form_texts form ++ next_text i goes_on))) }
{
    let name = numbered(alloc, b"m", i)?;
    let texts = module_texts(alloc, i, form, goes_on)?;
    push_strip(text, &name, true, &texts)
}

/// The texts of the boxes of module i.
fn module_texts(alloc: Global, i: u32, form: u32, goes_on: bool) -> Result<Vec<Vec<u8>>, Memory>
    requires { i < 99 }
    ensures { IfOk result
        (λ texts. texts_of texts.items ≡ form_texts form ++ next_text i goes_on) }
{
    let mut texts = form_texts(alloc, form)?;
    if goes_on {
        texts.push(numbered(alloc, b"use m", i + 1)?)?;
    }
    Ok(texts)
}

/// The texts of the boxes of a form.
fn form_texts(alloc: Global, form: u32) -> Result<Vec<Vec<u8>>, Memory>
    ensures { IfOk result (λ texts. texts_of texts.items ≡ form_texts form) }
{
    match form {
        0 => one_text(alloc, b"send[(Inl W,E)]"),
        1 => one_text(alloc, b"send[(Inr W,E)]"),
        2 => one_text(alloc, b"send[((W,()),E)]"),
        3 => two_texts(alloc, b"send[(Inr W,E)]", b"case W of E,E"),
        _ => two_texts(alloc, b"send[(((),W),E)]", b"split W"),
    }
}

fn two_texts(alloc: Global, first: &[u8], second: &[u8]) -> Result<Vec<Vec<u8>>, Memory>
    ensures { IfOk result (λ texts. texts_of texts.items ≡ first.now ∷ second.now ∷ []) }
{
    let mut texts = one_text(alloc, first)?;
    texts.push(Vec::from_slice(alloc, second)?)?;
    Ok(texts)
}

fn one_text(alloc: Global, text: &[u8]) -> Result<Vec<Vec<u8>>, Memory>
    ensures { IfOk result (λ texts. texts_of texts.items ≡ text.now ∷ []) }
{
    let mut texts = Vec::new(alloc);
    texts.push(Vec::from_slice(alloc, text)?)?;
    Ok(texts)
}

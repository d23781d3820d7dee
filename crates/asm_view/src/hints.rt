//! What a faulty line would have been.

ghost use Rattle.std.specs.Prelude.{◌≡◌};
ghost use Rattle.um_asm.specs.inner.TextParts.{head_read};
ghost use Rattle.asm_view.specs.Hints as plain;
ghost use Rattle.asm_view.specs.Hints.{form_at, head_hint, sentence_of, word_hint, word_of};

use um_asm::{AsmFault, Head};

/// A form of a line, by the word with which it begins.
#[derive(Clone, Copy, PartialEq, Eq, Debug)]
pub(crate) enum Form {
    Cmov,
    Index,
    Amend,
    Add,
    Mul,
    Div,
    Nand,
    Halt,
    Alloc,
    Abandon,
    Out,
    In,
    Load,
    Set,
    Word,
    Hex,
    Array,
    End,
}

/// All forms.
const FORMS: [Form; 18] = [
    Form::Cmov,
    Form::Index,
    Form::Amend,
    Form::Add,
    Form::Mul,
    Form::Div,
    Form::Nand,
    Form::Halt,
    Form::Alloc,
    Form::Abandon,
    Form::Out,
    Form::In,
    Form::Load,
    Form::Set,
    Form::Word,
    Form::Hex,
    Form::Array,
    Form::End,
];

impl Form {
    fn word(self) -> &'static [u8]
        ensures { result.now ≡ word_of self }
    {
        match self {
            Form::Cmov => b"cmov",
            Form::Index => b"index",
            Form::Amend => b"amend",
            Form::Add => b"add",
            Form::Mul => b"mul",
            Form::Div => b"div",
            Form::Nand => b"nand",
            Form::Halt => b"halt",
            Form::Alloc => b"alloc",
            Form::Abandon => b"abandon",
            Form::Out => b"out",
            Form::In => b"in",
            Form::Load => b"load",
            Form::Set => b"set",
            Form::Word => b".word",
            Form::Hex => b".hex",
            Form::Array => b".array",
            Form::End => b".end",
        }
    }

    fn sentence(self) -> &'static str
        ensures { result.now ≡ sentence_of self }
    {
        match self {
            Form::Cmov => "`cmov` takes three registers, as in `cmov r0, r1, r2`.",
            Form::Index => "`index` takes three registers, as in `index r0, r1, r2`.",
            Form::Amend => "`amend` takes three registers, as in `amend r0, r1, r2`.",
            Form::Add => "`add` takes three registers, as in `add r0, r1, r2`.",
            Form::Mul => "`mul` takes three registers, as in `mul r0, r1, r2`.",
            Form::Div => "`div` takes three registers, as in `div r0, r1, r2`.",
            Form::Nand => "`nand` takes three registers, as in `nand r0, r1, r2`.",
            Form::Halt => "`halt` takes nothing, as in `halt`.",
            Form::Alloc =>
                "`alloc` takes two registers, identifier and size, as in `alloc r0, r1`.",
            Form::Abandon => "`abandon` takes one register, as in `abandon r0`.",
            Form::Out => "`out` takes one register, as in `out r0`.",
            Form::In => "`in` takes one register, as in `in r0`.",
            Form::Load => "`load` takes two registers, array and offset, as in `load r0, r1`.",
            Form::Set => "`set` takes a register and a number or a name, as in `set r0, 65`.",
            Form::Word => "`.word` takes a number or a name, as in `.word 0x1f`.",
            Form::Hex =>
                "`.hex` takes eight digits a word, with nothing between, as in `.hex 00000041`.",
            Form::Array =>
                "`.array` takes a name, stands in no block and has no label; its block needs an `.end`.",
            Form::End => "`.end` takes nothing, ends a block and has no label.",
        }
    }
}

/// The form that a word begins.
fn form_at(word: &[u8]) -> Option<Form>
    ensures { result ≡ form_at word.now }
{
    FORMS.iter().copied().find(|form| form.word() == word)
}

/// The sentence for a line that begins with a word.
fn word_hint(form: Option<Form>) -> &'static str
    ensures { result.now ≡ word_hint form }
{
    match form {
        Some(form) => form.sentence(),
        None =>
            "No statement begins with this word; all are in lower case, and comments begin with `;`.",
    }
}

/// The sentence for a line that is of no form.
fn head_hint(head: Head<&[u8]>) -> &'static str
    ensures { result.now ≡ head_hint (head_read head.entry) }
{
    match head {
        Head::Unprintable =>
            "A byte of this line isn't printable ASCII: mostly a tab, or an accent in a comment.",
        Head::BadLabel =>
            "Before the `:` stands no label: one token, a letter first, as in `again: halt`.",
        Head::Word(word) => word_hint(form_at(word)),
    }
}

/// The sentence for a fault, on a line that begins so.
pub(crate) fn hint_of(fault: &AsmFault, head: Head<&[u8]>) -> &'static str
    ensures { result.now ≡ plain.hint_of fault.now (head_read head.entry) }
{
    match fault {
        AsmFault::BadLine(_) => head_hint(head),
        AsmFault::SameLabel(_) =>
            "An earlier line of the same scope defines this name; the first of them counts.",
        AsmFault::NoLabel(_) => "A name is used that is defined neither in this block nor outside.",
        AsmFault::ValueTooLarge(_) =>
            "A value is at most 33554431 in `set`, and 4294967295 in `.word`.",
        AsmFault::TooLong => "A text has at most 16,777,216 words.",
        AsmFault::Memory => "",
    }
}

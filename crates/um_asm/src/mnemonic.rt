//! The names of the operators' statements.

ghost use Rattle.std.specs.Prelude.{◌≡◌};
ghost use Rattle.um_asm.specs.Mnemonics.{mnemonic_text, mnemonic_at};

/// An operator's kind, as a statement names it.
#[derive(Clone, Copy, PartialEq, Eq, Debug)]
pub(crate) enum Mnemonic {
    Cmov,
    Index,
    Amend,
    Add,
    Mul,
    Div,
    Nand,
    Halt,
    Alloc,
    Abandon,
    Out,
    In,
    Load,
    Set,
}

/// All mnemonics, by the operators' numbers.
const ALL: [Mnemonic; 14] = [
    Mnemonic::Cmov,
    Mnemonic::Index,
    Mnemonic::Amend,
    Mnemonic::Add,
    Mnemonic::Mul,
    Mnemonic::Div,
    Mnemonic::Nand,
    Mnemonic::Halt,
    Mnemonic::Alloc,
    Mnemonic::Abandon,
    Mnemonic::Out,
    Mnemonic::In,
    Mnemonic::Load,
    Mnemonic::Set,
];

impl Mnemonic {
    pub(crate) fn text(self) -> &'static [u8]
        ensures { result.now ≡ mnemonic_text self }
    {
        match self {
            Mnemonic::Cmov => b"cmov",
            Mnemonic::Index => b"index",
            Mnemonic::Amend => b"amend",
            Mnemonic::Add => b"add",
            Mnemonic::Mul => b"mul",
            Mnemonic::Div => b"div",
            Mnemonic::Nand => b"nand",
            Mnemonic::Halt => b"halt",
            Mnemonic::Alloc => b"alloc",
            Mnemonic::Abandon => b"abandon",
            Mnemonic::Out => b"out",
            Mnemonic::In => b"in",
            Mnemonic::Load => b"load",
            Mnemonic::Set => b"set",
        }
    }

    /// The mnemonic that a word writes.
    pub(crate) fn read(word: &[u8]) -> Option<Mnemonic>
        ensures { result ≡ mnemonic_at word.now }
    {
        ALL.iter().copied().find(|mnemonic| mnemonic.text() == word)
    }
}

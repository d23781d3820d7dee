//! What a line of an assembly text says.

use um_word::Op;

/// A number, or what stands for one. `N` is a part of the text.
#[derive(Clone, Copy, Debug)]
pub(crate) enum Value<N> {
    /// The digits of a decimal number.
    Decimal(N),
    /// The digits behind `0x`.
    Hexadecimal(N),
    /// A label, which stands for a place.
    Label(N),
    /// The name of a block, whose number of words is meant.
    Length(N),
}

/// What gives words.
#[derive(Clone, Copy, Debug)]
pub(crate) enum Statement<N> {
    /// An operator without a value.
    Operator(Op),
    /// `set` with its register.
    SetTo(u32, Value<N>),
    Word(Value<N>),
    /// The digits of `.hex`, eight to a word.
    Hex(N),
}

/// A line of a right form.
#[derive(Clone, Copy, Debug)]
pub(crate) enum Line<N> {
    /// A label, a statement, both or nothing.
    Code(Option<N>, Option<Statement<N>>),
    /// The beginning of a block with its name.
    Array(N),
    /// The end of a block.
    End,
}

//! One operator of the machine, from a platter and to a platter.

ghost use Rattle.std.specs.Prelude.{◌≡◌, ◌/◌, ◌%◌, ◌^◌, ◌<◌, IfSome, Some};
ghost use Rattle.um_word.specs.Operators.{decode_word, encode_op, platter_of, IsEncodable};

/// An operator with its registers, in the order A, B, C of those that it uses. Registers are below 8.
/// See "The operators" in docs/MACHINE.md.
#[derive(Clone, Copy, PartialEq, Eq, Debug)]
pub enum Op {
    /// A becomes B unless C is 0.
    Move(u32, u32, u32),
    /// A becomes the platter at offset C of array B.
    Index(u32, u32, u32),
    /// The platter at offset B of array A becomes C.
    Amend(u32, u32, u32),
    /// A becomes B + C modulo 2^32.
    Add(u32, u32, u32),
    /// A becomes B * C modulo 2^32.
    Mul(u32, u32, u32),
    /// A becomes the unsigned quotient B / C.
    Div(u32, u32, u32),
    /// Each bit of A is 1 where the bit of B or of C is 0.
    Nand(u32, u32, u32),
    /// The machine halts.
    Halt,
    /// A new array of C platters, all 0; its identifier goes to B.
    Alloc(u32, u32),
    /// Array C is abandoned.
    Abandon(u32),
    /// The byte C is written.
    Out(u32),
    /// C becomes the next byte of the input, or 2^32 - 1 at its end.
    Input(u32),
    /// A duplicate of array B replaces array 0, and the finger becomes C.
    Load(u32, u32),
    /// A becomes the value, which is below 2^25.
    Set(u32, u32),
}

/// The operator of a platter, or `None` exactly where its number is 14 or 15. Takes no memory.
#[inline(always)]
pub fn decode(word: u32) -> Option<Op>
    ensures operator { result ≡ decode_word word }
    ensures registers { IfSome result IsEncodable }
{
    match word >> 28 {
        0 => Some(Op::Move(a(word), b(word), c(word))),
        1 => Some(Op::Index(a(word), b(word), c(word))),
        2 => Some(Op::Amend(a(word), b(word), c(word))),
        3 => Some(Op::Add(a(word), b(word), c(word))),
        4 => Some(Op::Mul(a(word), b(word), c(word))),
        5 => Some(Op::Div(a(word), b(word), c(word))),
        6 => Some(Op::Nand(a(word), b(word), c(word))),
        7 => Some(Op::Halt),
        8 => Some(Op::Alloc(b(word), c(word))),
        9 => Some(Op::Abandon(c(word))),
        10 => Some(Op::Out(c(word))),
        11 => Some(Op::Input(c(word))),
        12 => Some(Op::Load(b(word), c(word))),
        13 => Some(Op::Set((word >> 25) & 7, word & 0x1ff_ffff)),
        14 | 15 => None,
        _ => unreachable!(),
    }
}

// the number of register A
fn a(word: u32) -> u32
    ensures value { result ≡ word / 2 ^ 6 % 8 }
    ensures below { result < 8 }
{
    (word >> 6) & 7
}

// the number of register B
fn b(word: u32) -> u32
    ensures value { result ≡ word / 2 ^ 3 % 8 }
    ensures below { result < 8 }
{
    (word >> 3) & 7
}

// the number of register C
fn c(word: u32) -> u32
    ensures value { result ≡ word % 8 }
    ensures below { result < 8 }
{
    word & 7
}

/// The platter of an operator, in which unused bits are 0: decoding it gives the operator back.
/// Takes no memory.
pub fn encode(op: &Op) -> u32
    requires { IsEncodable op.now }
    ensures platter { result ≡ encode_op op.now }
    ensures decodes { decode_word result ≡ Some op.now }
{
    match *op {
        Op::Move(a, b, c) => platter(0, a, b, c),
        Op::Index(a, b, c) => platter(1, a, b, c),
        Op::Amend(a, b, c) => platter(2, a, b, c),
        Op::Add(a, b, c) => platter(3, a, b, c),
        Op::Mul(a, b, c) => platter(4, a, b, c),
        Op::Div(a, b, c) => platter(5, a, b, c),
        Op::Nand(a, b, c) => platter(6, a, b, c),
        Op::Halt => platter(7, 0, 0, 0),
        Op::Alloc(b, c) => platter(8, 0, b, c),
        Op::Abandon(c) => platter(9, 0, 0, c),
        Op::Out(c) => platter(10, 0, 0, c),
        Op::Input(c) => platter(11, 0, 0, c),
        Op::Load(b, c) => platter(12, 0, b, c),
        Op::Set(a, value) => (13 << 28) + (a << 25) + value,
    }
}

// the platter with an operator's number and registers, and no other bits
fn platter(number: u32, a: u32, b: u32, c: u32) -> u32
    requires number { number < 14 }
    requires a { a < 8 }
    requires b { b < 8 }
    requires c { c < 8 }
    ensures { result ≡ platter_of number a b c }
{
    (number << 28) + (a << 6) + (b << 3) + c
}

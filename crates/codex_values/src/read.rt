ghost use Rattle.std.specs.Prelude.{◌≡◌, ◌<◌, ℕ, List, length, IfOk};
ghost use Rattle.codex_values.specs.Store.{value_at, Keeps};
ghost use Rattle.codex_values.specs.Reading.{Reads, IsBadAt};
ghost use Rattle.codex_values.specs.inner.ReaderStates.{sign_of as sign_of_byte, fed, got, begun_by, ends};
ghost use Rattle.codex_values.specs.inner.ReaderStates.{mode_of, frames_of, IsStateIn, AreLevelsIn, IsAfter, IsWhole};
ghost use Rattle.codex_values.specs.declared.shape.Shape.{Shape};
ghost use Rattle.codex_values.specs.declared.read.Level.{Level};

use crate::{Shape, ValueStore};
use umix_base::Memory;

/// Why a text gave no value.
#[derive(Clone, Copy, PartialEq, Eq, Debug, Drop)]
pub enum ValueFault {
    /// No value is read. The number is the length of the longest prefix that begins some text of a
    /// value.
    Bad(usize),
    /// There was no memory.
    Memory,
}

impl From<Memory> for ValueFault {
    ghost use Rattle.codex_values.specs.declared.read.ValueFault.TheVariants.{Memory as NoMemory};

    ghost from_gives = { λ _ fault. fault ≡ NoMemory };

    fn from(_memory: Memory) -> ValueFault {
        ValueFault::Memory
    }
}

/// What a byte is to the texts of values.
#[derive(Clone, Copy)]
enum Sign {
    Space,
    Open,
    Close,
    Comma,
    LetterI,
    LetterN,
    LetterL,
    LetterR,
    /// No text of a value has such a byte.
    Other,
}

/// What the expression stands in that is being read.
#[derive(Clone, Copy)]
enum Level {
    Inl,
    Inr,
    /// Behind a `(`.
    Parens,
    /// Behind a `(`, the first part of a pair and a comma.
    Pair(usize),
}

/// What was read last.
#[derive(Clone, Copy)]
enum State {
    /// Nothing of an expression that has to follow.
    Need,
    /// A `(`.
    Opened,
    /// `I`, the beginning of a word.
    WordI,
    /// `In`, the beginning of a word.
    WordIn,
    /// A word, which ends here.
    Word,
    /// An expression.
    Got(usize),
}

fn sign_of(byte: u8) -> Sign
    ensures { result ≡ sign_of_byte byte }
{
    match byte {
        b' ' => Sign::Space,
        b'(' => Sign::Open,
        b')' => Sign::Close,
        b',' => Sign::Comma,
        b'I' => Sign::LetterI,
        b'n' => Sign::LetterN,
        b'l' => Sign::LetterL,
        b'r' => Sign::LetterR,
        _ => Sign::Other,
    }
}

/// The state after the first sign of an expression, or after a space before it.
fn begin(sign: Sign) -> Option<State>
    ensures { (nodes : List Shape) (levels : List Level) → AreLevelsIn nodes levels →
        IsAfter (begun_by (frames_of nodes levels) sign) nodes levels result }
{
    match sign {
        Sign::Space => Some(State::Need),
        Sign::Open => Some(State::Opened),
        Sign::LetterI => Some(State::WordI),
        _ => None,
    }
}

impl ValueStore {
    /// Reads an expression, by a stack of its own and in time linear in the text, and gives the place
    /// of its value. After a fault all nodes that stood still stand, and others may follow them.
    pub fn read_value(&mut self, text: &[u8]) -> Result<usize, ValueFault>
        ensures inside { IfOk result (λ at. at < length self.new) }
        ensures value { IfOk result (λ at. Reads text.now (value_at self.new at)) }
        ensures bad { (k : ℕ) → result ≡ Err (ValueFault.Bad k) → IsBadAt text.now k }
        ensures keeps { Keeps self.old self.new }
    {
        let mut levels = Vec::new(self.allocator());
        let mut state = State::Need;
        for (at, byte) in text.iter().enumerate() {
            match self.step(state, &mut levels, sign_of(*byte))? {
                Some(next) => state = next,
                None => return Err(ValueFault::Bad(at)),
            }
        }
        match self.finish(state, &mut levels)? {
            Some(at) => Ok(at),
            None => Err(ValueFault::Bad(text.len())),
        }
    }

    /// The state after one sign more, or `None` where no text of a value goes on so.
    fn step(
        &mut self,
        state: State,
        levels: &mut Vec<Level>,
        sign: Sign,
    ) -> Result<Option<State>, Memory>
        requires state { IsStateIn self.old state }
        requires levels { AreLevelsIn self.old levels.old.items }
        ensures next { IfOk result (IsAfter
            (fed (mode_of self.old state) (frames_of self.old levels.old.items) sign)
            self.new levels.new.items) }
        ensures keeps { Keeps self.old self.new }
    {
        match state {
            State::Need => Ok(begin(sign)),
            State::Opened => match sign {
                Sign::Space => Ok(Some(State::Opened)),
                Sign::Close => Ok(Some(State::Got(self.add(Shape::Unit)?))),
                _ => {
                    levels.push(Level::Parens)?;
                    Ok(begin(sign))
                }
            },
            State::WordI => match sign {
                Sign::LetterN => Ok(Some(State::WordIn)),
                _ => Ok(None),
            },
            State::WordIn => match sign {
                Sign::LetterL => {
                    levels.push(Level::Inl)?;
                    Ok(Some(State::Word))
                }
                Sign::LetterR => {
                    levels.push(Level::Inr)?;
                    Ok(Some(State::Word))
                }
                _ => Ok(None),
            },
            State::Word => match sign {
                Sign::LetterI => Ok(None),
                _ => Ok(begin(sign)),
            },
            State::Got(at) => match sign {
                Sign::Space => Ok(Some(State::Got(at))),
                _ => self.behind(at, levels, sign),
            },
        }
    }

    /// The state after a sign behind an expression, which isn't a space.
    fn behind(
        &mut self,
        mut at: usize,
        levels: &mut Vec<Level>,
        sign: Sign,
    ) -> Result<Option<State>, Memory>
        requires place { at < length self.old }
        requires levels { AreLevelsIn self.old levels.old.items }
        ensures next { IfOk result (IsAfter
            (got (value_at self.old at) (frames_of self.old levels.old.items) sign)
            self.new levels.new.items) }
        ensures keeps { Keeps self.old self.new }
    {
        while let Some(level) = levels.pop() {
            match level {
                Level::Inl => at = self.add(Shape::Inl(at))?,
                Level::Inr => at = self.add(Shape::Inr(at))?,
                Level::Parens => {
                    return match sign {
                        Sign::Close => Ok(Some(State::Got(at))),
                        Sign::Comma => {
                            levels.push(Level::Pair(at))?;
                            Ok(Some(State::Need))
                        }
                        _ => Ok(None),
                    };
                }
                Level::Pair(first) => {
                    return match sign {
                        Sign::Close => Ok(Some(State::Got(self.add(Shape::Pair(first, at))?))),
                        _ => Ok(None),
                    };
                }
            }
        }
        Ok(None)
    }

    /// The place of the value at the text's end, or `None` where the text is none of a value.
    fn finish(&mut self, state: State, levels: &mut Vec<Level>) -> Result<Option<usize>, Memory>
        requires state { IsStateIn self.old state }
        requires levels { AreLevelsIn self.old levels.old.items }
        ensures whole { IfOk result (IsWhole
            (ends (mode_of self.old state) (frames_of self.old levels.old.items)) self.new) }
        ensures keeps { Keeps self.old self.new }
    {
        let State::Got(mut at) = state else {
            return Ok(None);
        };
        while let Some(level) = levels.pop() {
            match level {
                Level::Inl => at = self.add(Shape::Inl(at))?,
                Level::Inr => at = self.add(Shape::Inr(at))?,
                Level::Parens | Level::Pair(_) => return Ok(None),
            }
        }
        Ok(Some(at))
    }
}

//! The lines of a session that are commands.

ghost use Rattle.std.specs.Prelude.{◌≡◌, ◌≤◌, ◌-◌, ◌^◌, ◌++◌, ◌∷◌, ℕ, codes, MatchOption};
ghost use Rattle.um_debug.specs.Commands.{IsCommandLine};
ghost use Rattle.um_debug.specs.inner.Numbers.{IsDecimal, HasNoSpace, IsPlace};

use itoa::Buffer;

/// The most cycles that a session may have made: 2^62.
pub(crate) const MOST_CYCLES: u64 = 4_611_686_018_427_387_904;

/// The most words that one line shows.
const MOST_WORDS: u64 = 64;

/// A word of an array, by the array's identifier and its offset there.
#[derive(Clone, Copy, PartialEq, Eq, Debug)]
pub(crate) struct WordPlace {
    pub(crate) id: u32,
    pub(crate) offset: u32,
}

/// What a line asks for. See "Commands" in docs/DEBUGGER.md.
#[derive(Clone, Copy, PartialEq, Eq, Debug)]
pub(crate) enum Command {
    /// Up to so many cycles.
    Step(u64),
    /// Up to so many cycles, to the first breakpoint or change.
    Go(u64),
    /// To set or remove the breakpoint at an offset of array 0.
    Breakpoint(u32),
    /// To set or remove the watch on a word.
    Watch(WordPlace),
    /// To show the registers.
    Registers,
    /// To show so many words from a place on.
    Words(WordPlace, u32),
    /// To show where the machine stands.
    Finger,
    /// To end the session.
    Quit,
}

/// The command that a line is, or `None` exactly where it is none.
pub(crate) fn command_of(line: &[u8]) -> Option<Command>
    ensures { MatchOption result ((command : Command) → IsCommandLine line.now command → ⊥)
        (IsCommandLine line.now) }
{
    let Ok(line) = str::from_utf8(line) else {
        return None;
    };
    match line.split_once(' ') {
        Some((name, numbers)) => with_numbers(name, numbers),
        None => of_one_word(line),
    }
}

// a command without numbers
fn of_one_word(line: &str) -> Option<Command>
    requires { HasNoSpace line.now }
    ensures { MatchOption result ((command : Command) → IsCommandLine line.now command → ⊥)
        (IsCommandLine line.now) }
{
    if line == "r" {
        return Some(Command::Registers);
    }
    if line == "f" {
        return Some(Command::Finger);
    }
    if line == "q" {
        return Some(Command::Quit);
    }
    None
}

// a command with this name and these numbers
fn with_numbers(name: &str, numbers: &str) -> Option<Command>
    requires { HasNoSpace name.now }
    ensures { MatchOption result
        ((command : Command) → IsCommandLine (name.now ++ 32 ∷ numbers.now) command → ⊥)
        (IsCommandLine (name.now ++ 32 ∷ numbers.now)) }
{
    if name == "s" {
        return Some(Command::Step(cycles_of(numbers)?));
    }
    if name == "c" {
        return Some(Command::Go(cycles_of(numbers)?));
    }
    if name == "b" {
        return Some(Command::Breakpoint(word_of(numbers)?));
    }
    if name == "w" {
        return Some(Command::Watch(place_of(numbers)?));
    }
    if name == "a" {
        return words_of(numbers);
    }
    None
}

// a number of cycles
fn cycles_of(word: &str) -> Option<u64>
    ensures { MatchOption result ((n : ℕ) → 1 ≤ n → IsDecimal (2 ^ 62) word.now n → ⊥)
        (λ n. (1 ≤ n) × IsDecimal (2 ^ 62) word.now n) }
{
    let cycles = number_of(word, MOST_CYCLES)?;
    if cycles == 0 {
        return None;
    }
    Some(cycles)
}

// a number of 32 bits
fn word_of(word: &str) -> Option<u32>
    ensures { MatchOption result ((n : ℕ) → IsDecimal (2 ^ 32 - 1) word.now n → ⊥)
        (IsDecimal (2 ^ 32 - 1) word.now) }
{
    let number = number_of(word, u32::MAX as u64)?;
    Some(number as u32)
}

// an identifier and an offset
fn place_of(numbers: &str) -> Option<WordPlace>
    ensures { MatchOption result ((place : WordPlace) → IsPlace numbers.now place → ⊥)
        (IsPlace numbers.now) }
{
    let (id, offset) = numbers.split_once(' ')?;
    Some(WordPlace {
        id: word_of(id)?,
        offset: word_of(offset)?,
    })
}

// the command that shows words, with these numbers
fn words_of(numbers: &str) -> Option<Command>
    ensures { MatchOption result
        ((command : Command) → IsCommandLine (codes "a " ++ numbers.now) command → ⊥)
        (IsCommandLine (codes "a " ++ numbers.now)) }
{
    let (id, others) = numbers.split_once(' ')?;
    let (offset, count) = others.split_once(' ')?;
    let place = WordPlace {
        id: word_of(id)?,
        offset: word_of(offset)?,
    };
    let count = number_of(count, MOST_WORDS)?;
    if count == 0 || place.offset as u64 + count > 1 << 32 {
        return None;
    }
    Some(Command::Words(place, count as u32))
}

// the number that a word writes in decimal, if it is at most this, or `None` exactly where it
// writes none
fn number_of(word: &str, most: u64) -> Option<u64>
    ensures { MatchOption result ((n : ℕ) → IsDecimal most word.now n → ⊥)
        (IsDecimal most word.now) }
{
    let Ok(number) = word.parse::<u64>() else {
        return None;
    };
    if number > most {
        return None;
    }
    let mut buffer = Buffer::new();
    if buffer.format(number) != word {
        return None;
    }
    Some(number)
}

//! The lines that the program prints on `err`.

ghost use Rattle.std.specs.Prelude.{◌≡◌};
ghost use Rattle.umix_base.specs.Causes.{HasCause, KeepsTelling};
ghost use Rattle.umix_base.specs.Streams.{Appends};
ghost use Rattle.codex_top.specs.Lines.{line_text, limit_name, limit_count, limit_number};
ghost use Rattle.codex_top.specs.Lines.{counted_name, status_of};

use crate::Status;
use crate::refusal::{After, Refusal};
use crate::sending::put_all;
use array_store::{MOST_ARRAYS, MOST_WORDS};
use itoa::Buffer;
use std::alloc::AllocFailed;
use um_machine::Stop;
use umix_base::{Failed, Memory, Sink};

/// A limit, and the number that there would be past it.
#[derive(Clone, Copy, PartialEq, Eq, Debug, Drop)]
pub enum Limit {
    /// Arrays without array 0.
    ArraysFull(u64),
    /// Words with array 0.
    WordsFull(u64),
}

/// What a budget counts.
#[derive(Clone, Copy, PartialEq, Eq, Debug, Drop)]
pub enum Counted {
    /// Cycles of the machine.
    Cycles,
    /// Events of an evaluation.
    Events,
    /// Command lines of a session.
    Lines,
}

/// Why a command's work isn't done, as a line tells it. See "Lines" in docs/COMMANDS.md.
#[derive(Debug, Drop)]
pub enum Line {
    /// The words are no command.
    Usage,
    /// A file of the command has a fault.
    Refused(Refusal),
    /// The machine failed in the cycle of this number, from 1.
    Fault(Stop, u64),
    /// The machine met a limit in the cycle of this number, from 1.
    Limited(Limit, u64),
    /// So many of these were made, and the work isn't over.
    Budget(u64, Counted),
    /// A file or the input couldn't be read.
    ReadFault,
    /// The output, a line or a file couldn't be written.
    WriteFault,
    /// There was no memory.
    NoMemory,
}

impl From<Memory> for Line {
    ghost use Rattle.codex_top.specs.declared.line.Line.TheVariants.{NoMemory};

    ghost from_gives = { λ _ line. line ≡ NoMemory };

    fn from(_memory: Memory) -> Line {
        Line::NoMemory
    }
}

impl<T: Drop> From<AllocFailed<T>> for Line {
    ghost use Rattle.codex_top.specs.declared.line.Line.TheVariants.{NoMemory};

    ghost from_gives = { λ _ line. line ≡ NoMemory };

    fn from(_failed: AllocFailed<T>) -> Line {
        Line::NoMemory
    }
}

impl Limit {
    fn name(&self) -> &'static str
        ensures { result.now ≡ limit_name self.now }
    {
        match self {
            Limit::ArraysFull(_) => "ArraysFull",
            Limit::WordsFull(_) => "WordsFull",
        }
    }

    fn count(&self) -> u64
        ensures { result ≡ limit_count self.now }
    {
        match self {
            Limit::ArraysFull(count) => *count,
            Limit::WordsFull(count) => *count,
        }
    }

    fn limit(&self) -> u64
        ensures { result ≡ limit_number self.now }
    {
        match self {
            Limit::ArraysFull(_) => MOST_ARRAYS,
            Limit::WordsFull(_) => MOST_WORDS,
        }
    }
}

impl Counted {
    fn name(&self) -> &'static str
        ensures { result.now ≡ counted_name self.now }
    {
        match self {
            Counted::Cycles => "cycles",
            Counted::Events => "events",
            Counted::Lines => "lines",
        }
    }
}

/// The pieces of the line that tells how the program is used.
const USAGE: &[&[u8]] = &[
    b"usage: check F | eval F [PICKS [N]] | trace F PICKS N | compile F OUT | run F [N]",
    b" | asm F OUT | dis F | debug F INPUT | selftest N | draw F | type F SHEET",
    b" | save F N OUT | resume F N\n",
];

impl Line {
    /// The line of a refusal with this number, this name, and this after the name.
    pub fn refused(number: u8, name: &'static str, after: After) -> Line
        ensures { result
            ≡ Line.Refused (record { number = number; name = name.now; after = after }) }
    {
        Line::Refused(Refusal::new(number, name, after))
    }

    /// The status that goes with the line.
    pub fn status(&self) -> Status
        ensures { result ≡ status_of self.now }
    {
        match self {
            Line::Usage => Status::Usage,
            Line::Refused(_) => Status::Refused,
            Line::Fault(..) => Status::MachineFault,
            Line::Limited(..) => Status::Limit,
            Line::Budget(..) => Status::Budget,
            Line::ReadFault => Status::ReadFault,
            Line::WriteFault => Status::WriteFault,
            Line::NoMemory => Status::Memory,
        }
    }

    /// Writes the line, with its LF. After `Failed` a beginning of it was written. Takes no memory.
    pub fn put<E: Sink>(&self, err: &mut E) -> Result<(), Failed>
        ensures appended { Appends (line_text self.now)
            (E.written err.old) (E.written err.new) result }
        ensures tells { KeepsTelling (E.written err.old) (E.written err.new) }
        ensures cause { HasCause (E.faults err.old) (E.faults err.new) result }
    {
        match self {
            Line::Usage => put_all(err, USAGE),
            Line::Refused(refusal) => refusal.put(err),
            Line::Fault(stop, cycle) => put_fault(err, stop, *cycle),
            Line::Limited(limit, cycle) => put_limit(err, limit, *cycle),
            Line::Budget(count, counted) => put_budget(err, *count, counted),
            Line::ReadFault => put_all(err, &[b"read fault\n"]),
            Line::WriteFault => put_all(err, &[b"write fault\n"]),
            Line::NoMemory => put_all(err, &[b"no memory\n"]),
        }
    }
}

fn put_fault<E: Sink>(err: &mut E, stop: &Stop, cycle: u64) -> Result<(), Failed>
    ensures appended { Appends (line_text (Line.Fault stop.now cycle))
        (E.written err.old) (E.written err.new) result }
    ensures tells { KeepsTelling (E.written err.old) (E.written err.new) }
    ensures cause { HasCause (E.faults err.old) (E.faults err.new) result }
{
    let mut buffer = Buffer::new();
    let name = stop.name().as_bytes();
    let cycle = buffer.format(cycle).as_bytes();
    put_all(err, &[b"fault ", name, b" at cycle ", cycle, b"\n"])
}

fn put_limit<E: Sink>(err: &mut E, limit: &Limit, cycle: u64) -> Result<(), Failed>
    ensures appended { Appends (line_text (Line.Limited limit.now cycle))
        (E.written err.old) (E.written err.new) result }
    ensures tells { KeepsTelling (E.written err.old) (E.written err.new) }
    ensures cause { HasCause (E.faults err.old) (E.faults err.new) result }
{
    let mut first = Buffer::new();
    let mut second = Buffer::new();
    let mut third = Buffer::new();
    let name = limit.name().as_bytes();
    let cycle = first.format(cycle).as_bytes();
    let count = second.format(limit.count()).as_bytes();
    let most = third.format(limit.limit()).as_bytes();
    put_all(
        err,
        &[
            b"limit ",
            name,
            b" at cycle ",
            cycle,
            b": ",
            count,
            b" over ",
            most,
            b"\n",
        ],
    )
}

fn put_budget<E: Sink>(err: &mut E, count: u64, counted: &Counted) -> Result<(), Failed>
    ensures appended { Appends (line_text (Line.Budget count counted.now))
        (E.written err.old) (E.written err.new) result }
    ensures tells { KeepsTelling (E.written err.old) (E.written err.new) }
    ensures cause { HasCause (E.faults err.old) (E.faults err.new) result }
{
    let mut buffer = Buffer::new();
    let count = buffer.format(count).as_bytes();
    let counted = counted.name().as_bytes();
    put_all(err, &[b"budget ", count, b" ", counted, b"\n"])
}

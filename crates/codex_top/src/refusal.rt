//! Why a file of a command is refused, and how it is told.

ghost use Rattle.std.specs.Prelude.{◌≡◌, ◌⊎◌, [], ◌∷◌, Some, IfOk, MatchOption, ⊤, codes, decimal};
ghost use Rattle.umix_base.specs.Causes.{HasCause, KeepsTelling};
ghost use Rattle.umix_base.specs.Streams.{Appends};
ghost use Rattle.std.specs.List.{concat};
ghost use Rattle.two_d.specs.Faults.{TextFault, number_and_place};
ghost use Rattle.type_sheet.specs.Fits.{IsThere, TellsPlace};
ghost use Rattle.module_table.specs.Answers.{answer_of};
ghost use Rattle.codex_top.specs.Lines.{refusal_pieces};
ghost use Rattle.codex_top.specs.declared.refusal.After.TheVariants.{InModule};
ghost use Rattle.codex_top.specs.Refusals.{after_name};
ghost use Rattle.codex_top.specs.Refusals as plain;

use crate::line::Line;
use crate::sending::put_all;
use grid_draw::DrawFault;
use itoa::Buffer;
use module_table::CheckFault;
use std::alloc::Global;
use std::marker::Model;
use two_d::{Name, Program};
use type_sheet::{At, SheetFault};
use um_asm::AsmFault;
use um_image::ImageFault;
use um_word::ScrollFault;
use umix_base::{Failed, Memory, Place, Sink};

/// What is told of a refusal after its name.
#[derive(Debug, Drop)]
pub enum After {
    /// Nothing.
    Nothing,
    /// The number of a line, or of bytes.
    Number(usize),
    /// A place in the file.
    At(Place),
    /// The name of a module.
    InModule(Name),
    /// The name of a module, and the number of a box of it from 1.
    InBox(Name, u64),
    /// The name of a module, and the number of an exit of it from 1.
    InExit(Name, u64),
}

impl After {
    /// A place where there is one.
    pub fn place(place: Option<Place>) -> After
        ensures { result ≡ after_name place }
    {
        match place {
            Some(place) => After::At(place),
            None => After::Nothing,
        }
    }
}

/// A fault of a file as it is told: its number, its name, and what comes after the name.
#[derive(Debug, Drop)]
pub struct Refusal {
    number: u8,
    name: &'static str,
    after: After,
}

impl Model for Refusal {
    ghost use Rattle.codex_top.specs.RefusalView.{RefusalView};

    ghost Value = { RefusalView };

    ghost view = { λ r. record { number = r.number; name = r.name.now; after = r.after } };
}

impl Refusal {
    /// The refusal with this number, this name, and this after the name.
    pub fn new(number: u8, name: &'static str, after: After) -> Refusal
        ensures { result ≡ record { number = number; name = name.now; after = after } }
    {
        Refusal {
            number,
            name,
            after,
        }
    }

    /// Writes the line of the refusal, with its LF. Takes no memory.
    pub fn put<E: Sink>(&self, err: &mut E) -> Result<(), Failed>
        ensures appended { Appends (concat (refusal_pieces self.now))
            (E.written err.old) (E.written err.new) result }
        ensures tells { KeepsTelling (E.written err.old) (E.written err.new) }
        ensures cause { HasCause (E.faults err.old) (E.faults err.new) result }
    {
        let mut first = Buffer::new();
        let mut second = Buffer::new();
        let mut third = Buffer::new();
        let number = first.format(self.number).as_bytes();
        let name = self.name.as_bytes();
        match &self.after {
            After::Nothing => put_all(err, &[b"refused ", number, b" ", name, b"\n"]),
            After::Number(count) => {
                let count = second.format(*count).as_bytes();
                put_all(err, &[b"refused ", number, b" ", name, b" ", count, b"\n"])
            }
            After::At(place) => {
                let row = second.format(place.row).as_bytes();
                let col = third.format(place.col).as_bytes();
                put_all(
                    err,
                    &[
                        b"refused ",
                        number,
                        b" ",
                        name,
                        b" at ",
                        row,
                        b":",
                        col,
                        b"\n",
                    ],
                )
            }
            After::InModule(module) => put_module(err, self.number, self.name, module),
            After::InBox(module, bx) => put_part(err, self.number, self.name, module, " ", *bx),
            After::InExit(module, exit) => {
                put_part(err, self.number, self.name, module, " exit ", *exit)
            }
        }
    }
}

// writes the line of a refusal that names a module
fn put_module<'a, E: Sink>(
    err: &mut E,
    number: u8,
    name: &'a str,
    module: &'a Name,
) -> Result<(), Failed>
    ensures appended { Appends (concat (refusal_pieces
        (record { number = number; name = name.now; after = InModule «module».now })))
        (E.written err.old) (E.written err.new) result }
    ensures tells { KeepsTelling (E.written err.old) (E.written err.new) }
    ensures cause { HasCause (E.faults err.old) (E.faults err.new) result }
{
    let mut first = Buffer::new();
    let number = first.format(number).as_bytes();
    let name = name.as_bytes();
    let module = module.bytes();
    put_all(err, &[b"refused ", number, b" ", name, b" ", module, b"\n"])
}

// writes the line of a refusal that names a module and, behind these bytes, a part by its number
fn put_part<'a, E: Sink>(
    err: &mut E,
    number: u8,
    name: &'a str,
    module: &'a Name,
    between: &'a str,
    part: u64,
) -> Result<(), Failed>
    ensures appended { Appends (concat (codes "refused " ∷ decimal number ∷ codes " " ∷ name.now
        ∷ codes " " ∷ «module».now ∷ between.now ∷ decimal part ∷ codes "\n" ∷ []))
        (E.written err.old) (E.written err.new) result }
    ensures tells { KeepsTelling (E.written err.old) (E.written err.new) }
    ensures cause { HasCause (E.faults err.old) (E.faults err.new) result }
{
    let mut first = Buffer::new();
    let mut second = Buffer::new();
    let number = first.format(number).as_bytes();
    let name = name.as_bytes();
    let module = module.bytes();
    let between = between.as_bytes();
    let part = second.format(part).as_bytes();
    put_all(
        err,
        &[
            b"refused ",
            number,
            b" ",
            name,
            b" ",
            module,
            between,
            part,
            b"\n",
        ],
    )
}

/// The line of a grid's fault: from 1 to 24.
pub fn grid_line(fault: CheckFault) -> Line
    requires { MatchOption (answer_of fault) ⊤
        (λ told. (f : TextFault) × (number_and_place f ≡ told)) }
    ensures told { (f : TextFault) → answer_of fault ≡ Some (number_and_place f) →
        result ≡ plain.grid_line f }
    ensures no_memory { fault ≡ CheckFault.Memory → result ≡ Line.NoMemory }
{
    match &fault {
        CheckFault::Memory => Line::NoMemory,
        CheckFault::Bad { number, place } => {
            Line::refused(*number, fault.name(), After::place(*place))
        }
    }
}

/// The line of a scroll's fault: 31 or 32.
impl From<ScrollFault> for Line {
    ghost use Rattle.codex_top.specs.Refusals.{scroll_line};

    ghost from_gives = { λ fault line. line ≡ scroll_line fault };

    fn from(fault: ScrollFault) -> Line {
        match fault {
            ScrollFault::Ragged(bytes) => Line::refused(31, "Ragged", After::Number(bytes)),
            ScrollFault::TooLong(_) => Line::refused(32, "ScrollTooLong", After::Nothing),
            ScrollFault::Memory => Line::NoMemory,
        }
    }
}

/// The line of an assembly text's fault: from 41 to 45.
impl From<AsmFault> for Line {
    ghost use Rattle.codex_top.specs.Refusals.{text_line};

    ghost from_gives = { λ fault line. line ≡ text_line fault };

    fn from(fault: AsmFault) -> Line {
        match fault {
            AsmFault::BadLine(line) => Line::refused(41, "BadLine", After::Number(line)),
            AsmFault::SameLabel(line) => Line::refused(42, "SameLabel", After::Number(line)),
            AsmFault::NoLabel(line) => Line::refused(43, "NoLabel", After::Number(line)),
            AsmFault::ValueTooLarge(line) => {
                Line::refused(44, "ValueTooLarge", After::Number(line))
            }
            AsmFault::TooLong => Line::refused(45, "TooManyWords", After::Nothing),
            AsmFault::Memory => Line::NoMemory,
        }
    }
}

/// The line of why a program isn't drawn: 61 or 62.
impl From<DrawFault> for Line {
    ghost use Rattle.codex_top.specs.Refusals.{drawing_line};

    ghost from_gives = { λ fault line. line ≡ drawing_line fault };

    fn from(fault: DrawFault) -> Line {
        match fault {
            DrawFault::TooWide(number) => Line::refused(61, "DrawTooWide", After::Number(number)),
            DrawFault::TooLong(size) => Line::refused(
                62,
                "DrawTooLong",
                After::Number(size as usize),
            ),
            DrawFault::Memory => Line::NoMemory,
        }
    }
}

/// The line of a fault of a sheet of types, or of a program against it: from 71 to 77.
pub fn sheet_line(alloc: Global, program: &Program, fault: SheetFault) -> Line
    requires { TellsPlace program.now fault }
    ensures { (result ≡ Line.NoMemory) ⊎ (result ≡ plain.sheet_line program.now fault) }
{
    match fault {
        SheetFault::TooLong => Line::refused(71, "SheetTooLong", After::Nothing),
        SheetFault::BadSheet(line) => Line::refused(72, "BadSheet", After::Number(line)),
        SheetFault::SameLine(line) => Line::refused(73, "SameLine", After::Number(line)),
        SheetFault::NoType(line) => Line::refused(74, "NoType", After::Number(line)),
        SheetFault::NoPlace(line) => Line::refused(75, "NoPlace", After::Number(line)),
        SheetFault::NoLine(at) => match after_at(alloc, program, at) {
            Ok(after) => Line::refused(76, "NoLine", after),
            Err(Memory) => Line::NoMemory,
        },
        SheetFault::Mismatch(at) => match after_at(alloc, program, at) {
            Ok(after) => Line::refused(77, "Mismatch", after),
            Err(Memory) => Line::NoMemory,
        },
        SheetFault::Memory => Line::NoMemory,
    }
}

// a place of a program, by the name of its module
fn after_at(alloc: Global, program: &Program, at: At) -> Result<After, Memory>
    requires { IsThere program.now at }
    ensures { IfOk result (λ after. after ≡ plain.after_at program.now at) }
{
    let modules = program.modules();
    match at {
        At::Module(module) => Ok(After::InModule(copy(alloc, &modules[module].name)?)),
        At::Bx(module, bx) => {
            let name = copy(alloc, &modules[module].name)?;
            Ok(After::InBox(name, bx as u64 + 1))
        }
        At::Exit(module, exit) => {
            let name = copy(alloc, &modules[module].name)?;
            Ok(After::InExit(name, exit as u64 + 1))
        }
    }
}

// the name once more
fn copy(alloc: Global, name: &Name) -> Result<Name, Memory>
    ensures { IfOk result (λ copy. copy ≡ name.now) }
{
    match Name::read(alloc, name.bytes())? {
        Some(copy) => Ok(copy),
        None => unreachable!(),
    }
}

/// The line of what is wrong with an image: 81 or 82.
impl From<ImageFault> for Line {
    ghost use Rattle.codex_top.specs.Refusals.{image_line};

    ghost from_gives = { λ fault line. line ≡ image_line fault };

    fn from(fault: ImageFault) -> Line {
        match fault {
            ImageFault::TooLong(_) => Line::refused(81, "ImageTooLong", After::Nothing),
            ImageFault::Bad(begun) => Line::refused(82, "BadImage", After::Number(begun)),
            ImageFault::Memory => Line::NoMemory,
        }
    }
}

/// The line of an assembly text of too many bytes: 46.
pub fn text_too_long() -> Line
    ensures { result ≡ plain.text_too_long }
{
    Line::refused(46, "TextTooLong", After::Nothing)
}

/// The line of an input of too many bytes: 51.
pub fn input_too_long() -> Line
    ensures { result ≡ plain.input_too_long }
{
    Line::refused(51, "InputTooLong", After::Nothing)
}

//! What a sheet says, looked up.

ghost use Rattle.std.specs.Prelude.{◌≡◌, ◌<◌, ◌^◌, IfOk};
ghost use Rattle.std.specs.Option.{option_map, option_and_then, option_copied};
ghost use Rattle.type_sheet.specs.Sheets.{IsSheet};
ghost use Rattle.type_sheet.specs.Said.{form_in};
ghost use Rattle.type_sheet.specs.Said.{module_line, wire_line, of_line};
ghost use Rattle.type_sheet.specs.inner.Subjects.{key_read, line_of, types_read, form_in_line};
ghost use Rattle.type_sheet.specs.inner.Subjects.{module_in_line, wire_in_line, of_in_line};
ghost use Rattle.type_sheet.specs.inner.Subjects.{IsIndexed};

use crate::index::{Index, Subject, port_of};
use crate::line::{Form, Line, SheetRow};
use std::alloc::{AllocError, Global};
use two_d::{Name, Side};

/// The types of a module's entries and of its result.
#[derive(Clone, Copy, Debug)]
pub(crate) struct ModuleTypes<'a> {
    pub north: Option<&'a [u8]>,
    pub west: Option<&'a [u8]>,
    pub result: &'a [u8],
}

/// The rows of a sheet, with the place of each declaration.
#[derive(Drop)]
pub(crate) struct Declared<'a> {
    rows: &'a [SheetRow],
    index: Index<'a>,
}

impl<'a> Declared<'a> {
    pub(crate) fn of(alloc: Global, rows: &'a [SheetRow]) -> Result<Declared<'a>, AllocError>
        requires { IsSheet rows.now }
        ensures { IfOk result (λ d. (d.rows.now ≡ rows.now) × IsIndexed d) }
    {
        let (index, _) = Index::of(alloc, rows)?;
        Ok(Declared { rows, index })
    }

    fn line(&self, subject: Subject<'a>) -> Option<&'a Line>
        requires { IsIndexed self.now }
        ensures { option_copied result ≡ line_of self.now.rows.now (key_read subject.entry) }
    {
        let place = self.index.get(subject)?;
        let row = self.rows.get(place)?;
        Some(&row.line)
    }

    /// What the values of a type are.
    pub(crate) fn form(&self, name: &'a [u8]) -> Option<&'a Form>
        requires { IsIndexed self.now }
        ensures { option_copied result ≡ form_in self.now.rows.now name.now }
    {
        form_in_line(self.line(Subject::Kind(name)))
    }

    /// The types of a module's entries and of its result.
    pub(crate) fn module(&self, name: &'a [u8]) -> Option<ModuleTypes<'a>>
        requires { IsIndexed self.now }
        ensures { option_map types_read result ≡ module_line self.now.rows.now name.now }
    {
        module_in_line(self.line(Subject::Module(name)))
    }

    /// The type of the wire from a side of a box, which counts from 0, by its line.
    pub(crate) fn wire(&self, module: &'a [u8], bx: usize, side: Side) -> Option<&'a [u8]>
        requires indexed { IsIndexed self.now }
        requires small { bx < 2 ^ 32 }
        ensures { option_copied result ≡ wire_line self.now.rows.now «module».now bx side }
    {
        wire_in_line(self.line(port_of(module, bx + 1, side)))
    }

    /// The type of the expression of a box, which counts from 0, by its line.
    pub(crate) fn expression(&self, module: &'a [u8], bx: usize) -> Option<&'a [u8]>
        requires indexed { IsIndexed self.now }
        requires small { bx < 2 ^ 32 }
        ensures { option_copied result ≡ of_line self.now.rows.now «module».now bx }
    {
        expression_in_line(self.line(Subject::Expression(module, bx + 1)))
    }
}

/// The type of an entry in the north, if there is one.
pub(crate) fn north_of<'a>(types: Option<ModuleTypes<'a>>) -> Option<&'a [u8]>
    ensures { option_copied result
        ≡ option_and_then (λ t. t.north) (option_map types_read types.entry) }
{
    match types {
        Some(types) => types.north,
        None => None,
    }
}

/// The type of an entry in the west, if there is one.
pub(crate) fn west_of<'a>(types: Option<ModuleTypes<'a>>) -> Option<&'a [u8]>
    ensures { option_copied result
        ≡ option_and_then (λ t. t.west) (option_map types_read types.entry) }
{
    match types {
        Some(types) => types.west,
        None => None,
    }
}

/// The type of the result.
pub(crate) fn result_of<'a>(types: Option<ModuleTypes<'a>>) -> Option<&'a [u8]>
    ensures { option_copied result
        ≡ option_map (λ t. t.result) (option_map types_read types.entry) }
{
    match types {
        Some(types) => Some(types.result),
        None => None,
    }
}

fn form_in_line(line: Option<&Line>) -> Option<&Form>
    ensures { option_copied result ≡ form_in_line (option_copied line.entry) }
{
    match line {
        Some(Line::Kind(_, form)) => Some(form),
        _ => None,
    }
}

fn module_in_line(line: Option<&Line>) -> Option<ModuleTypes<'_>>
    ensures { option_map types_read result ≡ module_in_line (option_copied line.entry) }
{
    match line {
        Some(Line::Module(_, north, west, result)) => Some(ModuleTypes {
            north: bytes_of(north),
            west: bytes_of(west),
            result: result.bytes(),
        }),
        _ => None,
    }
}

fn wire_in_line(line: Option<&Line>) -> Option<&[u8]>
    ensures { option_copied result ≡ wire_in_line (option_copied line.entry) }
{
    match line {
        Some(Line::Wire(_, _, _, kind)) => Some(kind.bytes()),
        _ => None,
    }
}

fn expression_in_line(line: Option<&Line>) -> Option<&[u8]>
    ensures { option_copied result ≡ of_in_line (option_copied line.entry) }
{
    match line {
        Some(Line::Of(_, _, kind)) => Some(kind.bytes()),
        _ => None,
    }
}

fn bytes_of(name: &Option<Name>) -> Option<&[u8]>
    ensures { option_copied result ≡ name.now }
{
    match name {
        Some(name) => Some(name.bytes()),
        None => None,
    }
}

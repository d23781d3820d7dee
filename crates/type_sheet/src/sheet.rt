//! Sheets of declared types.

ghost use Rattle.std.specs.Prelude.{◌≡◌, ◌++◌, List, Ok, IfOk, MatchResult};
ghost use Rattle.std.specs.List.{list_all};
ghost use Rattle.std.specs.Option.{option_to_list};
ghost use Rattle.std.specs.Str.Lines.{lines};
ghost use Rattle.two_d.specs.Reading.{each_from, Gives, Refuses, Then};
ghost use Rattle.type_sheet.specs.declared.line.SheetRow.{SheetRow as SheetRowForm};
ghost use Rattle.type_sheet.specs.Sheets.{Subject as SubjectForm, declares_anew, fault_of, row_of};
ghost use Rattle.type_sheet.specs.Sheets.{rows_from, sheet_of, types_used, uses_declared, IsSheet};
ghost use Rattle.type_sheet.specs.inner.Subjects.{has_kind, place_in, place_of};

use crate::fault::SheetFault;
use crate::index::{Index, Subject};
use crate::line::{Form, Line, SheetRow};
use crate::lines::first_line;
use crate::reading::line_at;
use std::alloc::Global;
use std::marker::Model;
use two_d::Name;

/// The most bytes of a sheet.
const MOST_SHEET_BYTES: usize = 262_144;

/// A sheet: each type that it uses is declared, and nothing is declared twice.
#[derive(Drop)]
pub struct Sheet {
    rows: Vec<SheetRow>,
}

impl Model for Sheet {
    ghost use Rattle.std.specs.Prelude.{List};
    ghost use Rattle.type_sheet.specs.declared.line.SheetRow.{SheetRow};
    ghost use Rattle.type_sheet.specs.Sheets.{IsSheet};

    ghost Value = { List SheetRow };

    ghost view = { λ sheet. sheet.rows.items };

    ghost invariant = { λ sheet. IsSheet sheet.rows.items };
}

impl Sheet {
    /// The lines that aren't empty. Takes no memory.
    pub fn rows(&self) -> &Vec<SheetRow>
        ensures rows { result.now.items ≡ self.now }
        ensures sheet { IsSheet self.now }
    {
        &self.rows
    }
}

/// The sheet of a text, or its first fault: it is too long, then a line of none of the forms, then
/// a line that
/// declares again, then a line that uses a type that isn't declared. See docs/TYPES.md, "The sheet"
/// and "Faults".
/// Linear in the text, but for looking names up.
pub fn read_sheet(alloc: Global, text: &[u8]) -> Result<Sheet, SheetFault>
    ensures { Gives (λ sheet. sheet) fault_of result (sheet_of text.now) }
{
    if text.len() > MOST_SHEET_BYTES {
        return Err(SheetFault::TooLong);
    }
    let rows = rows_of(alloc, text)?;
    check_rows(alloc, &rows)?;
    Ok(Sheet { rows })
}

/// The rows of the lines that aren't empty, or the first line of none of the forms.
fn rows_of(alloc: Global, text: &[u8]) -> Result<Vec<SheetRow>, SheetFault>
    ensures { Gives (λ rows. rows.items) fault_of result (rows_from 1 (lines text.now)) }
{
    let mut rows = Vec::new(alloc);
    let mut number = 1;
    let mut rest = text;
    while let Some((line, behind)) = first_line(rest) {
        push_row(alloc, &mut rows, number, line)?;
        number += 1;
        rest = behind;
    }
    Ok(rows)
}

/// Adds the row of a line, if the line isn't empty.
fn push_row(
    alloc: Global,
    rows: &mut Vec<SheetRow>,
    number: usize,
    text: &[u8],
) -> Result<(), SheetFault>
    ensures { MatchResult result
        (λ _. (read : List SheetRowForm) × row_of number text.now (Ok read)
        × (rows.new.items ≡ rows.old.items ++ read))
        (λ fault. Refuses (row_of number text.now) (fault_of fault)) }
{
    if text.is_empty() {
        return Ok(());
    }
    let Some(line) = line_at(alloc, text)? else {
        return Err(SheetFault::BadSheet(number));
    };
    rows.push(SheetRow { at: number, line })?;
    Ok(())
}

/// Nothing is declared twice, and each type that is used is declared.
fn check_rows(alloc: Global, rows: &[SheetRow]) -> Result<(), SheetFault>
    ensures { Gives (λ _. tt) fault_of result
        (Then (each_from (declares_anew rows.now) 0 rows.now)
        (λ _. each_from (λ _. uses_declared rows.now) 0 rows.now)) }
{
    let index = index_of(alloc, rows)?;
    check_types(&index, rows)
}

/// The index of rows of which none declares what an earlier one declares.
fn index_of<'a>(alloc: Global, rows: &'a [SheetRow]) -> Result<Index<'a>, SheetFault>
    ensures anew { Gives (λ _. tt) fault_of result (each_from (declares_anew rows.now) 0 rows.now) }
    ensures indexed { IfOk result (λ index.
        (s : SubjectForm) → place_in index.places s ≡ place_of rows.now s) }
{
    let (index, again) = Index::of(alloc, rows)?;
    match again {
        Some(place) => Err(SheetFault::SameLine(rows[place].at)),
        None => Ok(index),
    }
}

/// Each type that is used is declared.
fn check_types<'a>(index: &Index<'a>, rows: &'a [SheetRow]) -> Result<(), SheetFault>
    requires { (s : SubjectForm) → place_in index.now.places s ≡ place_of rows.now s }
    ensures { Gives (λ _. tt) fault_of result (each_from (λ _. uses_declared rows.now) 0 rows.now) }
{
    for row in rows {
        if !uses_declared(index, &row.line) {
            return Err(SheetFault::NoType(row.at));
        }
    }
    Ok(())
}

/// Whether each type that the line uses is declared.
fn uses_declared<'a>(index: &Index<'a>, line: &'a Line) -> bool
    ensures { result ≡ list_all (has_kind index.now) (types_used line.now) }
{
    match line {
        Line::Kind(_, Form::Unit) => true,
        Line::Kind(_, Form::Pair(first, second) | Form::Sum(first, second)) => {
            is_declared(index, first.bytes()) && is_declared(index, second.bytes())
        }
        Line::Module(_, north, west, result) => {
            is_entry_declared(index, north)
                && is_entry_declared(index, west)
                && is_declared(index, result.bytes())
        }
        Line::Wire(_, _, _, kind) => is_declared(index, kind.bytes()),
        Line::Of(_, _, kind) => is_declared(index, kind.bytes()),
    }
}

fn is_entry_declared<'a>(index: &Index<'a>, entry: &'a Option<Name>) -> bool
    ensures { result ≡ list_all (has_kind index.now) (option_to_list entry.now) }
{
    match entry {
        Some(name) => is_declared(index, name.bytes()),
        None => true,
    }
}

fn is_declared<'a>(index: &Index<'a>, name: &'a [u8]) -> bool
    ensures { result ≡ has_kind index.now name.now }
{
    index.get(Subject::Kind(name)).is_some()
}

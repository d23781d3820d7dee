//! Rows by what they declare.

ghost use Rattle.std.specs.Prelude.{◌≡◌, ◌<◌, ◌⊎◌, take, None, Some, IfOk, MatchOption};
ghost use Rattle.two_d.specs.declared.command.Side.TheVariants.{S, E};
ghost use Rattle.type_sheet.specs.declared.line.SheetRow.{SheetRow};
ghost use Rattle.type_sheet.specs.Sheets.{Subject as SubjectForm, port, expression, subject_of};
ghost use Rattle.type_sheet.specs.inner.Subjects.{FindsAgain, key_read, place_in, place_of};

use crate::line::{Line, SheetRow};
use std::alloc::{AllocError, Global};
use std::collections::HashMap;
use two_d::Side;

/// What a line can declare. A box counts from 1.
#[derive(Clone, Copy, PartialEq, Eq, Hash, Debug)]
pub(crate) enum Subject<'a> {
    /// A type.
    Kind(&'a [u8]),
    /// A module.
    Module(&'a [u8]),
    /// The wire from the south side of a box of a module.
    South(&'a [u8], usize),
    /// The wire from the east side of a box of a module.
    East(&'a [u8], usize),
    /// The expression of a box of a module.
    Expression(&'a [u8], usize),
}

/// The wire from a side of a box.
pub(crate) fn port_of(name: &[u8], number: usize, side: Side) -> Subject<'_>
    ensures { key_read result ≡ port name.now number side }
{
    match side {
        Side::S => Subject::South(name, number),
        Side::E => Subject::East(name, number),
    }
}

/// What the line declares.
fn subject_of(line: &Line) -> Subject<'_>
    ensures { key_read result ≡ subject_of line.now }
{
    match line {
        Line::Kind(name, _) => Subject::Kind(name.bytes()),
        Line::Module(name, _, _, _) => Subject::Module(name.bytes()),
        Line::Wire(name, number, side, _) => port_of(name.bytes(), *number as usize, *side),
        Line::Of(name, number, _) => Subject::Expression(name.bytes(), *number as usize),
    }
}

/// The places of rows by what they declare.
#[derive(Drop)]
pub(crate) struct Index<'a> {
    places: HashMap<Subject<'a>, usize>,
}

impl<'a> Index<'a> {
    /// The index of the rows, up to the first that declares what an earlier one declares, if there
    /// is one.
    pub(crate) fn of(
        alloc: Global,
        rows: &'a [SheetRow],
    ) -> Result<(Index<'a>, Option<usize>), AllocError>
        ensures again { IfOk result (λ found. FindsAgain rows.now found.1) }
        ensures places { IfOk result (λ found. MatchOption found.1
            ((s : SubjectForm) → place_in found.0.places s ≡ place_of rows.now s)
            (λ i. (s : SubjectForm) → place_in found.0.places s ≡ place_of (take i rows.now) s)) }
    {
        let mut places = HashMap::new(alloc);
        for place in 0..rows.len() {
            let subject = subject_of(&rows[place].line);
            if places.contains_key(&subject) {
                return Ok((Index { places }, Some(place)));
            }
            places.insert(subject, place)?;
        }
        Ok((Index { places }, None))
    }

    /// The place of the row that declares this, if there is one.
    pub(crate) fn get(&self, subject: Subject<'a>) -> Option<usize>
        ensures { result ≡ place_in self.now.places (key_read subject.entry) }
    {
        self.places.get(&subject).copied()
    }
}

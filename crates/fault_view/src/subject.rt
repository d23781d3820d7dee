//! What a page tells of the module or the box that a fault of the list of modules is about.

ghost use Rattle.std.specs.Prelude.{◌≡◌, ◌++◌, All, List, OnOk, length};
ghost use Rattle.two_d.specs.Faults.{TextFault, told_as};
ghost use Rattle.two_d.specs.Program.{Drawn};
ghost use Rattle.two_d.specs.Programs.{modules_of};
ghost use Rattle.two_d.specs.Sound.{IsSound};
ghost use Rattle.module_table.specs.Drawn.{AreModulesRead};
ghost use Rattle.fault_view.specs.Subjects.{AddsSubject, AddsTold, subject_of};

use crate::found::{find_box, find_module};
use crate::parts::{push_box_line, push_first, push_waiter};
use module_table::{CheckFault, Modules, drawn};
use std::alloc::Global;
use umix_base::{Memory, Place};

/// What a fault is about.
#[derive(Clone, Copy, PartialEq, Eq, Debug)]
pub(crate) enum Kind {
    /// A module that has the name of an earlier one.
    Namesake,
    /// A box.
    Box,
    /// A box that waits for itself.
    Waiter,
}

/// What a fault is about, and its upper left corner.
#[derive(Clone, Copy)]
pub(crate) struct Subject {
    pub(crate) kind: Kind,
    pub(crate) corner: Place,
}

/// What the fault with this number and place is about, if it is one of the list of modules.
pub(crate) fn subject_at(number: u8, place: Option<Place>) -> Option<Subject>
    ensures { (fault : TextFault) → (told_as fault).0 ≡ number → (told_as fault).2 ≡ place →
        result ≡ subject_of fault }
{
    let corner = place?;
    let kind = match number {
        16 => Kind::Namesake,
        19 | 20 | 21 => Kind::Box,
        22 => Kind::Waiter,
        _ => return None,
    };
    Some(Subject { kind, corner })
}

/// Adds what is told of the subject of a fault.
pub(crate) fn push_subject(
    alloc: Global,
    page: &mut Vec<u8>,
    text: &[u8],
    subject: Option<Subject>,
) -> Result<(), Memory>
    ensures { OnOk result (AddsSubject text.now subject page.old.items page.new.items) }
{
    let Some(subject) = subject else {
        return Ok(());
    };
    match drawn(alloc, text) {
        Ok(drawn) => push_told(page, text, &drawn, subject),
        Err(CheckFault::Memory) => Err(Memory),
        Err(CheckFault::Bad { .. }) => Ok(()),
    }
}

/// Adds what is told of a subject among the modules of a text.
fn push_told(
    page: &mut Vec<u8>,
    text: &[u8],
    drawn: &Modules,
    subject: Subject,
) -> Result<(), Memory>
    requires { All IsSound (modules_of drawn.now.modules.items) }
    ensures { (ds : List Drawn) → AreModulesRead drawn.now ds → OnOk result
        (AddsTold text.now ds subject.kind subject.corner page.old.items page.new.items) }
{
    match subject.kind {
        Kind::Namesake => match find_module(drawn, subject.corner) {
            Some(number) => push_first(page, text, drawn, number),
            None => Ok(()),
        },
        Kind::Box => match find_box(drawn, subject.corner) {
            Some(bx) => push_box_line(page, drawn, bx),
            None => Ok(()),
        },
        Kind::Waiter => match find_box(drawn, subject.corner) {
            Some(bx) => push_waiter(page, text, drawn, bx),
            None => Ok(()),
        },
    }
}

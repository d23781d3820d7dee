//! Which lines a program needs. No other lines are allowed.

ghost use Rattle.std.specs.Prelude.{◌≡◌, ◌-◌, ◌<◌, ◌^◌, ◌&&◌, ◌||◌, not, is_some, length};
ghost use Rattle.std.specs.Prelude.{slice_get, MatchOption, Some, None};
ghost use Rattle.std.specs.Option.{option_copied};
ghost use Rattle.two_d.specs.Programs.{find, module_of};
ghost use Rattle.two_d.specs.Trees.{form_of, tree_of};
ghost use Rattle.type_sheet.specs.Fits.{agree, says_type, is_port, needs_type, needs_wire};
ghost use Rattle.type_sheet.specs.Fits.{needs_of, has_place, has_lines, has_wire_line, has_of_line};
ghost use Rattle.type_sheet.specs.inner.Carried.{IsWiredOf, AreWiredOf};
ghost use Rattle.type_sheet.specs.inner.Subjects.{IsIndexed};

use crate::declared::Declared;
use crate::line::Line;
use crate::wired::Wired;
use two_d::{Command, Exp, Module, Name, Program, Side};

/// Whether the command itself says what the side carries.
fn says_type(command: &Command, side: Side) -> bool
    ensures { result ≡ says_type (form_of command.now) side }
{
    match command {
        Command::Send(_) => false,
        Command::Case(_, left, right) => *left == side || *right == side,
        Command::Split(_) => true,
        Command::Call(_) => side == Side::E,
    }
}

fn is_port(exp: &Exp) -> bool
    ensures { result ≡ is_port (tree_of exp.now) }
{
    matches!(exp, Exp::N | Exp::W)
}

/// Whether the side of the box needs a `wire` line.
pub(crate) fn needs_wire(module: &Module, wired: &Wired, bx: usize, side: Side) -> bool
    requires { IsWiredOf wired.now (module_of «module».now) }
    ensures { result ≡ needs_wire (module_of «module».now) bx side }
{
    bx < module.boxes.len() && wired.has(bx, side) && !says_type(&module.boxes[bx].command, side)
}

/// Whether the command has an expression whose type has to be declared.
fn needs_type(command: &Command) -> bool
    ensures { result ≡ needs_type (form_of command.now) }
{
    match command {
        Command::Case(exp, _, _) => !is_port(exp),
        Command::Split(exp) => !is_port(exp),
        _ => false,
    }
}

/// Whether the box needs an `of` line.
pub(crate) fn needs_of(module: &Module, bx: usize) -> bool
    ensures { result ≡ needs_of (module_of «module».now) bx }
{
    bx < module.boxes.len() && needs_type(&module.boxes[bx].command)
}

/// The number of the module of a name.
fn module_number(program: &Program, name: &Name) -> Option<usize>
    ensures { MatchOption result (slice_get program.now (find program.now name.now) ≡ None)
        (λ i. (find program.now name.now ≡ i) × (i < length program.now)) }
{
    program.find(name)
}

/// The module of a number.
pub(crate) fn module_at(program: &Program, number: usize) -> &Module
    requires { number < length program.now }
    ensures { slice_get program.now number ≡ Some (module_of result.now) }
{
    &program.modules()[number]
}

/// The number from 0.
fn from_zero(number: u32) -> usize
    ensures { result ≡ number - 1 }
{
    if number == 0 { 0 } else { number as usize - 1 }
}

/// Whether what the line speaks of is there, and the line is needed.
pub(crate) fn has_place(program: &Program, wired: &[Wired], line: &Line) -> bool
    requires { AreWiredOf wired.now program.now }
    ensures { result ≡ has_place program.now line.now }
{
    match line {
        Line::Kind(_, _) => true,
        Line::Module(name, north, west, _) => match module_number(program, name) {
            Some(number) => has_entries(module_at(program, number), north, west),
            None => false,
        },
        Line::Wire(name, bx, side, _) => match module_number(program, name) {
            Some(number) => needs_wire(
                module_at(program, number),
                &wired[number],
                from_zero(*bx),
                *side,
            ),
            None => false,
        },
        Line::Of(name, bx, _) => match module_number(program, name) {
            Some(number) => needs_of(module_at(program, number), from_zero(*bx)),
            None => false,
        },
    }
}

/// Whether the module has just these entries.
fn has_entries(module: &Module, north: &Option<Name>, west: &Option<Name>) -> bool
    ensures { result
        ≡ (agree (module_of «module».now).north (is_some north.now)
        && agree (module_of «module».now).west (is_some west.now)) }
{
    module.north == north.is_some() && module.west == west.is_some()
}

/// Whether a line is there where it is needed.
fn has_line(is_needed: bool, line: Option<&[u8]>) -> bool
    ensures { result ≡ (not is_needed || is_some (option_copied line.entry)) }
{
    !is_needed || line.is_some()
}

/// Whether the line for the wire from a side of the box is there, if it is needed.
fn has_wire_line<'a>(
    declared: &Declared<'a>,
    module: &'a Module,
    wired: &Wired,
    bx: usize,
    side: Side,
) -> bool
    requires indexed { IsIndexed declared.now }
    requires wired { IsWiredOf wired.now (module_of «module».now) }
    requires small { bx < 2 ^ 32 }
    ensures { result ≡ has_wire_line declared.now.rows.now (module_of «module».now) bx side }
{
    has_line(
        needs_wire(module, wired, bx, side),
        declared.wire(module.name.bytes(), bx, side),
    )
}

/// Whether the line for the expression of the box is there, if it is needed.
fn has_of_line<'a>(declared: &Declared<'a>, module: &'a Module, bx: usize) -> bool
    requires indexed { IsIndexed declared.now }
    requires small { bx < 2 ^ 32 }
    ensures { result ≡ has_of_line declared.now.rows.now (module_of «module».now) bx }
{
    has_line(
        needs_of(module, bx),
        declared.expression(module.name.bytes(), bx),
    )
}

/// Whether each line that the box needs is there.
pub(crate) fn has_lines<'a>(
    declared: &Declared<'a>,
    module: &'a Module,
    wired: &Wired,
    bx: usize,
) -> bool
    requires indexed { IsIndexed declared.now }
    requires wired { IsWiredOf wired.now (module_of «module».now) }
    requires small { bx < 2 ^ 32 }
    ensures { result ≡ has_lines declared.now.rows.now (module_of «module».now) bx }
{
    has_wire_line(declared, module, wired, bx, Side::S)
        && (has_wire_line(declared, module, wired, bx, Side::E)
            && has_of_line(declared, module, bx))
}

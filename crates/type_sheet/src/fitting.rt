//! Whether a program fits a sheet.

ghost use Rattle.std.specs.Prelude.{◌≡◌, ◌<◌, ◌^◌, IfOk, OnOk, length, All};
ghost use Rattle.std.specs.Option.{option_copied};
ghost use Rattle.type_sheet.specs.declared.fault.At.TheVariants.{Bx, Exit};
ghost use Rattle.type_sheet.specs.declared.fault.SheetFault.TheVariants.{Mismatch, NoLine};
ghost use Rattle.two_d.specs.Good.{IsGood};
ghost use Rattle.two_d.specs.Programs.{module_of, modules_of};
ghost use Rattle.two_d.specs.Reading.{Gives, each_from};
ghost use Rattle.two_d.specs.Sound.{IsKeptOrder, IsSound};
ghost use Rattle.type_sheet.specs.Sheets.{fault_of};
ghost use Rattle.type_sheet.specs.Fits.{fits_of, has_lines, wire_fits, lines_there, module_fits, places_there, want};
ghost use Rattle.type_sheet.specs.Safety.{IsSafe};
ghost use Rattle.type_sheet.specs.Sheets.{IsSheet};
ghost use Rattle.type_sheet.specs.inner.Carried.{types_in, AreWiredOf, IsWiredOf};
ghost use Rattle.type_sheet.specs.inner.Subjects.{IsIndexed};

use crate::declared::{Declared, result_of};
use crate::fault::{At, SheetFault};
use crate::line::SheetRow;
use crate::needs::{has_lines, has_place, module_at};
use crate::sheet::Sheet;
use crate::typing::WireTypes;
use crate::wired::Wired;
use std::alloc::{AllocError, Global};
use two_d::{BoxRow, Module, Origin, Program};

/// Whether the program fits the sheet: in no state of a program that fits is a box stuck by the
/// shape of a value,
/// each value on a wire has the wire's type, and the outcome is of main's result type or stuck by
/// results.
///
/// Or the first reason why not: a line that has no place in the program, then a line that is needed
/// and missing,
/// then a box or an exit whose rule fails. See docs/TYPES.md, "When a program fits" and "Faults".
/// Linear in the program and the sheet, but for looking names up.
pub fn fits(alloc: Global, program: &Program, sheet: &Sheet) -> Result<(), SheetFault>
    // Nothing is wrong, or the fault is the first that is, unless memory is wanting.
    ensures read { Gives (λ _. tt) fault_of result (fits_of program.now sheet.now) }
    // A program that fits is never stuck by a value of a wrong shape.
    ensures safe { OnOk result (IsSafe program.now sheet.now) }
{
    fits_rows(alloc, program, sheet.rows())
}

/// Whether the program fits the rows of a sheet.
fn fits_rows(alloc: Global, program: &Program, rows: &[SheetRow]) -> Result<(), SheetFault>
    requires { IsSheet rows.now }
    ensures read { Gives (λ _. tt) fault_of result (fits_of program.now rows.now) }
    ensures good { IsGood program.now }
{
    let wired = wired_of(alloc, program.modules())?;
    let declared = Declared::of(alloc, rows)?;
    check_places(program, &wired, rows)?;
    check_lines(&declared, program.modules(), &wired)?;
    check_rules(alloc, &declared, program, &wired)
}

/// From which sides wires begin, module by module.
fn wired_of(alloc: Global, modules: &[Module]) -> Result<Vec<Wired>, AllocError>
    ensures { IfOk result (λ wired. AreWiredOf wired.items (modules_of modules.now)) }
{
    let mut wired = Vec::new(alloc);
    for module in modules {
        wired.push(Wired::of(alloc, module)?)?;
    }
    Ok(wired)
}

/// Each line has a place.
fn check_places(program: &Program, wired: &[Wired], rows: &[SheetRow]) -> Result<(), SheetFault>
    requires { AreWiredOf wired.now program.now }
    ensures { Gives (λ _. tt) fault_of result (places_there program.now rows.now) }
{
    for row in rows {
        if !has_place(program, wired, &row.line) {
            return Err(SheetFault::NoPlace(row.at));
        }
    }
    Ok(())
}

/// Each line that is needed is there.
fn check_lines<'a>(
    declared: &Declared<'a>,
    modules: &'a [Module],
    wired: &[Wired],
) -> Result<(), SheetFault>
    requires indexed { IsIndexed declared.now }
    requires wired { AreWiredOf wired.now (modules_of modules.now) }
    requires sound { All IsSound (modules_of modules.now) }
    ensures { Gives (λ _. tt) fault_of result (each_from (lines_there declared.now.rows.now) 0
        (modules_of modules.now)) }
{
    for number in 0..modules.len() {
        check_module_lines(declared, &modules[number], &wired[number], number)?;
    }
    Ok(())
}

fn check_module_lines<'a>(
    declared: &Declared<'a>,
    module: &'a Module,
    wired: &Wired,
    number: usize,
) -> Result<(), SheetFault>
    requires indexed { IsIndexed declared.now }
    requires wired { IsWiredOf wired.now (module_of «module».now) }
    requires few { length (module_of «module».now).boxes < 2 ^ 32 }
    ensures { Gives (λ _. tt) fault_of result (lines_there declared.now.rows.now number
        (module_of «module».now)) }
{
    if declared.module(module.name.bytes()).is_none() {
        return Err(SheetFault::NoLine(At::Module(number)));
    }
    check_box_lines(declared, module, wired, &module.boxes, number)
}

/// Each line that boxes need is there.
fn check_box_lines<'a>(
    declared: &Declared<'a>,
    module: &'a Module,
    wired: &Wired,
    boxes: &[BoxRow],
    number: usize,
) -> Result<(), SheetFault>
    requires indexed { IsIndexed declared.now }
    requires wired { IsWiredOf wired.now (module_of «module».now) }
    requires few { length boxes.now < 2 ^ 32 }
    ensures { Gives (λ _. tt) fault_of result
        (each_from (λ b _. want (NoLine (Bx number b)) (has_lines declared.now.rows.now
        (module_of «module».now) b)) 0 boxes.now) }
{
    for bx in 0..boxes.len() {
        if !has_lines(declared, module, wired, bx) {
            return Err(SheetFault::NoLine(At::Bx(number, bx)));
        }
    }
    Ok(())
}

/// The rules hold.
fn check_rules<'a>(
    alloc: Global,
    declared: &Declared<'a>,
    program: &'a Program,
    wired: &[Wired],
) -> Result<(), SheetFault>
    requires indexed { IsIndexed declared.now }
    requires wired { AreWiredOf wired.now program.now }
    ensures { Gives (λ _. tt) fault_of result (each_from
        (module_fits declared.now.rows.now) 0 program.now) }
{
    for number in 0..module_count(program) {
        check_module(
            alloc,
            declared,
            module_at(program, number),
            program.order(number),
            &wired[number],
            number,
        )?;
    }
    Ok(())
}

fn module_count(program: &Program) -> usize
    ensures count { result ≡ length program.now }
    ensures good { IsGood program.now }
{
    program.modules().len()
}

/// The rules hold in a module: box by box in the kept order, and exit by exit.
fn check_module<'a>(
    alloc: Global,
    declared: &Declared<'a>,
    module: &'a Module,
    order: &[usize],
    wired: &Wired,
    number: usize,
) -> Result<(), SheetFault>
    requires indexed { IsIndexed declared.now }
    requires wired { IsWiredOf wired.now (module_of «module».now) }
    requires few { length (module_of «module».now).boxes < 2 ^ 32 }
    requires kept { IsKeptOrder (module_of «module».now) order.now }
    ensures { Gives (λ _. tt) fault_of result (module_fits declared.now.rows.now number
        (module_of «module».now)) }
{
    let mut types = WireTypes::of(alloc, declared, module)?;
    let boxes = module.boxes.as_slice();
    for bx in order {
        let row = &boxes[*bx];
        types.tell(declared, module, *bx, row);
        if !types.box_fits(declared, module, wired, *bx, row) {
            return Err(SheetFault::Mismatch(At::Bx(number, *bx)));
        }
    }
    let result = result_of(declared.module(module.name.bytes()));
    check_exits(&types, result, &module.exits, number)
}

/// The rule holds exit by exit.
fn check_exits<'a>(
    types: &WireTypes<'a>,
    kind: Option<&'a [u8]>,
    exits: &[Option<Origin>],
    number: usize,
) -> Result<(), SheetFault>
    ensures { Gives (λ _. tt) fault_of result
        (each_from (λ j exit. want (Mismatch (Exit number j)) (wire_fits (types_in types.now) exit
        (option_copied kind.entry))) 0 exits.now) }
{
    for exit in 0..exits.len() {
        if !types.wire_fits(exits[exit], kind) {
            return Err(SheetFault::Mismatch(At::Exit(number, exit)));
        }
    }
    Ok(())
}

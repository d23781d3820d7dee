//! From a list of modules to a good program.

ghost use Rattle.std.specs.Prelude.{◌≡◌, ◌<◌, ◌≤◌, ◌^◌, ◌↔◌, IsTrue, IfOk, length, map, All, Any};
ghost use Rattle.std.specs.Prelude.{Some};
ghost use Rattle.two_d.specs.Good.{names_in, HasInputsOf, IsUnwired, NamesN, NamesW, trees_of};
ghost use Rattle.two_d.specs.inner.NameLists.{listed};
ghost use Rattle.two_d.specs.Programs.{module_of, modules_of, box_of, main_of};
ghost use Rattle.two_d.specs.Reading.{Gives};
ghost use Rattle.two_d.specs.Sound.{IsSound};
ghost use Rattle.two_d.specs.Table.{HasEntry, UsesNone, UsesBadly, box_faults, table_of};
ghost use Rattle.two_d.specs.inner.TableParts.{IsFoundAs, names_of, start_of, boxes_of};
ghost use Rattle.two_d.specs.inner.TableParts.{all_boxes_of, uses_of, cycles_of};
ghost use Rattle.two_d.specs.inner.TableFaults.{wrong_of};
ghost use Rattle.two_d.specs.Trees.{form_of, tree_of};
ghost use Rattle.two_d.specs.inner.Orders.{AreOrdersKept};

use crate::names::{add_name, number_of};
use crate::order::kept_order;
use crate::ring::first_in_ring;
use crate::{BoxRow, Command, Exp, Module, Program, Side};
use indexmap::IndexSet;
use std::alloc::{AllocError, AllocFailed, Global};

/// What is wrong with a list of modules: modules and boxes by number, from 0.
#[derive(Debug, Drop)]
pub enum TableFault {
    /// The module has the name of an earlier one.
    SameName(usize),
    /// No module is named `main`.
    NoMain,
    /// The module `main` has an entry.
    MainHasInput(usize),
    /// The box uses a module that isn't there.
    NoModule(usize, usize),
    /// The box doesn't have just the wires that the module it uses has entries for.
    BadInputs(usize, usize),
    /// The box names an input that isn't wired.
    Unwired(usize, usize),
    /// The box reaches itself along wires, and is the first of its module that does.
    Cycle(usize, usize),
    /// There was no memory.
    Memory,
}

impl From<AllocError> for TableFault {
    ghost use Rattle.two_d.specs.declared.table.TableFault.TheVariants.{Memory};

    ghost from_gives = { λ _ e. e ≡ Memory };

    fn from(_error: AllocError) -> TableFault {
        TableFault::Memory
    }
}

impl<T: Drop> From<AllocFailed<T>> for TableFault {
    ghost use Rattle.two_d.specs.declared.table.TableFault.TheVariants.{Memory};

    ghost from_gives = { λ _ e. e ≡ Memory };

    fn from(_error: AllocFailed<T>) -> TableFault {
        TableFault::Memory
    }
}

/// All that can be wrong but cycles; gives the names by number, and the number of `main`.
fn check_uses(alloc: Global, modules: &[Module]) -> Result<(IndexSet<Vec<u8>>, usize), TableFault>
    requires { length modules.now < 2 ^ 32 }
    ensures read { Gives (λ _. tt) wrong_of result (uses_of (modules_of modules.now)) }
    ensures names { IfOk result (λ found. listed found.0 ≡ names_in (modules_of modules.now)) }
    ensures main { IfOk result (λ found. found.1 ≡ main_of (modules_of modules.now)) }
{
    let names = read_names(alloc, modules)?;
    let main = start(&names, modules)?;
    check_modules(&names, modules)?;
    Ok((names, main))
}

/// Checks the boxes of the modules, in order.
fn check_modules(names: &IndexSet<Vec<u8>>, modules: &[Module]) -> Result<(), TableFault>
    requires { listed names.now ≡ names_in (modules_of modules.now) }
    ensures { Gives (λ _. tt) wrong_of result (all_boxes_of (modules_of modules.now)) }
{
    for number in 0..modules.len() {
        check_boxes(names, modules, number, &modules[number].boxes)?;
    }
    Ok(())
}

/// The names of the modules, in order.
fn read_names(alloc: Global, modules: &[Module]) -> Result<IndexSet<Vec<u8>>, TableFault>
    ensures read { Gives (λ _. tt) wrong_of result (names_of (modules_of modules.now)) }
    ensures names { IfOk result (λ names. listed names ≡ names_in (modules_of modules.now)) }
{
    let mut names = IndexSet::new(alloc);
    for number in 0..modules.len() {
        let name = modules[number].name.bytes();
        match number_of(&names, name) {
            Some(_) => return Err(TableFault::SameName(number)),
            None => add_name(alloc, &mut names, name)?,
        }
    }
    Ok(names)
}

/// The number of `main`, which has no entry.
fn start(names: &IndexSet<Vec<u8>>, modules: &[Module]) -> Result<usize, TableFault>
    requires { listed names.now ≡ names_in (modules_of modules.now) }
    ensures read { Gives (λ _. tt) wrong_of result (start_of (modules_of modules.now)) }
    ensures main { IfOk result (λ main. main ≡ main_of (modules_of modules.now)) }
{
    match find_in(names, modules, b"main") {
        None => Err(TableFault::NoMain),
        Some(main) => {
            if has_entry(&modules[main]) {
                return Err(TableFault::MainHasInput(main));
            }
            Ok(main)
        }
    }
}

/// The number of the module of a name, if there is one.
fn find_in(names: &IndexSet<Vec<u8>>, modules: &[Module], name: &[u8]) -> Option<usize>
    requires { listed names.now ≡ names_in (modules_of modules.now) }
    ensures { IsFoundAs (modules_of modules.now) name.now result }
{
    number_of(names, name)
}

fn has_entry(module: &Module) -> bool
    ensures { IsTrue result ↔ HasEntry (module_of module.now) }
{
    module.north || module.west
}

/// Checks the boxes of a module, in order.
fn check_boxes(
    names: &IndexSet<Vec<u8>>,
    modules: &[Module],
    number: usize,
    boxes: &[BoxRow],
) -> Result<(), TableFault>
    requires { listed names.now ≡ names_in (modules_of modules.now) }
    ensures { Gives (λ _. tt) wrong_of result (boxes_of (modules_of modules.now) number (map box_of boxes.now)) }
{
    for bx in 0..boxes.len() {
        check_box(names, modules, number, bx, &boxes[bx])?;
    }
    Ok(())
}

/// Checks a box.
fn check_box(
    names: &IndexSet<Vec<u8>>,
    modules: &[Module],
    number: usize,
    bx: usize,
    row: &BoxRow,
) -> Result<(), TableFault>
    requires { listed names.now ≡ names_in (modules_of modules.now) }
    ensures { Gives (λ _. tt) wrong_of result (box_faults (modules_of modules.now) number bx (box_of row.now)) }
{
    if uses_none(names, modules, row) {
        return Err(TableFault::NoModule(number, bx));
    }
    if uses_badly(names, modules, row) {
        return Err(TableFault::BadInputs(number, bx));
    }
    if is_unwired(row) {
        return Err(TableFault::Unwired(number, bx));
    }
    Ok(())
}

/// Whether a box uses a module that isn't there.
fn uses_none(names: &IndexSet<Vec<u8>>, modules: &[Module], row: &BoxRow) -> bool
    requires { listed names.now ≡ names_in (modules_of modules.now) }
    ensures { IsTrue result ↔ UsesNone (modules_of modules.now) (box_of row.now) }
{
    match &row.command {
        Command::Call(name) => match find_in(names, modules, name.bytes()) {
            Some(_) => false,
            None => true,
        },
        _ => false,
    }
}

/// Whether the wires to a box aren't just those that the module it uses has entries for.
fn uses_badly(names: &IndexSet<Vec<u8>>, modules: &[Module], row: &BoxRow) -> bool
    requires names { listed names.now ≡ names_in (modules_of modules.now) }
    requires there { UsesNone (modules_of modules.now) (box_of row.now) → ⊥ }
    ensures { IsTrue result ↔ UsesBadly (modules_of modules.now) (box_of row.now) }
{
    match &row.command {
        Command::Call(name) => match find_in(names, modules, name.bytes()) {
            Some(number) => !has_inputs_of(row, &modules[number]),
            None => false,
        },
        _ => false,
    }
}

/// Whether the wires to a box are just those that a module has entries for.
fn has_inputs_of(row: &BoxRow, module: &Module) -> bool
    ensures { IsTrue result ↔ HasInputsOf (box_of row.now) (module_of module.now) }
{
    module.north == row.n.is_some() && module.west == row.w.is_some()
}

/// Whether an expression of a box names an input that isn't wired.
fn is_unwired(row: &BoxRow) -> bool
    ensures { IsTrue result ↔ IsUnwired (box_of row.now) }
{
    (row.n.is_none() && names_n(&row.command)) || (row.w.is_none() && names_w(&row.command))
}

fn names_n(command: &Command) -> bool
    ensures { IsTrue result ↔ Any NamesN (trees_of (form_of command.now)) }
{
    match command {
        Command::Send(outs) => outs_name_n(outs),
        Command::Case(value, _, _) => value_names_n(value),
        Command::Split(value) => value_names_n(value),
        Command::Call(_) => false,
    }
}

fn names_w(command: &Command) -> bool
    ensures { IsTrue result ↔ Any NamesW (trees_of (form_of command.now)) }
{
    match command {
        Command::Send(outs) => outs_name_w(outs),
        Command::Case(value, _, _) => value_names_w(value),
        Command::Split(value) => value_names_w(value),
        Command::Call(_) => false,
    }
}

fn outs_name_n(outs: &[(Exp, Side)]) -> bool
    ensures { IsTrue result ↔ Any (λ out. NamesN (tree_of out.0)) outs.now }
{
    for out in outs {
        if value_names_n(&out.0) {
            return true;
        }
    }
    false
}

fn outs_name_w(outs: &[(Exp, Side)]) -> bool
    ensures { IsTrue result ↔ Any (λ out. NamesW (tree_of out.0)) outs.now }
{
    for out in outs {
        if value_names_w(&out.0) {
            return true;
        }
    }
    false
}

fn value_names_n(value: &Exp) -> bool
    ensures { IsTrue result ↔ NamesN (tree_of value.now) }
{
    match value {
        Exp::N => true,
        Exp::Unit | Exp::W => false,
        Exp::Pair(first, second) => value_names_n(first) || value_names_n(second),
        Exp::Inl(inner) => value_names_n(inner),
        Exp::Inr(inner) => value_names_n(inner),
    }
}

fn value_names_w(value: &Exp) -> bool
    ensures { IsTrue result ↔ NamesW (tree_of value.now) }
{
    match value {
        Exp::W => true,
        Exp::Unit | Exp::N => false,
        Exp::Pair(first, second) => value_names_w(first) || value_names_w(second),
        Exp::Inl(inner) => value_names_w(inner),
        Exp::Inr(inner) => value_names_w(inner),
    }
}

/// The kept orders of the modules.
fn orders_of(alloc: Global, modules: &[Module]) -> Result<Vec<Vec<usize>>, TableFault>
    requires { All IsSound (modules_of modules.now) }
    ensures read { Gives (λ _. tt) wrong_of result (cycles_of (modules_of modules.now)) }
    ensures kept { IfOk result (λ orders. AreOrdersKept (modules_of modules.now) (length modules.now) orders.items) }
{
    let mut orders = Vec::new(alloc);
    for number in 0..modules.len() {
        let module = &modules[number];
        match kept_order(alloc, module)? {
            Some(order) => orders.push(order)?,
            None => return Err(TableFault::Cycle(number, first_in_ring(alloc, module)?)),
        }
    }
    Ok(orders)
}

/// The program of these modules, or the first of what is wrong with them: a name that an earlier module
/// has, no `main`, an entry of `main`; then box by box a use of no module, wires that don't fit the module
/// that is used, an input that is named and not wired; then the first box that reaches itself.
pub fn good_program(alloc: Global, modules: Vec<Module>) -> Result<Program, TableFault>
    requires few { length modules.items < 2 ^ 32 }
    requires sound { All IsSound (modules_of modules.items) }
    ensures { Gives (λ program. program) wrong_of result (table_of (modules_of modules.items)) }
{
    let (names, main) = check_uses(alloc, &modules)?;
    let orders = orders_of(alloc, &modules)?;
    Ok(Program::from_parts(modules, names, main, orders))
}

#[cfg(test)]
mod tests;

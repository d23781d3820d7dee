//! The types of wires and of expressions.

ghost use Rattle.std.specs.Prelude.{◌≡◌, ◌<◌, ◌^◌, IfOk, length, slice_index_or, None};
ghost use Rattle.std.specs.List.{list_all};
ghost use Rattle.std.specs.Option.{option_map, option_copied};
ghost use Rattle.two_d.specs.declared.module.Origin.{Origin as OriginForm};
ghost use Rattle.two_d.specs.Programs.{box_of, module_of};
ghost use Rattle.two_d.specs.Trees.{form_of, outs_of, tree_of};
ghost use Rattle.type_sheet.specs.Types.{expression_has, carries};
ghost use Rattle.type_sheet.specs.Said.{north_type, west_type};
ghost use Rattle.type_sheet.specs.Wires.{expression_type, origin_of, components_of, part};
ghost use Rattle.type_sheet.specs.Wires.{input_types, side_type, summands_of, type_to};
ghost use Rattle.type_sheet.specs.Fits.{command_fits, expression_fits, wire_fits, out_fits};
ghost use Rattle.type_sheet.specs.inner.Carried.{joined_fits, pair_read, inputs_read};
ghost use Rattle.type_sheet.specs.inner.Carried.{types_with_row, types_in, HasRoom, IsWiredOf};
ghost use Rattle.type_sheet.specs.inner.Subjects.{IsIndexed};

use crate::declared::{Declared, north_of, result_of, west_of};
use crate::line::Form;
use crate::wired::Wired;
use std::alloc::{AllocError, Global};
use two_d::{BoxRow, Command, Exp, Module, Origin, Side};

/// What the wires of a module carry, by where they begin, as far as it is known.
#[derive(Drop)]
pub(crate) struct WireTypes<'a> {
    north: Option<&'a [u8]>,
    west: Option<&'a [u8]>,
    souths: Vec<Option<&'a [u8]>>,
    easts: Vec<Option<&'a [u8]>>,
}

/// What the wires to the two ports of a box carry.
#[derive(Clone, Copy, Debug)]
pub(crate) struct InputTypes<'a> {
    north: Option<&'a [u8]>,
    west: Option<&'a [u8]>,
}

impl<'a> WireTypes<'a> {
    /// What the entries carry.
    pub(crate) fn of(
        alloc: Global,
        declared: &Declared<'a>,
        module: &'a Module,
    ) -> Result<WireTypes<'a>, AllocError>
        requires { IsIndexed declared.now }
        ensures room { IfOk result (λ types. HasRoom types (module_of «module».now)) }
        ensures north { IfOk result (λ types. option_copied types.north
            ≡ north_type declared.now.rows.now (module_of «module».now).name) }
        ensures west { IfOk result (λ types. option_copied types.west
            ≡ west_type declared.now.rows.now (module_of «module».now).name) }
    {
        let types = declared.module(module.name.bytes());
        Ok(WireTypes {
            north: north_of(types),
            west: west_of(types),
            souths: vec![in alloc; None; module.boxes.len()]?,
            easts: vec![in alloc; None; module.boxes.len()]?,
        })
    }

    /// What a wire carries.
    pub(crate) fn at(&self, origin: Origin) -> Option<&'a [u8]>
        ensures { option_copied result ≡ types_in self.now origin }
    {
        match origin {
            Origin::North => self.north,
            Origin::West => self.west,
            Origin::South(bx) => type_of(&self.souths, bx),
            Origin::East(bx) => type_of(&self.easts, bx),
        }
    }

    fn to(&self, origin: Option<Origin>) -> Option<&'a [u8]>
        ensures { option_copied result ≡ type_to (types_in self.now) origin }
    {
        match origin {
            Some(origin) => self.at(origin),
            None => None,
        }
    }

    fn ports(&self, row: &BoxRow) -> InputTypes<'a>
        ensures { inputs_read result ≡ input_types (types_in self.now) (box_of row.now) }
    {
        InputTypes {
            north: self.to(row.n),
            west: self.to(row.w),
        }
    }

    /// Notes what the sides of a box carry.
    pub(crate) fn tell(
        &mut self,
        declared: &Declared<'a>,
        module: &'a Module,
        bx: usize,
        row: &'a BoxRow,
    )
        requires indexed { IsIndexed declared.now }
        requires room { HasRoom self.old (module_of «module».now) }
        requires within { bx < length (module_of «module».now).boxes }
        requires small { bx < 2 ^ 32 }
        ensures room { HasRoom self.new (module_of «module».now) }
        ensures types { (o : OriginForm) → types_in self.new o
            ≡ types_with_row declared.now.rows.now (module_of «module».now).name
            (types_in self.old) bx (box_of row.now) o }
    {
        let name = module.name.bytes();
        let ports = self.ports(row);
        let south = side_type(declared, name, bx, ports, &row.command, Side::S);
        let east = side_type(declared, name, bx, ports, &row.command, Side::E);
        self.souths[bx] = south;
        self.easts[bx] = east;
    }

    /// Whether the rule of a box holds.
    pub(crate) fn box_fits(
        &self,
        declared: &Declared<'a>,
        module: &'a Module,
        wired: &Wired,
        bx: usize,
        row: &'a BoxRow,
    ) -> bool
        requires indexed { IsIndexed declared.now }
        requires wired { IsWiredOf wired.now (module_of «module».now) }
        requires within { bx < length (module_of «module».now).boxes }
        requires small { bx < 2 ^ 32 }
        ensures { result
            ≡ command_fits declared.now.rows.now (module_of «module».now) bx (types_in self.now)
            (box_of row.now) (form_of row.now.command) }
    {
        let name = module.name.bytes();
        let ports = self.ports(row);
        match &row.command {
            Command::Send(outs) => self.outs_fit(declared, module, wired, bx, ports, outs),
            Command::Case(exp, left, right) => {
                expression_fits(
                    declared,
                    ports,
                    exp,
                    expression_type(declared, name, bx, ports, exp),
                ) && sum_fits(
                    summands_of(declared, name, bx, ports, exp),
                    *left == *right && wired.has(bx, *left),
                )
            }
            Command::Split(exp) => {
                expression_fits(
                    declared,
                    ports,
                    exp,
                    expression_type(declared, name, bx, ports, exp),
                ) && components_of(declared, name, bx, ports, exp).is_some()
            }
            Command::Call(name) => {
                let types = declared.module(name.bytes());
                self.wire_fits(row.n, north_of(types)) && self.wire_fits(row.w, west_of(types))
            }
        }
    }

    /// Whether all that a `send` sends, where a wire begins, has the wire's type.
    fn outs_fit(
        &self,
        declared: &Declared<'a>,
        module: &'a Module,
        wired: &Wired,
        bx: usize,
        ports: InputTypes<'a>,
        outs: &[(Exp, Side)],
    ) -> bool
        requires indexed { IsIndexed declared.now }
        requires wired { IsWiredOf wired.now (module_of «module».now) }
        requires within { bx < length (module_of «module».now).boxes }
        ensures { result
            ≡ list_all (out_fits declared.now.rows.now (module_of «module».now) bx
            (types_in self.now) (inputs_read ports.entry)) (outs_of outs.now) }
    {
        for out in outs {
            if !self.out_fits(declared, module, wired, bx, ports, out) {
                return false;
            }
        }
        true
    }

    fn out_fits(
        &self,
        declared: &Declared<'a>,
        _module: &'a Module,
        wired: &Wired,
        bx: usize,
        ports: InputTypes<'a>,
        out: &(Exp, Side),
    ) -> bool
        requires indexed { IsIndexed declared.now }
        requires wired { IsWiredOf wired.now (module_of _module.now) }
        requires within { bx < length (module_of _module.now).boxes }
        ensures { result
            ≡ out_fits declared.now.rows.now (module_of _module.now) bx (types_in self.now)
            (inputs_read ports.entry) (tree_of out.now.0, out.now.1) }
    {
        let (exp, side) = out;
        !wired.has(bx, *side)
            || expression_fits(declared, ports, exp, self.at(origin_of(bx, *side)))
    }

    /// Whether a wire, if it is there, carries this type.
    pub(crate) fn wire_fits(&self, origin: Option<Origin>, kind: Option<&'a [u8]>) -> bool
        ensures { result ≡ wire_fits (types_in self.now) origin (option_copied kind.entry) }
    {
        match (origin, kind) {
            (None, _) => true,
            (Some(origin), Some(kind)) => carries(self.at(origin), kind),
            (Some(_), None) => false,
        }
    }
}

fn type_of<'a>(types: &[Option<&'a [u8]>], bx: usize) -> Option<&'a [u8]>
    ensures { result ≡ slice_index_or types.now bx None }
{
    if bx < types.len() { types[bx] } else { None }
}

fn origin_of(bx: usize, side: Side) -> Origin
    ensures { result ≡ origin_of bx side }
{
    match side {
        Side::S => Origin::South(bx),
        Side::E => Origin::East(bx),
    }
}

fn carries<'a>(carried: Option<&'a [u8]>, kind: &'a [u8]) -> bool
    ensures { result ≡ carries (option_copied carried.entry) kind.now }
{
    match carried {
        Some(carried) => carried == kind,
        None => false,
    }
}

/// Whether the expression has the type.
fn expression_has<'a>(
    declared: &Declared<'a>,
    ports: InputTypes<'a>,
    exp: &Exp,
    kind: &'a [u8],
) -> bool
    requires { IsIndexed declared.now }
    ensures { result
        ≡ expression_has declared.now.rows.now (inputs_read ports.entry)
        (tree_of exp.now) kind.now }
{
    match exp {
        Exp::N => carries(ports.north, kind),
        Exp::W => carries(ports.west, kind),
        Exp::Unit => matches!(declared.form(kind), Some(Form::Unit)),
        Exp::Pair(first, second) => match declared.form(kind) {
            Some(Form::Pair(one, other)) => {
                expression_has(declared, ports, first, one.bytes())
                    && expression_has(declared, ports, second, other.bytes())
            }
            _ => false,
        },
        Exp::Inl(inner) => match declared.form(kind) {
            Some(Form::Sum(one, _)) => expression_has(declared, ports, inner, one.bytes()),
            _ => false,
        },
        Exp::Inr(inner) => match declared.form(kind) {
            Some(Form::Sum(_, other)) => expression_has(declared, ports, inner, other.bytes()),
            _ => false,
        },
    }
}

fn expression_fits<'a>(
    declared: &Declared<'a>,
    ports: InputTypes<'a>,
    exp: &Exp,
    kind: Option<&'a [u8]>,
) -> bool
    requires { IsIndexed declared.now }
    ensures { result
        ≡ expression_fits declared.now.rows.now (inputs_read ports.entry) (tree_of exp.now)
        (option_copied kind.entry) }
{
    match kind {
        Some(kind) => expression_has(declared, ports, exp, kind),
        None => false,
    }
}

/// The type of the expression of a box: that of the wire to the port that it names, or that of its
/// line.
fn expression_type<'a>(
    declared: &Declared<'a>,
    module: &'a [u8],
    bx: usize,
    ports: InputTypes<'a>,
    exp: &Exp,
) -> Option<&'a [u8]>
    requires indexed { IsIndexed declared.now }
    requires small { bx < 2 ^ 32 }
    ensures { option_copied result
        ≡ expression_type declared.now.rows.now «module».now bx (inputs_read ports.entry)
        (tree_of exp.now) }
{
    match exp {
        Exp::N => ports.north,
        Exp::W => ports.west,
        _ => declared.expression(module, bx),
    }
}

/// The two types of the sum that the expression of a box is.
fn summands_of<'a>(
    declared: &Declared<'a>,
    module: &'a [u8],
    bx: usize,
    ports: InputTypes<'a>,
    exp: &Exp,
) -> Option<(&'a [u8], &'a [u8])>
    requires indexed { IsIndexed declared.now }
    requires small { bx < 2 ^ 32 }
    ensures { option_map pair_read result
        ≡ summands_of declared.now.rows.now «module».now bx (inputs_read ports.entry)
        (tree_of exp.now) }
{
    match declared.form(expression_type(declared, module, bx, ports, exp)?) {
        Some(Form::Sum(one, other)) => Some((one.bytes(), other.bytes())),
        _ => None,
    }
}

/// The two types of the pairs that the expression of a box is.
fn components_of<'a>(
    declared: &Declared<'a>,
    module: &'a [u8],
    bx: usize,
    ports: InputTypes<'a>,
    exp: &Exp,
) -> Option<(&'a [u8], &'a [u8])>
    requires indexed { IsIndexed declared.now }
    requires small { bx < 2 ^ 32 }
    ensures { option_map pair_read result
        ≡ components_of declared.now.rows.now «module».now bx (inputs_read ports.entry)
        (tree_of exp.now) }
{
    match declared.form(expression_type(declared, module, bx, ports, exp)?) {
        Some(Form::Pair(one, other)) => Some((one.bytes(), other.bytes())),
        _ => None,
    }
}

/// Where both outputs of a `case` go to one wire, the types of the sum are the same.
fn sum_fits<'a>(types: Option<(&'a [u8], &'a [u8])>, is_joined: bool) -> bool
    ensures { result ≡ joined_fits (option_map pair_read types.entry) is_joined }
{
    match types {
        Some((one, other)) => !is_joined || carries(Some(one), other),
        None => false,
    }
}

fn part<'a>(side: Side, types: Option<(&'a [u8], &'a [u8])>) -> Option<&'a [u8]>
    ensures { option_copied result ≡ part side (option_map pair_read types.entry) }
{
    let (one, other) = types?;
    match side {
        Side::S => Some(one),
        Side::E => Some(other),
    }
}

/// What the side of a box carries.
fn side_type<'a>(
    declared: &Declared<'a>,
    module: &'a [u8],
    bx: usize,
    ports: InputTypes<'a>,
    command: &'a Command,
    side: Side,
) -> Option<&'a [u8]>
    requires indexed { IsIndexed declared.now }
    requires small { bx < 2 ^ 32 }
    ensures { option_copied result
        ≡ side_type declared.now.rows.now «module».now bx (inputs_read ports.entry)
        (form_of command.now) side }
{
    match command {
        Command::Send(_) => declared.wire(module, bx, side),
        Command::Case(exp, left, right) => {
            let types = summands_of(declared, module, bx, ports, exp);
            if *left == side {
                part(Side::S, types)
            } else if *right == side {
                part(Side::E, types)
            } else {
                declared.wire(module, bx, side)
            }
        }
        Command::Split(exp) => part(side, components_of(declared, module, bx, ports, exp)),
        Command::Call(name) => match side {
            Side::S => declared.wire(module, bx, side),
            Side::E => result_of(declared.module(name.bytes())),
        },
    }
}

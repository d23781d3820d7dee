//! The numbers of a module's drawing.

ghost use Rattle.std.specs.Prelude.{◌≡◌, ◌+◌, ◌*◌, ◌<◌, ◌≤◌, ◌∷◌};
ghost use Rattle.std.specs.Prelude.{◌++◌, [], IfOk, OnOk, length, map};
ghost use Rattle.two_d.specs.Programs.{box_of, module_of};
ghost use Rattle.grid_draw.specs.Layout as layouts;
ghost use Rattle.grid_draw.specs.Layout.{box_wires, exit_wires, wire_to};
ghost use Rattle.grid_draw.specs.inner.Layouts.{IsEndOf, IsFit, IsLayout, module_in, wire_of};
ghost use Rattle.grid_draw.specs.inner.Sizes.{size_of};

use box_parse::show;
use std::alloc::Global;
use two_d::{BoxRow, Module, Origin, To};
use umix_base::Memory;

/// A wire: where it begins and where it ends.
#[derive(Clone, Copy, PartialEq, Eq, Debug)]
pub struct Wire {
    pub from: Origin,
    pub to: To,
}

/// A module, and the numbers of its drawing.
#[derive(Drop)]
pub struct Layout<'a> {
    pub module: &'a Module,
    /// The texts of the boxes.
    pub texts: Vec<Vec<u8>>,
    /// The wires, in the order of their tracks.
    pub wires: Vec<Wire>,
    /// How far the name and the boxes reach to the right.
    pub reach: usize,
}

impl Layout<'_> {
    /// The columns within the borders.
    pub fn columns(&self) -> usize
        requires { IsLayout self.now }
        ensures { result ≡ layouts.columns (module_in self.now) }
    {
        self.reach + 2 + 2 * self.wires.len()
    }

    /// The rows within the borders.
    pub fn rows(&self) -> usize
        requires { IsLayout self.now }
        ensures { result ≡ layouts.rows (module_in self.now) }
    {
        2 + 8 * self.module.boxes.len() + self.module.exits.len()
    }

    /// The bytes of the drawing.
    pub fn size(&self) -> u64
        requires layout { IsLayout self.now }
        requires narrow { layouts.columns (module_in self.now) ≤ 4094 }
        ensures { result ≡ size_of (module_in self.now) }
    {
        (self.columns() as u64 + 3) * (self.rows() as u64 + 2)
    }

    /// The column in which wire j runs up or down.
    pub fn track(&self, j: usize) -> usize
        requires layout { IsLayout self.now }
        requires there { j < length (layouts.wires_in (module_in self.now)) }
        ensures { result ≡ layouts.track (module_in self.now) j }
    {
        self.reach + 3 + 2 * j
    }

    /// The column of the E port of box b.
    pub fn east_of(&self, b: usize) -> usize
        requires layout { IsLayout self.now }
        requires there { b < length (module_in self.now).boxes }
        ensures { result ≡ layouts.east_of (module_in self.now) b }
    {
        6 + self.texts[b].len()
    }

    /// The row in which a wire leaves its track.
    pub fn end_row(&self, to: To) -> usize
        requires layout { IsLayout self.now }
        requires there { IsEndOf (module_in self.now) to }
        ensures { result ≡ layouts.end_row (module_in self.now) to }
    {
        match to {
            To::N(b) => box_row(b, 1),
            To::W(b) => box_row(b, 0),
            To::Exit(i) => self.exit_row(i),
        }
    }

    /// The row of exit i.
    pub fn exit_row(&self, i: usize) -> usize
        requires layout { IsLayout self.now }
        requires there { i ≤ length (module_in self.now).exits }
        ensures { result ≡ layouts.exit_row (module_in self.now) i }
    {
        box_row(self.module.boxes.len(), i)
    }
}

/// Row q of the eight rows of box b.
pub fn box_row(b: usize, q: usize) -> usize
    requires box_there { b ≤ 262144 }
    requires row_there { q ≤ 262144 }
    ensures { result ≡ layouts.box_row b q }
{
    3 + 8 * b + q
}

/// The numbers of a module's drawing.
pub fn layout_of(alloc: Global, module: &Module) -> Result<Layout<'_>, Memory>
    requires { IsFit (module_of «module».now) }
    ensures { IfOk result (λ layout. IsLayout layout
        × (module_in layout ≡ module_of «module».now)) }
{
    let mut texts = Vec::new(alloc);
    let mut reach = module.name.bytes().len();
    for row in &module.boxes {
        let text = show(alloc, &row.command)?;
        reach = reach.max(text.len() + 5);
        texts.push(text)?;
    }
    let mut wires = Vec::new(alloc);
    push_box_wires(&mut wires, &module.boxes)?;
    push_exit_wires(&mut wires, &module.exits)?;
    Ok(Layout {
        module,
        texts,
        wires,
        reach,
    })
}

/// The wires to the ports of boxes: N and W of each.
fn push_box_wires(wires: &mut Vec<Wire>, boxes: &[BoxRow]) -> Result<(), Memory>
    ensures { OnOk result (map wire_of wires.new.items
        ≡ map wire_of wires.old.items ++ box_wires 0 (map box_of boxes.now)) }
{
    for (b, row) in boxes.iter().enumerate() {
        push_wire(wires, row.n, To::N(b))?;
        push_wire(wires, row.w, To::W(b))?;
    }
    Ok(())
}

/// The wires to exits.
fn push_exit_wires(wires: &mut Vec<Wire>, exits: &[Option<Origin>]) -> Result<(), Memory>
    ensures { OnOk result (map wire_of wires.new.items
        ≡ map wire_of wires.old.items ++ exit_wires 0 exits.now) }
{
    for (i, from) in exits.iter().enumerate() {
        push_wire(wires, *from, To::Exit(i))?;
    }
    Ok(())
}

/// The wire to an end, where there is one.
fn push_wire(wires: &mut Vec<Wire>, from: Option<Origin>, to: To) -> Result<(), Memory>
    ensures { OnOk result
        (map wire_of wires.new.items ≡ map wire_of wires.old.items ++ wire_to from to) }
{
    if let Some(from) = from {
        wires.push(Wire { from, to })?;
    }
    Ok(())
}

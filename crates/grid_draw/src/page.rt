//! The lines of a module's drawing.

ghost use Rattle.std.specs.Prelude.{◌≡◌, ◌+◌, ◌*◌, ◌++◌, ◌<◌, ◌≤◌, ◌∷◌, [], OnOk, length, map};
ghost use Rattle.std.specs.List.{range_with_len};
ghost use Rattle.grid_picture.specs.Lined.{lined};
ghost use Rattle.grid_draw.specs.Layout as layouts;
ghost use Rattle.grid_draw.specs.Layout.{byte_at, drawn_lines};
ghost use Rattle.grid_draw.specs.inner.Layouts.{IsNarrow, module_in};
ghost use Rattle.grid_draw.specs.inner.Pages.{IsPage, box_on, figure_of, framed, module_on};

use crate::layout::Layout;
use crate::sheet::Sheet;
use std::alloc::Global;
use umix_base::Memory;

/// The numbers of a module, and its wires.
#[derive(Drop)]
pub struct Page<'a> {
    layout: &'a Layout<'a>,
    sheet: &'a Sheet,
}

/// The lines of a module's drawing.
pub fn push_drawing(alloc: Global, text: &mut Vec<u8>, layout: &Layout) -> Result<(), Memory>
    requires narrow { IsNarrow layout.now }
    requires short { (layouts.rows (module_in layout.now) + 2)
        * (layouts.columns (module_in layout.now) + 2) ≤ 262144 }
    ensures { OnOk result
        (text.new.items ≡ text.old.items ++ lined (drawn_lines (module_in layout.now))) }
{
    let sheet = Sheet::inked(alloc, layout)?;
    let page = Page {
        layout,
        sheet: &sheet,
    };
    for row in 0..layout.rows() + 2 {
        page.push_line(text, row)?;
    }
    Ok(())
}

impl Page<'_> {
    /// The line of a row.
    fn push_line(&self, text: &mut Vec<u8>, row: usize) -> Result<(), Memory>
        requires page { IsPage self.now }
        requires row { row < layouts.rows (module_on self.now) + 2 }
        ensures { OnOk result (text.new.items ≡ text.old.items
            ++ (map (byte_at (module_on self.now) row)
            (range_with_len 0 (layouts.columns (module_on self.now) + 2)) ++ 10 ∷ [])) }
    {
        for col in 0..self.layout.columns() + 2 {
            text.push(self.byte(row, col))?;
        }
        text.push(b'\n')?;
        Ok(())
    }

    /// The byte in a row and a column.
    fn byte(&self, row: usize, col: usize) -> u8
        requires page { IsPage self.now }
        requires row { row < layouts.rows (module_on self.now) + 2 }
        requires col { col < layouts.columns (module_on self.now) + 2 }
        ensures { result ≡ byte_at (module_on self.now) row col }
    {
        if row == 0 {
            let enters = self.sheet.passes_down(row, col);
            return self.border_byte(b',', col, if enters { b'|' } else { b'.' });
        }
        if row == self.layout.rows() + 1 {
            return self.border_byte(b'\'', col, b'.');
        }
        if col == 0 {
            let enters = self.sheet.passes_across(row, col);
            return if enters { b'-' } else { b':' };
        }
        if col == self.layout.columns() + 1 {
            let leaves = self.layout.exit_row(0) <= row;
            return if leaves { b'-' } else { b':' };
        }
        self.inner_byte(row, col)
    }

    /// A corner, or what stands between the corners of a border.
    fn border_byte(&self, corner: u8, col: usize, between: u8) -> u8
        requires { IsPage self.now }
        ensures { result ≡ layouts.border_byte (module_on self.now) corner col between }
    {
        if col == 0 || col == self.layout.columns() + 1 {
            corner
        } else {
            between
        }
    }

    /// The byte of the name, of a box, or of the wires.
    fn inner_byte(&self, row: usize, col: usize) -> u8
        requires page { IsPage self.now }
        requires row { row < layouts.rows (module_on self.now) + 2 }
        requires col { col < layouts.columns (module_on self.now) + 2 }
        requires below { 1 ≤ row }
        requires right { 1 ≤ col }
        ensures { result ≡ layouts.inner_byte (module_on self.now) row col }
    {
        let wires = self.sheet.byte(row, col);
        let name = self.layout.module.name.bytes();
        if row == 1 && col <= name.len() {
            return name[col - 1];
        }
        if row < 3 {
            return wires;
        }
        let b = (row - 3) / 8;
        if b < self.layout.module.boxes.len() {
            self.box_byte(b, (row - 3) % 8, col, wires)
        } else {
            wires
        }
    }

    /// The byte of box b and of its N and W ports, in row q of its rows; elsewhere another.
    fn box_byte(&self, b: usize, q: usize, col: usize, other: u8) -> u8
        requires page { IsPage self.now }
        requires there { b < length (module_on self.now).boxes }
        ensures { result ≡ layouts.box_byte (box_on self.now b) q col other }
    {
        let row = &self.layout.module.boxes[b];
        let text = &self.layout.texts[b];
        let north = row.n.is_some();
        let west = row.w.is_some();
        figure_byte(text, north, west, q, col, other)
    }
}

/// The byte of a box with this text and of its N and W ports, if wires come to them, in row q of
/// its rows; elsewhere another.
fn figure_byte(text: &[u8], north: bool, west: bool, q: usize, col: usize, other: u8) -> u8
    ensures { result ≡ figure_of text.now north west q col other }
{
    if q == 2 && col == 5 && north {
        return b'v';
    }
    if q == 4 && col == 3 && west {
        return b'>';
    }
    if col < 4 || 5 + text.len() < col {
        return other;
    }
    framed_byte(text, q, col, other)
}

/// The byte of a box with this text from its left side to its right one; above and below it
/// another.
fn framed_byte(text: &[u8], q: usize, col: usize, other: u8) -> u8
    requires left { 4 ≤ col }
    requires right { col ≤ 5 + length text.now }
    ensures { result ≡ framed text.now q col other }
{
    let is_side = col == 4 || col == 5 + text.len();
    match q {
        3 | 5 if is_side => b'*',
        3 | 5 => b'=',
        4 if is_side => b'!',
        4 => text[col - 5],
        _ => other,
    }
}

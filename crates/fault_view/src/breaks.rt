//! What a page tells of a border that breaks.

ghost use Rattle.std.specs.Prelude.{◌≡◌, ◌++◌, OnOk, IfOk, MatchOption, Ok, Err};
ghost use Rattle.two_d.specs.Cells.{grid_of};
ghost use Rattle.two_d.specs.Faults.{TextFault, told_as};
ghost use Rattle.fault_view.specs.Breaks as plain;
ghost use Rattle.fault_view.specs.Breaks.{AddsBreak, border_of, break_line, break_part};

use crate::pictures::push_picture;
use border_break::{Break, Figure, Side, break_of};
use grid_reader::{Grid, GridFault, read_grid};
use itoa::Buffer;
use std::alloc::Global;
use umix_base::{Memory, Place};

/// A frame or box that doesn't close, by its upper left corner.
#[derive(Clone, Copy)]
pub(crate) struct Border {
    pub(crate) figure: Figure,
    pub(crate) corner: Place,
}

/// The frame or box that the fault with this number and place says doesn't close.
pub(crate) fn border_at(number: u8, place: Option<Place>) -> Option<Border>
    ensures { (fault : TextFault) → (told_as fault).0 ≡ number → (told_as fault).2 ≡ place →
        result ≡ border_of fault }
{
    let corner = place?;
    match number {
        4 => Some(Border {
            figure: Figure::Frame,
            corner,
        }),
        8 => Some(Border {
            figure: Figure::Box,
            corner,
        }),
        _ => None,
    }
}

/// Adds where the border breaks.

pub(crate) fn push_break(
    alloc: Global,
    page: &mut Vec<u8>,
    text: &[u8],
    border: Option<Border>,
) -> Result<(), Memory>
    ensures { OnOk result (AddsBreak text.now border page.old.items page.new.items) }
{
    let Some(border) = border else {
        return Ok(());
    };
    let Some(grid) = grid(alloc, text)? else {
        return Ok(());
    };
    let found = break_of(&grid, border.figure, border.corner);
    push_found(alloc, page, text, found)?;
    Ok(())
}

/// The cells of a text, if it has any.

fn grid(alloc: Global, text: &[u8]) -> Result<Option<Grid>, Memory>
    ensures { IfOk result (λ found. MatchOption found
        ((f : TextFault) × grid_of text.now (Err f)) (λ grid. grid_of text.now (Ok grid))) }
{
    match read_grid(alloc, text) {
        Ok(grid) => Ok(Some(grid)),
        Err(fault) => {
            let GridFault::Memory = fault else {
                return Ok(None);
            };
            Err(Memory)
        }
    }
}

/// Adds the line of a break and the picture of its cell.
fn push_found(
    alloc: Global,
    page: &mut Vec<u8>,
    text: &[u8],
    found: Option<Break>,
) -> Result<(), Memory>
    ensures { OnOk result (page.new.items ≡ page.old.items ++ break_part text.now found) }
{
    let Some(found) = found else {
        return Ok(());
    };
    push_line(page, found)?;
    push_picture(alloc, page, text, Some(found.place))?;
    Ok(())
}

/// Adds the line of a break.
fn push_line(page: &mut Vec<u8>, found: Break) -> Result<(), Memory>
    ensures { OnOk result (page.new.items ≡ page.old.items ++ break_line found) }
{
    let mut first = Buffer::new();
    let mut second = Buffer::new();
    page.extend_from_slice(b"The ")?;
    page.extend_from_slice(side_name(found.side).as_bytes())?;
    page.extend_from_slice(b" border breaks at ")?;
    page.extend_from_slice(first.format(found.place.row).as_bytes())?;
    page.extend_from_slice(b":")?;
    page.extend_from_slice(second.format(found.place.col).as_bytes())?;
    page.extend_from_slice(b":\n")?;
    Ok(())
}

fn side_name(side: Side) -> &'static str
    ensures { result.now ≡ plain.side_name side }
{
    match side {
        Side::Top => "top",
        Side::Left => "left",
        Side::Bottom => "bottom",
        Side::Right => "right",
    }
}

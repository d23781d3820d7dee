//! The parts of a page that tell of modules and boxes.

ghost use Rattle.std.specs.Prelude.{◌≡◌, ◌++◌, ◌<◌, ◌≤◌, ℕ, All, List, OnOk, length, drop, take};
ghost use Rattle.std.specs.List.{flat_map};
ghost use Rattle.two_d.specs.Program.{Drawn};
ghost use Rattle.two_d.specs.Programs.{box_count, modules_of};
ghost use Rattle.two_d.specs.Sound.{IsSound};
ghost use Rattle.two_d.specs.Texts.{HasBox, box_text, name_at};
ghost use Rattle.module_table.specs.Drawn.{AreModulesRead};
ghost use Rattle.fault_view.specs.Subjects.{AddsWaiter, box_line, first_part, most_shown};
ghost use Rattle.fault_view.specs.Subjects.{shapes, wait_line, wait_part, waits_part};

use crate::found::first_named;
use crate::pictures::push_picture;
use box_ring::ring_of;
use itoa::Buffer;
use module_table::{Modules, box_corner, frame_corner};
use umix_base::Memory;

/// The most boxes that are shown.
const MOST_SHOWN: usize = 9;

/// Adds where the first module with the name of this one stands.
pub(crate) fn push_first(
    page: &mut Vec<u8>,
    text: &[u8],
    drawn: &Modules,
    number: usize,
) -> Result<(), Memory>
    requires { number < length drawn.now.modules.items }
    ensures { (ds : List Drawn) → AreModulesRead drawn.now ds → OnOk result
        (page.new.items ≡ page.old.items ++ first_part text.now ds number) }
{
    let alloc = *page.allocator();
    let first = first_named(&drawn.modules, drawn.modules[number].name.bytes());
    page.extend_from_slice(b"The first one stands here:\n")?;
    push_picture(alloc, page, text, Some(frame_corner(&drawn.corners, first)))?;
    Ok(())
}

/// Adds which box it is.
pub(crate) fn push_box_line(
    page: &mut Vec<u8>,
    drawn: &Modules,
    bx: (usize, usize),
) -> Result<(), Memory>
    requires { HasBox (modules_of drawn.now.modules.items) bx }
    ensures { (ds : List Drawn) → AreModulesRead drawn.now ds → OnOk result
        (page.new.items ≡ page.old.items ++ box_line ds bx) }
{
    page.extend_from_slice(b"It is ")?;
    push_box(page, drawn, bx)?;
    page.extend_from_slice(b".\n")?;
    Ok(())
}

/// Adds which box it is, and for which boxes it waits.
pub(crate) fn push_waiter(
    page: &mut Vec<u8>,
    text: &[u8],
    drawn: &Modules,
    bx: (usize, usize),
) -> Result<(), Memory>
    requires sound { All IsSound (modules_of drawn.now.modules.items) }
    requires there { HasBox (modules_of drawn.now.modules.items) bx }
    ensures { (ds : List Drawn) → AreModulesRead drawn.now ds → OnOk result
        (AddsWaiter text.now ds bx page.old.items page.new.items) }
{
    let alloc = *page.allocator();
    push_box_line(page, drawn, bx)?;
    let Some(ring) = ring_of(alloc, &drawn.modules[bx.0], bx.1)? else {
        return Ok(());
    };
    let mut waits = ring;
    waits.push(bx.1)?;
    push_waits(page, text, drawn, bx.0, &waits)
}

/// Adds for which boxes of a module a box waits, the first of them with their pictures.
fn push_waits(
    page: &mut Vec<u8>,
    text: &[u8],
    drawn: &Modules,
    number: usize,
    waits: &[usize],
) -> Result<(), Memory>
    requires { All (λ b. HasBox (modules_of drawn.now.modules.items) (number, b)) waits.now }
    ensures { (ds : List Drawn) → AreModulesRead drawn.now ds → OnOk result
        (page.new.items ≡ page.old.items ++ waits_part text.now ds number waits.now) }
{
    let shown = waits.len().min(MOST_SHOWN);
    push_wait_parts(page, text, drawn, number, &waits[..shown])?;
    push_wait_lines(page, drawn, number, &waits[shown..])?;
    Ok(())
}

/// Adds for which boxes of a module a box waits, with their pictures.
fn push_wait_parts(
    page: &mut Vec<u8>,
    text: &[u8],
    drawn: &Modules,
    number: usize,
    waits: &[usize],
) -> Result<(), Memory>
    requires { All (λ b. HasBox (modules_of drawn.now.modules.items) (number, b)) waits.now }
    ensures { (ds : List Drawn) → AreModulesRead drawn.now ds → OnOk result
        (page.new.items ≡ page.old.items ++ flat_map (wait_part text.now ds number) waits.now) }
{
    for bx in waits {
        push_wait_part(page, text, drawn, (number, *bx))?;
    }
    Ok(())
}

/// Adds for which boxes of a module a box waits.
fn push_wait_lines(
    page: &mut Vec<u8>,
    drawn: &Modules,
    number: usize,
    waits: &[usize],
) -> Result<(), Memory>
    requires { All (λ b. HasBox (modules_of drawn.now.modules.items) (number, b)) waits.now }
    ensures { (ds : List Drawn) → AreModulesRead drawn.now ds → OnOk result
        (page.new.items ≡ page.old.items ++ flat_map (wait_line ds number) waits.now) }
{
    for bx in waits {
        push_wait_line(page, drawn, (number, *bx))?;
    }
    Ok(())
}

/// Adds for which box a box waits, with its picture.
fn push_wait_part(
    page: &mut Vec<u8>,
    text: &[u8],
    drawn: &Modules,
    bx: (usize, usize),
) -> Result<(), Memory>
    requires { HasBox (modules_of drawn.now.modules.items) bx }
    ensures { (ds : List Drawn) → AreModulesRead drawn.now ds → OnOk result
        (page.new.items ≡ page.old.items ++ wait_part text.now ds bx.0 bx.1) }
{
    let alloc = *page.allocator();
    push_wait_line(page, drawn, bx)?;
    push_picture(
        alloc,
        page,
        text,
        Some(box_corner(&drawn.corners, bx.0, bx.1)),
    )?;
    Ok(())
}

/// Adds for which box a box waits.
fn push_wait_line(page: &mut Vec<u8>, drawn: &Modules, bx: (usize, usize)) -> Result<(), Memory>
    requires { HasBox (modules_of drawn.now.modules.items) bx }
    ensures { (ds : List Drawn) → AreModulesRead drawn.now ds → OnOk result
        (page.new.items ≡ page.old.items ++ wait_line ds bx.0 bx.1) }
{
    page.extend_from_slice(b"  waits for ")?;
    push_box(page, drawn, bx)?;
    page.extend_from_slice(b"\n")?;
    Ok(())
}

/// Adds the name of a box's module, and its number from 1.
fn push_box(page: &mut Vec<u8>, drawn: &Modules, bx: (usize, usize)) -> Result<(), Memory>
    requires { HasBox (modules_of drawn.now.modules.items) bx }
    ensures { (ds : List Drawn) → AreModulesRead drawn.now ds → OnOk result
        (page.new.items ≡ page.old.items ++ box_text (shapes ds) bx.0 bx.1) }
{
    prove!(bx.1 < drawn.modules[bx.0].boxes.len());
    let mut buffer = Buffer::new();
    page.extend_from_slice(drawn.modules[bx.0].name.bytes())?;
    page.extend_from_slice(b" box ")?;
    page.extend_from_slice(buffer.format(bx.1 + 1).as_bytes())?;
    Ok(())
}

//! The parts of a page: a line with the picture of what it names.

ghost use Rattle.std.specs.Prelude.{◌≡◌, ◌++◌, ◌<◌, List, OnOk, length};
ghost use Rattle.two_d.specs.Program.{Drawn};
ghost use Rattle.two_d.specs.Texts.{HasBox, IsSiteOf, box_text, caller_line, name_at, site_line};
ghost use Rattle.text_picture.specs.Pictures.{lined, picture_lines};
ghost use Rattle.module_table.specs.Drawn.{AreCorners};
ghost use Rattle.stuck_view.specs.Pages.{caller_part, site_part, site_place};

use itoa::Buffer;
use module_table::{Corners, box_corner, frame_corner};
use text_picture::picture;
use two_d::{Program, Site};
use umix_base::{Memory, Place};

/// Adds the line of a site, and the picture of its place.
pub(crate) fn push_site(
    page: &mut Vec<u8>,
    text: &[u8],
    program: &Program,
    corners: &[Corners],
    site: Site,
) -> Result<(), Memory>
    requires { IsSiteOf program.now site }
    ensures { (ds : List Drawn) → AreCorners corners.now ds → OnOk result
        (page.new.items ≡ page.old.items ++ site_part text.now ds program.now site) }
{
    push_site_line(page, program, site)?;
    push_picture(page, text, site_corner(corners, site))?;
    Ok(())
}

/// Adds the line of a caller, and the picture of its box.
pub(crate) fn push_caller(
    page: &mut Vec<u8>,
    text: &[u8],
    program: &Program,
    corners: &[Corners],
    caller: (usize, usize),
) -> Result<(), Memory>
    requires { HasBox program.now caller }
    ensures { (ds : List Drawn) → AreCorners corners.now ds → OnOk result
        (page.new.items ≡ page.old.items ++ caller_part text.now ds program.now caller) }
{
    push_caller_line(page, program, caller)?;
    push_picture(page, text, box_corner(corners, caller.0, caller.1))?;
    Ok(())
}

/// Where a site is drawn.
fn site_corner(corners: &[Corners], site: Site) -> Place
    ensures { (ds : List Drawn) → AreCorners corners.now ds → result ≡ site_place ds site }
{
    match site {
        Site::NoSum(module, bx) | Site::NoPair(module, bx) => box_corner(corners, module, bx),
        Site::NoResult(module) | Site::TwoResults(module) => frame_corner(corners, module),
    }
}

/// Adds the line of a site.
fn push_site_line(page: &mut Vec<u8>, program: &Program, site: Site) -> Result<(), Memory>
    requires { IsSiteOf program.now site }
    ensures { OnOk result (page.new.items ≡ page.old.items ++ site_line program.now site) }
{
    page.extend_from_slice(b"stuck: ")?;
    match site {
        Site::NoSum(module, bx) => {
            push_box(page, program, (module, bx))?;
            page.extend_from_slice(b": no sum\n")?;
        }
        Site::NoPair(module, bx) => {
            push_box(page, program, (module, bx))?;
            page.extend_from_slice(b": no pair\n")?;
        }
        Site::NoResult(module) => {
            page.extend_from_slice(name_of(program, module))?;
            page.extend_from_slice(b": no result\n")?;
        }
        Site::TwoResults(module) => {
            page.extend_from_slice(name_of(program, module))?;
            page.extend_from_slice(b": two results\n")?;
        }
    }
    Ok(())
}

/// Adds the line of a caller.
fn push_caller_line(
    page: &mut Vec<u8>,
    program: &Program,
    caller: (usize, usize),
) -> Result<(), Memory>
    requires { HasBox program.now caller }
    ensures { OnOk result (page.new.items ≡ page.old.items ++ caller_line program.now caller) }
{
    page.extend_from_slice(b"  in ")?;
    push_box(page, program, caller)?;
    page.extend_from_slice(b"\n")?;
    Ok(())
}

/// Adds the name of a box's module, and its number from 1.
fn push_box(page: &mut Vec<u8>, program: &Program, bx: (usize, usize)) -> Result<(), Memory>
    requires { HasBox program.now bx }
    ensures { OnOk result (page.new.items ≡ page.old.items ++ box_text program.now bx.0 bx.1) }
{
    prove!(bx.1 < program.modules()[bx.0].boxes.len());
    let mut buffer = Buffer::new();
    page.extend_from_slice(name_of(program, bx.0))?;
    page.extend_from_slice(b" box ")?;
    page.extend_from_slice(buffer.format(bx.1 + 1).as_bytes())?;
    Ok(())
}

/// The name of a module.
fn name_of(program: &Program, number: usize) -> &[u8]
    requires { number < length program.now }
    ensures { result.now ≡ name_at program.now number }
{
    program.modules()[number].name.bytes()
}

/// Adds the picture of a place.
fn push_picture(page: &mut Vec<u8>, text: &[u8], place: Place) -> Result<(), Memory>
    ensures { OnOk result
        (page.new.items ≡ page.old.items ++ lined (picture_lines text.now place)) }
{
    let shown = picture(*page.allocator(), text, place)?;
    page.extend_from_slice(&shown)?;
    Ok(())
}

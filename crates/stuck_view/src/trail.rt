//! The page of a trail.

ghost use Rattle.std.specs.Prelude.{◌≡◌, ◌++◌, ◌-◌, ◌<◌, ℕ, List, All, IfOk, OnOk, length, reverse, take};
ghost use Rattle.std.specs.List.{flat_map};
ghost use Rattle.two_d.specs.Program.{Drawn};
ghost use Rattle.two_d.specs.Texts.{HasBox, IsTrailOf};
ghost use Rattle.two_d.specs.Trails.{trail_at};
ghost use Rattle.module_table.specs.Drawn.{AreCorners};
ghost use Rattle.stuck_view.specs.Pages as plain;
ghost use Rattle.stuck_view.specs.Pages.{caller_part, more_line, most_shown};

use crate::parts::{push_caller, push_site};
use itoa::Buffer;
use module_table::Corners;
use std::alloc::Global;
use two_d::{Program, Site, Trail, TrailStore};
use umix_base::Memory;

/// The most callers that are shown.
const MOST_SHOWN: usize = 9;

/// The page of the trail at a place.
pub(crate) fn trail_page(
    alloc: Global,
    text: &[u8],
    program: &Program,
    corners: &[Corners],
    trails: &TrailStore,
    at: usize,
) -> Result<Vec<u8>, Memory>
    requires place { at < length trails.now }
    requires of_program { IsTrailOf program.now (trail_at trails.now at) }
    ensures { (ds : List Drawn) → AreCorners corners.now ds → IfOk result (λ page.
        page.items ≡ plain.trail_page text.now ds program.now (trail_at trails.now at)) }
{
    let (site, callers) = opened(alloc, trails, at)?;
    let mut page = Vec::new(alloc);
    push_site(&mut page, text, program, corners, site)?;
    push_callers(&mut page, text, program, corners, &callers)?;
    push_more(&mut page, callers.len().saturating_sub(MOST_SHOWN))?;
    Ok(page)
}

/// The site of a trail, and its callers, the outermost first.
fn opened(
    alloc: Global,
    trails: &TrailStore,
    at: usize,
) -> Result<(Site, Vec<(usize, usize)>), Memory>
    requires { at < length trails.now }
    ensures site { IfOk result (λ trail. trail.0 ≡ (trail_at trails.now at).site) }
    ensures callers { IfOk result (λ trail.
        reverse trail.1.items ≡ (trail_at trails.now at).callers) }
{
    let mut callers = Vec::new(alloc);
    let mut place = at;
    loop {
        match trails.node(place) {
            Trail::At(site) => return Ok((site, callers)),
            Trail::Via(module, bx, inner) => {
                callers.push((module, bx))?;
                place = inner;
            }
        }
    }
}

/// Adds the parts of the innermost callers, of those that stand here with the outermost first.
fn push_callers(
    page: &mut Vec<u8>,
    text: &[u8],
    program: &Program,
    corners: &[Corners],
    callers: &[(usize, usize)],
) -> Result<(), Memory>
    requires { All (HasBox program.now) (reverse callers.now) }
    ensures { (ds : List Drawn) → AreCorners corners.now ds → OnOk result (page.new.items
        ≡ page.old.items ++ flat_map (caller_part text.now ds program.now)
        (take most_shown (reverse callers.now))) }
{
    for k in 0..callers.len().min(MOST_SHOWN) {
        push_caller(page, text, program, corners, callers[callers.len() - 1 - k])?;
    }
    Ok(())
}

/// Adds how many callers more there are, if there are.
fn push_more(page: &mut Vec<u8>, more: usize) -> Result<(), Memory>
    ensures { OnOk result (page.new.items ≡ page.old.items ++ more_line more) }
{
    if more == 0 {
        return Ok(());
    }
    let mut buffer = Buffer::new();
    page.extend_from_slice(b"  in ")?;
    page.extend_from_slice(buffer.format(more).as_bytes())?;
    page.extend_from_slice(b" more\n")?;
    Ok(())
}

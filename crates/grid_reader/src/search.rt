ghost use Rattle.std.specs.Prelude.{◌≡◌, ◌≤◌, ◌<◌, ◌+◌, ◌^◌, ◌↔◌, IsTrue, OnOk, IfOk, IfErr};
ghost use Rattle.std.specs.Prelude.{IfSome, Err, Some};
ghost use Rattle.umix_base.specs.declared.place.Place.{Place};
ghost use Rattle.two_d.specs.Places.{at, corner_of};
ghost use Rattle.two_d.specs.Reading.{Gives, Refuses};
ghost use Rattle.two_d.proofs.LiveCorners.{IsSearchable};
ghost use Rattle.grid_reader.specs.Faults.{fault_of};
ghost use Rattle.grid_reader.specs.inner.Rects.{rect_shown, rects_in, Finds};
ghost use Rattle.grid_reader.specs.inner.Search.{AreShown, next_to, IsFoundBefore};
ghost use Rattle.two_d.specs.Figures.{Kind, all_of};

use crate::fault::GridFault;
use crate::found::Found;
use crate::rect::Rect;
use std::alloc::Global;
use umix_base::Place;

/// A kind of figures in a grid, each of which is found by its top left corner.
pub trait Figures {
    ghost kind: { Self → Kind };

    /// A place above and to the left of which there is no corner.
    fn start(&self) -> Place
        ensures row { (p : Place) → (kind self.now).corner p → result.row ≤ p.row }
        ensures col { (p : Place) → (kind self.now).corner p → result.col ≤ p.col };

    /// A row from which on there is no corner.
    fn end_row(&self) -> u32
        ensures { (p : Place) → (kind self.now).corner p → p.row < result };

    /// A column from which on there is no corner in a row.
    fn end_col(&self, row: u32) -> u32
        ensures { (p : Place) → (kind self.now).corner p → p.row ≡ row → p.col < result };

    /// Whether the pattern of a corner is at a place.
    fn is_corner(&self, place: Place) -> bool
        requires row { place.row + 1 < 2 ^ 32 }
        requires col { place.col + 1 < 2 ^ 32 }
        ensures { IsTrue result ↔ (kind self.now).corner place };

    /// The figure of a corner, if there is one.
    fn figure_at(&self, place: Place) -> Option<Rect>
        requires row { place.row + 1 < 2 ^ 32 }
        requires col { place.col + 1 < 2 ^ 32 }
        ensures figure { Finds ((kind self.now).figure place) result }
        ensures narrow { IfSome result (λ f. f.right + 1 < 2 ^ 32) };

    /// Tries what else is asked of a figure.
    fn check(&self, alloc: Global, figure: &Rect) -> Result<(), GridFault>
        requires { (kind self.now).figure (corner_of (rect_shown figure.now)) (rect_shown figure.now) }
        ensures { Gives (λ _. tt) fault_of result ((kind self.now).further (rect_shown figure.now)) };

    /// Why a corner without a figure is refused.
    fn open_at(&self, place: Place) -> GridFault
        ensures { fault_of result ≡ Some ((kind self.now).opens place) };

    /// Why a corner is refused whose figure meets an earlier one.
    fn meets_at(&self, place: Place) -> GridFault
        ensures { fault_of result ≡ Some ((kind self.now).meets place) };

    ghost searchable: { (s : Self) → IsSearchable (kind s).corner (kind s).figure };
}

/// The figures of the corners that are strictly within no earlier figure, in reading order, or the
/// first fault. Takes time linear in the cells that it goes over and in the borders of the figures.
pub fn find<F: Figures>(alloc: Global, figures: &F) -> Result<Vec<Rect>, GridFault>
    ensures read { Gives rects_in fault_of result (all_of (F.kind figures.now)) }
    ensures shown { IfOk result (λ found. AreShown (F.kind figures.now) (rects_in found)) }
{
    let start = figures.start();
    let mut found = Found::new(alloc, start.col);
    'rows: for row in start.row..figures.end_row() {
        'columns: for col in start.col..figures.end_col(row) {
            step(alloc, figures, &mut found, Place { row, col })?;
        }
    }
    Ok(found.figures)
}

/// Goes on to the next place of a row.
fn step<F: Figures>(
    alloc: Global,
    figures: &F,
    found: &mut Found,
    place: Place,
) -> Result<(), GridFault>
    requires found { IsFoundBefore (F.kind figures.now) place found.old }
    requires first { found.old.first ≤ place.col }
    requires row { place.row + 1 < 2 ^ 32 }
    requires col { place.col + 1 < 2 ^ 32 }
    ensures ok { OnOk result (IsFoundBefore (F.kind figures.now) (next_to place) found.new) }
    ensures first { OnOk result (found.new.first ≡ found.old.first) }
    ensures err { IfErr result (λ e. Refuses (all_of (F.kind figures.now)) (fault_of e)) }
{
    if !figures.is_corner(place) || found.has_within(place) {
        return Ok(());
    }
    let Some(figure) = figures.figure_at(place) else {
        return Err(figures.open_at(place));
    };
    if found.has_low(&figure) {
        return Err(figures.meets_at(place));
    }
    figures.check(alloc, &figure)?;
    found.add(figure)?;
    Ok(())
}

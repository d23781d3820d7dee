ghost use Rattle.std.specs.Prelude.{◌<◌, ◌≤◌, ◌≡◌, ◌↔◌, IfOk, IsTrue};
ghost use Rattle.wire_trace.specs.inner.Areas.{IsSmallArea, IsIn, IsMarked, AreMarks, Occupies, unmarked};
ghost use Rattle.umix_base.specs.declared.place.Place as places;
ghost use Rattle.wire_trace.specs.declared.position.Axis as axes;

use crate::area::Area;
use crate::position::Axis;
use std::alloc::{AllocError, Global};
use umix_base::Place;

/// On which axes the cells of a module are occupied by wires.
#[derive(Debug, Drop)]
pub struct Marks {
    area: Area,
    horizontal: Vec<bool>,
    vertical: Vec<bool>,
}

impl Marks {
    /// No cell is occupied.
    pub fn new(alloc: Global, area: Area) -> Result<Marks, AllocError>
        requires { IsSmallArea area }
        ensures marks { IfOk result (AreMarks area) }
        ensures none { IfOk result (λ marks. (p : places.Place) (axis : axes.Axis) → IsMarked marks p axis → ⊥) }
    {
        Ok(Marks {
            area,
            horizontal: vec![in alloc; false; area.size()]?,
            vertical: vec![in alloc; false; area.size()]?,
        })
    }

    /// Whether a cell is occupied on an axis.
    pub fn has(&self, place: Place, axis: Axis) -> bool
        requires marks { AreMarks self.now.area self.now }
        requires place { IsIn self.now.area place }
        ensures { IsTrue result ↔ IsMarked self.now place axis }
    {
        let number = self.area.number(place);
        match axis {
            Axis::Horizontal => self.horizontal[number],
            Axis::Vertical => self.vertical[number],
        }
    }

    /// Occupies a cell on an axis.
    pub fn add(&mut self, place: Place, axis: Axis)
        requires marks { AreMarks self.old.area self.old }
        requires place { IsIn self.old.area place }
        ensures marks { AreMarks self.old.area self.new }
        ensures occupies { Occupies self.old.area self.old self.new place axis }
        ensures no_more { unmarked self.new ≤ unmarked self.old }
        ensures fewer { (IsMarked self.old place axis → ⊥) → unmarked self.new < unmarked self.old }
    {
        let number = self.area.number(place);
        match axis {
            Axis::Horizontal => self.horizontal[number] = true,
            Axis::Vertical => self.vertical[number] = true,
        }
    }
}

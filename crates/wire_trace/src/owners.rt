ghost use Rattle.std.specs.Prelude.{◌≡◌, ◌<◌, ◌+◌, ◌^◌, IfOk, map, length};
ghost use Rattle.two_d.specs.Places.{Covers};
ghost use Rattle.grid_reader.specs.Boxes.{box_rect};
ghost use Rattle.umix_base.specs.declared.place.Place as places;
ghost use Rattle.wire_trace.specs.inner.Areas.{IsSmallArea, IsIn, AreNumbers, LiesIn, LieIn, Gets, AreOwners, owner_of};

use crate::area::Area;
use grid_reader::BoxFrame;
use std::alloc::{AllocError, Global};
use umix_base::Place;

/// Of which box the cells of a module are.
#[derive(Debug, Drop)]
pub struct Owners {
    area: Area,
    numbers: Vec<Option<usize>>,
}

impl Owners {
    /// The table for these boxes.
    pub fn new(alloc: Global, area: Area, boxes: &[BoxFrame]) -> Result<Owners, AllocError>
        requires small { IsSmallArea area }
        requires boxes { LieIn area (map box_rect boxes.now) }
        ensures numbers { IfOk result (AreNumbers area) }
        ensures owners { IfOk result (AreOwners (map box_rect boxes.now) (length boxes.now)) }
    {
        let numbers = vec![in alloc; None; area.size()]?;
        let mut owners = Owners { area, numbers };
        'boxes: for number in 0..boxes.len() {
            owners.lay(number, &boxes[number]);
        }
        Ok(owners)
    }

    /// The number of the box that has a cell, if one has.
    pub fn at(&self, place: Place) -> Option<usize>
        requires numbers { AreNumbers self.now.area self.now }
        requires place { IsIn self.now.area place }
        ensures { result ≡ owner_of self.now place }
    {
        self.numbers[self.area.number(place)]
    }

    /// Gives a box its cells.
    fn lay(&mut self, number: usize, figure: &BoxFrame)
        requires numbers { AreNumbers self.old.area self.old }
        requires figure { LiesIn self.old.area (box_rect figure.now) }
        requires last_row { figure.now.bottom + 1 < 2 ^ 32 }
        requires last_col { figure.now.right + 1 < 2 ^ 32 }
        ensures numbers { AreNumbers self.old.area self.new }
        ensures gets { Gets self.old.area self.old self.new number (Covers (box_rect figure.now)) }
    {
        'rows: for row in figure.top..figure.bottom + 1 {
            'columns: for col in figure.left..figure.right + 1 {
                self.set(Place { row, col }, number);
            }
        }
    }

    /// Gives a box one cell.
    fn set(&mut self, place: Place, number: usize)
        requires numbers { AreNumbers self.old.area self.old }
        requires place { IsIn self.old.area place }
        ensures numbers { AreNumbers self.old.area self.new }
        ensures gets { Gets self.old.area self.old self.new number (λ (q : places.Place). q ≡ place) }
    {
        let cell = self.area.number(place);
        self.numbers[cell] = Some(number);
    }
}

ghost use Rattle.std.specs.Prelude.{◌≡◌};
ghost use Rattle.two_d.specs.Wires.{axis_of, ahead, next};
ghost use Rattle.wire_trace.specs.inner.Positions.{HasNeighbours, direction_of, axis_in, position_of};

use umix_base::Place;

/// A direction in which a wire goes.
#[derive(Clone, Copy, Debug)]
pub enum Direction {
    East,
    West,
    South,
    North,
}

/// An axis on which a wire passes a cell.
#[derive(Clone, Copy, Debug)]
pub enum Axis {
    Horizontal,
    Vertical,
}

/// A cell of a wire, and the direction in which the wire comes to it, or begins at it.
#[derive(Clone, Copy, Debug)]
pub struct Position {
    pub place: Place,
    pub to: Direction,
}

impl Direction {
    /// The axis on which it lies.
    pub fn axis(self) -> Axis
        ensures { axis_in result ≡ axis_of (direction_of self) }
    {
        match self {
            Direction::East | Direction::West => Axis::Horizontal,
            Direction::South | Direction::North => Axis::Vertical,
        }
    }
}

impl Position {
    /// The axis on which the wire comes to the cell.
    pub fn axis(&self) -> Axis
        ensures { axis_in result ≡ axis_of (direction_of self.now.to) }
    {
        self.to.axis()
    }

    /// The neighbour of the cell in a direction, come to in it.
    pub fn next(&self, to: Direction) -> Position
        requires { HasNeighbours self.now.place }
        ensures next { position_of result ≡ next (position_of self.now) (direction_of to) }
        ensures place { result.place ≡ ahead (direction_of to) self.now.place }
    {
        Position {
            place: ahead(to, self.place),
            to,
        }
    }
}

/// The neighbour of a place in a direction.
fn ahead(to: Direction, place: Place) -> Place
    requires { HasNeighbours place }
    ensures { result ≡ ahead (direction_of to) place }
{
    let Place { row, col } = place;
    match to {
        Direction::East => Place { row, col: col + 1 },
        Direction::West => Place { row, col: col - 1 },
        Direction::South => Place { row: row + 1, col },
        Direction::North => Place { row: row - 1, col },
    }
}

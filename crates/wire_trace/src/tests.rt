ghost use Rattle.std.specs.Prelude.{Ok};
ghost use Rattle.two_d.specs.Frames.{one_entry_a_side};
ghost use Rattle.grid_reader.specs.Frames.{IsFrameOf, rect_of};

use super::{Wire, WireFault, wires};
use grid_reader::{Frame, Grid, GridFault, boxes, frames, name, read_grid};
use std::alloc::{AllocError, Global};
use std::test::Fail;
use umix_base::Place;

/// Grids, and what is told of their last module: its wires in order, or the number of the first
/// fault and its place.
const DRAWINGS: [(&str, &str); 30] = [
    (
        ",...............,
:main           :
: *============*:
: !send[((),E)]!-
: *============*:
'...............'
",
        "East(0) Exit(0)
",
    ),
    (
        ",.........................,
:main                     :
: *============*  *======*:
: !send[((),E)]!->!use id!-
: *============*  *======*:
'.........................'
",
        "East(0) W(1)
East(1) Exit(0)
",
    ),
    (
        ",....,
:id  :
------
'....'
",
        "West Exit(0)
",
    ),
    (
        ",....,
:id  :
--#---
'....'
",
        "West Exit(0)
",
    ),
    (
        ",...|......,
:x  |      :
----#-------
:   v      :
: *======* :
: !send[]! :
: *======* :
'..........'
",
        "North N(0)
West Exit(0)
",
    ),
    (
        ",......................................,
:main                                  :
: *========================*           :
: !send[(Inr Inr Inl (),E),!-----+     :
: !(Inr Inr Inr Inl (),S)] !     |     :
: *========================*     v     :
:        |                   *========*:
:        +------------------>!use plus!-
:                            *========*:
'......................................'
",
        "East(0) N(1)
South(0) W(1)
East(1) Exit(0)
",
    ),
    (
        ",..........................|...................................,
:plus                      v                                   :
:                    *=============*                           :
:                    !case N of S,E!--+                        :
:                    *=============*  |                        :
:                          |          |                        :
:                          v          |                        :
: *=================*  *===========*  |                        :
->!send[(W,S),(W,E)]!->!send[(W,E)]!--#-------------------------
: *=================*  *===========*  v                        :
:          |                      *========*  *===============*:
:          +--------------------->!use plus!->!send[(Inr W,E)]!-
:                                 *========*  *===============*:
'..............................................................'
",
        "North N(0)
East(0) N(3)
South(0) N(2)
West W(1)
East(1) W(2)
East(2) Exit(0)
South(1) W(3)
East(3) W(4)
East(4) Exit(1)
",
    ),
    (
        ",..............................,
:main                          :
:+----+                        :
:|    v                        :
:| *===========*  *===========*:
:| !send[(N,E)]!->!send[(W,S)]!:
:| *===========*  *===========*:
:|                      |      :
:+----------------------+      :
'..............................'
",
        "East(0) W(1)
South(1) N(0)
",
    ),
    // an exit that no wire reaches, a port that is none at a corner, a name with a v above a box
    (
        ",........,
:a_v     :
: *=====*-
: !use b!:
: *=====*-
'........'
",
        "",
    ),
    // a turn with two takers
    (
        ",.....,
:m |  :
---+  :
:  |  :
'.....'
",
        "13 at 3:4
",
    ),
    // a crossing without #
    (
        ",...|......,
:x  |      :
------------
:   v      :
: *======* :
: !send[]! :
: *======* :
'..........'
",
        "12 at 3:5
",
    ),
    (
        ",..|..,
:m |  :
:  +---
:  |  :
---+  :
'.....'
",
        "14 at 3:4
",
    ),
    // a turn at an occupied cell: 14 before 13
    (
        ",....|..,
:a   |  :
:+---+  :
:|      :
-+-------
:|      :
'.......'
",
        "14 at 5:2
",
    ),
    // cell by cell: a merge before the broken end
    (
        ",....|..,
:a   |  :
:+---+  :
:|      :
-+-------
'.......'
",
        "14 at 5:2
",
    ),
    // a later start isn't occupied yet
    (
        ",...........|.,
:a          | :
: *======*  | :
: !send[]!  | :
: *======*  | :
:    |      | :
:    +------+ :
'.............'
",
        "12 at 5:6
",
    ),
    // a - of the left border is no end
    (
        ",..|..,
:a |  :
---+  :
'.....'
",
        "12 at 3:1
",
    ),
    // the second of three ports
    (
        ",..........,
:a  vvv    :
: *======* :
: !send[]! :
: *======* :
'..........'
",
        "11 at 2:6
",
    ),
    // the sides of a box in the order N, W, E, S
    (
        ",..........,
:a   v v   :
:>*======*-:
:>!send[]!-:
:>!      !-:
:>*======*-:
:   | |    :
'..........'
",
        "11 at 2:8
",
    ),
    (
        ",..........,
:a   v     :
:>*======*-:
:>!send[]!--
:>!      !--
:>*======*-:
:   | |    :
'..........'
",
        "11 at 5:2
",
    ),
    (
        ",..........,
:a   v     :
:>*======*-:
:>!send[]!--
: !      !--
:>*======*-:
:   | |    :
'..........'
",
        "11 at 5:11
",
    ),
    (
        ",.........,
:a  v     :
: *======*:
:>!send[]!-
: !      !-
: *======*:
:   | |   :
'.........'
",
        "11 at 5:11
",
    ),
    (
        ",.........,
:a  v     :
: *======*:
:>!send[]!-
: !      !:
: *======*:
:   | |   :
'.........'
",
        "11 at 7:7
",
    ),
    // two boxes, a fault of the first's south side before the second's north side
    (
        ",.........,
:a        :
: *======*:
: !send[]!:
: *======*:
:   | |   :
:   v v   :
: *======*:
: !send[]!:
: *======*:
'.........'
",
        "11 at 6:7
",
    ),
    // a wire to itself at a turn
    (
        ",.......,
:a      :
--+-+   :
: | |   :
: +-+   :
'.......'
",
        "14 at 3:3
",
    ),
    // up to a cell that is passed on the other axis
    (
        ",........,
:a       :
-----+-- :
:  | |   :
:  +-+   :
'........'
",
        "12 at 3:4
",
    ),
    // a wire that crosses itself, and then breaks off
    (
        ",.....|..,
:a    |  :
: +---#+ :
: |   || :
: |   || :
: |   ++ :
: +----- :
'........'
",
        "12 at 7:9
",
    ),
    // a wire that leaves the frame
    (
        ",..|..,
:a |  :
'.....'
",
        "12 at 3:4
",
    ),
    // nothing on a row but a stray v
    (
        ",....,
:a v :
:  x :
'....'
",
        "15 at 2:4
",
    ),
    // a # on one axis is allowed, and the right border is no space
    (
        ",....,
:a   :
-####:
'....'
",
        "12 at 3:6
",
    ),
    (
        ",....,
:a   :
-###--
:  ! :
'....'
",
        "15 at 4:4
",
    ),
];

/// What is told of the last module of a text.
fn told(alloc: Global, bytes: &[u8]) -> Result<String, GridFault> {
    let grid = read_grid(alloc, bytes)?;
    let mut told = String::new(alloc);
    for frame in &frames(alloc, &grid)? {
        told = told_in(alloc, &grid, frame)?;
    }
    Ok(told)
}

/// What is told of the module in a frame.
fn told_in(alloc: Global, grid: &Grid, frame: &Frame) -> Result<String, GridFault>
    requires frame { IsFrameOf grid.now frame.now }
    requires entries { one_entry_a_side grid.now (rect_of frame.now) (Ok tt) }
{
    let name = name(alloc, grid, frame)?;
    let boxes = boxes(alloc, grid, frame)?;
    match wires(alloc, grid, frame, name.bytes().len(), &boxes) {
        Ok(wires) => Ok(lines_of(alloc, &wires)?),
        Err(fault) => {
            let (number, place) = number_and_place(&fault);
            Ok(format!(in alloc; "{number} at {}:{}\n", place.row, place.col)?)
        }
    }
}

/// A line for each wire.
fn lines_of(alloc: Global, wires: &[Wire]) -> Result<String, AllocError> {
    let mut lines = String::new(alloc);
    for wire in wires {
        let line = format!(in alloc; "{:?} {:?}\n", wire.from, wire.to)?;
        lines.push_str(line.as_str())?;
    }
    Ok(lines)
}

/// The number of a fault and its place; want of memory has neither.
fn number_and_place(fault: &WireFault) -> (u8, Place) {
    match fault {
        WireFault::TwoPorts(place) => (11, *place),
        WireFault::BrokenWire(place) => (12, *place),
        WireFault::BadTurn(place) => (13, *place),
        WireFault::Merge(place) => (14, *place),
        WireFault::Stray(place) => (15, *place),
        WireFault::Memory => (0, Place { row: 0, col: 0 }),
    }
}

#[test]
fn drawings_are_traced(rt: HostRuntime) -> Result<(), Fail> {
    for (grid, expected) in &DRAWINGS {
        let told = told(rt.alloc(), grid.as_bytes())?;
        assert_eq!(rt; told.as_str(), *expected, "{grid}");
    }
    Ok(())
}

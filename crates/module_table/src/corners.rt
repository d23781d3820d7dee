//! Where modules and their boxes are drawn.

ghost use Rattle.std.specs.Prelude.{◌≡◌, List, map, IfOk};
ghost use Rattle.std.specs.Option.{option_map};
ghost use Rattle.two_d.specs.Faults.{number_and_place};
ghost use Rattle.two_d.specs.inner.TableFaults.{wrong_of};
ghost use Rattle.two_d.specs.Places.{corner_of};
ghost use Rattle.two_d.specs.Program as program;
ghost use Rattle.two_d.specs.Program.{Drawn, placed_fault};
ghost use Rattle.grid_reader.specs.Boxes.{box_rects};
ghost use Rattle.grid_reader.specs.Frames.{rect_of};
ghost use Rattle.module_table.specs.Answers.{answer_of};
ghost use Rattle.module_table.specs.Drawn.{AreCorners};

use crate::fault::CheckFault;
use grid_reader::{BoxFrame, Frame};
use std::alloc::{AllocError, Global};
use two_d::TableFault;
use umix_base::Place;

/// Where a module is drawn.
#[derive(Debug, Drop)]
pub struct Corners {
    /// The upper left corner of its frame.
    pub frame: Place,
    /// The upper left corners of its boxes, by their numbers.
    pub boxes: Vec<Place>,
}

/// The corners of a frame and of its boxes.
pub(crate) fn corners_of(
    alloc: Global,
    frame: &Frame,
    boxes: &Vec<BoxFrame>,
) -> Result<Corners, AllocError>
    ensures frame { IfOk result (λ corners. corners.frame ≡ corner_of (rect_of frame.now)) }
    ensures boxes { IfOk result (λ corners. corners.boxes.items ≡ map corner_of (box_rects boxes.now)) }
{
    let mut corners = Vec::new(alloc);
    'boxes: for number in 0..boxes.len() {
        let bx = &boxes[number];
        corners.push(Place {
            row: bx.top,
            col: bx.left,
        })?;
    }
    Ok(Corners {
        frame: Place {
            row: frame.top,
            col: frame.left,
        },
        boxes: corners,
    })
}

/// What is wrong with the list of modules, told by the places where they are drawn.
pub(crate) fn placed(corners: &[Corners], fault: TableFault) -> CheckFault
    ensures { (drawn : List Drawn) → AreCorners corners.now drawn
        → answer_of result ≡ option_map (λ wrong. number_and_place (placed_fault drawn wrong)) (wrong_of fault) }
{
    match fault {
        TableFault::SameName(module) => CheckFault::at(16, frame_corner(corners, module)),
        TableFault::NoMain => CheckFault::nowhere(17),
        TableFault::MainHasInput(module) => CheckFault::at(18, frame_corner(corners, module)),
        TableFault::NoModule(module, number) => CheckFault::at(
            19,
            box_corner(corners, module, number),
        ),
        TableFault::BadInputs(module, number) => CheckFault::at(
            20,
            box_corner(corners, module, number),
        ),
        TableFault::Unwired(module, number) => CheckFault::at(
            21,
            box_corner(corners, module, number),
        ),
        TableFault::Cycle(module, number) => CheckFault::at(
            22,
            box_corner(corners, module, number),
        ),
        TableFault::Memory => CheckFault::Memory,
    }
}

/// The upper left corner of the frame of the module of this number, from 0; row and column 0 where
/// there is none. Takes no memory.
pub fn frame_corner(corners: &[Corners], number: usize) -> Place
    ensures { (drawn : List Drawn) → AreCorners corners.now drawn
        → result ≡ program.module_place drawn number }
{
    match corners.get(number) {
        Some(module) => module.frame,
        None => Place { row: 0, col: 0 },
    }
}

/// The upper left corner of a box of a module, both by number from 0; row and column 0 where there is
/// none. Takes no memory.
pub fn box_corner(corners: &[Corners], number: usize, bx: usize) -> Place
    ensures { (drawn : List Drawn) → AreCorners corners.now drawn
        → result ≡ program.box_place drawn number bx }
{
    match corners.get(number) {
        Some(module) => module
            .boxes
            .get(bx)
            .copied()
            .unwrap_or(Place { row: 0, col: 0 }),
        None => Place { row: 0, col: 0 },
    }
}

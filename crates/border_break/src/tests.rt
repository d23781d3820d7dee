use crate::{Break, Figure, Side, break_of};
use grid_reader::{GridFault, read_grid};
use std::alloc::Global;
use std::process::Abort;
use umix_base::Place;

/// Drawings with a corner at 1:1, and the side and cell where its border breaks.
const FRAMES: [(&str, Option<(Side, u32, u32)>); 6] = [
    (",..,\n:  :\n'..'\n", None),
    (",.;,\n:  :\n'..'\n", Some((Side::Top, 1, 3))),
    (",..,\n:  :\n", Some((Side::Left, 3, 1))),
    (",..,\n:  :\n'. '\n", Some((Side::Bottom, 3, 3))),
    (",..,\n:  :\n'...\n", Some((Side::Bottom, 3, 4))),
    (",..,\n:   :\n'..'\n", Some((Side::Right, 2, 4))),
];

const BOXES: [(&str, Option<(Side, u32, u32)>); 6] = [
    ("*==*\n!  !\n*==*\n", None),
    ("*==*\n!  !\n*= *\n", Some((Side::Bottom, 3, 3))),
    ("*=-*\n!  !\n*==*\n", Some((Side::Top, 1, 3))),
    ("*==*\n!  !\n", Some((Side::Left, 3, 1))),
    ("*==*\n!\n*==*\n", Some((Side::Right, 2, 4))),
    ("+==+\n", None),
];

/// Where the border breaks whose corner is at 1:1.
fn found(alloc: Global, figure: Figure, text: &str) -> Result<Option<Break>, GridFault> {
    let grid = read_grid(alloc, text.as_bytes())?;
    Ok(break_of(&grid, figure, Place { row: 1, col: 1 }))
}

fn check<R: Abort + AllocGlobal>(
    rt: &R,
    figure: Figure,
    rows: &[(&str, Option<(Side, u32, u32)>)],
) {
    for (text, wanted) in rows {
        let place = match found(rt.alloc(), figure, text) {
            Ok(Some(found)) => Some((found.side, found.place.row, found.place.col)),
            Ok(None) => None,
            Err(_) => panic!(rt; "no grid"),
        };
        assert!(rt; place == *wanted);
    }
}

#[test]
fn the_first_cell_that_lacks_its_byte_is_found(rt: HostRuntime) {
    check(&rt, Figure::Frame, &FRAMES);
    check(&rt, Figure::Box, &BOXES);
}

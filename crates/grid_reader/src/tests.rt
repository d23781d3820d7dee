ghost use Rattle.grid_reader.specs.Frames.{IsFrameOf};

use super::{Frame, Grid, GridFault, boxes, frames, name, read_grid};
use std::alloc::Global;
use std::test::Fail;
use umix_base::Place;

/// Grids and what is to be read in them: of each frame its name, corners, north entry, west entry
/// and exits, then of each of its boxes the corners and the text.
const READ: [(&str, &str); 12] = [
    (
        ",...............,
:main           :
: *============*:
: !send[((),E)]!-
: *============*:
'...............'
",
        "main 1:1 6:17 None None [4]
3:3 5:16 send[((),E)]
",
    ),
    (
        ",..........,
:main      :
: *=======*:
: !use bad!-
: *=======*:
'..........'
,................................,
:bad                             :
: *============*  *=============*:
: !send[((),E)]!->!case W of E,S!-
: *============*  *=============*:
'................................'
",
        "main 1:1 6:12 None None [4]
3:3 5:11 use bad
bad 7:1 12:34 None None [10]
9:3 11:16 send[((),E)]
9:19 11:33 case W of E,S
",
    ),
    (
        ",.........................,
:main                     :
: *============*  *======*:
: !send[((),E)]!->!use id!-
: *============*  *======*:
'.........................'
,....,
:id  :
------
'....'
",
        "main 1:1 6:27 None None [4]
3:3 5:16 send[((),E)]
3:19 5:26 use id
id 7:1 10:6 None Some(9) [9]
",
    ),
    (
        ",...|......,
:x  |      :
----#-------
:   v      :
: *======* :
: !send[]! :
: *======* :
'..........'
,...............,
:main           :
: *============*:
: !send[((),E)]!-
: *============*:
'...............'
",
        "x 1:1 8:12 Some(5) Some(3) [3]
5:3 7:10 send[]
main 9:1 14:17 None None [12]
11:3 13:16 send[((),E)]
",
    ),
    (
        ",.....,
:m |  :
---+  :
:  |  :
'.....'
",
        "m 1:1 5:7 None Some(3) []
",
    ),
    (
        ",..|..,
:m |  :
:  +---
:  |  :
---+  :
'.....'
",
        "m 1:1 6:7 Some(4) Some(5) [3]
",
    ),
    (
        ",...............................................,
:main                                           :
: *============*  *===========*  *=============*:
: !send[((),E)]!->!send[(W,E)]!->!case W of E,S!-
: *============*  *===========*  *=============*:
: *============*  *=======*                     :
: !send[((),E)]!->!split W!                     :
: *============*  *=======*                     :
'...............................................'
",
        "main 1:1 9:49 None None [4]
3:3 5:16 send[((),E)]
3:19 5:31 send[(W,E)]
3:34 5:48 case W of E,S
6:3 8:16 send[((),E)]
6:19 8:27 split W
",
    ),
    (
        ",...............,
:main           :
: *============*:
: !send[((),E)]!-
: *============*:
: *============*:
: !send[((),E)]!-
: *============*:
'...............'
",
        "main 1:1 9:17 None None [4, 7]
3:3 5:16 send[((),E)]
6:3 8:16 send[((),E)]
",
    ),
    (
        ",.........,
:main     :
: *======*:
: !send[]!:
: *======*:
'.........'
",
        "main 1:1 6:11 None None []
3:3 5:10 send[]
",
    ),
    (
        ",..........................,
:main                      :
: *============*  *=======*:
: !send[((),E)]!->!split W!-
: *============*  *=======*:
: *========*               :
: !use loop!               :
: *========*               :
'..........................'
,...........,
:loop       :
: *========*:
: !use loop!-
: *========*:
'...........'
",
        "main 1:1 9:28 None None [4]
3:3 5:16 send[((),E)]
3:19 5:27 split W
6:3 8:12 use loop
loop 10:1 15:13 None None [13]
12:3 14:12 use loop
",
    ),
    (
        ",......................................,
:main                                  :
: *========================*           :
: !send[(Inr Inr Inl (),E),!-----+     :
: !(Inr Inr Inr Inl (),S)] !     |     :
: *========================*     v     :
:        |                   *========*:
:        +------------------>!use plus!-
:                            *========*:
'......................................'
,..........................|...................................,
:plus                      v                                   :
:                    *=============*                           :
:                    !case N of S,E!--+                        :
:                    *=============*  |                        :
:                          |          |                        :
:                          v          |                        :
: *=================*  *===========*  |                        :
->!send[(W,S),(W,E)]!->!send[(W,E)]!--#-------------------------
: *=================*  *===========*  v                        :
:          |                      *========*  *===============*:
:          +--------------------->!use plus!->!send[(Inr W,E)]!-
:                                 *========*  *===============*:
'..............................................................'
",
        "main 1:1 10:40 None None [8]
3:3 6:28 send[(Inr Inr Inl (),E), (Inr Inr Inr Inl (),S)] 
7:30 9:39 use plus
plus 11:1 24:64 Some(28) Some(19) [19, 22]
13:22 15:36 case N of S,E
18:3 20:21 send[(W,S),(W,E)]
18:24 20:36 send[(W,E)]
21:35 23:44 use plus
21:47 23:63 send[(Inr W,E)]
",
    ),
    (
        ",..............................,
:main                          :
:+----+                        :
:|    v                        :
:| *===========*  *===========*:
:| !send[(N,E)]!->!send[(W,S)]!:
:| *===========*  *===========*:
:|                      |      :
:+----------------------+      :
'..............................'
",
        "main 1:1 10:32 None None []
5:4 7:16 send[(N,E)]
5:19 7:31 send[(W,S)]
",
    ),
];

/// Grids and the number and the place of the first fault in each, or zeros.
const REFUSED: [(&str, (u8, u32, u32)); 23] = [
    // a CR that is not right before an LF
    ("ab\rc\n", (2, 1, 3)),
    // the first of two CR before an LF
    ("ab\r\r\n", (2, 1, 3)),
    // a CR at the end of the file
    ("ab\r", (2, 1, 3)),
    // a byte that may not stand comes before the open frame above it
    (",..\n:\x09\n", (2, 2, 2)),
    // CR LF and no LF at the end
    (",..,\r\n:a :\r\n'..'", (0, 0, 0)),
    // two entries of the top border and two of the left
    (
        ",.|.|.,
:a    :
-     :
-     :
'.....'
",
        (6, 1, 5),
    ),
    // two entries of the left border, and an open frame below
    (
        ",.....,
:a    :
-     :
-     :
'.....'
,..
:
",
        (6, 4, 1),
    ),
    // an open frame that has two entries too
    (
        ",.|.|.,
:a    :
'..|..'
",
        (4, 1, 1),
    ),
    // two entries, and an open frame to the right
    (
        ",.|.|.,  ,..
:a    :  :
'.....'
",
        (6, 1, 5),
    ),
    // a right border with a |
    (
        ",..,
:a |
'..'
",
        (4, 1, 1),
    ),
    // a bottom border with a |
    (
        ",...,
:a  :
'.|.'
",
        (4, 1, 1),
    ),
    // a bottom border with a -, to the right of a frame
    (
        ",..,  ,..,
:a :  :b :
'..'  '.-'
",
        (4, 1, 7),
    ),
    // a top right corner that is a corner too
    (
        ",..,..,
:a :b :
'..'..'
",
        (5, 1, 4),
    ),
    // the same, without a frame of its own
    (
        ",..,..,
:a :b :
'..'...
",
        (4, 1, 4),
    ),
    // the pattern of a corner within a frame
    (
        ",......,
:a     :
: ,..  :
: :    :
'......'
",
        (0, 0, 0),
    ),
    // a digit first, and an open box
    (
        ",.....,
:9a   :
:*=*  :
:! !  :
'.....'
",
        (7, 2, 2),
    ),
    // a name of 33 letters
    (
        ",.................................,
:aaaaaaaaaaaaaaaaaaaaaaaaaaaaaaaaa:
'.................................'
",
        (7, 2, 2),
    ),
    // no name in the second frame, and an open box in the third
    (
        ",..,
:a :
'..'
,..,
:  :
'..'
,....,
:c   :
:*=  :
:!   :
'....'
",
        (7, 5, 2),
    ),
    // a bottom edge that is too short, and no name in the next frame
    (
        ",.......,
:a      :
: *==*  :
: !  !  :
: *=*   :
'.......'
,..,
:  :
'..'
",
        (8, 3, 3),
    ),
    // two boxes that share a side
    (
        ",.......,
:a      :
:*=*=*  :
:!x!y!  :
:*=*=*  :
'.......'
",
        (9, 3, 4),
    ),
    // the same, the second open
    (
        ",.......,
:a      :
:*=*=*  :
:!x!y!  :
:*=*==  :
'.......'
",
        (8, 3, 4),
    ),
    // the pattern of a corner within a box
    (
        ",.......,
:a      :
:*===*  :
:!*= !  :
:!!  !  :
:*===*  :
'.......'
",
        (0, 0, 0),
    ),
    // two open boxes, the one to the right higher
    (
        ",............,
:a           :
:      *=*   :
: *=*  !x!   :
: !x!  *==   :
: *==        :
'............'
",
        (8, 3, 8),
    ),
];

/// The number and the place of a fault; two have no place.
fn number_of(fault: &GridFault) -> (u8, u32, u32) {
    match fault {
        GridFault::TooLong => (1, 0, 0),
        GridFault::BadByte(place) => (2, place.row, place.col),
        GridFault::LineTooLong(place) => (3, place.row, place.col),
        GridFault::OpenFrame(place) => (4, place.row, place.col),
        GridFault::FramesMeet(place) => (5, place.row, place.col),
        GridFault::TwoEntries(place) => (6, place.row, place.col),
        GridFault::NoName(place) => (7, place.row, place.col),
        GridFault::OpenBox(place) => (8, place.row, place.col),
        GridFault::BoxesMeet(place) => (9, place.row, place.col),
        GridFault::Memory => (0, 1, 1),
    }
}

/// What is read of a text, a line for each frame and for each box.
fn read(alloc: Global, bytes: &[u8]) -> Result<String, GridFault> {
    let grid = read_grid(alloc, bytes)?;
    let frames = frames(alloc, &grid)?;
    let mut told = String::new(alloc);
    for frame in &frames {
        told.push_str(read_frame(alloc, &grid, frame)?.as_str())?;
    }
    Ok(told)
}

fn read_frame(alloc: Global, grid: &Grid, frame: &Frame) -> Result<String, GridFault>
    requires { IsFrameOf grid.now frame.now }
{
    let name = name(alloc, grid, frame)?;
    let mut told = format!(in alloc;
        "{} {}:{} {}:{} {:?} {:?} {:?}\n",
        text_of(name.bytes()),
        frame.top,
        frame.left,
        frame.bottom,
        frame.right,
        frame.north,
        frame.west,
        frame.exits
    )?;
    for found in &boxes(alloc, grid, frame)? {
        let line = format!(in alloc;
            "{}:{} {}:{} {}\n",
            found.top,
            found.left,
            found.bottom,
            found.right,
            text_of(&found.text)
        )?;
        told.push_str(line.as_str())?;
    }
    Ok(told)
}

fn text_of(bytes: &[u8]) -> &str {
    str::from_utf8(bytes).unwrap_or("?")
}

#[test]
fn grids_are_read(rt: HostRuntime) -> Result<(), Fail> {
    for (grid, told) in &READ {
        assert_eq!(rt; read(rt.alloc(), grid.as_bytes())?.as_str(), *told);
    }
    Ok(())
}

#[test]
fn first_faults_are_told(rt: HostRuntime) {
    for (grid, fault) in &REFUSED {
        let told = match read(rt.alloc(), grid.as_bytes()) {
            Ok(_) => (0, 0, 0),
            Err(fault) => number_of(&fault),
        };
        assert_eq!(rt; told, *fault, "{grid}");
    }
}

#[test]
fn long_files_are_refused(rt: HostRuntime) -> Result<(), Fail> {
    let alloc = rt.alloc();
    for (columns, line, fault) in [
        (4_096, "\r\n", (0, 0, 0)),
        (4_097, "\n", (3, 1, 4_097)),
        (5_000, "\n\x7f\n", (2, 2, 1)),
        (262_144, "", (3, 1, 4_097)),
        (262_145, "\x7f", (1, 0, 0)),
    ] {
        let mut bytes = vec![in alloc; b' '; columns]?;
        bytes.extend_from_slice(line.as_bytes())?;
        let told = match read(alloc, &bytes) {
            Ok(_) => (0, 0, 0),
            Err(fault) => number_of(&fault),
        };
        assert_eq!(rt; told, fault, "{columns}");
    }
    Ok(())
}

#[test]
fn cells_outside_are_spaces(rt: HostRuntime) -> Result<(), Fail> {
    let grid = read_grid(rt.alloc(), b"ab\nc\n")?;
    for (row, col, byte) in [
        (1, 1, b'a'),
        (1, 2, b'b'),
        (2, 1, b'c'),
        (2, 2, b' '),
        (0, 1, b' '),
        (1, 0, b' '),
        (3, 1, b' '),
        (u32::MAX, u32::MAX, b' '),
    ] {
        assert_eq!(rt; grid.cell(Place { row, col }), byte, "{row}:{col}");
    }
    Ok(())
}

use super::{Answer, grid_page};
use std::test::Fail;
use umix_base::MemSink;

/// A text, and its page.
const PAGES: [(&str, &str); 5] = [
    (
        ",....,
:a x :
'....'
",
        "refused 15 Stray at 2:4
        | ....+....1....+....2....+....3....+....4....+....5....+....6....+....7....+....8
      1 | ,....,
      2 | :a x :
        |    ^
      3 | '....'
No wire comes to this cell. Right beside a box only a `|` below or a `-` after it begins a wire.
",
    ),
    (
        ",......,
:mane  :
'......'
",
        "refused 17 NoMain
One module must have the name `main`.
",
    ),
    (
        ",..,
:a :
'...
",
        "refused 4 OpenFrame at 1:1
        | ....+....1....+....2....+....3....+....4....+....5....+....6....+....7....+....8
      1 | ,..,
        | ^
      2 | :a :
      3 | '...
From this corner no frame closes: mostly a border is a cell too short, too long, or has a gap.
The bottom border breaks at 3:4:
        | ....+....1....+....2....+....3....+....4....+....5....+....6....+....7....+....8
      1 | ,..,
      2 | :a :
      3 | '...
        |    ^
",
    ),
    (
        ",....,
:main:
'....'
,....,
:main:
'....'
",
        "refused 16 SameName at 4:1
        | ....+....1....+....2....+....3....+....4....+....5....+....6....+....7....+....8
      1 | ,....,
      2 | :main:
      3 | '....'
      4 | ,....,
        | ^
      5 | :main:
      6 | '....'
This module has the name of an earlier one: each module has a name of its own.
The first one stands here:
        | ....+....1....+....2....+....3....+....4....+....5....+....6....+....7....+....8
      1 | ,....,
        | ^
      2 | :main:
      3 | '....'
      4 | ,....,
      5 | :main:
",
    ),
    (
        ",...................,
:main               :
: +---------------+ :
: | *===========* | :
: +>!send[(W,E)]!-+ :
:   *===========*   :
'...................'
",
        "refused 22 Cycle at 4:5
        | ....+....1....+....2....+....3....+....4....+....5....+....6....+....7....+....8
      1 | ,...................,
      2 | :main               :
      3 | : +---------------+ :
      4 | : | *===========* | :
        |     ^
      5 | : +>!send[(W,E)]!-+ :
      6 | :   *===========*   :
      7 | '...................'
This box waits for itself along its wires: draw a loop as a module that uses itself.
It is main box 1.
  waits for main box 1
        | ....+....1....+....2....+....3....+....4....+....5....+....6....+....7....+....8
      1 | ,...................,
      2 | :main               :
      3 | : +---------------+ :
      4 | : | *===========* | :
        |     ^
      5 | : +>!send[(W,E)]!-+ :
      6 | :   *===========*   :
      7 | '...................'
",
    ),
];

#[test]
fn what_is_wrong_is_shown(rt: HostRuntime) -> Result<(), Fail> {
    let alloc = rt.alloc();
    for (text, page) in &PAGES {
        let mut out = MemSink::new(alloc, 2_000, Vec::new(alloc))?;
        let answer = grid_page(alloc, text.as_bytes(), &mut out);
        assert_eq!(rt; answer, Ok(Answer::Refused));
        assert_eq!(rt; out.bytes(), page.as_bytes());
    }
    Ok(())
}

#[test]
fn a_program_is_counted(rt: HostRuntime) -> Result<(), Fail> {
    let alloc = rt.alloc();
    let text = ",...............,
:main           :
: *============*:
: !send[((),E)]!-
: *============*:
'...............'
";
    let mut out = MemSink::new(alloc, 2_000, Vec::new(alloc))?;
    let answer = grid_page(alloc, text.as_bytes(), &mut out);
    assert_eq!(rt; answer, Ok(Answer::Program));
    assert_eq!(rt; out.bytes(), &b"ok 1 1\n"[..]);
    Ok(())
}

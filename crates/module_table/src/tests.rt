use super::{CheckFault, check, drawn};
use std::alloc::{AllocError, Global};
use std::test::Fail;

/// Texts, and the first fault of each.
const REFUSED: [(&str, &str); 43] = [
    // a frame without a bottom border
    (
        ",...,
:a  :
",
        "4 OpenFrame at 1:1",
    ),
    // an open frame goes before a module without a name
    (
        ",...,
:   :
'...'
,...,
:a
",
        "4 OpenFrame at 4:1",
    ),
    // two frames that share a border
    (
        ",..,..,
:a :b :
'..'..'
",
        "5 FramesMeet at 1:4",
    ),
    // a second entry of the first frame goes before a second frame that meets it
    (
        ",||,..,
:a :b :
'..'..'
",
        "6 TwoEntries at 1:3",
    ),
    // two north entries
    (
        ",.|.|.,
:a    :
'.....'
",
        "6 TwoEntries at 1:5",
    ),
    // a second entry goes before a later open frame
    (
        ",...,
-a  :
-   :
'...'
,...,
:b
",
        "6 TwoEntries at 3:1",
    ),
    // no name
    (
        ",....,
: a  :
'....'
",
        "7 NoName at 2:2",
    ),
    // no name goes before an open box
    (
        ",....,
:9a  :
: *= :
: !  :
'....'
",
        "7 NoName at 2:2",
    ),
    // a box without a bottom edge
    (
        ",.....,
:a    :
: *=* :
: ! ! :
'.....'
",
        "8 OpenBox at 3:3",
    ),
    // an open box of the first module goes before the second module, which has no name
    (
        ",.....,
:a    :
: *=* :
: ! ! :
'.....'
,.....,
:     :
'.....'
",
        "8 OpenBox at 3:3",
    ),
    // two boxes that share a side, with commands that are none
    (
        ",.......,
:a      :
:*=*=*  :
:!x!y!  :
:*=*=*  :
'.......'
",
        "9 BoxesMeet at 3:4",
    ),
    // an open box goes before a later one that meets another
    (
        ",.......,
:a      :
:*=* *= :
:!x! !  :
:*=*=*  :
:  !y!  :
:  *=*  :
'.......'
",
        "8 OpenBox at 3:6",
    ),
    // no command
    (
        ",...............,
:main           :
: *============*:
: !sendx[(),E)]!-
: *============*:
'...............'
",
        "10 BadCommand at 4:8",
    ),
    // no command goes before two ports of another box
    (
        ",..............,
:main          :
: v v          :
: *======*     :
: !send[]!     :
: *======*     :
: *=*          :
: !x!          :
: *=*          :
'..............'
",
        "10 BadCommand at 8:4",
    ),
    // a 65th level
    (
        ",...................................,
:main                               :
: *===============================* :
: !split                          ! :
: !Inl Inl Inl Inl Inl Inl Inl Inl! :
: !Inl Inl Inl Inl Inl Inl Inl Inl! :
: !Inl Inl Inl Inl Inl Inl Inl Inl! :
: !Inl Inl Inl Inl Inl Inl Inl Inl! :
: !Inl Inl Inl Inl Inl Inl Inl Inl! :
: !Inl Inl Inl Inl Inl Inl Inl Inl! :
: !Inl Inl Inl Inl Inl Inl Inl Inl! :
: !Inl Inl Inl Inl Inl Inl Inl Inl! :
: !()                             ! :
: *===============================* :
'...................................'
",
        "24 TooDeep at 13:4",
    ),
    // a 65th level goes before a later box without a command
    (
        ",...................................,
:main                               :
: *===============================* :
: !split                          ! :
: !Inl Inl Inl Inl Inl Inl Inl Inl! :
: !Inl Inl Inl Inl Inl Inl Inl Inl! :
: !Inl Inl Inl Inl Inl Inl Inl Inl! :
: !Inl Inl Inl Inl Inl Inl Inl Inl! :
: !Inl Inl Inl Inl Inl Inl Inl Inl! :
: !Inl Inl Inl Inl Inl Inl Inl Inl! :
: !Inl Inl Inl Inl Inl Inl Inl Inl! :
: !Inl Inl Inl Inl Inl Inl Inl Inl! :
: !()                             ! :
: *===============================* :
: *=*                               :
: !x!                               :
: *=*                               :
'...................................'
",
        "24 TooDeep at 13:4",
    ),
    // the second of three ports of a side
    (
        ",..........,
:main      :
:    vvv   :
: *======* :
: !send[]! :
: *======* :
'..........'
",
        "11 TwoPorts at 3:7",
    ),
    // two ports of the second box go before a wire of the first that breaks off
    (
        ",................,
:main            :
: *============* :
: !send[((),S)]! :
: *============* :
:  |             :
:                :
:     vv         :
: *======*       :
: !send[]!       :
: *======*       :
'................'
",
        "11 TwoPorts at 8:8",
    ),
    // two west ports go before a broken wire
    (
        ",...............,
:main           :
: *============*:
: !send[((),S)]!:
: *============*:
:  |            :
:               :
: *======*      :
:>!send[]!      :
:>!      !      :
: *======*      :
'...............'
",
        "11 TwoPorts at 10:2",
    ),
    // a wire comes to the border, and its `-` there is no end
    (
        ",..|..,
:a |  :
---+  :
'.....'
",
        "12 BrokenWire at 3:1",
    ),
    // a start of a later wire is not yet on a wire
    (
        ",...........|.,
:a          | :
: *======*  | :
: !send[]!  | :
: *======*  | :
:    |      | :
:    +------+ :
'.............'
",
        "12 BrokenWire at 5:6",
    ),
    // a crossing with a `-` in place of the `#`
    (
        ",...|......,
:x  |      :
------------
:   v      :
: *======* :
: !send[]! :
: *======* :
'..........'
,...............,
:main           :
: *============*:
: !send[((),E)]!-
: *============*:
'...............'
",
        "12 BrokenWire at 3:5",
    ),
    // a turn with two ways to go
    (
        ",.....,
:m |  :
---+  :
:  |  :
'.....'
",
        "13 BadTurn at 3:4",
    ),
    // a bad turn goes before a stray cell above it
    (
        ",.....,
:m | x:
---+  :
:  |  :
'.....'
",
        "13 BadTurn at 3:4",
    ),
    // two wires in one cell
    (
        ",..|..,
:m |  :
:  +---
:  |  :
---+  :
'.....'
",
        "14 Merge at 3:4",
    ),
    // a merge goes before a bad turn at one cell
    (
        ",....|..,
:a   |  :
:+---+  :
:|      :
-+-------
:|      :
'.......'
",
        "14 Merge at 5:2",
    ),
    // a merge goes before a break further along
    (
        ",....|..,
:a   |  :
:+---+  :
:|      :
-+-------
'.......'
",
        "14 Merge at 5:2",
    ),
    // a cell that belongs to nothing
    (
        ",....,
:a x :
'....'
",
        "15 Stray at 2:4",
    ),
    // a stray cell of the first module goes before the second module, which has no name
    (
        ",....,
:a x :
'....'
,....,
:    :
'....'
",
        "15 Stray at 2:4",
    ),
    // two modules of one name
    (
        ",...............,
:main           :
: *============*:
: !send[((),E)]!-
: *============*:
'...............'
,...............,
:main           :
: *============*:
: !send[((),E)]!-
: *============*:
'...............'
",
        "16 SameName at 7:1",
    ),
    // a second name goes before the want of a main
    (
        ",...,
:a  :
'...'
,...,
:a  :
'...'
",
        "16 SameName at 4:1",
    ),
    // no main
    (
        ",....,
:id  :
------
'....'
",
        "17 NoMain",
    ),
    // the want of a main goes before the use of no module
    (
        ",.........,
:q        :
: *======*:
: !use zz!:
: *======*:
'.........'
",
        "17 NoMain",
    ),
    // main has an entry
    (
        ",......,
:main  :
--------
'......'
",
        "18 MainHasInput at 1:1",
    ),
    // an entry of main goes before the use of no module in an earlier one
    (
        ",.........,
:q        :
: *======*:
: !use zz!:
: *======*:
'.........'
,......,
:main  :
--------
'......'
",
        "18 MainHasInput at 7:1",
    ),
    // no module
    (
        ",...............,
:main           :
: *============*:
: !use two     !-
: *============*:
'...............'
",
        "19 NoModule at 3:3",
    ),
    // the use of no module goes before a ring in an earlier one
    (
        ",..............................,
:main                          :
:+----+                        :
:|    v                        :
:| *===========*  *===========*:
:| !send[(N,E)]!->!send[(W,S)]!:
:| *===========*  *===========*:
:|                      |      :
:+----------------------+      :
'..............................'
,.........,
:q        :
: *======*:
: !use zz!:
: *======*:
'.........'
",
        "19 NoModule at 13:3",
    ),
    // an entry that is not wired
    (
        ",..........,
:main      :
: *======* :
: !use id!--
: *======* :
'..........'
,....,
:id  :
------
'....'
",
        "20 BadInputs at 3:3",
    ),
    // a wire for which there is no entry
    (
        ",........................,
:main                    :
: *============*  *=====*:
: !send[((),E)]!->!use a!:
: *============*  *=====*:
'........................'
,...,
:a  :
'...'
",
        "20 BadInputs at 3:19",
    ),
    // an input that is named and not wired
    (
        ",...............,
:main           :
: *============*:
: !send[(N,E)] !-
: *============*:
'...............'
",
        "21 Unwired at 3:3",
    ),
    // box by box: an input that is not wired goes before a later use of no module
    (
        ",............................,
:main                        :
: *===========*  *=========* :
: !send[(W,E)]!->!use three! :
: *===========*  *=========* :
'............................'
",
        "21 Unwired at 3:3",
    ),
    // a ring of two boxes
    (
        ",..............................,
:main                          :
:+----+                        :
:|    v                        :
:| *===========*  *===========*:
:| !send[(N,E)]!->!send[(W,S)]!:
:| *===========*  *===========*:
:|                      |      :
:+----------------------+      :
'..............................'
",
        "22 Cycle at 5:4",
    ),
    // an input that is not wired goes before a ring in an earlier module
    (
        ",..............................,
:main                          :
:+----+                        :
:|    v                        :
:| *===========*  *===========*:
:| !send[(N,E)]!->!send[(W,S)]!:
:| *===========*  *===========*:
:|                      |      :
:+----------------------+      :
'..............................'
,..............,
:q             :
: *===========*:
: !send[(N,E)]!-
: *===========*:
'..............'
",
        "21 Unwired at 13:3",
    ),
];

/// A module that sends a value out.
const ONE_BOX: &str = ",...............,
:main           :
: *============*:
: !send[((),E)]!-
: *============*:
'...............'
";

/// What the check answers: how many modules and boxes, or the number, the name and the place of a fault.
fn told(alloc: Global, bytes: &[u8]) -> Result<String, AllocError> {
    match check(alloc, bytes) {
        Ok(program) => {
            let modules = program.modules().len();
            format!(in alloc; "ok {modules}")
        }
        Err(fault) => match &fault {
            CheckFault::Bad { number, place } => {
                let name = fault.name();
                match place {
                    Some(place) => {
                        format!(in alloc; "{number} {name} at {}:{}", place.row, place.col)
                    }
                    None => format!(in alloc; "{number} {name}"),
                }
            }
            CheckFault::Memory => format!(in alloc; "memory"),
        },
    }
}

#[test]
fn the_first_fault_is_told(rt: HostRuntime) -> Result<(), Fail> {
    for (text, fault) in &REFUSED {
        let answer = told(rt.alloc(), text.as_bytes())?;
        assert_eq!(rt; answer.as_str(), *fault, "{text}");
    }
    Ok(())
}

#[test]
fn long_texts_are_refused(rt: HostRuntime) -> Result<(), Fail> {
    let alloc = rt.alloc();
    for (before, columns, after, answer) in [
        ("", 4_097, "\n", "3 LineTooLong at 1:4097"),
        (",..\n:\n", 4_097, "\n", "3 LineTooLong at 3:4097"),
        ("", 4_097, "\n\t\n", "2 BadByte at 2:1"),
        (ONE_BOX, 4_096, "\n", "ok 1"),
        ("\t", 262_143, "", "2 BadByte at 1:1"),
        ("\t", 262_144, "", "1 TooLong"),
    ] {
        let mut bytes = vec![in alloc; b' '; columns]?;
        bytes.splice(0..0, before.bytes())?;
        bytes.extend_from_slice(after.as_bytes())?;
        assert_eq!(rt; told(alloc, &bytes)?.as_str(), answer);
    }
    Ok(())
}

#[test]
fn a_text_of_all_bytes_that_are_allowed_is_read(rt: HostRuntime) -> Result<(), Fail> {
    let alloc = rt.alloc();
    for (bytes, answer) in [(262_144, "ok 1"), (262_145, "1 TooLong")] {
        let mut text = Vec::from_slice(alloc, ONE_BOX.as_bytes())?;
        text.resize(bytes, b'\n')?;
        assert_eq!(rt; told(alloc, &text)?.as_str(), answer);
    }
    Ok(())
}

#[test]
fn a_program_has_the_modules_that_are_drawn(rt: HostRuntime) -> Result<(), Fail> {
    let alloc = rt.alloc();
    let program = check(alloc, ONE_BOX.as_bytes())?;
    let modules = format!(in alloc; "{:?}", program.modules())?;
    assert_eq!(rt;
        modules.as_str(),
        "[Module { name: Name { bytes: [109, 97, 105, 110] }, \
        north: false, west: false, boxes: [BoxRow { command: Send([(Unit, E)]), \
        n: None, w: None }], exits: [Some(East(0))] }]"
    );
    Ok(())
}

#[test]
fn modules_are_told_where_they_are_drawn(rt: HostRuntime) -> Result<(), Fail> {
    let alloc = rt.alloc();
    let drawn = drawn(alloc, ONE_BOX.as_bytes())?;
    assert_eq!(rt; drawn.modules.len(), 1);
    let corners = format!(in alloc; "{:?}", drawn.corners)?;
    assert_eq!(rt;
        corners.as_str(),
        "[Corners { frame: Place { row: 1, col: 1 }, boxes: [Place { row: 3, col: 3 }] }]"
    );
    Ok(())
}

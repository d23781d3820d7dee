use super::{Answer, stuck_page};
use std::test::Fail;

/// A module that uses one that is stuck, and its page.
const STUCK: &str = ",..........,
:main      :
: *=======*:
: !use bad!-
: *=======*:
'..........'
,................................,
:bad                             :
: *============*  *=============*:
: !send[((),E)]!->!case W of E,S!-
: *============*  *=============*:
'................................'
";

const STUCK_PAGE: &str = "stuck: bad box 2: no sum
        | ....+....1....+....2....+....3....+....4....+....5....+....6....+....7....+....8
      5 | : *=======*:
      6 | '..........'
      7 | ,................................,
      8 | :bad                             :
      9 | : *============*  *=============*:
        |                   ^
     10 | : !send[((),E)]!->!case W of E,S!-
     11 | : *============*  *=============*:
     12 | '................................'
  in main box 1
        | ....+....1....+....2....+....3....+....4....+....5....+....6....+....7....+....8
      1 | ,..........,
      2 | :main      :
      3 | : *=======*:
        |   ^
      4 | : !use bad!-
      5 | : *=======*:
      6 | '..........'
      7 | ,................................,
";

/// A module that sends nothing out.
const SILENT: &str = ",.........,
:main     :
: *======*:
: !send[]!-
: *======*:
'.........'
";

const SILENT_PAGE: &str = "stuck: main: no result
        | ....+....1....+....2....+....3....+....4....+....5....+....6....+....7....+....8
      1 | ,.........,
        | ^
      2 | :main     :
      3 | : *======*:
      4 | : !send[]!-
      5 | : *======*:
";

/// A module that sends a value out.
const VALUE: &str = ",...............,
:main           :
: *============*:
: !send[((),E)]!-
: *============*:
'...............'
";

/// A module that uses itself until it is stuck, so that it has eleven callers.
const DEEP: &str = ",.......................................................................,
:main                                                                   :
: *========================================================*  *========*:
: !send[(Inr Inr Inr Inr Inr Inr Inr Inr Inr Inr Inl (),E)]!->!use down!-
: *========================================================*  *========*:
'.......................................................................'
,............................,
:down                        :
: *=============*  *========*:
->!case W of S,E!->!use down!-
: *=============*  *========*:
'............................'
";

#[test]
fn each_text_has_its_page(rt: HostRuntime) -> Result<(), Fail> {
    for (text, answer, bytes) in [
        (STUCK, Answer::Stuck, STUCK_PAGE),
        (SILENT, Answer::Stuck, SILENT_PAGE),
        (VALUE, Answer::Value, "not stuck\n"),
        ("'", Answer::Refused, ""),
        (",..,\n", Answer::Refused, ""),
    ] {
        let page = stuck_page(rt.alloc(), text.as_bytes())?;
        assert_eq!(rt; page.answer, answer);
        assert_eq!(rt; page.bytes.as_slice(), bytes.as_bytes());
    }
    Ok(())
}

#[test]
fn nine_callers_are_shown(rt: HostRuntime) -> Result<(), Fail> {
    let page = stuck_page(rt.alloc(), DEEP.as_bytes())?;
    assert_eq!(rt; page.answer, Answer::Stuck);
    assert!(rt; page.bytes.starts_with(b"stuck: down: no result\n"));
    assert!(rt; page.bytes.ends_with(b"  in 2 more\n"));
    Ok(())
}

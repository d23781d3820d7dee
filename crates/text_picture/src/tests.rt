use super::picture;
use std::test::Fail;
use umix_base::Place;

/// Twelve rows, the sixth of which is the widest.
const TEXT: &[u8] = b"1\n2\n3\n4\n5\n*====*\n!\xc2\xb5\t   !\r\n*====*\n9\n10\n11\n12\n";

/// The rows 3 to 11, with a mark under the `!` on the right.
const AROUND: &str =
    "        | ....+....1....+....2....+....3....+....4....+....5....+....6....+....7....+....8
      3 | 3
      4 | 4
      5 | 5
      6 | *====*
      7 | !???   !
        |        ^
      8 | *====*
      9 | 9
     10 | 10
     11 | 11
";

#[test]
fn rows_around_a_place_are_shown(rt: HostRuntime) -> Result<(), Fail> {
    let page = picture(rt.alloc(), TEXT, Place { row: 7, col: 8 })?;
    assert_eq!(rt; page.as_slice(), AROUND.as_bytes());
    Ok(())
}

#[test]
fn a_row_behind_the_last_is_shown(rt: HostRuntime) -> Result<(), Fail> {
    let page = picture(rt.alloc(), b"a\n", Place { row: 2, col: 2 })?;
    assert!(rt; page.ends_with(b"\n      1 | a\n      2 | \n        |  ^\n"));
    Ok(())
}

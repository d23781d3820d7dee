use crate::{Answer, asm_page};
use std::test::Fail;

/// Texts, and their pages.
const PAGES: [(&str, Answer, &str); 4] = [
    (
        "start: set r0, 65 ; A\n\nout r0\nhalt\n.hex 0000000100000002\n",
        Answer::Accepted,
        "ok 5\n\
        \u{20}       1        0        0 d0000041 | start: set r0, 65 ; A\n\
        \u{20}       2                            | \n\
        \u{20}       3        1        1 a0000000 | out r0\n\
        \u{20}       4        2        2 70000000 | halt\n\
        \u{20}       5        3        3 00000001 | .hex 0000000100000002\n\
        \u{20}                4        4 00000002\n",
    ),
    (
        "halt\nadd r0, r1\n",
        Answer::Refused,
        "refused 41 BadLine 2\n\
        \u{20}       2 | add r0, r1\n\
        `add` takes three registers, as in `add r0, r1, r2`.\n",
    ),
    (
        "a: halt\na: halt\n",
        Answer::Refused,
        "refused 42 SameLabel 2\n\
        \u{20}       2 | a: halt\n\
        An earlier line of the same scope defines this name; the first of them counts.\n",
    ),
    (
        "1st: halt",
        Answer::Refused,
        "refused 41 BadLine 1\n\
        \u{20}       1 | 1st: halt\n\
        Before the `:` stands no label: one token, a letter first, as in `again: halt`.\n",
    ),
];

#[test]
fn pages_are_made(rt: HostRuntime) -> Result<(), Fail> {
    for (text, answer, bytes) in &PAGES {
        let page = asm_page(rt.alloc(), text.as_bytes())?;
        assert!(rt; page.answer == *answer);
        assert_eq!(rt; page.bytes.as_slice(), bytes.as_bytes());
    }
    Ok(())
}

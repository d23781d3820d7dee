use crate::{generate, list_words};
use std::test::Fail;

/// Of a number: the bytes of its grid, its modules and boxes, and a sum over all its bytes.
type Row = (u64, usize, usize, usize, u32);

/// What another program, written from the document alone, gives for ten numbers.
const ROWS: [Row; 10] = [
    (0, 9_924, 44, 105, 63_516_286),
    (1, 7_176, 34, 76, 151_941_055),
    (2, 9_762, 45, 102, 450_551_770),
    (3, 10_434, 46, 110, 3_319_326_428),
    (7, 6_354, 28, 68, 2_023_747_285),
    (42, 10_446, 48, 110, 2_025_641_517),
    (1_000, 11_670, 52, 124, 4_244_710_082),
    (4_294_967_296, 8_874, 39, 94, 4_011_087_166),
    (9_223_372_036_854_775_808, 6_018, 27, 64, 3_466_447_464),
    (18_446_744_073_709_551_615, 10_890, 48, 115, 3_643_391_580),
];

fn count(text: &[u8], byte: u8) -> usize {
    text.iter().filter(|one| **one == byte).count()
}

fn sum(text: &[u8]) -> u32 {
    let mut sum: u32 = 0;
    for byte in text {
        sum = sum.wrapping_mul(31).wrapping_add(u32::from(*byte));
    }
    sum
}

#[test]
fn ten_numbers_have_their_grids(rt: HostRuntime) -> Result<(), Fail> {
    for (number, bytes, modules, boxes, wanted) in ROWS {
        let text = generate(rt.alloc(), number)?;
        let of_text = (
            text.len(),
            count(&text, b'\'') / 2,
            count(&text, b'!') / 2,
            sum(&text),
        );
        assert!(rt;
            of_text == (bytes, modules, boxes, wanted),
            "{number}: {of_text:?}"
        );
    }
    Ok(())
}

#[test]
fn one_has_its_sixteen_words(rt: HostRuntime) -> Result<(), Fail> {
    let words = list_words(rt.alloc(), 1)?;
    assert!(rt; words.len() == 16 && words[0] == 3_070_869_273 && words[15] == 968_012_380);
    Ok(())
}

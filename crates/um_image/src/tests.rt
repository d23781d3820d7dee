use super::*;
use array_store::{MOST_ARRAYS, MOST_WORDS};
use std::alloc::Global;
use std::test::Fail;
use um_machine::{Machine, Stop};
use um_word::{bytes_of, words_of};
use umix_base::{Limits, MemSink, MemSource};

const LIMITS: Limits = Limits {
    arrays: MOST_ARRAYS,
    words: MOST_WORDS,
};

// `A` is written, and then the machine halts.
const HELLO: [u32; 3] = [0xd000_0041, 0xa000_0000, 0x7000_0000];

// The image of this machine after two cycles.
const IMAGE: [u32; 21] = [
    0x554d_4931,
    0x41,
    0,
    0,
    0,
    0,
    0,
    0,
    0,
    2,
    0,
    2,
    0,
    0,
    0,
    0,
    0,
    3,
    0xd000_0041,
    0xa000_0000,
    0x7000_0000,
];

// The words behind the halted word of the image of ARRAYS after ten cycles: three identifiers made,
// 1 and 3 abandoned in this order, array 0 and array 2 of two words each.
const TAIL: [u32; 11] = [3, 2, 1, 3, 2, 0, 0, 2, 2, 0, 0];

// Arrays are made, loaded and abandoned.
const ARRAYS: [u32; 11] = [
    0xd200_0002,
    0x8000_0011,
    0x8000_0011,
    0x8000_0011,
    0xd000_0001,
    0x9000_0000,
    0xd000_0003,
    0x9000_0000,
    0xd000_0002,
    0xc000_0005,
    0,
];

// Two bytes are read and written, one on each side.
const ECHO: [u32; 5] = [
    0xb000_0000,
    0xa000_0000,
    0xb000_0001,
    0xa000_0001,
    0x7000_0000,
];

// What comes of a scroll that is run for so many cycles, saved, read and run for so many more, with
// the input that it has left.
#[derive(Drop)]
struct Trip {
    first: Stop,
    taken: u64,
    image: Vec<u8>,
    then: Stop,
    out: Vec<u8>,
}

// There are few cycles, so that both runs may be made: where there are more it is `None`.
fn there_and_back(
    alloc: Global,
    scroll: &[u32],
    input: &[u8],
    cycles: [u64; 2],
) -> Result<Option<Trip>, Fail> {
    let Ok(mut machine) = Machine::new(alloc, scroll.to_vec(alloc)?, LIMITS) else {
        return Ok(None);
    };
    let mut source = MemSource::new(input.to_vec(alloc)?, Vec::new(alloc));
    let mut out = MemSink::new(alloc, 64, Vec::new(alloc))?;
    if machine.cycles() > 100 || cycles[0] > 100 || cycles[1] > 100 {
        return Ok(None);
    }
    let (first, taken) = run_counted(&mut machine, &mut source, &mut out, cycles[0]);
    if machine.cycles() > 100 || taken > machine.cycles() {
        return Ok(None);
    }
    let image = image(alloc, &machine, taken)?;
    let (mut machine, taken) = read_image(alloc, &image)?;
    if machine.cycles() > 100 {
        return Ok(None);
    }
    let (then, _) = run_counted(&mut machine, &mut source, &mut out, cycles[1]);
    Ok(Some(Trip {
        first,
        taken,
        image,
        then,
        out: out.bytes().to_vec(alloc)?,
    }))
}

#[test]
fn images(rt: HostRuntime) -> Result<(), Fail> {
    let alloc = rt.alloc();
    let hello = there_and_back(alloc, &HELLO, b"", [2, 1])?.ok_or("no run")?;
    let words = words_of(alloc, &hello.image)?;
    assert_eq!(rt; words.as_slice(), IMAGE.as_slice());
    assert_eq!(rt;
        (hello.first, hello.taken, hello.then),
        (Stop::Budget, 0, Stop::Halted)
    );
    assert_eq!(rt; hello.out.as_slice(), b"A".as_slice());
    let echo = there_and_back(alloc, &ECHO, b"xy", [2, 3])?.ok_or("no run")?;
    assert_eq!(rt;
        (echo.first, echo.taken, echo.then),
        (Stop::Budget, 1, Stop::Halted)
    );
    assert_eq!(rt; echo.out.as_slice(), b"xy".as_slice());
    let arrays = there_and_back(alloc, &ARRAYS, b"", [10, 0])?.ok_or("no run")?;
    let words = words_of(alloc, &arrays.image)?;
    assert_eq!(rt; (arrays.first, arrays.then), (Stop::Budget, Stop::Budget));
    assert!(rt; words.len() > 15);
    assert_eq!(rt; &words[15..], TAIL.as_slice());
    Ok(())
}

// where these bytes stop being a prefix of an image, or `None` where they are one
fn place(alloc: Global, bytes: &[u8]) -> Result<Option<usize>, ImageFault> {
    match read_image(alloc, bytes) {
        Ok(_) => Ok(None),
        Err(ImageFault::Bad(place)) => Ok(Some(place)),
        Err(fault) => Err(fault),
    }
}

// Does every cut of an image stop at its last whole word, and do bytes behind it stop at its end?
fn cuts_are_told(alloc: Global, good: &[u8]) -> Result<bool, Fail> {
    let mut told = place(alloc, good)?.is_none();
    for k in 0..good.len() {
        told = told && place(alloc, &good[..k])? == Some(k / 4 * 4);
    }
    let mut longer = good.to_vec(alloc)?;
    for _ in 0..5 {
        longer.push(0)?;
        told = told && place(alloc, &longer)? == Some(good.len());
    }
    Ok(told)
}

// The place of a word in an image, another word for it, and where the prefix ends: the rows are
// those of a program that was written by the table of docs/IMAGES.md alone.
#[test]
fn bad_images(rt: HostRuntime) -> Result<(), Fail> {
    let alloc = rt.alloc();
    let hello = bytes_of(alloc, &IMAGE)?;
    let arrays = there_and_back(alloc, &ARRAYS, b"", [10, 0])?
        .ok_or("no run")?
        .image;
    let echo = there_and_back(alloc, &ECHO, b"xy", [4, 0])?
        .ok_or("no run")?
        .image;
    assert!(rt; cuts_are_told(alloc, &hello)?);
    assert!(rt; cuts_are_told(alloc, &arrays)?);
    assert!(rt; cuts_are_told(alloc, &echo)?);
    for (image, at, word, want) in [
        (&hello, 0, 0x004d_4931, Some(0)),
        (&hello, 0, 0x554d_4932, Some(0)),
        (&hello, 8, 0xffff_ffff, None),
        (&hello, 9, 0xffff_ffff, None),
        (&hello, 10, 0x4000_0001, Some(40)),
        (&hello, 10, 0x4000_0000, Some(44)),
        (&hello, 10, 0x3fff_ffff, None),
        (&hello, 11, 0, None),
        (&hello, 12, 1, Some(48)),
        (&hello, 13, 2, None),
        (&hello, 13, 3, Some(52)),
        (&hello, 14, 1, None),
        (&hello, 14, 2, Some(56)),
        (&hello, 15, 16_777_217, Some(60)),
        (&hello, 15, 1, Some(84)),
        (&hello, 16, 1, Some(64)),
        (&hello, 17, 268_435_457, Some(68)),
        (&hello, 17, 268_435_456, Some(84)),
        (&hello, 17, 4, Some(84)),
        (&hello, 17, 2, Some(80)),
        (&echo, 11, 1, Some(52)),
        (&echo, 13, 4, None),
        (&echo, 13, 5, Some(52)),
        (&arrays, 15, 4, Some(104)),
        (&arrays, 15, 2, Some(72)),
        (&arrays, 15, 1, Some(64)),
        (&arrays, 16, 3, Some(84)),
        (&arrays, 16, 1, Some(104)),
        (&arrays, 17, 0, Some(68)),
        (&arrays, 17, 4, Some(68)),
        (&arrays, 17, 3, Some(72)),
        (&arrays, 18, 0, Some(72)),
        (&arrays, 18, 1, Some(72)),
        (&arrays, 18, 2, Some(88)),
        (&arrays, 19, 268_435_457, Some(76)),
        (&arrays, 19, 268_435_456, Some(104)),
        (&arrays, 22, 1, Some(88)),
        (&arrays, 22, 3, Some(88)),
        (&arrays, 23, 268_435_455, Some(92)),
        (&arrays, 23, 268_435_454, Some(104)),
        (&arrays, 23, 1, Some(100)),
        (&arrays, 25, 0xffff_ffff, None),
    ] {
        let mut words = words_of(alloc, image)?;
        assert!(rt; at < words.len());
        words[at] = word;
        assert_eq!(rt; place(alloc, &bytes_of(alloc, &words)?)?, want);
    }
    Ok(())
}

use crate::{DebugEnd, debug};
use std::alloc::Global;
use std::test::Fail;
use um_machine::Machine;
use umix_base::{Limits, MemSink, MemSource, SureSource};

const LIMITS: Limits = Limits {
    arrays: 4,
    words: 2_000,
};

// writes an A and halts
const HELLO: &[u32] = &[0xd000_0041, 0xa000_0000, 0x7000_0000];

// sets r1 to 2; allocates r2, of r1 platters; sets r3 to 7; amends platter 0 of r2 to r3; abandons r2; abandons 0
const ARRAYS: &[u32] = &[
    0xd200_0002,
    0x8000_0011,
    0xd600_0007,
    0x2000_00a3,
    0x9000_0002,
    0x9000_0000,
];

// allocates no platters, again and again
const ALLOCATIONS: &[u32] = &[0x8000_0008, 0xc000_0000];

// sets r1 to 2,000, and allocates so many platters
const WORDS: &[u32] = &[0xd200_07d0, 0x8000_0011];

// reads a byte into r1
const READS: &[u32] = &[0xb000_0001, 0x7000_0000];

// The first scroll writes an A and halts. Each row: the commands, the turns, how the session ends, and all
// that goes out.
#[test]
fn sessions_on_the_first_scroll(rt: HostRuntime) -> Result<(), Fail> {
    let alloc = rt.alloc();
    let rows: &[(&[u8], u64, DebugEnd, &[u8])] = &[
        (
            b"s 1\nr\nf\nc 9\nx\nq\nr\n",
            9,
            DebugEnd::Quit,
            b"stopped cycles 1 finger 1\n\
                00000041 00000000 00000000 00000000 00000000 00000000 00000000 00000000\n\
                finger 1 cycles 1 arrays 0 words 3 next out r0\nAhalted cycles 3\n?\n",
        ),
        (
            b"b 1\nc 9\nw 0 2\nb 1\n",
            9,
            DebugEnd::EndOfCommands,
            b"b 1 on\nbreak 1 cycles 1\nw 0 2 on\nb 1 off\n",
        ),
        (b"", 0, DebugEnd::Turns, b""),
        (b"", 1, DebugEnd::EndOfCommands, b""),
        (
            b"r\nq",
            1,
            DebugEnd::Turns,
            b"00000000 00000000 00000000 00000000 00000000 00000000 00000000 00000000\n",
        ),
        (b"q ", 9, DebugEnd::EndOfCommands, b"?\n"),
        (b"q", 9, DebugEnd::Quit, b""),
        (
            b"a 0 1 3\na 7 0 1\na 0 4294967295 1\na 0 4294967295 2\na 0 0 0\na 0 0 65",
            9,
            DebugEnd::EndOfCommands,
            b"a0000000 70000000 none\nnone\nnone\n?\n?\n?\n",
        ),
        (
            b"s 0\ns 01\ns  1\ns 1 \n s 1\ns\ns 1 1\nS 1\ns -1\ns +1\nr\r\n\n",
            99,
            DebugEnd::EndOfCommands,
            b"?\n?\n?\n?\n?\n?\n?\n?\n?\n?\n?\n?\n",
        ),
        (
            b"s 4611686018427387905\ns 4611686018427387904\ns 4611686018427387902\ns 4611686018427387901",
            99,
            DebugEnd::EndOfCommands,
            b"?\nAhalted cycles 3\n?\nhalted cycles 3\n",
        ),
        (
            b"b 0\nc 1\nb 2\nc 9\nc 9",
            99,
            DebugEnd::EndOfCommands,
            b"b 0 on\nstopped cycles 1 finger 1\nb 2 on\nAbreak 2 cycles 2\nhalted cycles 3\n",
        ),
        (
            b"xxxxxxxxxxxxxxxxxxxxxxxxxxxxxxxxxxxxxxxxxxxxxxxxxxxxxxxxxxxxxxx\nf",
            99,
            DebugEnd::EndOfCommands,
            b"?\nfinger 0 cycles 0 arrays 0 words 3 next set r0, 65\n",
        ),
        (
            b"xxxxxxxxxxxxxxxxxxxxxxxxxxxxxxxxxxxxxxxxxxxxxxxxxxxxxxxxxxxxxxxx\nf",
            99,
            DebugEnd::EndOfCommands,
            b"?\n?\nfinger 0 cycles 0 arrays 0 words 3 next set r0, 65\n",
        ),
        (
            b"xxxxxxxxxxxxxxxxxxxxxxxxxxxxxxxxxxxxxxxxxxxxxxxxxxxxxxxxxxxxxxxxf\nq",
            99,
            DebugEnd::Quit,
            b"?\nfinger 0 cycles 0 arrays 0 words 3 next set r0, 65\n",
        ),
        (
            b"b 4294967296\nb 4294967295\nb 4294967295\nw 4294967296 0",
            99,
            DebugEnd::EndOfCommands,
            b"?\nb 4294967295 on\nb 4294967295 off\n?\n",
        ),
    ];
    for (commands, turns, end, text) in rows {
        let (ended, told) = session(alloc, HELLO, commands, *turns)?;
        assert_eq!(rt; str::from_utf8(&told), str::from_utf8(*text));
        assert_eq!(rt; ended, *end);
    }
    Ok(())
}

// Each row: a scroll, the commands, and all that goes out. At the end, as many breakpoints and watches as may be
// set, and one more of each.
#[test]
fn sessions_on_other_scrolls(rt: HostRuntime) -> Result<(), Fail> {
    let alloc = rt.alloc();
    let rows: &[(&[u32], &[u8], &[u8])] = &[
        (
            ARRAYS,
            b"w 1 0\nb 4\nc 9\nc 9\nc 9\nc 9\nc 9\ns 1\nf",
            b"w 1 0 on\nb 4 on\nwatch 1 0 none 00000000 cycles 2\n\
                watch 1 0 00000000 00000007 cycles 4\nwatch 1 0 00000007 none cycles 5\n\
                fault AbandonZero at cycle 6\nfault AbandonZero at cycle 6\n\
                fault AbandonZero at cycle 6\n\
                finger 5 cycles 5 arrays 0 words 6 next abandon r0\n",
        ),
        (
            ARRAYS,
            b"w 1 0\nw 1 1\nc 9\nf\nc 1\nc 9\na 1 0 3",
            b"w 1 0 on\nw 1 1 on\nwatch 1 0 none 00000000 cycles 2\n\
                finger 2 cycles 2 arrays 1 words 8 next set r3, 7\nstopped cycles 3 finger 3\n\
                watch 1 0 00000000 00000007 cycles 4\n00000007 00000000 none\n",
        ),
        (
            ARRAYS,
            b"w 1 0\nw 1 1\nw 1 0\nw 1 0\nc 9",
            b"w 1 0 on\nw 1 1 on\nw 1 0 off\nw 1 0 on\nwatch 1 1 none 00000000 cycles 2\n",
        ),
        (
            ALLOCATIONS,
            b"b 0\nc 9\ns 1\ns 99\nc 1\nf",
            b"b 0 on\nbreak 0 cycles 2\nstopped cycles 3 finger 1\nlimit ArraysFull at cycle 9\n\
                limit ArraysFull at cycle 9\n\
                finger 0 cycles 8 arrays 4 words 2 next alloc r1, r0\n",
        ),
        (
            WORDS,
            b"c 9\ns 9",
            b"limit WordsFull at cycle 2\nlimit WordsFull at cycle 2\n",
        ),
        (
            READS,
            b"s 1\nr\ns 1",
            b"stopped cycles 1 finger 1\n\
                00000000 ffffffff 00000000 00000000 00000000 00000000 00000000 00000000\n\
                halted cycles 2\n",
        ),
    ];
    for (scroll, commands, text) in rows {
        let (_, told) = session(alloc, scroll, commands, 99)?;
        assert_eq!(rt; str::from_utf8(&told), str::from_utf8(*text));
    }
    let (commands, text) = too_many_points(alloc)?;
    let (_, told) = session(alloc, HELLO, &commands, 99)?;
    assert_eq!(rt; str::from_utf8(&told), str::from_utf8(&text));
    Ok(())
}

// how a session over a scroll ends, and all that goes out
fn session(
    alloc: Global,
    scroll: &[u32],
    commands: &[u8],
    turns: u64,
) -> Result<(DebugEnd, Vec<u8>), Fail> {
    let mut machine = Machine::new(alloc, Vec::from_slice(alloc, scroll)?, LIMITS)?;
    let mut source = SureSource::new(Vec::from_slice(alloc, commands)?);
    let mut input = MemSource::new(Vec::new(alloc), Vec::new(alloc));
    let mut out = MemSink::new(alloc, 10_000, Vec::new(alloc))?;
    let end = debug(
        alloc,
        &mut machine,
        &mut source,
        &mut input,
        &mut out,
        turns,
    );
    Ok((end, Vec::from_slice(alloc, out.bytes())?))
}

// commands that set a breakpoint and a watch too many, and what is told of them
fn too_many_points(alloc: Global) -> Result<(Vec<u8>, Vec<u8>), Fail> {
    let mut commands = Vec::new(alloc);
    let mut text = Vec::new(alloc);
    for k in 0..64u32 {
        commands.extend_from_slice(format!(in alloc; "b {k}\n")?.as_bytes())?;
        text.extend_from_slice(format!(in alloc; "b {k} on\n")?.as_bytes())?;
    }
    for k in 0..16u32 {
        commands.extend_from_slice(format!(in alloc; "w 0 {k}\n")?.as_bytes())?;
        text.extend_from_slice(format!(in alloc; "w 0 {k} on\n")?.as_bytes())?;
    }
    commands.extend_from_slice(b"b 64\nw 0 16\nb 0\nb 64\nw 0 0\nw 0 16\n")?;
    text.extend_from_slice(b"full\nfull\nb 0 off\nb 64 on\nw 0 0 off\nw 0 16 on\n")?;
    Ok((commands, text))
}

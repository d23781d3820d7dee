use super::*;
use std::test::Fail;

/// Texts, each with its words or its fault.
const CASES: [(&str, &str); 63] = [
    // Worked texts.
    ("set r0, 65\nout r0\nhalt\n", "d0000041 a0000000 70000000"),
    (
        "set r1, blk.len\nset r2, blk\nhalt\n.array blk\ntop: add r0, r0, r0\nset r3, top\n.end\n",
        "d2000002 d4000003 70000000 30000000 d6000000",
    ),
    (".hex 7000020", "BadLine(1)"),
    ("set r0, 33554432", "ValueTooLarge(1)"),
    ("a: halt\na: halt", "SameLabel(2)"),
    ("set r0, b", "NoLabel(1)"),
    ("", ""),
    // Lines, comments and spaces.
    ("\n\n;\n  ; a: b: .end\n   halt   ;\n", "70000000"),
    ("halt\r\nhalt\r\n\r\n", "70000000 70000000"),
    ("halt\r\r\n", "BadLine(1)"),
    ("halt\r", "BadLine(1)"),
    ("halt\t", "BadLine(1)"),
    ("halt ; \x7f", "BadLine(1)"),
    ("add r0,r1 ,  r2", "3000000a"),
    ("add r0, r1", "BadLine(1)"),
    ("add r0, r1, r2, r3", "BadLine(1)"),
    ("add r0, r1, r2,", "BadLine(1)"),
    ("add r0, r1, r8", "BadLine(1)"),
    ("add r0 r1, r2", "BadLine(1)"),
    ("Add r0, r1, r2", "BadLine(1)"),
    ("halt r0", "BadLine(1)"),
    (
        "cmov r1, r2, r3\nload r4, r5\nin r6\nabandon r7",
        "00000053 c0000025 b0000006 90000007",
    ),
    // Labels.
    ("a:b:halt", "BadLine(1)"),
    ("a :halt", "BadLine(1)"),
    ("  a:halt", "70000000"),
    ("a1_: halt\nset r0, a1_", "70000000 d0000000"),
    ("_a: halt", "BadLine(1)"),
    ("a23456789012345678901234567890123: halt", "BadLine(1)"),
    (
        "a2345678901234567890123456789012: .word a2345678901234567890123456789012",
        "00000000",
    ),
    (
        "r0: halt\nset: set r1, r0\nset r1, set",
        "70000000 d2000000 d2000001",
    ),
    ("halt\nend:\n.word end", "70000000 00000001"),
    (".word end\nend:", "00000001"),
    // Numbers.
    ("set r0, 33554431\nset r1, 0x1FFffff", "d1ffffff d3ffffff"),
    (".word 4294967295\n.word 0xffffffff", "ffffffff ffffffff"),
    (".word 4294967296", "ValueTooLarge(1)"),
    (
        ".word 1000000000000000000000000000000000000000",
        "ValueTooLarge(1)",
    ),
    (
        ".word 0x1000000000000000000000000000000000000000",
        "ValueTooLarge(1)",
    ),
    (".word 0000000000000000000000000000000000000007", "00000007"),
    (".word 0X1", "BadLine(1)"),
    (".word 0x", "BadLine(1)"),
    (".word 1a", "BadLine(1)"),
    (".word -1", "BadLine(1)"),
    // Runs of digits.
    (".hex 0123456789ABcdef", "01234567 89abcdef"),
    (".hex 00000000, 00000000", "BadLine(1)"),
    (".hex", "BadLine(1)"),
    (".hex 0123456g", "BadLine(1)"),
    // Blocks.
    (".end", "BadLine(1)"),
    (
        ".array a\n.array b\nx: halt\n.end\nset r0, a.len",
        "BadLine(2)",
    ),
    ("x: .array a\n.end", "BadLine(1)"),
    (".array a\nx: .end", "BadLine(1)"),
    (".array a\nx: .end\n.end", "BadLine(2)"),
    (".array 1\nx: halt\nset r0, x", "BadLine(1)"),
    ("set r0, x\n.array a\nx: halt", "NoLabel(1)"),
    (".array a\nx: halt\nset r0, x", "BadLine(1)"),
    (".array a\nx: halt\n.end\nset r0, x", "NoLabel(4)"),
    (
        ".array a\nhalt\nx: .word x\n.end\n.array b\nx: .word x\n.end",
        "70000000 00000001 00000000",
    ),
    (
        "halt\nx: halt\n.array a\n.word x\nx:\n.end\n.word x",
        "70000000 70000000 00000001 00000001",
    ),
    (".array a\n.end\n.word a\n.word a.len", "00000000 00000000"),
    (
        ".array a\nhalt\n.word a.len\nb:\n.end\n.word a.len",
        "70000000 00000002 00000002",
    ),
    ("a: halt\n.array a\nhalt\n.end", "SameLabel(2)"),
    ("a: halt\n.word a.len", "NoLabel(2)"),
    (
        ".array a\na: .word a.len\n.word a\n.end",
        "00000002 00000000",
    ),
    // Several faults.
    ("set r0, b\nset r0, 33554432\nhalt halt", "NoLabel(1)"),
];

fn outcome(rt: &HostRuntime, text: &str) -> Result<String, Fail> {
    let mut shown = String::new(rt.alloc());
    match assemble(rt.alloc(), text.as_bytes()) {
        Ok(words) => {
            for word in &words {
                let space = if shown.is_empty() { "" } else { " " };
                shown.push_str(format!(in rt.alloc(); "{space}{word:08x}")?.as_str())?;
            }
        }
        Err(fault) => shown.push_str(format!(in rt.alloc(); "{fault:?}")?.as_str())?,
    }
    Ok(shown)
}

#[test]
fn assembles_the_table(rt: HostRuntime) -> Result<(), Fail> {
    for (text, expected) in &CASES {
        let shown = outcome(&rt, *text)?;
        assert_eq!(rt; shown.as_str(), *expected, "{text}");
    }
    Ok(())
}

#[test]
fn lists_words(rt: HostRuntime) -> Result<(), Fail> {
    let words = [0x70000000, 0x70000200, 0xe0000000, 0xd3ffffff, 0x00000053];
    let text = disassemble(rt.alloc(), &words)?;
    let expected = b"halt\n.hex 70000200\n.hex e0000000\nset r1, 33554431\ncmov r1, r2, r3\n";
    assert_eq!(rt; text.as_slice(), expected.as_slice());
    Ok(())
}

#[test]
fn tells_each_fault(rt: HostRuntime) -> Result<(), Fail> {
    let faults = [
        (AsmFault::BadLine(1), "BadLine"),
        (AsmFault::SameLabel(2), "SameLabel"),
        (AsmFault::NoLabel(3), "NoLabel"),
        (AsmFault::ValueTooLarge(4), "ValueTooLarge"),
        (AsmFault::TooLong, "TooLong"),
        (AsmFault::Memory, "Memory"),
    ];
    for (fault, message) in &faults {
        let told = format!(in rt.alloc(); "{fault}")?;
        assert_eq!(rt; told.as_str(), *message);
    }
    Ok(())
}

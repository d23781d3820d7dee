//! The block of a module whose only box sends `()` to the exit.

ghost use Rattle.std.specs.Prelude.{◌≤◌, IfOk};
ghost use Rattle.two_d.specs.Programs.{module_of};
ghost use Rattle.two_d.specs.Weights.{part};

use super::*;
use lower_plan::plans;
use std::test::Fail;
use two_d::{BoxRow, Command, Exp, Module, Name, Origin, Side, good_program};

/// The two moves of inputs that no entry has, the cell of `()` and its move to the wire, the exit,
/// `no result`, `two results`, the mark of the box, the value, and the return.
const WORDS: [u32; 140] = [
    0xde00_0003,
    0x1000_00d7,
    0xde00_0003,
    0x1000_0117,
    0xde00_0003,
    0x1000_0157,
    0x0000_00e5,
    0xde00_000a,
    0x2000_00bb,
    0xde00_0004,
    0x1000_00d7,
    0xde00_0004,
    0x1000_0117,
    0xde00_0004,
    0x1000_0157,
    0x0000_00e5,
    0xde00_000a,
    0x2000_00bb,
    0xde00_0007,
    0x1000_00d7,
    0xde00_0007,
    0x1000_0117,
    0xde00_0004,
    0x8000_002f,
    0xde00_0000,
    0x2000_017b,
    0xde00_0001,
    0x2000_017c,
    0xde00_000e,
    0x2000_00bd,
    0xde00_000e,
    0x1000_00d7,
    0xde00_000e,
    0x1000_0117,
    0xde00_000e,
    0x1000_0157,
    0x0000_00e5,
    0xde00_0008,
    0x2000_00bb,
    0xd600_0000,
    0xde00_000a,
    0x2000_00bb,
    0xd600_0000,
    0xde00_000b,
    0x2000_00bb,
    0xde00_000b,
    0x1000_00d7,
    0xde00_000a,
    0x1000_0117,
    0xde00_0008,
    0x1000_0157,
    0x0000_00e5,
    0xde00_000b,
    0x2000_00bb,
    0xde00_000a,
    0x1000_00d7,
    0xde00_0008,
    0x1000_0117,
    0xde00_0008,
    0x1000_0157,
    0x0000_00e5,
    0xde00_000a,
    0x2000_00bb,
    0xd600_0001,
    0xde00_000d,
    0x2000_00bb,
    0xde00_000d,
    0x1000_00d7,
    0xde00_0007,
    0x1000_0117,
    0xde00_0004,
    0x8000_002f,
    0xde00_0000,
    0x2000_017b,
    0xde00_0001,
    0x2000_017c,
    0xde00_000d,
    0x2000_00bd,
    0xde00_000d,
    0x1000_00d7,
    0xde00_0007,
    0x1000_0117,
    0xde00_000a,
    0x1000_0157,
    0x0000_00e5,
    0xde00_0006,
    0x2000_00bb,
    0xd600_0002,
    0xde00_000d,
    0x2000_00bb,
    0xde00_000d,
    0x1000_00d7,
    0xde00_0007,
    0x1000_0117,
    0xde00_0004,
    0x8000_002f,
    0xde00_0000,
    0x2000_017b,
    0xde00_0001,
    0x2000_017c,
    0xde00_000d,
    0x2000_00bd,
    0xde00_0006,
    0x1000_00d7,
    0xde00_000d,
    0x1000_0117,
    0xde00_000b,
    0x1000_0157,
    0x0000_00e5,
    0xde00_0006,
    0x2000_00bb,
    0xde00_0006,
    0x1000_00d7,
    0xde00_0009,
    0x1000_0117,
    0xde00_0009,
    0x1000_0157,
    0x0000_00e5,
    0xde00_0006,
    0x2000_00bb,
    0xde00_000a,
    0x1000_00d7,
    0xde00_0007,
    0x1000_0117,
    0xde00_0006,
    0x1000_0157,
    0x0000_00e5,
    0xde00_0005,
    0x2000_00bb,
    0xde00_0005,
    0x1000_00d7,
    0xde00_0006,
    0x1000_0117,
    0xde00_0001,
    0x1000_0157,
    0x1000_014d,
    0xde00_0002,
    0x1000_0197,
    0x1000_0090,
    0xc000_002e,
];

/// The module `main`, whose only box sends `()` to the exit.
fn small(alloc: Global) -> Result<Module, Fail>
    ensures { IfOk result (λ owner. part (module_of owner) ≤ 262144) }
{
    let name = Name::read(alloc, b"main")?.ok_or("a name")?;
    let outs = vec![in alloc; (Exp::Unit, Side::E)]?;
    let row = BoxRow {
        command: Command::Send(outs),
        n: None,
        w: None,
    };
    let boxes = vec![in alloc; row]?;
    let exits = vec![in alloc; Some(Origin::East(0))]?;
    Ok(Module {
        name,
        north: false,
        west: false,
        boxes,
        exits,
    })
}

#[test]
fn unit_is_sent_to_the_exit(rt: HostRuntime) -> Result<(), Fail> {
    let alloc = rt.alloc();
    let main = small(alloc)?;
    assert!(rt; main.sound());
    let modules = vec![in alloc; main]?;
    let program = good_program(alloc, modules)?;
    let plans = plans(alloc, &program)?;
    assert_eq!(rt; plans.len(), 1);
    let table = Table {
        printer: 1,
        sites: vec![in alloc; 0]?,
    };
    let words = emit(alloc, &plans[0], &program, &table)?;
    assert_eq!(rt; words.as_slice(), WORDS.as_slice());
    Ok(())
}

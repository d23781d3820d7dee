//! Runs that count the bytes that they take.

ghost use Rattle.std.specs.Prelude.{◌≡◌, ◌≤◌, ◌<◌, ◌+◌, ◌^◌, [], IfSome};
ghost use Rattle.um_word.specs.Table.{op_under};
ghost use Rattle.um_machine.specs.MachineView.{state_of, IsWhole};
ghost use Rattle.um_machine.specs.Outside.{IsAsked, IsFed};
ghost use Rattle.um_machine.specs.Runs.{seen_by, GoesFromTo, RunEnds};
ghost use Rattle.um_image.specs.Counting.{TakesBytes};
ghost use Rattle.um_image.specs.inner.Inputs.{asked_by, given_by};

use um_machine::{Machine, Stop, Turn};
use um_word::{Op, decode};
use umix_base::{Sink, Source};

/// Up to this many cycles, as `Machine::run`, and how many of them discharged an Input that gave a
/// byte, which is how many bytes were taken from the input. After a fault the number is that of the
/// cycles that were made.
/// See "The bytes taken" in docs/IMAGES.md.
pub fn run_counted<I: Source, O: Sink>(
    machine: &mut Machine,
    input: &mut I,
    out: &mut O,
    cycles: u64,
) -> (Stop, u64)
    requires { machine.old.cycles + cycles < 2 ^ 64 }
    ensures run { let seen = seen_by I.Source O.Sink in
        GoesFromTo (seen machine.old input.old out.old) (seen machine.new input.new out.new)
        (λ s t. RunEnds cycles machine.old machine.new s t result.0 × TakesBytes s t result.1) }
    ensures counted { machine.new.cycles ≤ machine.old.cycles + cycles }
    ensures fewer { machine.old.cycles + result.1 ≤ machine.new.cycles }
    ensures limits { machine.new.limits ≡ machine.old.limits }
    ensures whole { IsWhole machine.new }
    ensures input { IsAsked I.Source input.old input.new (result.0 ≡ Stop.ReadFault) }
    ensures out { IsFed O.Sink out.old out.new (result.0 ≡ Stop.WriteFault) }
{
    let _ = machine.live();
    if machine.halted() {
        return (Stop::Halted, 0);
    }
    let mut taken = 0;
    for _ in 0..cycles {
        let asked = input_register(machine);
        match machine.cycle(input, out) {
            Ok(Turn::Running) => taken += given(machine, asked),
            Ok(Turn::Halted) => return (Stop::Halted, taken + given(machine, asked)),
            Err(stop) => return (stop, taken),
        }
    }
    (Stop::Budget, taken)
}

// the register of the Input under the finger, if it is one
fn input_register(machine: &Machine) -> Option<u32>
    ensures register { result ≡ asked_by (op_under (state_of machine.now [] [])) }
    ensures below { IfSome result (λ c. c < 8) }
{
    let Some(word) = machine.word(0, machine.finger()) else {
        return None;
    };
    match decode(word) {
        Some(Op::Input(c)) => Some(c),
        _ => None,
    }
}

// how many bytes an Input gave, whose register this is: one, or none at the end of the input
fn given(machine: &Machine, asked: Option<u32>) -> u64
    requires { IfSome asked (λ c. c < 8) }
    ensures value { result ≡ given_by asked machine.now.registers }
    ensures small { result ≤ 1 }
{
    match asked {
        Some(c) => { if machine.register(c) < 256 { 1 } else { 0 } }
        None => 0,
    }
}

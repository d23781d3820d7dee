//! The replies of a session.

ghost use Rattle.std.specs.Prelude.{◌≡◌, ◌++◌, ◌<◌, ◌≤◌, ◌^◌, ◌+◌, OnOk, if◌then◌else◌};
ghost use Rattle.std.specs.Prelude.{decimal, codes, length};
ghost use Rattle.um_debug.specs.Replies.{came_text, fault_text, registers_text, words_text};
ghost use Rattle.um_debug.specs.Replies.{finger_text, unknown_text, next_text, cycles_text};
ghost use Rattle.um_debug.specs.Replies.{shown_word, hex_digits};
ghost use Rattle.um_debug.specs.inner.Calls.{toggle_text};

use crate::command::WordPlace;
use crate::course::Came;
use crate::points::Toggle;
use itoa::Buffer;
use um_asm::disassemble;
use um_machine::{Machine, Stop};
use umix_base::Memory;

/// Adds what cycles came to.
pub(crate) fn push_came(reply: &mut Vec<u8>, came: &Came, machine: &Machine) -> Result<(), Memory>
    requires { machine.now.cycles + 1 < 2 ^ 64 }
    ensures { OnOk result (reply.new.items
        ≡ reply.old.items ++ came_text came.now machine.now.cycles machine.now.finger) }
{
    match *came {
        Came::Stopped => {
            reply.extend_from_slice(b"stopped ")?;
            push_cycles(reply, machine.cycles())?;
            reply.extend_from_slice(b" finger ")?;
            push_number(reply, machine.finger() as u64)
        }
        Came::Halted => {
            reply.extend_from_slice(b"halted ")?;
            push_cycles(reply, machine.cycles())
        }
        Came::Failed(stop) => push_fault(reply, &stop, machine.cycles() + 1),
        Came::Watched(place, old, new) => {
            reply.extend_from_slice(b"watch ")?;
            push_place(reply, place)?;
            reply.push(b' ')?;
            push_word(reply, old)?;
            reply.push(b' ')?;
            push_word(reply, new)?;
            reply.push(b' ')?;
            push_cycles(reply, machine.cycles())
        }
        Came::Broke(offset) => {
            reply.extend_from_slice(b"break ")?;
            push_number(reply, offset as u64)?;
            reply.push(b' ')?;
            push_cycles(reply, machine.cycles())
        }
    }
}

// adds a fault that came as the cycle of this number was tried
fn push_fault(reply: &mut Vec<u8>, stop: &Stop, cycle: u64) -> Result<(), Memory>
    ensures { OnOk result (reply.new.items ≡ reply.old.items ++ fault_text stop.now cycle) }
{
    match stop {
        Stop::ArraysFull(_) | Stop::WordsFull(_) => reply.extend_from_slice(b"limit ")?,
        _ => reply.extend_from_slice(b"fault ")?,
    }
    reply.extend_from_slice(stop.name().as_bytes())?;
    reply.extend_from_slice(b" at cycle ")?;
    push_number(reply, cycle)
}

/// Adds the eight registers.
pub(crate) fn push_registers(reply: &mut Vec<u8>, machine: &Machine) -> Result<(), Memory>
    requires { length machine.now.registers ≡ 8 }
    ensures { OnOk result (reply.new.items
        ≡ reply.old.items ++ registers_text machine.now.registers) }
{
    push_hex(reply, machine.register(0))?;
    for k in 1..8 {
        reply.push(b' ')?;
        push_hex(reply, machine.register(k))?;
    }
    Ok(())
}

/// Adds so many words from a place on.
pub(crate) fn push_words(
    reply: &mut Vec<u8>,
    machine: &Machine,
    place: WordPlace,
    count: u32,
) -> Result<(), Memory>
    requires { (1 ≤ count) × (place.offset + count ≤ 2 ^ 32) }
    ensures { OnOk result (reply.new.items
        ≡ reply.old.items ++ words_text machine.now.arrays place count) }
{
    push_word(reply, machine.word(place.id, place.offset))?;
    for k in 1..count {
        reply.push(b' ')?;
        push_word(reply, machine.word(place.id, place.offset + k))?;
    }
    Ok(())
}

/// Adds where the machine stands.
pub(crate) fn push_finger(reply: &mut Vec<u8>, machine: &Machine) -> Result<(), Memory>
    ensures { OnOk result (reply.new.items ≡ reply.old.items
        ++ finger_text machine.now.arrays machine.now.cycles machine.now.finger) }
{
    let (arrays, words) = machine.live();
    reply.extend_from_slice(b"finger ")?;
    push_number(reply, machine.finger() as u64)?;
    reply.push(b' ')?;
    push_cycles(reply, machine.cycles())?;
    reply.extend_from_slice(b" arrays ")?;
    push_number(reply, arrays)?;
    reply.extend_from_slice(b" words ")?;
    push_number(reply, words)?;
    reply.extend_from_slice(b" next ")?;
    push_next(reply, machine.word(0, machine.finger()))
}

/// Adds a breakpoint, and what became of it.
pub(crate) fn push_breakpoint(
    reply: &mut Vec<u8>,
    offset: u32,
    toggle: Toggle,
) -> Result<(), Memory>
    ensures { OnOk result (reply.new.items
        ≡ reply.old.items ++ toggle_text (codes "b " ++ decimal offset) toggle) }
{
    if toggle == Toggle::Full {
        reply.extend_from_slice(b"full")?;
        return Ok(());
    }
    reply.extend_from_slice(b"b ")?;
    push_number(reply, offset as u64)?;
    push_toggle(reply, toggle == Toggle::On)
}

/// Adds a watch, and what became of it.
pub(crate) fn push_watch(
    reply: &mut Vec<u8>,
    place: WordPlace,
    toggle: Toggle,
) -> Result<(), Memory>
    ensures { OnOk result (reply.new.items ≡ reply.old.items ++ toggle_text
        (codes "w " ++ decimal place.id ++ codes " " ++ decimal place.offset) toggle) }
{
    if toggle == Toggle::Full {
        reply.extend_from_slice(b"full")?;
        return Ok(());
    }
    reply.extend_from_slice(b"w ")?;
    push_place(reply, place)?;
    push_toggle(reply, toggle == Toggle::On)
}

/// Adds that a line asks for nothing that can be done.
pub(crate) fn push_unknown(reply: &mut Vec<u8>) -> Result<(), Memory>
    ensures { OnOk result (reply.new.items ≡ reply.old.items ++ unknown_text) }
{
    reply.push(b'?')?;
    Ok(())
}

/// Ends a reply.
pub(crate) fn end_line(reply: &mut Vec<u8>) -> Result<(), Memory>
    ensures { OnOk result (reply.new.items ≡ reply.old.items ++ codes "\n") }
{
    reply.push(b'\n')?;
    Ok(())
}

fn push_toggle(reply: &mut Vec<u8>, on: bool) -> Result<(), Memory>
    ensures { OnOk result (reply.new.items
        ≡ reply.old.items ++ (if on then codes " on" else codes " off")) }
{
    if on {
        reply.extend_from_slice(b" on")?;
    } else {
        reply.extend_from_slice(b" off")?;
    }
    Ok(())
}

// the platter under the finger, as a listing shows it
fn push_next(reply: &mut Vec<u8>, platter: Option<u32>) -> Result<(), Memory>
    ensures { OnOk result (reply.new.items ≡ reply.old.items ++ next_text platter) }
{
    match platter {
        Some(word) => {
            let line = disassemble(*reply.allocator(), &[word])?;
            reply.extend_from_slice(&line[..line.len() - 1])?;
        }
        None => reply.extend_from_slice(b"none")?,
    }
    Ok(())
}

fn push_place(reply: &mut Vec<u8>, place: WordPlace) -> Result<(), Memory>
    ensures { OnOk result (reply.new.items
        ≡ reply.old.items ++ (decimal place.id ++ codes " " ++ decimal place.offset)) }
{
    push_number(reply, place.id as u64)?;
    reply.push(b' ')?;
    push_number(reply, place.offset as u64)
}

fn push_cycles(reply: &mut Vec<u8>, cycles: u64) -> Result<(), Memory>
    ensures { OnOk result (reply.new.items ≡ reply.old.items ++ cycles_text cycles) }
{
    reply.extend_from_slice(b"cycles ")?;
    push_number(reply, cycles)
}

fn push_word(reply: &mut Vec<u8>, word: Option<u32>) -> Result<(), Memory>
    ensures { OnOk result (reply.new.items ≡ reply.old.items ++ shown_word word) }
{
    match word {
        Some(word) => push_hex(reply, word),
        None => {
            reply.extend_from_slice(b"none")?;
            Ok(())
        }
    }
}

fn push_hex(reply: &mut Vec<u8>, word: u32) -> Result<(), Memory>
    ensures { OnOk result (reply.new.items ≡ reply.old.items ++ hex_digits word) }
{
    let mut digits = [0u8; 8];
    let _ = hex::encode_to_slice(&word.to_be_bytes(), &mut digits);
    reply.extend_from_slice(&digits)?;
    Ok(())
}

fn push_number(reply: &mut Vec<u8>, number: u64) -> Result<(), Memory>
    ensures { OnOk result (reply.new.items ≡ reply.old.items ++ decimal number) }
{
    let mut buffer = Buffer::new();
    reply.extend_from_slice(buffer.format(number).as_bytes())?;
    Ok(())
}

//! The image of a machine.

ghost use Rattle.std.specs.Prelude.{◌≡◌, ◌≤◌, ◌<◌, ◌+◌, ◌^◌, ◌++◌, ◌∷◌, [], ℕ, Some, length, IfOk};
ghost use Rattle.std.specs.Prelude.{OnOk};
ghost use Rattle.std.specs.FinMap as map;
ghost use Rattle.um_word.specs.State.{array_at};
ghost use Rattle.um_word.specs.Scroll.{scroll};
ghost use Rattle.um_image.specs.Image.{CanBeSaved, HasImage, image_of, two_words, flag, head_words};
ghost use Rattle.um_image.specs.Image.{array_words, arrays_up_to, parts_of_machine};

use crate::numbers::{HEAD_LENGTH, IMAGE_MARK};
use std::alloc::Global;
use um_machine::Machine;
use umix_base::Memory;

/// The image of a machine that has taken so many bytes of its input. In time linear in its size and
/// in the identifiers made, and it takes no memory but for the bytes.
/// See "The words of an image" in docs/IMAGES.md.
pub fn image(alloc: Global, machine: &Machine, taken: u64) -> Result<Vec<u8>, Memory>
    requires { CanBeSaved machine.now taken }
    ensures image { IfOk result (λ bytes. bytes.items ≡ image_of machine.now taken) }
    ensures has { OnOk result (HasImage machine.now taken) }
{
    let (arrays, words) = machine.live();
    let abandoned = machine.made() - arrays as u32;
    let head = 1 + HEAD_LENGTH as u64;
    let count = head + abandoned as u64 + 1 + words + 2 * arrays;
    let mut bytes = Vec::with_capacity(alloc, 4 * count as usize)?;
    put_head(&mut bytes, machine, taken, abandoned)?;
    put_abandoned(&mut bytes, machine, abandoned)?;
    put_array(&mut bytes, machine, 0)?;
    put_arrays(&mut bytes, machine)?;
    Ok(bytes)
}

// the words before the abandoned identifiers
fn put_head(
    bytes: &mut Vec<u8>,
    machine: &Machine,
    taken: u64,
    abandoned: u32,
) -> Result<(), Memory>
    requires registers { length machine.now.registers ≡ 8 }
    requires abandoned { abandoned ≡ length machine.now.identifiers.abandoned }
    ensures { OnOk result (bytes.new.items
        ≡ bytes.old.items ++ scroll (head_words (parts_of_machine machine.now) taken)) }
{
    put(bytes, IMAGE_MARK)?;
    put_registers(bytes, machine)?;
    put(bytes, machine.finger())?;
    put_long(bytes, machine.cycles())?;
    put_long(bytes, taken)?;
    put(bytes, flag_of(machine.halted()))?;
    put(bytes, machine.made())?;
    put(bytes, abandoned)?;
    Ok(())
}

// 1 where it is so
fn flag_of(halted: bool) -> u32
    ensures { result ≡ flag halted }
{
    if halted { 1 } else { 0 }
}

// the eight registers
fn put_registers(bytes: &mut Vec<u8>, machine: &Machine) -> Result<(), Memory>
    requires { length machine.now.registers ≡ 8 }
    ensures { OnOk result (bytes.new.items ≡ bytes.old.items ++ scroll machine.now.registers) }
{
    for k in 0..8 {
        put(bytes, machine.register(k))?;
    }
    Ok(())
}

// the abandoned identifiers, of which there are so many, the one abandoned first at the beginning
fn put_abandoned(bytes: &mut Vec<u8>, machine: &Machine, count: u32) -> Result<(), Memory>
    requires { count ≡ length machine.now.identifiers.abandoned }
    ensures { OnOk result (bytes.new.items
        ≡ bytes.old.items ++ scroll machine.now.identifiers.abandoned) }
{
    for k in 0..count {
        let Some(id) = machine.abandoned(k) else {
            unreachable!()
        };
        put(bytes, id)?;
    }
    Ok(())
}

// the arrays but array 0, by rising identifier
fn put_arrays(bytes: &mut Vec<u8>, machine: &Machine) -> Result<(), Memory>
    requires { (id : ℕ) → length (array_at machine.now.arrays id) < 2 ^ 32 }
    ensures { OnOk result (bytes.new.items ≡ bytes.old.items
        ++ scroll (array_words (arrays_up_to machine.now.arrays machine.now.identifiers.made))) }
{
    for before in 0..machine.made() {
        let id = before + 1;
        let Some(_) = machine.size(id) else {
            continue;
        };
        put(bytes, id)?;
        put_array(bytes, machine, id)?;
    }
    Ok(())
}

// the length and the words of an array that is there
fn put_array(bytes: &mut Vec<u8>, machine: &Machine, id: u32) -> Result<(), Memory>
    requires there { map.get machine.now.arrays id ≡ Some (array_at machine.now.arrays id) }
    requires short { length (array_at machine.now.arrays id) < 2 ^ 32 }
    ensures { OnOk result (bytes.new.items ≡ bytes.old.items
        ++ scroll (length (array_at machine.now.arrays id) ∷ array_at machine.now.arrays id)) }
{
    let Some(size) = machine.size(id) else {
        unreachable!()
    };
    put(bytes, size as u32)?;
    for at in 0..size as u32 {
        let Some(word) = machine.word(id, at) else {
            unreachable!()
        };
        put(bytes, word)?;
    }
    Ok(())
}

// a number of 64 bits, its high word first
fn put_long(bytes: &mut Vec<u8>, number: u64) -> Result<(), Memory>
    ensures { OnOk result (bytes.new.items ≡ bytes.old.items ++ scroll (two_words number)) }
{
    put(bytes, (number >> 32) as u32)?;
    put(bytes, (number & 0xffff_ffff) as u32)
}

// one word, its most significant byte first
fn put(bytes: &mut Vec<u8>, word: u32) -> Result<(), Memory>
    ensures { OnOk result (bytes.new.items ≡ bytes.old.items ++ scroll (word ∷ [])) }
{
    bytes.extend_from_slice(&word.to_be_bytes())?;
    Ok(())
}

//! The machine of an image.

ghost use Rattle.std.specs.Prelude.{◌≡◌, ◌≤◌, ◌<◌, ◌+◌, ◌*◌, ◌++◌, ◌↔◌, ℕ, length, take, false};
ghost use Rattle.std.specs.Prelude.{IfOk, IfErr, OnOk, IsTrue, MatchOption, slice_index_or};
ghost use Rattle.std.specs.Prelude.{vec_len};
ghost use Rattle.std.specs.Int.{w32, to_be_bytes};
ghost use Rattle.um_word.specs.Scroll.{scroll};
ghost use Rattle.array_store.specs.Parts.{is_among, listed};
ghost use Rattle.um_image.specs.Image.{HasImage, image_of, image_mark};
ghost use Rattle.um_image.specs.Refusals.{RefusesImage};
ghost use Rattle.um_image.specs.inner.Head.{AreWords, HeadFits, long, made_in};
ghost use Rattle.um_image.specs.inner.Reading.{HasWordAt, ReaderStops, HeadRead, IdsRead, ZeroRead};
ghost use Rattle.um_image.specs.inner.Reading.{ArraysRead, ArrayRead, ArrayStops};

use crate::fault::ImageFault;
use crate::numbers::{HEAD_LENGTH, IMAGE_MARK, MOST_IMAGE_BYTES, MOST_SAVED_CYCLES};
use array_store::{MOST_ARRAYS, MOST_WORDS};
use std::alloc::Global;
use um_machine::{Machine, Saved};
use umix_base::{Limits, Memory};

// The place of the abandoned identifiers.
const IDS_START: usize = 4 + 4 * HEAD_LENGTH;

/// The machine of an image, and the bytes of its input that it has taken. `TooLong` comes exactly
/// over 1,207,959,624 bytes, else `Bad` exactly where the bytes are no image.
///
/// In time and memory linear in the bytes, and in the identifiers that they say were made.
/// See "Bytes that are no image" in docs/IMAGES.md.
pub fn read_image(alloc: Global, bytes: &[u8]) -> Result<(Machine, u64), ImageFault>
    ensures image { IfOk result
        (λ read. HasImage read.0 read.1 × (image_of read.0 read.1 ≡ bytes.now)) }
    ensures fault { IfErr result (RefusesImage bytes.now) }
{
    if bytes.len() > MOST_IMAGE_BYTES {
        return Err(ImageFault::TooLong(bytes.len()));
    }
    read_machine(alloc, bytes)
}

// The machine of these bytes, however many they are, and the bytes that it has taken.
fn read_machine(alloc: Global, bytes: &[u8]) -> Result<(Machine, u64), ImageFault>
    ensures image { IfOk result
        (λ read. HasImage read.0 read.1 × (image_of read.0 read.1 ≡ bytes.now)) }
    ensures fault { IfErr result (ReaderStops bytes.now) }
{
    read_mark(bytes)?;
    let head = read_head(bytes)?;
    let (abandoned, seen) = read_abandoned(alloc, bytes, &head)?;
    let zero = read_zero(alloc, bytes, &head, &abandoned)?;
    let (arrays, end) = read_arrays(alloc, bytes, &head, &abandoned, &seen, &zero)?;
    if end != bytes.len() {
        return Err(ImageFault::Bad(end));
    }
    let saved = Saved {
        registers: [
            head[0], head[1], head[2], head[3], head[4], head[5], head[6], head[7],
        ],
        finger: head[8],
        cycles: join(head[9], head[10]),
        halted: head[13] == 1,
        made: head[14],
        abandoned,
        zero,
        arrays,
    };
    let limits = Limits {
        arrays: MOST_ARRAYS,
        words: MOST_WORDS,
    };
    match Machine::restore(alloc, saved, limits) {
        Ok(machine) => Ok((machine, join(head[11], head[12]))),
        Err(_) => Err(ImageFault::Memory),
    }
}

// The word at a place, unless there are fewer bytes.
fn word_at(bytes: &[u8], at: usize) -> Option<u32>
    requires { at ≤ length bytes.now }
    ensures { MatchOption result (length bytes.now < at + 4) (HasWordAt bytes.now at) }
{
    let rest = &bytes[at..];
    if rest.len() < 4 {
        return None;
    }
    let (four, _) = rest.split_at(4);
    Some(word_from(four))
}

// the word of four bytes, the first most significant
fn word_from(four: &[u8]) -> u32
    requires { length four.now ≡ 4 }
    ensures { to_be_bytes w32 result ≡ four.now }
{
    u32::from_be_bytes([four[0], four[1], four[2], four[3]])
}

// the first word
fn read_mark(bytes: &[u8]) -> Result<(), ImageFault>
    ensures mark { OnOk result (HasWordAt bytes.now 0 image_mark) }
    ensures fault { IfErr result (ReaderStops bytes.now) }
{
    let Some(mark) = word_at(bytes, 0) else {
        return Err(ImageFault::Bad(0));
    };
    if mark != IMAGE_MARK {
        return Err(ImageFault::Bad(0));
    }
    Ok(())
}

// The words between the first one and the abandoned identifiers: registers, finger, cycles, bytes
// taken, whether the machine has halted, the number of identifiers made, and of those abandoned.
fn read_head(bytes: &[u8]) -> Result<[u32; HEAD_LENGTH], ImageFault>
    requires { HasWordAt bytes.now 0 image_mark }
    ensures read { IfOk result (HeadRead bytes.now) }
    ensures fault { IfErr result (ReaderStops bytes.now) }
{
    let mut head = [0; HEAD_LENGTH];
    for k in 0..HEAD_LENGTH {
        let at = 4 + 4 * k;
        let Some(word) = word_at(bytes, at) else {
            return Err(ImageFault::Bad(at));
        };
        head[k] = word;
        if !head_fits(&head) {
            return Err(ImageFault::Bad(at));
        }
    }
    Ok(head)
}

// The rules of these words, where those that aren't read yet are 0.
fn head_fits(head: &[u32; HEAD_LENGTH]) -> bool
    ensures { IsTrue result ↔ HeadFits head.now }
{
    let cycles = join(head[9], head[10]);
    let taken = join(head[11], head[12]);
    cycles <= MOST_SAVED_CYCLES
        && taken <= cycles
        && head[13] <= 1
        && head[14] as u64 <= MOST_ARRAYS
        && head[15] <= head[14]
}

// the number of two words, the high one first
fn join(high: u32, low: u32) -> u64
    ensures { result ≡ long high low }
{
    ((high as u64) << 32) + low as u64
}

// The abandoned identifiers, and for each identifier from 0 to the last that was made whether it is
// among them. No more room is made for them than there are words.
fn read_abandoned(
    alloc: Global,
    bytes: &[u8],
    head: &[u32; HEAD_LENGTH],
) -> Result<(Vec<u32>, Vec<bool>), ImageFault>
    requires { HeadRead bytes.now head.now }
    ensures ids { IfOk result (λ read. IdsRead bytes.now head.now read.0.items) }
    ensures seen { IfOk result (λ read. vec_len read.1 ≡ made_in head.now + 1) }
    ensures told { IfOk result (λ read. (id : ℕ) → id ≤ made_in head.now →
        slice_index_or read.1.items id false ≡ is_among read.0.items id) }
    ensures fault { IfErr result (ReaderStops bytes.now) }
{
    let (made, count) = (head[14], head[15] as usize);
    let there = (bytes.len() - IDS_START) / 4;
    let Ok(mut ids) = Vec::with_capacity(alloc, there.min(count)) else {
        return Err(ImageFault::Memory);
    };
    let Ok(mut seen) = vec![in alloc; false; made as usize + 1] else {
        return Err(ImageFault::Memory);
    };
    for k in 0..count {
        let at = IDS_START + 4 * k;
        let Some(id) = word_at(bytes, at) else {
            return Err(ImageFault::Bad(at));
        };
        if id == 0 || id > made {
            return Err(ImageFault::Bad(at));
        }
        if seen[id as usize] {
            return Err(ImageFault::Bad(at));
        }
        seen[id as usize] = true;
        let Ok(()) = ids.push(id) else {
            return Err(ImageFault::Memory);
        };
    }
    Ok((ids, seen))
}

// the words of array 0
fn read_zero(
    alloc: Global,
    bytes: &[u8],
    head: &[u32; HEAD_LENGTH],
    ids: &[u32],
) -> Result<Vec<u32>, ImageFault>
    requires head { HeadRead bytes.now head.now }
    requires ids { IdsRead bytes.now head.now ids.now }
    ensures zero { IfOk result (λ zero. ZeroRead bytes.now head.now ids.now zero.items) }
    ensures fault { IfErr result (ReaderStops bytes.now) }
{
    read_array(alloc, bytes, IDS_START + 4 * ids.len(), MOST_WORDS)
}

// The arrays of the identifiers that were not seen, by rising identifier, and the place behind
// them.
fn read_arrays(
    alloc: Global,
    bytes: &[u8],
    head: &[u32; HEAD_LENGTH],
    ids: &[u32],
    seen: &[bool],
    zero: &[u32],
) -> Result<(Vec<(u32, Vec<u32>)>, usize), ImageFault>
    requires head { HeadRead bytes.now head.now }
    requires ids { IdsRead bytes.now head.now ids.now }
    requires zero { ZeroRead bytes.now head.now ids.now zero.now }
    requires seen { length seen.now ≡ made_in head.now + 1 }
    requires told { (id : ℕ) → id ≤ made_in head.now →
        slice_index_or seen.now id false ≡ is_among ids.now id }
    ensures arrays { IfOk result (λ read. ArraysRead bytes.now head.now ids.now zero.now
        (listed read.0.items) (made_in head.now) read.1) }
    ensures fault { IfErr result (ReaderStops bytes.now) }
{
    let mut arrays = Vec::new(alloc);
    let mut at = IDS_START + 4 * ids.len() + 4 + 4 * zero.len();
    let mut room = MOST_WORDS - zero.len() as u64;
    for before in 0..head[14] {
        let id = before + 1;
        if seen[id as usize] {
            continue;
        }
        let Some(word) = word_at(bytes, at) else {
            return Err(ImageFault::Bad(at));
        };
        if word != id {
            return Err(ImageFault::Bad(at));
        }
        let words = read_array(alloc, bytes, at + 4, room)?;
        at += 8 + 4 * words.len();
        room -= words.len() as u64;
        let Ok(()) = arrays.push((id, words)) else {
            return Err(ImageFault::Memory);
        };
    }
    Ok((arrays, at))
}

// The words of an array, from the place of their number on, of which there may be so many.
fn read_array(alloc: Global, bytes: &[u8], at: usize, room: u64) -> Result<Vec<u32>, ImageFault>
    requires { at ≤ length bytes.now }
    ensures words { IfOk result (λ words. ArrayRead bytes.now at room words.items) }
    ensures fault { IfErr result (ArrayStops bytes.now at room) }
{
    let Some(size) = word_at(bytes, at) else {
        return Err(ImageFault::Bad(at));
    };
    if size as u64 > room {
        return Err(ImageFault::Bad(at));
    }
    let start = at + 4;
    let there = ((bytes.len() - start) / 4).min(size as usize);
    let Ok(words) = read_words(alloc, bytes, start, there) else {
        return Err(ImageFault::Memory);
    };
    if there < size as usize {
        return Err(ImageFault::Bad(start + 4 * there));
    }
    Ok(words)
}

// so many words, from this place on
fn read_words(alloc: Global, bytes: &[u8], start: usize, count: usize) -> Result<Vec<u32>, Memory>
    requires { start + 4 * count ≤ length bytes.now }
    ensures count { IfOk result (λ words. length words.items ≡ count) }
    ensures each { IfOk result (λ words. AreWords words.items) }
    ensures read { IfOk result (λ words.
        take (start + 4 * count) bytes.now ≡ take start bytes.now ++ scroll words.items) }
{
    let mut words = Vec::with_capacity(alloc, count)?;
    for k in 0..count {
        let Some(word) = word_at(bytes, start + 4 * k) else {
            unreachable!()
        };
        words.push(word)?;
    }
    Ok(words)
}

// Each array stands in a vector of its own, at the place that its identifier numbers; array 0 and the
// array that it names stand in one together, `zero`.
ghost use Rattle.std.specs.Prelude.{Some, ◌≡◌, ℕ, ◌+◌, ◌-◌, ◌^◌, ◌≤◌, ◌<◌, List, length, replicate};
ghost use Rattle.std.specs.Prelude.{slice_get, slice_set, slice_index, option_copied, vec_len};
ghost use Rattle.std.specs.Prelude.{vec_capacity, All, IfOk, IfErr, OnOk, OnErr};
ghost use Rattle.std.specs.Option.{option_map};
ghost use Rattle.std.specs.FinMap as map;
ghost use Rattle.um_word.specs.State.{array_at, live_arrays, live_words, words_in};
ghost use Rattle.um_word.specs.Rule.{next_identifier, taken, handed_back};
ghost use Rattle.array_store.specs.StoreView.{most_live_arrays, most_live_words, most_limits};
ghost use Rattle.array_store.specs.StoreView.{IsStore, HasArray, HasWord, new_held};
ghost use Rattle.array_store.specs.Refusals.{RefusesNew, RefusesWord, RefusesAmendment};
ghost use Rattle.array_store.specs.Refusals.{RefusesAllocation, FitsAllocation, RefusesAbandonment};
ghost use Rattle.array_store.specs.Refusals.{RefusesLoad, words_loaded};
ghost use Rattle.array_store.specs.Parts.{AreParts, listed, parts_by, store_of_parts};
ghost use Rattle.array_store.specs.inner.Slots.{slot_arrays, arrays_of, identifiers_of};
ghost use Rattle.array_store.specs.inner.Slots.{HasOwnWords, IsLent, arrays_put, AllFit};

use crate::fault::StoreFault;
use std::alloc::Global;
use std::marker::Model;
use std::mem;
use umix_base::{Limits, Memory};

/// The greatest limit that a store may have on its arrays, without array 0.
pub const MOST_ARRAYS: u64 = 16_777_216;

/// The greatest limit that a store may have on its words, with those of array 0.
pub const MOST_WORDS: u64 = 268_435_456;

/// Arrays of 32-bit words by their identifiers. Array 0 is always there.
#[derive(Drop)]
pub struct Store {
    alloc: Global,
    // The words of array 0, and of the array that it names.
    zero: Vec<u32>,
    // The array that array 0 names, or 0 where its words are its own.
    named: u32,
    // The words of the array that is numbered by the place, or `None` where it was abandoned or array 0
    // has them. The first place is never used.
    slots: Vec<Option<Vec<u32>>>,
    // The abandoned identifiers in the order of abandonment, with room for all that were made.
    free: Vec<u32>,
    // The words in all arrays.
    words: u64,
    limits: Limits,
}

impl Model for Store {
    ghost use Rattle.array_store.specs.StoreView.{StoreView, held_code};

    ghost Value = { StoreView };

    ghost coded = { held_code };

    ghost use Rattle.array_store.specs.inner.Slots.{store_view, IsSoundInside};

    ghost view = { store_view };

    ghost invariant = { IsSoundInside };
}

impl Store {
    /// A store in which array 0 has these words, and no identifier was made.
    ///
    /// `WordsFull` comes where they are more than the limit on words, else `Memory` may.
    pub fn new(alloc: Global, zero: Vec<u32>, limits: Limits) -> Result<Store, StoreFault>
        requires arrays { limits.arrays ≤ most_live_arrays }
        requires words { limits.words ≤ most_live_words }
        ensures ok { IfOk result (λ store. store ≡ new_held zero.items limits) }
        ensures fits { OnOk result (length zero.items ≤ limits.words) }
        ensures err { IfErr result (RefusesNew zero.items limits) }
        ensures held { IfOk result IsStore }
    {
        words_fit(&zero);
        let words = zero.len() as u64;
        if words > limits.words {
            return Err(StoreFault::WordsFull(words));
        }
        let Ok(mut slots) = Vec::with_capacity(alloc, 1) else {
            return Err(StoreFault::Memory);
        };
        slots.push_reserved(None);
        Ok(Store {
            alloc,
            zero,
            named: 0,
            slots,
            free: Vec::new(alloc),
            words,
            limits,
        })
    }

    /// The store of these parts: the number of identifiers made, those abandoned and not reused
    /// since, the one abandoned first at the beginning, the words of array 0, and the other arrays
    /// by rising identifier. No words are copied. In time linear in the identifiers made.
    pub fn restore(
        alloc: Global,
        made: u32,
        abandoned: Vec<u32>,
        zero: Vec<u32>,
        arrays: Vec<(u32, Vec<u32>)>,
        limits: Limits,
    ) -> Result<Store, Memory>
        requires parts { AreParts (parts_by made abandoned.items zero.items arrays.items) }
        requires limits { limits ≡ most_limits }
        ensures store { IfOk result (λ store. store
            ≡ store_of_parts (parts_by made abandoned.items zero.items arrays.items) limits) }
        ensures held { IfOk result IsStore }
    {
        words_fit(&zero);
        let mut free = abandoned;
        free.reserve(made as usize - free.len())?;
        let mut slots = empty_slots(alloc, made as usize + 1)?;
        let words = zero.len() as u64 + fill_slots(&mut slots, arrays);
        Ok(Store {
            alloc,
            zero,
            named: 0,
            slots,
            free,
            words,
            limits,
        })
    }

    /// The number of identifiers that were ever made. It takes no memory.
    pub fn made(&self) -> u32
        ensures value { result ≡ self.now.identifiers.made }
        ensures held { IsStore self.now }
    {
        (self.slots.len() - 1) as u32
    }

    /// The k-th of the identifiers that were abandoned and not reused since, from 0, in the order of
    /// their abandonment, or `None` exactly past their end. In constant time, and it takes no memory.
    pub fn abandoned(&self, k: u32) -> Option<u32>
        ensures value { result ≡ slice_get self.now.identifiers.abandoned k }
        ensures held { IsStore self.now }
    {
        self.free.get(k as usize).copied()
    }

    /// The word at an offset of an array, from 0. `Inactive`, then `Outside`. In constant time.
    pub fn index(&self, id: u32, at: u32) -> Result<u32, StoreFault>
        ensures ok { IfOk result (HasWord self.now id at) }
        ensures err { IfErr result (RefusesWord self.now id at) }
        ensures held { IsStore self.now }
    {
        match array_of(&self.zero, self.named, &self.slots, id) {
            None => Err(StoreFault::Inactive),
            Some(words) => match words.get(at as usize) {
                None => Err(StoreFault::Outside),
                Some(word) => Ok(*word),
            },
        }
    }

    /// The word at an offset of an array, from 0, becomes this one, in that array alone. `Inactive`,
    /// then `Outside`, then `Memory`.
    pub fn amend(&mut self, id: u32, at: u32, word: u32) -> Result<(), StoreFault>
        ensures ok { OnOk result (self.new ≡ record self.old {
          arrays =
              map.insert self.old.arrays id (slice_set (array_at self.old.arrays id) at word);
        }) }
        ensures there { OnOk result
            (HasWord self.old id at (slice_index (array_at self.old.arrays id) at)) }
        ensures err { IfErr result (RefusesAmendment self.old id at) }
        ensures kept { OnErr result (self.new ≡ self.old) }
        ensures held { IsStore self.new }
    {
        self.index(id, at)?;
        if part(
            self.alloc,
            &mut self.zero,
            &mut self.named,
            &mut self.slots,
            id,
        )
        .is_err()
        {
            return Err(StoreFault::Memory);
        }
        write_word(&mut self.zero, self.named, &mut self.slots, id, at, word);
        Ok(())
    }

    /// A new array of this many platters, all 0, and its identifier: the one abandoned last and not
    /// reused since, or one more than the number made. `ArraysFull`, then `WordsFull`, then `Memory`.
    ///
    /// In time linear in the platters. It sets room aside for the identifier's return.
    pub fn allocate(&mut self, size: u32) -> Result<u32, StoreFault>
        ensures ok { IfOk result (λ id. id ≡ next_identifier self.old.identifiers) }
        ensures made { OnOk result (self.new ≡ record self.old {
          arrays =
              map.insert self.old.arrays (next_identifier self.old.identifiers) (replicate size 0);
          identifiers = taken self.old.identifiers;
        }) }
        ensures fits { OnOk result (FitsAllocation self.old size) }
        ensures err { IfErr result (RefusesAllocation self.old size) }
        ensures kept { OnErr result (self.new ≡ self.old) }
        ensures held { IsStore self.new }
    {
        let arrays = (self.slots.len() - self.free.len()) as u64;
        if arrays > self.limits.arrays {
            return Err(StoreFault::ArraysFull(arrays));
        }
        let words = self.words + size as u64;
        if words > self.limits.words {
            return Err(StoreFault::WordsFull(words));
        }
        let Ok(zeros) = vec![in self.alloc; 0u32; size as usize] else {
            return Err(StoreFault::Memory);
        };
        let Ok(id) = put_next(&mut self.slots, &mut self.free, zeros) else {
            return Err(StoreFault::Memory);
        };
        self.words = words;
        Ok(id)
    }

    /// The array is no more, its words are given back, and its identifier is the next to be handed
    /// out. `Zero`, then `Inactive`. In constant time, and it takes no memory.
    pub fn abandon(&mut self, id: u32) -> Result<(), StoreFault>
        ensures ok { OnOk result (self.new ≡ record self.old {
          arrays = map.remove self.old.arrays id;
          identifiers = handed_back self.old.identifiers id;
        }) }
        ensures positive { OnOk result (1 ≤ id) }
        ensures there { OnOk result (HasArray self.old id) }
        ensures err { IfErr result (RefusesAbandonment self.old id) }
        ensures kept { OnErr result (self.new ≡ self.old) }
        ensures held { IsStore self.new }
    {
        let Some(words) = array_of(&self.zero, self.named, &self.slots, id) else {
            return Err(StoreFault::Inactive);
        };
        if id == 0 {
            return Err(StoreFault::Zero);
        }
        self.words -= words.len() as u64;
        forget(&mut self.named, &mut self.slots, id);
        self.free.push_reserved(id);
        Ok(())
    }

    /// A duplicate of the array takes the place of array 0; where it is array 0, nothing changes.
    /// `Inactive`, then `WordsFull`. It takes no memory.
    pub fn load(&mut self, id: u32) -> Result<(), StoreFault>
        ensures zero { id ≡ 0 → (result ≡ Ok tt) × (self.new ≡ self.old) }
        ensures ok { OnOk result (1 ≤ id → self.new ≡ record self.old {
          arrays =
              map.insert self.old.arrays 0 (array_at self.old.arrays id);
        }) }
        ensures there { OnOk result (HasArray self.old id) }
        ensures fits { OnOk result (words_loaded self.old id ≤ self.old.limits.words) }
        ensures err { IfErr result (RefusesLoad self.old id) }
        ensures kept { OnErr result (self.new ≡ self.old) }
        ensures held { IsStore self.new }
    {
        let Some(source) = array_of(&self.zero, self.named, &self.slots, id) else {
            return Err(StoreFault::Inactive);
        };
        if id == 0 || id == self.named {
            return Ok(());
        }
        let words = self.words - self.zero.len() as u64 + source.len() as u64;
        if words > self.limits.words {
            return Err(StoreFault::WordsFull(words));
        }
        lend(&mut self.zero, &mut self.named, &mut self.slots, id);
        self.words = words;
        Ok(())
    }

    /// How many words an array has, or `None` where there is no such array. In constant time.
    pub fn size(&self, id: u32) -> Option<u64>
        ensures value { result ≡ option_map length (map.get self.now.arrays id) }
        ensures held { IsStore self.now }
    {
        match array_of(&self.zero, self.named, &self.slots, id) {
            None => None,
            Some(words) => Some(words.len() as u64),
        }
    }

    /// The number of arrays, without array 0, and of words, with those of array 0. In constant
    /// time.
    pub fn live(&self) -> (u64, u64)
        ensures arrays { result.0 ≡ live_arrays self.now.arrays }
        ensures words { result.1 ≡ live_words self.now.arrays }
        ensures held { IsStore self.now }
    {
        ((self.slots.len() - 1 - self.free.len()) as u64, self.words)
    }
}

// What the type says of each word, and is kept of every array.
fn words_fit(words: &[u32])
    ensures { (at : ℕ) → slice_index words.now at < 2 ^ 32 }
{
    let _ = words;
}

// so many slots, none of which has an array
fn empty_slots(alloc: Global, count: usize) -> Result<Vec<Option<Vec<u32>>>, Memory>
    ensures empty { IfOk result (λ slots. slot_arrays slots.items ≡ map.empty) }
    ensures len { IfOk result (λ slots. vec_len slots ≡ count) }
{
    let mut slots = Vec::with_capacity(alloc, count)?;
    for _ in 0..count {
        slots.push(None)?;
    }
    Ok(slots)
}

// Puts each array into the slot that its identifier numbers, and counts the words.
fn fill_slots(slots: &mut Vec<Option<Vec<u32>>>, mut arrays: Vec<(u32, Vec<u32>)>) -> u64
    requires within { All (λ a. a.0 < vec_len slots.old) arrays.items }
    requires words { words_in (listed arrays.items) < 2 ^ 32 }
    ensures arrays { slot_arrays slots.new.items
        ≡ arrays_put (listed arrays.items) (slot_arrays slots.old.items) }
    ensures words { result ≡ words_in (listed arrays.items) }
    ensures fit { AllFit (slot_arrays slots.old.items) → AllFit (slot_arrays slots.new.items) }
    ensures len { vec_len slots.new ≡ vec_len slots.old }
{
    let mut count = 0;
    while let Some((id, words)) = arrays.pop() {
        words_fit(&words);
        count += words.len() as u64;
        put_array(slots, id, words);
    }
    count
}

// The words of an array, if it is there.
fn array_of<'a>(
    zero: &'a [u32],
    named: u32,
    slots: &'a [Option<Vec<u32>>],
    id: u32,
) -> Option<&'a [u32]>
    ensures { option_copied result ≡ map.get (arrays_of zero.now named slots.now) id }
{
    if id == 0 || id == named {
        return Some(zero);
    }
    let Some(slot) = slots.get(id as usize) else {
        return None;
    };
    match slot {
        None => None,
        Some(words) => Some(words.as_slice()),
    }
}

// A word of an array that has one at this offset.
fn write_word(
    zero: &mut Vec<u32>,
    named: u32,
    slots: &mut Vec<Option<Vec<u32>>>,
    id: u32,
    at: u32,
    word: u32,
)
    requires apart { HasOwnWords id named }
    requires within { at < length (array_at (arrays_of zero.old.items named slots.old.items) id) }
    ensures arrays { arrays_of zero.new.items named slots.new.items
        ≡ map.insert (arrays_of zero.old.items named slots.old.items) id
        (slice_set (array_at (arrays_of zero.old.items named slots.old.items) id) at word) }
    ensures len { vec_len slots.new ≡ vec_len slots.old }
    ensures lent { IsLent named slots.old.items → IsLent named slots.new.items }
{
    if id == 0 {
        zero[at as usize] = word;
        return;
    }
    match &mut slots[id as usize] {
        Some(words) => words[at as usize] = word,
        None => unreachable!(),
    }
}

// The array is there with these words.
fn put_array(slots: &mut Vec<Option<Vec<u32>>>, id: u32, words: Vec<u32>)
    requires { id < vec_len slots.old }
    ensures arrays { slot_arrays slots.new.items
        ≡ map.insert (slot_arrays slots.old.items) id words.items }
    ensures len { vec_len slots.new ≡ vec_len slots.old }
{
    slots[id as usize] = Some(words);
}

// Where array 0 and this array have the same words, array 0 gets a copy as its own.
fn part(
    alloc: Global,
    zero: &mut Vec<u32>,
    named: &mut u32,
    slots: &mut Vec<Option<Vec<u32>>>,
    id: u32,
) -> Result<(), Memory>
    requires { named.old < vec_len slots.old }
    ensures apart { OnOk result (HasOwnWords id named.new) }
    ensures arrays { arrays_of zero.new.items named.new slots.new.items
        ≡ arrays_of zero.old.items named.old slots.old.items }
    ensures len { vec_len slots.new ≡ vec_len slots.old }
    ensures named { named.new < vec_len slots.new }
    ensures lent { IsLent named.old slots.old.items → IsLent named.new slots.new.items }
{
    if *named == 0 || (id != 0 && id != *named) {
        return Ok(());
    }
    let copy = Vec::from_slice(alloc, zero)?;
    put_array(slots, *named, mem::replace(zero, copy));
    *named = 0;
    Ok(())
}

// Array 0 becomes the name of another array, whose words it has from then on. The array that it named
// gets its words back, and words of its own are dropped.
fn lend(zero: &mut Vec<u32>, named: &mut u32, slots: &mut Vec<Option<Vec<u32>>>, id: u32)
    requires positive { 1 ≤ id }
    requires other { id ≡ named.old → ⊥ }
    requires there { map.get (slot_arrays slots.old.items) id ≡ Some (array_at (slot_arrays slots.old.items) id) }
    requires named { named.old < vec_len slots.old }
    ensures arrays { arrays_of zero.new.items named.new slots.new.items
        ≡ map.insert (arrays_of zero.old.items named.old slots.old.items) 0
        (array_at (slot_arrays slots.old.items) id) }
    ensures words { zero.new.items ≡ array_at (slot_arrays slots.old.items) id }
    ensures len { vec_len slots.new ≡ vec_len slots.old }
    ensures named { named.new < vec_len slots.new }
    ensures lent { IsLent named.new slots.new.items }
{
    let words = take_array(slots, id);
    let before = mem::replace(zero, words);
    let other = mem::replace(named, id);
    if other == 0 {
        return;
    }
    put_array(slots, other, before);
}

// The array is no more. Where array 0 names it, array 0 keeps the words.
fn forget(named: &mut u32, slots: &mut Vec<Option<Vec<u32>>>, id: u32)
    requires positive { 1 ≤ id }
    requires within { id < vec_len slots.old }
    requires named { named.old < vec_len slots.old }
    requires lent { IsLent named.old slots.old.items }
    ensures arrays { (words : List ℕ) → arrays_of words named.new slots.new.items
        ≡ map.remove (arrays_of words named.old slots.old.items) id }
    ensures len { vec_len slots.new ≡ vec_len slots.old }
    ensures named { named.new < vec_len slots.new }
    ensures lent { IsLent named.new slots.new.items }
{
    if id == *named {
        *named = 0;
        return;
    }
    empty_slot(slots, id);
}

// The words of an array that is there, which leaves its slot empty.
fn take_array(slots: &mut Vec<Option<Vec<u32>>>, id: u32) -> Vec<u32>
    requires { map.get (slot_arrays slots.old.items) id ≡ Some (array_at (slot_arrays slots.old.items) id) }
    ensures words { result.items ≡ array_at (slot_arrays slots.old.items) id }
    ensures arrays { slot_arrays slots.new.items ≡ map.remove (slot_arrays slots.old.items) id }
    ensures len { vec_len slots.new ≡ vec_len slots.old }
    ensures within { id < vec_len slots.old }
{
    match slots[id as usize].take() {
        Some(words) => words,
        None => unreachable!(),
    }
}

// The next identifier is handed out for an array of these words, with room for its return.
fn put_next(
    slots: &mut Vec<Option<Vec<u32>>>,
    free: &mut Vec<u32>,
    words: Vec<u32>,
) -> Result<u32, Memory>
    requires some { 1 ≤ vec_len slots.old }
    requires few { vec_len slots.old < 2 ^ 32 }
    requires known { All (λ id. id < vec_len slots.old) free.old.items }
    requires room { length slots.old.items - 1 ≤ vec_capacity free.old }
    ensures ok { IfOk result (λ id.
        id ≡ next_identifier (identifiers_of slots.old.items free.old.items)) }
    ensures arrays { OnOk result (slot_arrays slots.new.items ≡ map.insert
        (slot_arrays slots.old.items)
        (next_identifier (identifiers_of slots.old.items free.old.items)) words.items) }
    ensures identifiers { OnOk result (identifiers_of slots.new.items free.new.items
        ≡ taken (identifiers_of slots.old.items free.old.items)) }
    ensures kept { OnErr result
        ((slots.new.items ≡ slots.old.items) × (free.new.items ≡ free.old.items)) }
    ensures room { length slots.new.items - 1 ≤ vec_capacity free.new }
    ensures some { length slots.old.items ≤ length slots.new.items }
{
    if let Some(id) = free.pop() {
        put_array(slots, id, words);
        return Ok(id);
    }
    let id = slots.len();
    if free.reserve(id).is_err() || slots.push(Some(words)).is_err() {
        return Err(Memory);
    }
    Ok(id as u32)
}

// The array is no more.
fn empty_slot(slots: &mut Vec<Option<Vec<u32>>>, id: u32)
    requires { id < vec_len slots.old }
    ensures arrays { slot_arrays slots.new.items ≡ map.remove (slot_arrays slots.old.items) id }
    ensures len { vec_len slots.new ≡ vec_len slots.old }
{
    slots[id as usize] = None;
}

//! The machine and its calls.

ghost use Rattle.std.specs.Prelude.{◌≡◌, ◌<◌, ◌≤◌, ◌+◌, ◌^◌, ◌⊎◌, ℕ, List, [], slice_get};
ghost use Rattle.std.specs.Prelude.{slice_index, slice_set, true, false, length, IfSome, IfOk};
ghost use Rattle.std.specs.Prelude.{OnOk, OnErr, IfErr, Some, Err};
ghost use Rattle.std.specs.Option.{option_map};
ghost use Rattle.std.specs.FinMap as map;
ghost use Rattle.um_word.specs.Operators.{IsEncodable};
ghost use Rattle.um_word.specs.State.{array_at, live_arrays, live_words};
ghost use Rattle.um_word.specs.Table.{row, cycle, op_under};
ghost use Rattle.um_word.specs.Rule.{left_by, identifiers_left};
ghost use Rattle.array_store.specs.StoreView.{most_live_arrays, most_live_words, most_limits};
ghost use Rattle.um_machine.specs.MachineView.{state_of, machine_of, IsWhole};
ghost use Rattle.um_machine.specs.MachineParts.{AreMachineParts, parts_of, machine_of_parts};
ghost use Rattle.um_machine.specs.Outside.{MayRest, IsAsked, IsFed};
ghost use Rattle.um_machine.specs.Stops.{turn_of, is_input, is_output};
ghost use Rattle.um_machine.specs.inner.OperatorCalls.{placed, op_at, row_of, cycle_of};
ghost use Rattle.um_machine.specs.inner.OperatorCalls.{AnswersCall, DoesRow, rest_before};
ghost use Rattle.um_machine.specs.Runs.{seen_by, GoesFromTo, RunEnds, CycleEnds};

use crate::{Saved, Stop, Turn};
use array_store::{Store, StoreFault};
use std::alloc::Global;
use std::marker::Model;
use um_word::{Op, decode};
use umix_base::{Failed, Limits, Memory, Sink, Source};

/// A machine, seen as its state without input and output, its identifiers and its limits.
#[derive(Drop)]
pub struct Machine {
    store: Store,
    registers: [u32; 8],
    finger: u32,
    cycles: u64,
    halted: bool,
}

impl Model for Machine {
    ghost use Rattle.um_machine.specs.MachineView.{MachineView, machine_code};

    ghost Value = { MachineView };

    ghost coded = { machine_code };

    ghost view = { λ m. record {
      registers = m.registers;
      finger = m.finger;
      arrays = m.store.arrays;
      identifiers = m.store.identifiers;
      limits = m.store.limits;
      cycles = m.cycles;
      halted = m.halted;
    } };
}

// what the type says of the registers
fn registers_fit(registers: &[u32; 8])
    ensures eight { length registers.now ≡ 8 }
    ensures each { (k : ℕ) → slice_index registers.now k < 2 ^ 32 }
{
    each_fits(registers);
}

// what the type says of the finger
fn finger_fits(finger: u32)
    ensures { finger < 2 ^ 32 }
{
    let _ = finger;
}

fn each_fits(words: &[u32])
    ensures { (k : ℕ) → slice_index words.now k < 2 ^ 32 }
{
    let _ = words;
}

impl Machine {
    /// A machine at the start of the run of these words: registers and finger 0, array 0 the words,
    /// and no other array. `WordsFull` exactly where there are more words than the limit. The words
    /// are not copied.
    /// See "The start of a run" in docs/MACHINE.md.
    pub fn new(alloc: Global, words: Vec<u32>, limits: Limits) -> Result<Machine, Stop>
        requires arrays { limits.arrays ≤ most_live_arrays }
        requires words { limits.words ≤ most_live_words }
        ensures machine { IfOk result (λ machine. machine ≡ machine_of words.items limits) }
        ensures fits { OnOk result (length words.items ≤ limits.words) }
        ensures fault { IfErr result (λ stop. (stop ≡ Stop.Memory) ⊎
            ((stop ≡ Stop.WordsFull (length words.items)) × (limits.words < length words.items))) }
        ensures memory { result ≡ Err Stop.Memory → length words.items ≤ limits.words }
        ensures whole { IfOk result IsWhole }
    {
        match Store::new(alloc, words, limits) {
            Ok(store) => {
                let machine = Machine {
                    store,
                    registers: [0; 8],
                    finger: 0,
                    cycles: 0,
                    halted: false,
                };
                machine.stays_whole();
                Ok(machine)
            }
            Err(StoreFault::WordsFull(count)) => Err(Stop::WordsFull(count)),
            Err(_) => Err(Stop::Memory),
        }
    }

    /// The machine of these parts, halted or not as they say, with their number of cycles. The
    /// limits are the greatest. No words are copied. In time linear in the identifiers made.
    /// See "The parts of a machine" in docs/IMAGES.md.
    pub fn restore(alloc: Global, saved: Saved, limits: Limits) -> Result<Machine, Memory>
        requires parts { AreMachineParts (parts_of saved) }
        requires limits { limits ≡ most_limits }
        ensures machine { IfOk result
            (λ machine. machine ≡ machine_of_parts (parts_of saved) limits) }
        ensures whole { IfOk result IsWhole }
    {
        let store = Store::restore(
            alloc,
            saved.made,
            saved.abandoned,
            saved.zero,
            saved.arrays,
            limits,
        )?;
        let registers = saved.registers;
        let machine = Machine {
            store,
            registers,
            finger: saved.finger,
            cycles: saved.cycles,
            halted: saved.halted,
        };
        machine.stays_whole();
        Ok(machine)
    }

    /// The register of this number, which is below 8. Takes no memory.
    pub fn register(&self, k: u32) -> u32
        requires { k < 8 }
        ensures { result ≡ slice_index self.now.registers k }
    {
        self.registers[k as usize]
    }

    /// The offset in array 0 that the finger indicates. Takes no memory.
    pub fn finger(&self) -> u32
        ensures { result ≡ self.now.finger }
    {
        self.finger
    }

    /// The number of cycles that were made. Takes no memory.
    pub fn cycles(&self) -> u64
        ensures { result ≡ self.now.cycles }
    {
        self.cycles
    }

    /// Whether the machine has halted. Takes no memory.
    pub fn halted(&self) -> bool
        ensures { result ≡ self.now.halted }
    {
        self.halted
    }

    /// The number of identifiers that were ever made. Takes no memory.
    pub fn made(&self) -> u32
        ensures { result ≡ self.now.identifiers.made }
    {
        self.store.made()
    }

    /// The k-th of the identifiers that were abandoned and not reused since, from 0, in the order of
    /// their abandonment, or `None` exactly past their end. Constant time, and it takes no memory.
    pub fn abandoned(&self, k: u32) -> Option<u32>
        ensures { result ≡ slice_get self.now.identifiers.abandoned k }
    {
        self.store.abandoned(k)
    }

    /// How many words an array has, or `None` where there is no such array. Constant time, and it takes no
    /// memory.
    pub fn size(&self, id: u32) -> Option<u64>
        ensures { result ≡ option_map length (map.get self.now.arrays id) }
    {
        self.store.size(id)
    }

    /// The platter at this offset of an array, from 0. `None` exactly where there is no such array, or
    /// it has no such platter. Constant time, and it takes no memory.
    pub fn word(&self, id: u32, at: u32) -> Option<u32>
        ensures value { result ≡ slice_get (array_at self.now.arrays id) at }
        ensures short { IfSome result (λ _. at < 2 ^ 28) }
    {
        self.store.index(id, at).ok()
    }

    /// The number of arrays, without array 0, and of words, with those of array 0. Constant time, and
    /// it takes no memory.
    pub fn live(&self) -> (u64, u64)
        ensures arrays { result.0 ≡ live_arrays self.now.arrays }
        ensures words { result.1 ≡ live_words self.now.arrays }
        ensures whole { IsWhole self.now }
    {
        registers_fit(&self.registers);
        finger_fits(self.finger);
        self.store.live()
    }

    // what is true of every machine
    fn stays_whole(&self)
        ensures { IsWhole self.now }
    {
        let _ = self.live();
    }

    // a register gets a value
    fn set(&mut self, k: u32, value: u32)
        requires { k < 8 }
        ensures { self.new ≡ record self.old {
          registers = slice_set self.old.registers k value;
        } }
    {
        self.registers[k as usize] = value;
    }

    // the finger and the cycles that were made are written back
    fn settle(&mut self, finger: u32, made: u64)
        requires { self.old.cycles + made < 2 ^ 64 }
        ensures placed { self.new ≡ placed self.old finger (self.old.cycles + made) }
        ensures whole { IsWhole self.new }
    {
        self.finger = finger;
        self.cycles += made;
        self.stays_whole();
    }

    // A becomes the platter at offset C of array B
    fn index(&mut self, a: u32, b: u32, c: u32) -> Result<(), Stop>
        requires registers { (a < 8) × (b < 8) × (c < 8) }
        ensures { DoesRow (Op.Index a b c) self.old self.new result }
    {
        let word = match self.store.index(self.register(b), self.register(c)) {
            Ok(word) => word,
            Err(StoreFault::Inactive) => return Err(Stop::IndexInactive),
            Err(_) => return Err(Stop::IndexOutside),
        };
        self.set(a, word);
        Ok(())
    }

    // the platter at offset B of array A becomes C
    fn amend(&mut self, a: u32, b: u32, c: u32) -> Result<(), Stop>
        requires registers { (a < 8) × (b < 8) × (c < 8) }
        ensures { DoesRow (Op.Amend a b c) self.old self.new result }
    {
        let (id, at, word) = (self.register(a), self.register(b), self.register(c));
        match self.store.amend(id, at, word) {
            Ok(()) => Ok(()),
            Err(StoreFault::Inactive) => Err(Stop::AmendInactive),
            Err(StoreFault::Outside) => Err(Stop::AmendOutside),
            Err(_) => Err(Stop::Memory),
        }
    }

    // a new array of C platters, whose identifier goes to B
    fn allocate(&mut self, b: u32, c: u32) -> Result<(), Stop>
        requires registers { (b < 8) × (c < 8) }
        ensures { DoesRow (Op.Alloc b c) self.old self.new result }
    {
        let size = self.register(c);
        let id = match self.store.allocate(size) {
            Ok(id) => id,
            Err(StoreFault::ArraysFull(count)) => return Err(Stop::ArraysFull(count)),
            Err(StoreFault::WordsFull(count)) => return Err(Stop::WordsFull(count)),
            Err(_) => return Err(Stop::Memory),
        };
        self.set(b, id);
        Ok(())
    }

    // array C is no more
    fn abandon(&mut self, c: u32) -> Result<(), Stop>
        requires registers { c < 8 }
        ensures { DoesRow (Op.Abandon c) self.old self.new result }
    {
        let id = self.register(c);
        match self.store.abandon(id) {
            Ok(()) => Ok(()),
            Err(StoreFault::Zero) => Err(Stop::AbandonZero),
            Err(_) => Err(Stop::AbandonInactive),
        }
    }

    // a duplicate of array B takes the place of array 0
    fn load(&mut self, b: u32, c: u32) -> Result<(), Stop>
        requires registers { (b < 8) × (c < 8) }
        ensures row { DoesRow (Op.Load b c) self.old self.new result }
        ensures registers { self.new.registers ≡ self.old.registers }
    {
        let id = self.register(b);
        match self.store.load(id) {
            Ok(()) => Ok(()),
            Err(StoreFault::WordsFull(count)) => Err(Stop::WordsFull(count)),
            Err(_) => Err(Stop::LoadInactive),
        }
    }

    // the operator's row of the table, where the finger has moved on
    #[tactic(auto, using(crate::proofs::Bytes::held_more, crate::proofs::Bytes::held_one))]
    fn discharge<I: Source, O: Sink>(
        &mut self,
        op: Op,
        finger: &mut u32,
        input: &mut I,
        out: &mut O,
    ) -> Result<Turn, Stop>
        requires registers { IsEncodable op }
        requires running { self.old.halted ≡ false }
        ensures rest { (left : List ℕ) → MayRest (I.rest input.new) left →
            MayRest (I.rest input.old)
            (rest_before result (Some op) (I.rest input.old) self.new.registers left) }
        ensures row { (cycles : ℕ) → AnswersCall (Some op) (row_of op self.old)
            (placed self.old finger.old cycles) (placed self.new finger.new cycles)
            (I.rest input.old) (I.rest input.new) (O.written out.old) (O.written out.new) result }
        ensures identifiers { OnOk result (self.new.identifiers
            ≡ left_by (Some op) (state_of self.old [] []) self.old.identifiers) }
        ensures limits { self.new.limits ≡ self.old.limits }
        ensures turn { IfOk result (λ turn. turn ≡ turn_of self.new.halted) }
        ensures place { (self.new.finger ≡ self.old.finger) × (self.new.cycles ≡ self.old.cycles) }
        ensures kept { OnErr result ((self.new ≡ self.old) × (finger.new ≡ finger.old)
            × (I.rest input.new ≡ I.rest input.old)) }
        ensures unasked { is_input (Some op) ≡ false → input.new ≡ input.old }
        ensures unfed { is_output (Some op) ≡ false → out.new ≡ out.old }
        ensures input { IsAsked I.Source input.old input.new (result ≡ Err Stop.ReadFault) }
        ensures out { IsFed O.Sink out.old out.new (result ≡ Err Stop.WriteFault) }
    {
        match op {
            Op::Move(a, b, c) => {
                if self.register(c) != 0 {
                    let value = self.register(b);
                    self.set(a, value);
                }
                Ok(Turn::Running)
            }
            Op::Index(a, b, c) => {
                self.index(a, b, c)?;
                Ok(Turn::Running)
            }
            Op::Amend(a, b, c) => {
                self.amend(a, b, c)?;
                Ok(Turn::Running)
            }
            Op::Add(a, b, c) => {
                let value = self.register(b).wrapping_add(self.register(c));
                self.set(a, value);
                Ok(Turn::Running)
            }
            Op::Mul(a, b, c) => {
                let value = self.register(b).wrapping_mul(self.register(c));
                self.set(a, value);
                Ok(Turn::Running)
            }
            Op::Div(a, b, c) => {
                let divisor = self.register(c);
                if divisor == 0 {
                    return Err(Stop::DivideByZero);
                }
                let value = self.register(b) / divisor;
                self.set(a, value);
                Ok(Turn::Running)
            }
            Op::Nand(a, b, c) => {
                let value = !(self.register(b) & self.register(c));
                self.set(a, value);
                Ok(Turn::Running)
            }
            Op::Halt => {
                self.halted = true;
                Ok(Turn::Halted)
            }
            Op::Alloc(b, c) => {
                self.allocate(b, c)?;
                Ok(Turn::Running)
            }
            Op::Abandon(c) => {
                self.abandon(c)?;
                Ok(Turn::Running)
            }
            Op::Out(c) => {
                let value = self.register(c);
                if value > 255 {
                    return Err(Stop::OutputTooLarge);
                }
                match out.put(&[value as u8]) {
                    Ok(()) => Ok(Turn::Running),
                    Err(Failed) => Err(Stop::WriteFault),
                }
            }
            Op::Input(c) => match input.next() {
                Ok(Some(byte)) => {
                    self.set(c, byte as u32);
                    Ok(Turn::Running)
                }
                Ok(None) => {
                    self.set(c, u32::MAX);
                    Ok(Turn::Running)
                }
                Err(Failed) => Err(Stop::ReadFault),
            },
            Op::Load(b, c) => {
                self.load(b, c)?;
                *finger = self.register(c);
                Ok(Turn::Running)
            }
            Op::Set(a, value) => {
                self.set(a, value);
                Ok(Turn::Running)
            }
        }
    }

    // one cycle under this finger, which moves; the machine's own and its count of cycles stay
    fn step<I: Source, O: Sink>(
        &mut self,
        finger: &mut u32,
        input: &mut I,
        out: &mut O,
    ) -> Result<Turn, Stop>
        requires running { self.old.halted ≡ false }
        ensures rest { (left : List ℕ) → MayRest (I.rest input.new) left →
            MayRest (I.rest input.old) (rest_before result (op_at self.old finger.old)
            (I.rest input.old) self.new.registers left) }
        ensures row { (cycles : ℕ) → AnswersCall (op_at self.old finger.old) (cycle_of self.old)
            (placed self.old finger.old cycles) (placed self.new finger.new (cycles + 1))
            (I.rest input.old) (I.rest input.new) (O.written out.old) (O.written out.new) result }
        ensures identifiers { OnOk result (self.new.identifiers
            ≡ identifiers_left (state_of (placed self.old finger.old 0) [] [])
            self.old.identifiers) }
        ensures limits { self.new.limits ≡ self.old.limits }
        ensures turn { IfOk result (λ turn. turn ≡ turn_of self.new.halted) }
        ensures place { (self.new.finger ≡ self.old.finger) × (self.new.cycles ≡ self.old.cycles) }
        ensures kept { OnErr result ((self.new ≡ self.old) × (finger.new ≡ finger.old)
            × (I.rest input.new ≡ I.rest input.old)) }
        ensures unasked { is_input (op_at self.old finger.old) ≡ false → input.new ≡ input.old }
        ensures unfed { is_output (op_at self.old finger.old) ≡ false → out.new ≡ out.old }
        ensures input { IsAsked I.Source input.old input.new (result ≡ Err Stop.ReadFault) }
        ensures out { IsFed O.Sink out.old out.new (result ≡ Err Stop.WriteFault) }
    {
        let Some(word) = self.word(0, *finger) else {
            return Err(Stop::FingerOutside);
        };
        let Some(op) = decode(word) else {
            return Err(Stop::BadOperator);
        };
        *finger += 1;
        match self.discharge(op, finger, input, out) {
            Ok(turn) => Ok(turn),
            Err(stop) => {
                *finger -= 1;
                Err(stop)
            }
        }
    }

    /// One cycle by the table: its row's next state, or a fault that leaves the machine as it was. A
    /// halted machine answers `Halted` again and changes nothing. `ReadFault` comes only at an Input
    /// whose source failed, `WriteFault` only at an Output whose sink failed; whether its byte went out
    /// isn't told. `Memory` comes only at an Allocation or an Amendment.
    /// Constant time, but for an Allocation, and for an Amendment that copies. See "One cycle" in
    /// docs/MACHINE.md.
    pub fn cycle<I: Source, O: Sink>(&mut self, input: &mut I, out: &mut O) -> Result<Turn, Stop>
        requires cycles { self.old.cycles + 1 < 2 ^ 64 }
        ensures row { let seen = seen_by I.Source O.Sink in
            GoesFromTo (seen self.old input.old out.old) (seen self.new input.new out.new)
            (λ s t. CycleEnds self.old self.new s t result) }
        ensures counted { self.new.cycles ≤ self.old.cycles + 1 }
        ensures unasked { is_input (op_under (state_of self.old [] [])) ≡ false →
            input.new ≡ input.old }
        ensures unfed { is_output (op_under (state_of self.old [] [])) ≡ false →
            out.new ≡ out.old }
        ensures halted { self.old.halted ≡ true → (self.new ≡ self.old)
            × (input.new ≡ input.old) × (out.new ≡ out.old) }
        ensures kept { OnErr result
            ((self.new ≡ self.old) × (I.rest input.new ≡ I.rest input.old)) }
        ensures limits { self.new.limits ≡ self.old.limits }
        ensures whole { IsWhole self.new }
        ensures input { IsAsked I.Source input.old input.new (result ≡ Err Stop.ReadFault) }
        ensures out { IsFed O.Sink out.old out.new (result ≡ Err Stop.WriteFault) }
    {
        if self.halted() {
            self.stays_whole();
            return Ok(Turn::Halted);
        }
        let mut finger = self.finger();
        match self.step(&mut finger, input, out) {
            Ok(turn) => {
                self.settle(finger, 1);
                Ok(turn)
            }
            Err(stop) => {
                self.stays_whole();
                Err(stop)
            }
        }
    }

    /// Up to this many cycles: until the machine has halted, or one cycle fails. `Budget` exactly where
    /// all of them were made and the machine runs on; with none it is `Halted` for a halted machine,
    /// else `Budget`. After a fault the machine stands as before that cycle, and the cycles before it
    /// stay made.
    /// See "Runs" in docs/MACHINE.md.
    #[inline(never)]
    pub fn run<I: Source, O: Sink>(&mut self, input: &mut I, out: &mut O, cycles: u64) -> Stop
        requires { self.old.cycles + cycles < 2 ^ 64 }
        ensures run { let seen = seen_by I.Source O.Sink in
            GoesFromTo (seen self.old input.old out.old) (seen self.new input.new out.new)
            (λ s t. RunEnds cycles self.old self.new s t result) }
        ensures counted { self.new.cycles ≤ self.old.cycles + cycles }
        ensures limits { self.new.limits ≡ self.old.limits }
        ensures whole { IsWhole self.new }
        ensures input { IsAsked I.Source input.old input.new (result ≡ Stop.ReadFault) }
        ensures out { IsFed O.Sink out.old out.new (result ≡ Stop.WriteFault) }
    {
        if self.halted() {
            self.stays_whole();
            return Stop::Halted;
        }
        let mut finger = self.finger();
        for made in 0..cycles {
            match self.step(&mut finger, input, out) {
                Ok(Turn::Running) => {}
                Ok(Turn::Halted) => {
                    self.settle(finger, made + 1);
                    return Stop::Halted;
                }
                Err(stop) => {
                    self.settle(finger, made);
                    return stop;
                }
            }
        }
        self.settle(finger, cycles);
        Stop::Budget
    }
}

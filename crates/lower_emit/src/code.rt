ghost use Rattle.std.specs.Prelude.{◌≡◌, ◌+◌, ◌<◌, ◌≤◌, ◌^◌, ◌++◌, List, [], All, IfOk, OnOk};
ghost use Rattle.std.specs.Prelude.{length};
ghost use Rattle.um_word.specs.declared.op.Op.{Op};
ghost use Rattle.code_templates.specs.Rows.{HoleFits, Say};
ghost use Rattle.code_templates.specs.Templates as code;
ghost use Rattle.two_d.specs.Trees.{tree_of};
ghost use Rattle.two_d.specs.Weights.{nodes};
ghost use Rattle.lower_emit.specs.inner.Codes.{AddsOps};
ghost use Rattle.lower_emit.specs.Expressions.{past, expression_slot, code_of};

use code_templates::{
    Holes, Template, branch_on_slot, call_block, choose_slot, make_cell, read_part, return_outcome,
    set_slot, take_outcome,
};
use std::alloc::Global;
use two_d::Exp;
use umix_base::Memory;

/// The slot of a frame that is 0.
pub(crate) const ZERO: u32 = 7;

/// Code that is being made.
#[derive(Drop)]
pub(crate) struct Code {
    pub(crate) words: Vec<u32>,
}

impl Code {
    /// No code yet.
    pub(crate) fn new(alloc: Global) -> Code
        ensures { result.words.items ≡ [] }
    {
        Code {
            words: Vec::new(alloc),
        }
    }

    /// Adds a template with these values in its holes.
    fn put<const N: usize>(
        &mut self,
        template: &Template<N>,
        values: [u32; 8],
    ) -> Result<(), Memory>
        requires size { N ≤ 1024 }
        requires holes { All (HoleFits values) template.now.rows }
        ensures { OnOk result ((ops : List Op) → Say template.now.rows values ops →
            AddsOps self.old self.new ops) }
    {
        let words = template.fill(&Holes { values });
        self.words.extend_from_slice(words.as_slice())?;
        Ok(())
    }

    /// Slot `to` becomes a new cell, with word `i` from slot `a` and word `j` from slot `b`.
    pub(crate) fn make_cell(
        &mut self,
        a: u32,
        b: u32,
        i: u32,
        j: u32,
        to: u32,
    ) -> Result<(), Memory>
        requires a { a < 2 ^ 25 }
        requires b { b < 2 ^ 25 }
        requires i { i < 2 ^ 25 }
        requires j { j < 2 ^ 25 }
        requires to { to < 2 ^ 25 }
        ensures { OnOk result (AddsOps self.old self.new (code.make_cell a b i j to)) }
    {
        self.put(&make_cell(), [a, b, i, j, to, 0, 0, 0])
    }

    /// Slot `to` becomes the number.
    pub(crate) fn set_slot(&mut self, number: u32, to: u32) -> Result<(), Memory>
        requires number { number < 2 ^ 25 }
        requires to { to < 2 ^ 25 }
        ensures { OnOk result (AddsOps self.old self.new (code.set_slot number to)) }
    {
        self.put(&set_slot(), [number, to, 0, 0, 0, 0, 0, 0])
    }

    /// Slot `to` becomes slot `a` where slot `test` isn't 0, and else slot `b`.
    pub(crate) fn choose_slot(&mut self, test: u32, a: u32, b: u32, to: u32) -> Result<(), Memory>
        requires test { test < 2 ^ 25 }
        requires a { a < 2 ^ 25 }
        requires b { b < 2 ^ 25 }
        requires to { to < 2 ^ 25 }
        ensures { OnOk result (AddsOps self.old self.new (code.choose_slot test a b to)) }
    {
        self.put(&choose_slot(), [test, a, b, to, 0, 0, 0, 0])
    }

    /// Slot `to` becomes a word of the array in slot `whole`.
    pub(crate) fn read_part(&mut self, whole: u32, word: u32, to: u32) -> Result<(), Memory>
        requires whole { whole < 2 ^ 25 }
        requires word { word < 2 ^ 25 }
        requires to { to < 2 ^ 25 }
        ensures { OnOk result (AddsOps self.old self.new (code.read_part whole word to)) }
    {
        self.put(&read_part(), [whole, word, to, 0, 0, 0, 0, 0])
    }

    /// Goes to `none` where the slot is 0, and else to `some`.
    pub(crate) fn branch_on_slot(&mut self, slot: u32, none: u32, some: u32) -> Result<(), Memory>
        requires slot { slot < 2 ^ 25 }
        requires none { none < 2 ^ 25 }
        requires some { some < 2 ^ 25 }
        ensures { OnOk result (AddsOps self.old self.new (code.branch_on_slot slot none some)) }
    {
        self.put(&branch_on_slot(), [slot, none, some, 0, 0, 0, 0, 0])
    }

    /// Calls a block, with the values of two slots as its inputs and a frame of so many words; it
    /// is to return to a place of this block, by its own number.
    pub(crate) fn call_block(
        &mut self,
        inputs: (u32, u32),
        callee: u32,
        size: u32,
        own: u32,
        back: u32,
    ) -> Result<(), Memory>
        requires north { inputs.0 < 2 ^ 25 }
        requires west { inputs.1 < 2 ^ 25 }
        requires callee { callee < 2 ^ 25 }
        requires size { size < 2 ^ 25 }
        requires own { own < 2 ^ 25 }
        requires back { back < 2 ^ 25 }
        ensures { OnOk result (AddsOps self.old self.new
            (code.call_block inputs.0 inputs.1 callee size own back)) }
    {
        let (north, west) = inputs;
        self.put(&call_block(), [north, west, callee, size, own, back, 0, 0])
    }

    /// Slot `value` and slot `trail` become the outcome of the call.
    pub(crate) fn take_outcome(&mut self, value: u32, trail: u32) -> Result<(), Memory>
        requires value { value < 2 ^ 25 }
        requires trail { trail < 2 ^ 25 }
        ensures { OnOk result (AddsOps self.old self.new (code.take_outcome value trail)) }
    {
        self.put(&take_outcome(), [value, trail, 0, 0, 0, 0, 0, 0])
    }

    /// Returns to the caller, with the outcome in slots 5 and 6.
    pub(crate) fn return_outcome(&mut self) -> Result<(), Memory>
        ensures { OnOk result (AddsOps self.old self.new (code.return_outcome)) }
    {
        self.put(&return_outcome(), [0, 0, 0, 0, 0, 0, 0, 0])
    }

    /// Slot `to` becomes the trail of a text, and of what is inside.
    pub(crate) fn trail(&mut self, text: u32, inner: u32, to: u32) -> Result<(), Memory>
        requires text { text < 2 ^ 25 }
        requires inner { inner < 2 ^ 25 }
        requires to { to < 2 ^ 25 }
        ensures { OnOk result (AddsOps self.old self.new
            (code.set_slot text to ++ code.make_cell to inner 0 1 to)) }
    {
        self.set_slot(text, to)?;
        self.make_cell(to, inner, 0, 1, to)
    }

    /// The place behind the code.
    pub(crate) fn place(&self) -> u32
        requires { length self.now.words.items < 2 ^ 25 }
        ensures { result ≡ length self.now.words.items }
    {
        self.words.len() as u32
    }

    /// Adds other code.
    pub(crate) fn append(&mut self, other: &Code) -> Result<(), Memory>
        ensures { OnOk result (self.new.words.items ≡ self.old.words.items
            ++ other.now.words.items) }
    {
        self.words.extend_from_slice(other.words.as_slice())?;
        Ok(())
    }
}

/// Where the value of an expression stands, and the first free slot behind those of its nodes.
#[derive(Clone, Copy, PartialEq, Eq, Debug)]
pub(crate) struct Built {
    pub(crate) slot: u32,
    pub(crate) free: u32,
}

/// Adds the code of an expression, where N and W have these slots, and slots are free from one on.
pub(crate) fn build(
    code: &mut Code,
    exp: &Exp,
    north: u32,
    west: u32,
    free: u32,
) -> Result<Built, Memory>
    requires north { north < 2 ^ 25 }
    requires west { west < 2 ^ 25 }
    requires room { free + nodes (tree_of exp.now) < 2 ^ 25 }
    ensures small { IfOk result (λ built. built.slot < 2 ^ 25) }
    ensures few { IfOk result (λ built. built.free ≤ free + nodes (tree_of exp.now)) }
    ensures slot { IfOk result (λ built. built.slot ≡ expression_slot
        (tree_of exp.now) north west free) }
    ensures free { IfOk result (λ built. built.free ≡ past (tree_of exp.now) free) }
    ensures code { OnOk result (AddsOps code.old code.new
        (code_of (tree_of exp.now) north west free)) }
{
    match exp {
        Exp::N => Ok(Built { slot: north, free }),
        Exp::W => Ok(Built { slot: west, free }),
        Exp::Unit => {
            code.make_cell(ZERO, ZERO, 0, 1, free)?;
            Ok(Built {
                slot: free,
                free: free + 1,
            })
        }
        Exp::Pair(first, second) => {
            let first = build(code, first, north, west, free)?;
            let second = build(code, second, north, west, first.free)?;
            code.make_cell(first.slot, second.slot, 2, 3, second.free)?;
            Ok(Built {
                slot: second.free,
                free: second.free + 1,
            })
        }
        Exp::Inl(inner) => {
            let inner = build(code, inner, north, west, free)?;
            code.make_cell(inner.slot, ZERO, 0, 1, inner.free)?;
            Ok(Built {
                slot: inner.free,
                free: inner.free + 1,
            })
        }
        Exp::Inr(inner) => {
            let inner = build(code, inner, north, west, free)?;
            code.make_cell(ZERO, inner.slot, 0, 1, inner.free)?;
            Ok(Built {
                slot: inner.free,
                free: inner.free + 1,
            })
        }
    }
}

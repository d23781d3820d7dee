ghost use Rattle.std.specs.Prelude.{◌≡◌, ◌<◌, ◌↔◌, [], ◌∷◌, ◌++◌, length, IsTrue, IfOk, OnOk};
ghost use Rattle.std.specs.Prelude.{OnErr, Contains, slice_get};
ghost use Rattle.codex_values.specs.Store.{value_at, values_of, made_of, PartsBelow, Keeps};

use crate::Shape;
use indexmap::IndexSet;
use std::alloc::Global;
use std::marker::Model;
use umix_base::Memory;

/// Shared nodes of values, in a list in which no two are equal. The parts of a node stand earlier in it.
/// Each place, counted from 0, stands for one value, which no later call changes, and two places stand
/// for two values.
#[derive(Drop)]
pub struct ValueStore {
    nodes: IndexSet<Shape>,
}

impl Model for ValueStore {
    ghost use Rattle.std.specs.Prelude.{List};
    ghost use Rattle.codex_values.specs.declared.shape.Shape.{Shape};
    ghost use Rattle.codex_values.specs.Store.{IsStore};

    ghost Value = { List Shape };

    ghost view = { λ store. store.nodes.keys };

    ghost invariant = { λ store. IsStore store.nodes.keys };
}

impl ValueStore {
    /// An empty store.
    pub fn new(alloc: Global) -> ValueStore
        ensures { result ≡ [] }
    {
        ValueStore {
            nodes: IndexSet::new(alloc),
        }
    }

    /// Gives the place of the node with this shape, which is appended first if there is none. After
    /// `Memory` the store is as before.
    pub fn add(&mut self, shape: Shape) -> Result<usize, Memory>
        requires { PartsBelow (length self.old) shape }
        ensures node { IfOk result (λ at. slice_get self.new at ≡ Some shape) }
        ensures held { Contains self.old shape → self.new ≡ self.old }
        ensures added { (Contains self.old shape → ⊥) →
            OnOk result (self.new ≡ self.old ++ shape ∷ []) }

        // What the place stands for, and that all else stands as it did.
        ensures inside { IfOk result (λ at. at < length self.new) }
        ensures value { IfOk result
            (λ at. value_at self.new at ≡ made_of (values_of self.old) shape) }
        ensures keeps { Keeps self.old self.new }
        ensures err { OnErr result (self.new ≡ self.old) }
    {
        let (at, _) = self.nodes.insert_full(shape)?;
        Ok(at)
    }

    /// How many nodes there are.
    pub fn len(&self) -> usize
        ensures { result ≡ length self.now }
    {
        self.nodes.len()
    }

    /// The node at a place.
    pub fn shape(&self, at: usize) -> Shape
        requires { at < length self.now }
        ensures node { slice_get self.now at ≡ Some result }
        ensures parts { PartsBelow at result }
    {
        self.nodes.as_slice()[at]
    }

    /// Whether two places stand for equal values.
    pub fn same(&self, a: usize, b: usize) -> bool
        requires { (a < length self.now) × (b < length self.now) }
        ensures values { IsTrue result ↔ (value_at self.now a ≡ value_at self.now b) }
        ensures places { IsTrue result ↔ (a ≡ b) }
    {
        // No two nodes are equal.
        let _ = &self.nodes;
        a == b
    }

    pub(crate) fn allocator(&self) -> Global {
        *self.nodes.allocator()
    }
}

ghost use Rattle.std.specs.Prelude.{◌≡◌, ◌<◌, [], ◌∷◌, ◌++◌, length, IfOk, OnOk, OnErr, slice_get, Some};
ghost use Rattle.two_d.specs.Trails.{trail_at, trails_of, trail_made, InnerBelow, KeepsTrails};

use crate::Trail;
use std::alloc::Global;
use std::marker::Model;
use umix_base::Memory;

/// Nodes of trails, in a list. The inner trail of a node stands earlier in it. Each place, counted from
/// 0, stands for one trail, which no later call changes.
#[derive(Drop)]
pub struct TrailStore {
    nodes: Vec<Trail>,
}

impl Model for TrailStore {
    ghost use Rattle.std.specs.Prelude.{List};
    ghost use Rattle.two_d.specs.declared.trail.Trail.{Trail};
    ghost use Rattle.two_d.specs.Trails.{IsGroundedTrails};

    ghost Value = { List Trail };

    ghost view = { λ store. store.nodes.items };

    ghost invariant = { λ store. IsGroundedTrails store.nodes.items };
}

impl TrailStore {
    /// An empty store.
    pub fn new(alloc: Global) -> TrailStore
        ensures { result ≡ [] }
    {
        TrailStore {
            nodes: Vec::new(alloc),
        }
    }

    /// Appends the node and gives its place. After `Memory` the store is as before.
    pub fn add(&mut self, node: Trail) -> Result<usize, Memory>
        requires { InnerBelow (length self.old) node }
        ensures ok { OnOk result (self.new ≡ self.old ++ node ∷ []) }
        ensures place { IfOk result (λ at. at ≡ length self.old) }

        // What the place stands for, and that all else stands as it did.
        ensures inside { IfOk result (λ at. at < length self.new) }
        ensures trail { IfOk result
            (λ at. trail_at self.new at ≡ trail_made (trails_of self.old) node) }
        ensures keeps { KeepsTrails self.old self.new }
        ensures err { OnErr result (self.new ≡ self.old) }
    {
        let at = self.nodes.len();
        self.nodes.push(node)?;
        Ok(at)
    }

    /// How many nodes there are. Takes no memory.
    pub fn len(&self) -> usize
        ensures { result ≡ length self.now }
    {
        self.nodes.len()
    }

    /// The node at a place. Takes no memory.
    pub fn node(&self, at: usize) -> Trail
        requires { at < length self.now }
        ensures node { slice_get self.now at ≡ Some result }
        ensures inner { InnerBelow at result }
    {
        self.nodes[at]
    }
}

#[cfg(test)]
mod tests;

ghost use Rattle.std.specs.Prelude.{◌≡◌, ◌+◌, ◌<◌, ◌^◌, IfSome};
ghost use Rattle.lower_emit.specs.Layouts.{side_slot, input_slot, stuck_slot, temporary};
ghost use Rattle.lower_emit.specs.inner.Codes.{layout_in, HasPlaces};

/// Where things stand in a frame: how many wires there are, and how many boxes.
#[derive(Clone, Copy, PartialEq, Eq, Debug)]
pub(crate) struct Places {
    pub(crate) wires: u32,
    pub(crate) boxes: u32,
}

impl Places {
    /// The slot of a temporary.
    pub(crate) fn temporary(&self, number: u32) -> u32
        requires places { HasPlaces self.now }
        requires number { number < 5 }
        ensures slot { result ≡ temporary (layout_in self.now) number }
        ensures small { result < 2 ^ 25 }
    {
        8 + self.wires + self.boxes + number
    }

    /// The slot of a box's stuck mark.
    pub(crate) fn stuck(&self, bx: u32) -> u32
        requires places { HasPlaces self.now }
        requires there { bx < self.now.boxes }
        ensures slot { result ≡ stuck_slot (layout_in self.now) bx }
        ensures small { result < 2 ^ 25 }
    {
        8 + self.wires + bx
    }

    /// The slot of a side: that of its wire, or a temporary.
    pub(crate) fn side(&self, wire: Option<u32>, spare: u32) -> u32
        requires places { HasPlaces self.now }
        requires wire { IfSome wire (λ k. k < self.now.wires) }
        requires spare { spare < 4 }
        ensures slot { result ≡ side_slot (layout_in self.now) wire spare }
        ensures small { result < 2 ^ 25 }
    {
        match wire {
            Some(wire) => 8 + wire,
            None => self.temporary(spare),
        }
    }

    /// The slot of an input: that of its wire, or the slot that is 0.
    pub(crate) fn input(&self, wire: Option<u32>) -> u32
        requires places { HasPlaces self.now }
        requires wire { IfSome wire (λ k. k < self.now.wires) }
        ensures slot { result ≡ input_slot wire }
        ensures small { result < 2 ^ 25 }
    {
        match wire {
            Some(wire) => 8 + wire,
            None => 7,
        }
    }
}

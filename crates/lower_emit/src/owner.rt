ghost use Rattle.std.specs.Prelude.{◌≡◌, ◌+◌, ◌<◌, ◌^◌};
ghost use Rattle.lower_emit.specs.Layouts.{input_slot, side_slot, stuck_slot};
ghost use Rattle.lower_emit.specs.Plans.{wire_to};
ghost use Rattle.lower_emit.specs.inner.Codes.{HasStep, layout_in};

use crate::places::Places;
use lower_plan::PlanStep;
use two_d::Side;

/// Whose code is made: the number of the module, where things stand in its frame, and the number of
/// its first text.
#[derive(Clone, Copy, PartialEq, Eq, Debug)]
pub(crate) struct Owner {
    pub(crate) number: usize,
    pub(crate) places: Places,
    pub(crate) texts: u32,
}

impl Owner {
    /// The slot of a box's north side.
    pub(crate) fn north(&self, step: &PlanStep) -> u32
        requires { HasStep self.now step.now }
        ensures slot { result ≡ input_slot step.now.n }
        ensures small { result < 2 ^ 25 }
    {
        self.places.input(step.n)
    }

    /// The slot of a box's west side.
    pub(crate) fn west(&self, step: &PlanStep) -> u32
        requires { HasStep self.now step.now }
        ensures slot { result ≡ input_slot step.now.w }
        ensures small { result < 2 ^ 25 }
    {
        self.places.input(step.w)
    }

    /// The slot of a side on which a value leaves a box: that of its wire, or a temporary.
    pub(crate) fn side(&self, step: &PlanStep, side: Side, spare: u32) -> u32
        requires step { HasStep self.now step.now }
        requires spare { spare < 4 }
        ensures slot { result ≡ side_slot (layout_in self.now.places)
            (wire_to step.now side) spare }
        ensures small { result < 2 ^ 25 }
    {
        match side {
            Side::S => self.places.side(step.s, spare),
            Side::E => self.places.side(step.e, spare),
        }
    }

    /// The slot of a box's stuck mark.
    pub(crate) fn mark(&self, step: &PlanStep) -> u32
        requires { HasStep self.now step.now }
        ensures slot { result ≡ stuck_slot (layout_in self.now.places) step.now.bx }
        ensures small { result < 2 ^ 25 }
    {
        self.places.stuck(step.bx as u32)
    }

    /// The number of a box's text.
    pub(crate) fn text(&self, step: &PlanStep) -> u32
        requires { HasStep self.now step.now }
        ensures number { result ≡ self.now.texts + step.now.bx }
        ensures small { result < 2 ^ 25 }
    {
        self.texts + step.bx as u32
    }
}

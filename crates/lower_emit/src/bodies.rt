ghost use Rattle.std.specs.Prelude.{◌≡◌, ◌+◌, ◌<◌, ◌≤◌, ◌^◌, IfOk, OnOk, length, map};
ghost use Rattle.two_d.specs.Programs.{find};
ghost use Rattle.two_d.specs.Trees.{form_of, outs_of, tree_of};
ghost use Rattle.two_d.specs.Weights.{all_nodes, nodes};
ghost use Rattle.lower_emit.specs.inner.Codes.{AddsOps, HasRoom, HasStep, IsOwner, body_of};
ghost use Rattle.lower_emit.specs.inner.Codes.{call_ops, first_to, layout_in, most_block_words};
ghost use Rattle.lower_emit.specs.inner.Codes.{one_to, send_of, sort_of, take_of, two_to};
ghost use Rattle.lower_emit.specs.inner.Codes.{expression_ops, value_slot};
ghost use Rattle.lower_emit.specs.Tables.{IsLight, frame_sizes};
ghost use Rattle.lower_emit.specs.Layouts.{first_node, slot_of_side};
ghost use Rattle.lower_emit.specs.Plans.{spare_of};

use crate::code::{Code, ZERO, build};
use crate::owner::Owner;
use lower_plan::PlanStep;
use two_d::{Command, Exp, Name, Program, Side};
use umix_base::Memory;

/// Adds what a box does once its inputs are there, at a place.
///
///     send x to p, ..      x, moved to p; ..
///     case x of p, q       x; its word 0 to p, its word 1 to q; stuck where it has neither
///     split x              x; its word 2 to S, its word 3 to E; stuck where it has neither
///     use m                a call of m; its value to E; stuck where it is
pub(crate) fn body(
    code: &mut Code,
    program: &Program,
    frames: &Vec<u32>,
    owner: &Owner,
    step: &PlanStep,
    command: &Command,
    place: u32,
) -> Result<(), Memory>
    requires frames { frames.now.items ≡ frame_sizes program.now }
    requires owner { IsOwner program.now owner.now }
    requires step { HasStep owner.now step.now }
    requires room { HasRoom program.now owner.now (form_of command.now) }
    requires place { place ≤ most_block_words }
    ensures { OnOk result (AddsOps code.old code.new
        (body_of program.now owner.now step.now (form_of command.now) place)) }
{
    match command {
        Command::Send(outs) => send(code, owner, step, outs),
        Command::Case(exp, left, right) => sort(code, owner, step, exp, (0, 1), (*left, *right)),
        Command::Split(exp) => sort(code, owner, step, exp, (2, 3), (Side::S, Side::E)),
        Command::Call(name) => call(code, program, frames, owner, step, name, place),
    }
}

/// Adds an expression over a box's inputs, and says in which slot its value stands.
fn value(code: &mut Code, owner: &Owner, step: &PlanStep, exp: &Exp) -> Result<u32, Memory>
    requires step { HasStep owner.now step.now }
    requires room { first_node (layout_in owner.now.places) + nodes (tree_of exp.now) < 2 ^ 25 }
    ensures small { IfOk result (λ slot. slot < 2 ^ 25) }
    ensures slot { IfOk result (λ slot. slot
        ≡ value_slot (layout_in owner.now.places) step.now (tree_of exp.now)) }
    ensures code { OnOk result (AddsOps code.old code.new
        (expression_ops (layout_in owner.now.places) step.now (tree_of exp.now))) }
{
    let free = owner.places.temporary(4);
    let built = build(code, exp, owner.north(step), owner.west(step), free)?;
    Ok(built.slot)
}

/// Adds the outs of a `send`, each an expression that is moved to its side.
fn send(
    code: &mut Code,
    owner: &Owner,
    step: &PlanStep,
    outs: &Vec<(Exp, Side)>,
) -> Result<(), Memory>
    requires step { HasStep owner.now step.now }
    requires room { first_node (layout_in owner.now.places)
        + all_nodes (map (λ out. out.0) (outs_of outs.now.items)) < 2 ^ 25 }
    ensures { OnOk result (AddsOps code.old code.new
        (send_of owner.now step.now (outs_of outs.now.items))) }
{
    for out in outs {
        let slot = value(code, owner, step, &out.0)?;
        let side = owner.side(step, out.1, spare(out.1));
        code.choose_slot(slot, slot, slot, side)?;
    }
    Ok(())
}

/// The temporary of a side that no wire leaves.
fn spare(side: Side) -> u32
    ensures is { result ≡ spare_of side }
    ensures few { result < 2 }
{
    match side {
        Side::S => 0,
        Side::E => 1,
    }
}

/// Where the parts of a value go, and the first of them that is there.
#[derive(Clone, Copy, PartialEq, Eq, Debug)]
struct Targets {
    one: u32,
    two: u32,
    first: u32,
}

/// The slots for parts that go to these sides. Two parts for one side stand in temporaries first.
fn targets_of(owner: &Owner, step: &PlanStep, left: Side, right: Side) -> Targets
    requires { HasStep owner.now step.now }
    ensures one { result.one ≡ slot_of_side (layout_in owner.now.places)
        (one_to step.now left right) }
    ensures two { result.two ≡ slot_of_side (layout_in owner.now.places)
        (two_to step.now left right) }
    ensures first { result.first ≡ slot_of_side (layout_in owner.now.places)
        (first_to step.now left right) }
    ensures one_small { result.one < 2 ^ 25 }
    ensures two_small { result.two < 2 ^ 25 }
    ensures first_small { result.first < 2 ^ 25 }
{
    match (left, right) {
        (Side::S, Side::S) | (Side::E, Side::E) => Targets {
            one: owner.places.temporary(0),
            two: owner.places.temporary(1),
            first: owner.side(step, left, 2),
        },
        (Side::S, Side::E) | (Side::E, Side::S) => Targets {
            one: owner.side(step, left, spare(left)),
            two: owner.side(step, right, spare(right)),
            first: owner.places.temporary(2),
        },
    }
}

/// Adds an expression, and sends two words of its value to two sides; where it has neither, the box
/// is stuck.
fn sort(
    code: &mut Code,
    owner: &Owner,
    step: &PlanStep,
    exp: &Exp,
    words: (u32, u32),
    sides: (Side, Side),
) -> Result<(), Memory>
    requires step { HasStep owner.now step.now }
    requires room { first_node (layout_in owner.now.places) + nodes (tree_of exp.now) < 2 ^ 25 }
    requires first { words.0 < 4 }
    requires second { words.1 < 4 }
    ensures { OnOk result (AddsOps code.old code.new
        (sort_of owner.now step.now (tree_of exp.now) words.0 words.1 sides.0 sides.1)) }
{
    let slot = value(code, owner, step, exp)?;
    let to = targets_of(owner, step, sides.0, sides.1);
    let trail = owner.places.temporary(3);
    code.read_part(slot, words.0, to.one)?;
    code.read_part(slot, words.1, to.two)?;
    code.choose_slot(to.one, to.one, to.two, to.first)?;
    code.trail(owner.text(step), ZERO, trail)?;
    code.choose_slot(to.first, ZERO, trail, owner.mark(step))
}

/// Adds a call of the module of this name, with the inputs of the box, and what takes its outcome.
fn call(
    code: &mut Code,
    program: &Program,
    frames: &Vec<u32>,
    owner: &Owner,
    step: &PlanStep,
    name: &Name,
    place: u32,
) -> Result<(), Memory>
    requires frames { frames.now.items ≡ frame_sizes program.now }
    requires owner { IsOwner program.now owner.now }
    requires step { HasStep owner.now step.now }
    requires callee { find program.now name.now < length program.now }
    requires place { place ≤ most_block_words }
    ensures { OnOk result (AddsOps code.old code.new
        (call_ops program.now owner.now step.now name.now place)) }
{
    let callee = callee_of(program, name);
    let size = frames[callee];
    let inputs = (owner.north(step), owner.west(step));
    code.call_block(inputs, callee as u32, size, owner.number as u32, place + 21)?;
    take(code, owner, step)
}

/// The number of the module of this name.
fn callee_of(program: &Program, name: &Name) -> usize
    requires there { find program.now name.now < length program.now }
    requires light { IsLight program.now }
    ensures number { result ≡ find program.now name.now }
    ensures small { result < 262144 }
{
    program.find(name).unwrap_or(program.modules().len())
}

/// Adds what takes the outcome of a call: its value goes to the east, and its trail, with this
/// caller, to the mark.
fn take(code: &mut Code, owner: &Owner, step: &PlanStep) -> Result<(), Memory>
    requires { HasStep owner.now step.now }
    ensures { OnOk result (AddsOps code.old code.new (take_of owner.now step.now)) }
{
    let inner = owner.places.temporary(2);
    let trail = owner.places.temporary(3);
    code.take_outcome(owner.side(step, Side::E, spare(Side::E)), inner)?;
    code.trail(owner.text(step), inner, trail)?;
    code.choose_slot(inner, trail, ZERO, owner.mark(step))
}

ghost use Rattle.std.specs.Prelude.{◌≡◌, ◌-◌, ◌^◌, min};
ghost use Rattle.two_d.specs.Weights.{weight};

use lower_emit::part_of;
use two_d::Program;

/// The weight of a program, or 2^64 - 1 if that is less. Takes no memory. See "What is promised" in
/// docs/COMPILED.md.
pub fn weight(program: &Program) -> u64
    ensures { result ≡ min (weight program.now) (2 ^ 64 - 1) }
{
    let mut total: u64 = 0;
    for owner in program.modules() {
        total = total.saturating_add(part_of(owner));
    }
    total
}

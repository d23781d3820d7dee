//! Bytes of an input that are taken and left aside.

ghost use Rattle.std.specs.Prelude.{◌≡◌, IfErr, IsErr, OnOk, drop, option_map};
ghost use Rattle.um_machine.specs.Outside.{IsAsked};

use crate::line::Line;
use umix_base::{Failed, Source};

/// Takes so many bytes of an input, or all where there are fewer, or tells that they couldn't be taken.
/// Takes no memory.
pub fn skip<I: Source>(input: &mut I, count: u64) -> Result<(), Line>
    ensures line { IfErr result (λ line. line ≡ Line.ReadFault) }
    ensures rest { OnOk result (I.rest input.new ≡ option_map (drop count) (I.rest input.old)) }
    ensures asked { IsAsked I.Source input.old input.new (IsErr result) }
{
    for _ in 0..count {
        match input.next() {
            Ok(Some(_)) => {}
            Ok(None) => return Ok(()),
            Err(Failed) => return Err(Line::ReadFault),
        }
    }
    Ok(())
}

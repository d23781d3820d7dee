//! Texts that are written piece by piece.

ghost use Rattle.std.specs.Prelude.{◌≡◌, ◌+◌};
ghost use Rattle.std.specs.List.{flat_map};
ghost use Rattle.umix_base.specs.Causes.{HasCause, KeepsTelling};
ghost use Rattle.codex_values.specs.Writing.{Writes};

use umix_base::{Failed, Sink};

/// Writes the pieces, in order. After a fault a prefix of them was written.
pub fn put_all<S: Sink>(sink: &mut S, pieces: &[&[u8]]) -> Result<(), Failed>
    ensures written { Writes (flat_map (λ piece. piece.now) pieces.now)
        (S.written sink.old) (S.written sink.new) result }
    ensures tells { KeepsTelling (S.written sink.old) (S.written sink.new) }
    ensures cause { HasCause (S.faults sink.old) (S.faults sink.new) result }
{
    for piece in pieces {
        match sink.put(piece) {
            Ok(()) => {}
            Err(Failed) => return Err(Failed),
        }
    }
    Ok(())
}

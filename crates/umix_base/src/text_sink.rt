ghost use Rattle.std.specs.Prelude.{◌≡◌, ◌+◌, ◌<◌, ◌≤◌, ◌++◌, [], IfOk, Some, is_err, length, vec_capacity};
ghost use Rattle.umix_base.specs.Causes.{HasCause};
ghost use Rattle.umix_base.specs.Streams.{Appends};
ghost use Rattle.umix_base.specs.TextInMemory.{TextInMemory, most_text, overflows, after_text};

use crate::{Failed, Memory, Sink};
use std::alloc::Global;
use std::marker::Model;

/// The most bytes of a text.
const MOST_TEXT: usize = 280;

/// A sink in memory for a text of at most 280 bytes. A call whose piece doesn't fit appends what fits,
/// and fails. See "The outside" in docs/ARCHITECTURE.md.
#[derive(Drop)]
pub struct TextSink {
    bytes: Vec<u8>,
    faults: u64,
}

impl Model for TextSink {
    ghost use Rattle.std.specs.Prelude.{◌≡◌, ◌<◌, ◌≤◌, length, vec_capacity};
    ghost use Rattle.umix_base.specs.TextInMemory.{TextInMemory, most_text};

    ghost Value = { TextInMemory };

    ghost view = { λ s. record { bytes = s.bytes.items; faults = s.faults } };

    ghost invariant = { λ s. (length s.bytes.items ≤ most_text) × (most_text ≤ vec_capacity s.bytes)
        × (length s.bytes.items < most_text → s.faults ≡ 0) };
}

impl TextSink {
    /// An empty sink. All the memory that it needs is taken here: `put` takes none.
    pub fn new(alloc: Global) -> Result<TextSink, Memory>
        ensures { IfOk result (λ sink. sink ≡ record { bytes = []; faults = 0 }) }
    {
        Ok(TextSink {
            bytes: Vec::with_capacity(alloc, MOST_TEXT)?,
            faults: 0,
        })
    }

    /// The bytes written. Where they are fewer than 280, no call has failed. Takes no memory.
    pub fn bytes(&self) -> &[u8]
        ensures bytes { result.now ≡ self.now.bytes }
        ensures whole { length self.now.bytes < most_text → self.now.faults ≡ 0 }
    {
        &self.bytes
    }
}

impl Sink for TextSink {
    ghost written = { λ sink. Some sink.bytes };

    ghost faults = { λ sink. sink.faults };

    fn put(&mut self, piece: &[u8]) -> Result<(), Failed>
        ensures appended { Appends piece.now (Some self.old.bytes) (Some self.new.bytes) result }
        ensures cause { HasCause self.old.faults self.new.faults result }
        ensures fails { is_err result ≡ overflows self.old piece.now }
        ensures after { self.new ≡ after_text self.old piece.now }
    {
        let room = MOST_TEXT - self.bytes.len();
        if piece.len() <= room {
            append(&mut self.bytes, piece);
            return Ok(());
        }
        append(&mut self.bytes, &piece[..room]);
        self.faults = self.faults.saturating_add(1);
        Err(Failed)
    }
}

// appends bytes for which room was taken
fn append(bytes: &mut Vec<u8>, piece: &[u8])
    requires { length bytes.old.items + length piece.now ≤ vec_capacity bytes.old }
    ensures items { bytes.new.items ≡ bytes.old.items ++ piece.now }
    ensures room { vec_capacity bytes.old ≤ vec_capacity bytes.new }
{
    let _ = bytes.extend_from_slice(piece);
}

#[cfg(test)]
mod tests {
    use super::TextSink;
    use crate::{Failed, Sink};
    use std::test::Fail;

    #[test]
    fn takes_what_fits(rt: HostRuntime) -> Result<(), Fail> {
        let mut sink = TextSink::new(rt.alloc())?;
        assert_eq!(rt;
            [sink.put(&[b'a'; 279]), sink.put(b"bc")],
            [Ok(()), Err(Failed)]
        );
        assert_eq!(rt; sink.bytes().len(), 280);
        assert_eq!(rt; sink.bytes().last().copied(), Some(b'b'));
        Ok(())
    }
}

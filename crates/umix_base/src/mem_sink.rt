ghost use Rattle.std.specs.Prelude.{◌≡◌, [], IfOk, Some, is_err};
ghost use Rattle.umix_base.specs.Causes.{HasCause};
ghost use Rattle.umix_base.specs.Streams.{Appends};
ghost use Rattle.umix_base.specs.SinkInMemory.{SinkInMemory, fails_put, after_put};

use crate::{Failed, Memory, Sink};
use std::alloc::Global;
use std::marker::Model;

/// A sink of a fixed size in memory. The calls with the given numbers fail, and those whose piece
/// doesn't fit; such a call appends nothing. Its calls are numbered from 0, and 2^64 - 1 stays.
/// See "The outside" in docs/ARCHITECTURE.md.
#[derive(Drop)]
pub struct MemSink {
    bytes: Vec<u8>,
    room: usize,
    fails: Vec<u64>,
    calls: u64,
    faults: u64,
}

impl Model for MemSink {
    ghost use Rattle.std.specs.Prelude.{◌≤◌, length, vec_capacity};
    ghost use Rattle.umix_base.specs.SinkInMemory.{SinkInMemory};

    ghost Value = { SinkInMemory };

    ghost view = { λ s. record {
      bytes = s.bytes.items;
      room = s.room;
      fails = s.fails.items;
      calls = s.calls;
      faults = s.faults;
    } };

    ghost invariant = { λ s. (length s.bytes.items ≤ s.room) × (s.room ≤ vec_capacity s.bytes) };
}

impl MemSink {
    /// An empty sink for `room` bytes, of which the calls with these numbers fail. All the memory that
    /// it needs is taken here: `put` takes none.
    pub fn new(alloc: Global, room: usize, fails: Vec<u64>) -> Result<MemSink, Memory>
        ensures { IfOk result (λ sink. sink ≡ record {
          bytes = [];
          room = room;
          fails = fails.items;
          calls = 0;
          faults = 0;
        }) }
    {
        Ok(MemSink {
            bytes: Vec::with_capacity(alloc, room)?,
            room,
            fails,
            calls: 0,
            faults: 0,
        })
    }

    /// The bytes written. It is no call with a number.
    pub fn bytes(&self) -> &[u8]
        ensures bytes { result.now ≡ self.now.bytes }
    {
        &self.bytes
    }
}

impl Sink for MemSink {
    ghost written = { λ sink. Some sink.bytes };

    ghost faults = { λ sink. sink.faults };

    fn put(&mut self, piece: &[u8]) -> Result<(), Failed>
        ensures appended { Appends piece.now (Some self.old.bytes) (Some self.new.bytes) result }
        ensures cause { HasCause self.old.faults self.new.faults result }
        ensures fails { is_err result ≡ fails_put self.old piece.now }
        ensures after { self.new ≡ after_put self.old piece.now }
    {
        let fails = self.fails.contains(&self.calls) || piece.len() > self.room - self.bytes.len();
        self.calls = self.calls.saturating_add(1);
        if fails || self.bytes.extend_from_slice(piece).is_err() {
            self.faults = self.faults.saturating_add(1);
            return Err(Failed);
        }
        Ok(())
    }
}

#[cfg(test)]
mod tests {
    use super::MemSink;
    use crate::{Failed, Sink};
    use std::test::Fail;

    #[test]
    fn fails_where_a_piece_does_not_fit(rt: HostRuntime) -> Result<(), Fail> {
        let alloc = rt.alloc();
        let mut sink = MemSink::new(alloc, 2, Vec::new(alloc))?;
        let puts = [
            sink.put(b"a"),
            sink.put(b"bc"),
            sink.put(b"b"),
            sink.put(b""),
        ];
        assert_eq!(rt; puts, [Ok(()), Err(Failed), Ok(()), Ok(())]);
        assert_eq!(rt; sink.bytes(), &b"ab"[..]);
        let mut sink = MemSink::new(alloc, 2, vec![in alloc; 0]?)?;
        assert_eq!(rt; [sink.put(b"a"), sink.put(b"b")], [Err(Failed), Ok(())]);
        assert_eq!(rt; sink.bytes(), &b"b"[..]);
        Ok(())
    }
}

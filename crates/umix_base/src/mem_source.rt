ghost use Rattle.std.specs.Prelude.{◌≡◌, [], Some, is_err};
ghost use Rattle.umix_base.specs.Causes.{HasCause};
ghost use Rattle.umix_base.specs.Streams.{Takes};
ghost use Rattle.umix_base.specs.SourceInMemory.{SourceInMemory, fails_next, after_next};

use crate::{Failed, Source};
use std::marker::Model;

/// A source over bytes in memory. The calls with the given numbers fail, and take no byte; its calls
/// are numbered from 0, and 2^64 - 1 stays. See "The outside" in docs/ARCHITECTURE.md.
#[derive(Drop)]
pub struct MemSource {
    bytes: Vec<u8>,
    taken: usize,
    fails: Vec<u64>,
    calls: u64,
    faults: u64,
}

impl Model for MemSource {
    ghost use Rattle.std.specs.Prelude.{◌≤◌, drop, length};
    ghost use Rattle.umix_base.specs.SourceInMemory.{SourceInMemory};

    ghost Value = { SourceInMemory };

    ghost view = { λ s. record {
      rest = drop s.taken s.bytes.items;
      fails = s.fails.items;
      calls = s.calls;
      faults = s.faults;
    } };

    ghost invariant = { λ s. s.taken ≤ length s.bytes.items };
}

impl MemSource {
    /// A source of these bytes, of which the calls with these numbers fail.
    pub fn new(bytes: Vec<u8>, fails: Vec<u64>) -> MemSource
        ensures state { result ≡ record { rest = bytes.items; fails = fails.items; calls = 0; faults = 0 } }
    {
        MemSource {
            bytes,
            taken: 0,
            fails,
            calls: 0,
            faults: 0,
        }
    }

    /// The bytes still to come. It is no call with a number.
    pub fn rest(&self) -> &[u8]
        ensures rest { result.now ≡ self.now.rest }
    {
        &self.bytes[self.taken..]
    }
}

impl Source for MemSource {
    ghost rest = { λ source. Some source.rest };

    ghost faults = { λ source. source.faults };

    fn next(&mut self) -> Result<Option<u8>, Failed>
        ensures taken { Takes (Some self.old.rest) (Some self.new.rest) result }
        ensures cause { HasCause self.old.faults self.new.faults result }
        ensures fails { is_err result ≡ fails_next self.old }
        ensures after { self.new ≡ after_next self.old }
    {
        let fails = self.fails.contains(&self.calls);
        self.calls = self.calls.saturating_add(1);
        if fails {
            self.faults = self.faults.saturating_add(1);
            return Err(Failed);
        }
        match self.bytes.get(self.taken).copied() {
            Some(byte) => {
                self.taken += 1;
                Ok(Some(byte))
            }
            None => Ok(None),
        }
    }
}

#[cfg(test)]
mod tests {
    use super::MemSource;
    use crate::{Failed, Source};
    use std::test::Fail;

    #[test]
    fn fails_at_its_numbers(rt: HostRuntime) -> Result<(), Fail> {
        let alloc = rt.alloc();
        let mut source = MemSource::new(vec![in alloc; b'x', b'y']?, vec![in alloc; 1, 3]?);
        assert_eq!(rt;
            [source.next(), source.next()],
            [Ok(Some(b'x')), Err(Failed)]
        );
        assert_eq!(rt; source.rest(), &b"y"[..]);
        let others = [source.next(), source.next(), source.next()];
        assert_eq!(rt; others, [Ok(Some(b'y')), Err(Failed), Ok(None)]);
        Ok(())
    }
}

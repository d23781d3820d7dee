ghost use Rattle.std.specs.Prelude.{◌≡◌, IsOk, Some};
ghost use Rattle.umix_base.specs.Causes.{HasCause};
ghost use Rattle.umix_base.specs.Streams.{Takes};

use crate::{Failed, Source};
use std::marker::Model;

/// A source over bytes in memory that never fails. See "The outside" in docs/ARCHITECTURE.md.
#[derive(Drop)]
pub struct SureSource {
    bytes: Vec<u8>,
    taken: usize,
}

impl Model for SureSource {
    ghost use Rattle.std.specs.Prelude.{ℕ, List, ◌≤◌, drop, length};

    ghost Value = { List ℕ };

    ghost view = { λ s. drop s.taken s.bytes.items };

    ghost invariant = { λ s. s.taken ≤ length s.bytes.items };
}

impl SureSource {
    /// A source of these bytes.
    pub fn new(bytes: Vec<u8>) -> SureSource
        ensures rest { result ≡ bytes.items }
    {
        SureSource { bytes, taken: 0 }
    }
}

impl Source for SureSource {
    ghost rest = { λ source. Some source };

    ghost faults = { λ source. 0 };

    fn next(&mut self) -> Result<Option<u8>, Failed>
        ensures taken { Takes (Some self.old) (Some self.new) result }
        ensures cause { HasCause 0 0 result }
        ensures sure { IsOk result }
    {
        match self.bytes.get(self.taken).copied() {
            Some(byte) => {
                self.taken += 1;
                Ok(Some(byte))
            }
            None => Ok(None),
        }
    }
}

#[cfg(test)]
mod tests {
    use super::SureSource;
    use crate::Source;
    use std::test::Fail;

    #[test]
    fn gives_its_bytes(rt: HostRuntime) -> Result<(), Fail> {
        let mut source = SureSource::new(vec![in rt.alloc(); b'x']?);
        assert_eq!(rt; [source.next(), source.next()], [Ok(Some(b'x')), Ok(None)]);
        Ok(())
    }
}

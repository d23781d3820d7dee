ghost use Rattle.std.specs.Prelude.{◌≤◌, length, None};

use crate::{Failed, Source};
use std::io::Read;

const AHEAD: usize = 4096;

/// A source over a reader of the system, read ahead by at most 4096 bytes and without memory of its
/// own. It tells nothing; each failure of the reader is counted. After its end it asks the reader again.
/// See "The outside" in docs/ARCHITECTURE.md.
#[derive(Drop)]
pub struct RealIn<R: Read + Drop> {
    reader: R,
    faults: u64,
    ahead: [u8; AHEAD],
    next: usize,
    end: usize,
    ghost in_order: { next ≤ end },
    ghost in_range: { end ≤ length ahead },
}

impl<R: Read + Drop> RealIn<R> {
    /// A source over this reader.
    pub fn new(reader: R) -> Self {
        RealIn {
            reader,
            faults: 0,
            ahead: [0; AHEAD],
            next: 0,
            end: 0,
        }
    }
}

impl<R: Read + Drop> Source for RealIn<R> {
    ghost rest = { λ _. None };

    ghost faults = { λ source. source.faults };

    fn next(&mut self) -> Result<Option<u8>, Failed> {
        if self.next == self.end {
            let Ok(count) = self.reader.read(&mut self.ahead) else {
                self.faults = self.faults.saturating_add(1);
                return Err(Failed);
            };
            self.next = 0;
            self.end = count;
        }
        if self.next == self.end {
            return Ok(None);
        }
        let byte = self.ahead[self.next];
        self.next += 1;
        Ok(Some(byte))
    }
}

#[cfg(test)]
mod tests {
    use super::RealIn;
    use crate::{Failed, Source};
    use std::io;
    use std::io::{ErrorKind, Read};

    // Gives one byte, then fails once, then is at its end.
    #[derive(Drop)]
    struct FailsSecond {
        reads: u8,
    }

    impl Read for FailsSecond {
        fn read(&mut self, buf: &mut [u8]) -> io::Result<usize> {
            self.reads = self.reads.saturating_add(1);
            if self.reads == 2 {
                return Err(ErrorKind::Other.into());
            }
            if self.reads > 2 || buf.is_empty() {
                return Ok(0);
            }
            buf[0] = b'x';
            Ok(1)
        }
    }

    #[test]
    fn gives_what_the_reader_gives(rt: HostRuntime) {
        let mut source = RealIn::new(&b"ab"[..]);
        let whole = [source.next(), source.next(), source.next(), source.next()];
        assert_eq!(rt; whole, [Ok(Some(b'a')), Ok(Some(b'b')), Ok(None), Ok(None)]);
        let mut source = RealIn::new(FailsSecond { reads: 0 });
        let broken = [source.next(), source.next(), source.next()];
        assert_eq!(rt; broken, [Ok(Some(b'x')), Err(Failed), Ok(None)]);
        assert_eq!(rt; source.faults, 1);
    }
}

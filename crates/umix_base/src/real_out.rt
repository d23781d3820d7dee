ghost use Rattle.std.specs.Prelude.{None};

use crate::{Failed, Sink};
use std::io::Write;

/// A sink over a writer of the system, flushed after each piece. It tells nothing; each failure of the
/// writer is counted, and so is one that takes nothing of a piece that isn't empty.
/// See "The outside" in docs/ARCHITECTURE.md.
#[derive(Drop)]
pub struct RealOut<W: Write + Drop> {
    writer: W,
    faults: u64,
}

impl<W: Write + Drop> RealOut<W> {
    /// A sink over this writer.
    pub fn new(writer: W) -> Self {
        RealOut { writer, faults: 0 }
    }
}

impl<W: Write + Drop> Sink for RealOut<W> {
    ghost written = { λ _. None };

    ghost faults = { λ sink. sink.faults };

    fn put(&mut self, piece: &[u8]) -> Result<(), Failed> {
        if self.writer.write_all(piece).is_ok() && self.writer.flush().is_ok() {
            return Ok(());
        }
        self.faults = self.faults.saturating_add(1);
        Err(Failed)
    }
}

#[cfg(test)]
mod tests {
    use super::RealOut;
    use crate::{Failed, Sink};
    use std::io;
    use std::io::{ErrorKind, Write};

    // Takes every byte and fails at each flush.
    #[derive(Drop)]
    struct FailsToFlush;

    impl Write for FailsToFlush {
        fn write(&mut self, buf: &[u8]) -> io::Result<usize> {
            Ok(buf.len())
        }

        fn flush(&mut self) -> io::Result<()> {
            Err(ErrorKind::Other.into())
        }
    }

    #[test]
    fn fails_where_the_writer_takes_nothing(rt: HostRuntime) {
        let mut held = [0u8; 4];
        let mut out = RealOut::new(&mut held[..]);
        let puts = [out.put(b"ab"), out.put(b"cde"), out.put(b"")];
        assert_eq!(rt; puts, [Ok(()), Err(Failed), Ok(())]);
        assert_eq!(rt; out.faults, 1);
        assert_eq!(rt; held, *b"abcd");
        let mut out = RealOut::new(FailsToFlush);
        assert_eq!(rt; out.put(b"a"), Err(Failed));
    }
}

ghost use Rattle.std.specs.Prelude.{◌≤◌, None, length, IfOk};

use crate::{Shelf, ShelfFault};
use std::alloc::Global;
use std::fs::File;
use std::io;
use std::io::{ErrorKind, Read, Write};
use std::rt::Files;

/// A shelf over the files of a folder. It tells nothing; each failure of the system is counted, and so
/// is a file that isn't there. Only a read wants memory, which is `Memory` and no fault.
/// See "The outside" in docs/ARCHITECTURE.md.
#[derive(Drop)]
pub struct RealShelf<'a, R: Files> {
    files: &'a R,
    read_faults: u64,
    write_faults: u64,
}

impl<'a, R: Files> RealShelf<'a, R> {
    /// A shelf over these files.
    pub fn new(files: &'a R) -> Self {
        RealShelf {
            files,
            read_faults: 0,
            write_faults: 0,
        }
    }
}

fn read_file<R: Files>(files: &R, alloc: Global, name: &str, max: usize) -> io::Result<Vec<u8>>
    ensures { IfOk result (λ bytes. length bytes.items ≤ max) }
{
    let mut bytes = Vec::new(alloc);
    File::open(files, name)?
        .take(max as u64)
        .read_to_end(&mut bytes)?;
    bytes.truncate(max);
    Ok(bytes)
}

// want of memory is no fault of the system
fn shelf_fault(error: &io::Error) -> ShelfFault {
    if error.kind() == ErrorKind::OutOfMemory {
        ShelfFault::Memory
    } else {
        ShelfFault::Failed
    }
}

fn write_file<R: Files>(files: &R, name: &str, bytes: &[u8]) -> io::Result<()> {
    let mut file = File::create(files, name)?;
    file.write_all(bytes)?;
    file.flush()
}

impl<'a, R: Files> Shelf for RealShelf<'a, R> {
    ghost files = { λ _. None };

    ghost read_faults = { λ shelf. shelf.read_faults };

    ghost write_faults = { λ shelf. shelf.write_faults };

    fn read(&mut self, alloc: Global, name: &str, max: usize) -> Result<Vec<u8>, ShelfFault> {
        let error = match read_file(self.files, alloc, name, max) {
            Ok(bytes) => return Ok(bytes),
            Err(error) => error,
        };
        let fault = shelf_fault(&error);
        if fault == ShelfFault::Failed {
            self.read_faults = self.read_faults.saturating_add(1);
        }
        Err(fault)
    }

    fn write(&mut self, _alloc: Global, name: &str, bytes: &[u8]) -> Result<(), ShelfFault> {
        if write_file(self.files, name, bytes).is_ok() {
            return Ok(());
        }
        self.write_faults = self.write_faults.saturating_add(1);
        Err(ShelfFault::Failed)
    }
}

#[cfg(test)]
mod tests {
    use super::{RealShelf, shelf_fault};
    use crate::{Shelf, ShelfFault};
    use std::io::ErrorKind;

    #[test]
    fn keeps_files(rt: HostRuntime) {
        let alloc = rt.alloc();
        let mut shelf = RealShelf::new(&rt);
        assert_eq!(rt; shelf.write(alloc, "x", b"abcdef"), Ok(()));
        let Ok(bytes) = shelf.read(alloc, "x", 4) else {
            panic!(rt; "the file isn't read");
        };
        assert_eq!(rt; bytes.as_slice(), &b"abcd"[..]);
        let missing = shelf.read(alloc, "none", 4);
        assert!(rt; matches!(missing, Err(ShelfFault::Failed)));
        assert_eq!(rt; shelf.write(alloc, "none/x", b"a"), Err(ShelfFault::Failed));
        assert_eq!(rt; (shelf.read_faults, shelf.write_faults), (1, 1));
    }

    #[test]
    fn tells_want_of_memory(rt: HostRuntime) {
        let wants = shelf_fault(&ErrorKind::OutOfMemory.into());
        assert_eq!(rt; wants, ShelfFault::Memory);
        let missing = shelf_fault(&ErrorKind::NotFound.into());
        assert_eq!(rt; missing, ShelfFault::Failed);
    }
}

ghost use Rattle.std.specs.Prelude.{◌≡◌, ◌==◌, [], find, Some, OnOk, OnErr, IsErrOf};
ghost use Rattle.std.specs.Option.{option_copied};
ghost use Rattle.std.specs.FinMap as map;
ghost use Rattle.umix_base.specs.Causes.{HasCauseIf};
ghost use Rattle.umix_base.specs.Files.{ReadsFile, WritesFile, HasReadCause};
ghost use Rattle.umix_base.specs.ShelfInMemory.{ShelfInMemory, AnswersRead, after_read, AnswersWrite};

use crate::{Memory, Shelf, ShelfFault};
use std::alloc::Global;
use std::collections::BTreeMap;
use std::marker::Model;

/// A call of a shelf in memory that fails. See "The outside" in docs/ARCHITECTURE.md.
#[derive(Clone, Copy, PartialEq, Eq, Debug)]
pub struct ShelfFail {
    /// The call's number, from 0.
    pub call: u64,
    /// How many of the new bytes a failed write keeps; with `None` the old file stays.
    pub kept: Option<usize>,
}

/// A shelf of files in memory. The calls that `fails` names fail, by the first entry with the call's
/// number; reads and writes are numbered together from 0, and 2^64 - 1 stays.
/// See "The outside" in docs/ARCHITECTURE.md.
#[derive(Drop)]
pub struct MemShelf {
    alloc: Global,
    files: BTreeMap<String, Vec<u8>>,
    fails: Vec<ShelfFail>,
    calls: u64,
    read_faults: u64,
    write_faults: u64,
}

impl Model for MemShelf {
    ghost use Rattle.umix_base.specs.ShelfInMemory.{ShelfInMemory};
    ghost use Rattle.umix_base.specs.ShelfView.{shelf_code, files_of};

    ghost Value = { ShelfInMemory };

    ghost coded = { shelf_code };

    ghost view = { λ s. record {
      held = files_of s.files.entries;
      fails = s.fails.items;
      calls = s.calls;
      read_faults = s.read_faults;
      write_faults = s.write_faults;
    } };
}

impl MemShelf {
    /// A shelf without files, of which these calls fail.
    pub fn new(alloc: Global, fails: Vec<ShelfFail>) -> MemShelf
        ensures { result ≡ record {
          held = map.empty;
          fails = fails.items;
          calls = 0;
          read_faults = 0;
          write_faults = 0;
        } }
    {
        MemShelf {
            alloc,
            files: BTreeMap::new(alloc),
            fails,
            calls: 0,
            read_faults: 0,
            write_faults: 0,
        }
    }

    /// The file's contents, or `None` where there is no such file. It is no call with a number.
    pub fn file(&self, name: &str) -> Option<&[u8]>
        ensures contents { option_copied result ≡ map.get self.now.held name.now }
    {
        match self.files.get(name) {
            Some(bytes) => Some(bytes.as_slice()),
            None => None,
        }
    }

    /// Makes the file's contents the bytes; where memory is wanted, all files are as before. It is no
    /// call with a number.
    pub fn place(&mut self, name: &str, bytes: Vec<u8>) -> Result<(), Memory>
        ensures ok { OnOk result (self.new ≡ record self.old { held = map.insert self.old.held name.now bytes.items }) }
        ensures err { OnErr result (self.new ≡ self.old) }
    {
        let name = String::from_str(self.alloc, name)?;
        self.files.insert(name, bytes)?;
        Ok(())
    }

    // Makes the file's contents a copy of the bytes.
    fn store(&mut self, alloc: Global, name: &str, bytes: &[u8]) -> Result<(), Memory>
        ensures ok { OnOk result (self.new ≡ record self.old { held = map.insert self.old.held name.now bytes.now }) }
        ensures err { OnErr result (self.new ≡ self.old) }
    {
        let bytes = Vec::from_slice(alloc, bytes)?;
        self.place(name, bytes)
    }
}

// How the call with this number fails.
fn failure_of(fails: &[ShelfFail], call: u64) -> Option<ShelfFail>
    ensures { result ≡ find (λ fail. fail.call == call) fails.now }
{
    fails.iter().copied().find(|fail| fail.call == call)
}

impl Shelf for MemShelf {
    ghost files = { λ shelf. Some shelf.held };

    ghost read_faults = { λ shelf. shelf.read_faults };

    ghost write_faults = { λ shelf. shelf.write_faults };

    fn read(&mut self, alloc: Global, name: &str, max: usize) -> Result<Vec<u8>, ShelfFault>
        ensures bytes { ReadsFile (Some self.old.held) name.now max result }
        ensures cause { HasReadCause (Some self.old.held) name.now self.old.read_faults self.new.read_faults result }
        ensures answer { AnswersRead self.old name.now max result }
        ensures after { self.new ≡ after_read self.old }
    {
        let failure = failure_of(&self.fails, self.calls);
        self.calls = self.calls.saturating_add(1);
        if failure.is_some() {
            self.read_faults = self.read_faults.saturating_add(1);
            return Err(ShelfFault::Failed);
        }
        match self.file(name) {
            Some(bytes) => match Vec::from_slice(alloc, &bytes[..bytes.len().min(max)]) {
                Ok(bytes) => Ok(bytes),
                Err(_) => Err(ShelfFault::Memory),
            },
            None => Err(ShelfFault::Failed),
        }
    }

    fn write(&mut self, alloc: Global, name: &str, bytes: &[u8]) -> Result<(), ShelfFault>
        ensures file { WritesFile name.now bytes.now (Some self.old.held) (Some self.new.held) result }
        ensures cause { HasCauseIf (IsErrOf result ShelfFault.Failed) self.old.write_faults self.new.write_faults }
        ensures answer { AnswersWrite name.now bytes.now self.old self.new result }
    {
        let failure = failure_of(&self.fails, self.calls);
        self.calls = self.calls.saturating_add(1);
        match failure {
            None => match self.store(alloc, name, bytes) {
                Ok(()) => Ok(()),
                Err(Memory) => Err(ShelfFault::Memory),
            },
            Some(ShelfFail { kept: None, .. }) => {
                self.write_faults = self.write_faults.saturating_add(1);
                Err(ShelfFault::Failed)
            }
            Some(
                ShelfFail {
                    kept: Some(kept),
                    ..
                },
            ) => {
                if self
                    .store(alloc, name, &bytes[..kept.min(bytes.len())])
                    .is_err()
                {
                    return Err(ShelfFault::Memory);
                }
                self.write_faults = self.write_faults.saturating_add(1);
                Err(ShelfFault::Failed)
            }
        }
    }
}

#[cfg(test)]
mod tests {
    use super::{MemShelf, ShelfFail};
    use crate::{Shelf, ShelfFault};
    use std::test::Fail;

    #[test]
    fn keeps_files(rt: HostRuntime) -> Result<(), Fail> {
        let alloc = rt.alloc();
        let mut shelf = MemShelf::new(alloc, Vec::new(alloc));
        assert!(rt; matches!(shelf.read(alloc, "x", 4), Err(ShelfFault::Failed)));
        assert_eq!(rt; shelf.write(alloc, "x", b"abcdef"), Ok(()));
        let Ok(bytes) = shelf.read(alloc, "x", 4) else {
            panic!(rt; "the file isn't read");
        };
        assert_eq!(rt; bytes.as_slice(), &b"abcd"[..]);
        shelf.place("y", vec![in alloc; 1, 2]?)?;
        assert_eq!(rt; shelf.file("y"), Some(&[1, 2][..]));
        assert_eq!(rt; shelf.file("z"), None);
        Ok(())
    }

    #[test]
    fn keeps_what_its_failures_say(rt: HostRuntime) -> Result<(), Fail> {
        let alloc = rt.alloc();
        let fails = vec![in alloc;
            ShelfFail {
                call: 0,
                kept: None
            },
            ShelfFail {
                call: 0,
                kept: Some(1)
            },
            ShelfFail {
                call: 1,
                kept: Some(2)
            },
            ShelfFail {
                call: 2,
                kept: Some(9)
            },
        ]?;
        let mut shelf = MemShelf::new(alloc, fails);
        for kept in [None, Some(&b"ab"[..]), Some(&b"abc"[..]), Some(&b"abc"[..])] {
            let _ = shelf.write(alloc, "x", b"abc");
            assert_eq!(rt; shelf.file("x"), kept);
        }
        assert_eq!(rt; (shelf.calls, shelf.write_faults), (4, 3));
        Ok(())
    }
}

ghost use Rattle.std.specs.Prelude.{◌≡◌, IfOk, MatchOption};
ghost use Rattle.two_d.specs.Names.{IsName};

use std::alloc::Global;
use std::marker::Model;
use umix_base::Memory;

/// The name of a module: 1 to 32 bytes of `a` to `z`, `0` to `9` and `_`, of which the first is a letter.
#[derive(Debug, Drop)]
pub struct Name {
    bytes: Vec<u8>,
}

impl Model for Name {
    ghost use Rattle.std.specs.Prelude.{List, ℕ};
    ghost use Rattle.two_d.specs.Names.{IsName};

    ghost Value = { List ℕ };

    ghost view = { λ name. name.bytes.items };

    ghost invariant = { λ name. IsName name.bytes.items };
}

impl Name {
    /// The name of these bytes, or `None` exactly where they are no name.
    pub fn read(alloc: Global, bytes: &[u8]) -> Result<Option<Name>, Memory>
        ensures name { IfOk result (λ found.
            MatchOption found (IsName bytes.now → ⊥) (λ name. (name ≡ bytes.now) ×
            IsName bytes.now)) }
    {
        let is_name = bytes.len() <= 32
            && bytes
                .first()
                .is_some_and(|first| first.is_ascii_lowercase())
            && bytes.iter().all(|byte| byte.is_ascii_lowercase()
                || byte.is_ascii_digit()
                || *byte == b'_');
        if !is_name {
            return Ok(None);
        }
        let bytes = Vec::from_slice(alloc, bytes)?;
        Ok(Some(Name { bytes }))
    }

    /// The bytes of the name. Takes no memory.
    pub fn bytes(&self) -> &[u8]
        ensures bytes { result.now ≡ self.now }
        ensures name { IsName self.now }
    {
        self.bytes.as_slice()
    }
}

#[cfg(test)]
mod tests {
    use super::Name;
    use std::test::Fail;

    const LONGEST: &[u8] = b"a_name_of_thirty_two_bytes_here_";

    #[test]
    fn names_are_read(rt: HostRuntime) -> Result<(), Fail> {
        for name in [b"plus".as_slice(), LONGEST] {
            let found = Name::read(rt.alloc(), name)?;
            assert!(rt; found.is_some_and(|found| found.bytes() == name));
        }
        Ok(())
    }

    #[test]
    fn other_bytes_are_no_names(rt: HostRuntime) -> Result<(), Fail> {
        for bytes in [b"9a".as_slice(), b"", b"a_name_of_thirty_three_bytes_here"] {
            assert!(rt; Name::read(rt.alloc(), bytes)?.is_none());
        }
        Ok(())
    }
}

//! The bytes of a scroll and its words.

ghost use Rattle.std.specs.Prelude.{◌≡◌, ℕ, ◌+◌, ◌*◌, ◌%◌, ◌^◌, ◌≤◌, ◌<◌, length, slice_index, IfOk, OnOk, IfErr};
ghost use Rattle.std.specs.Int.{w32, to_be_bytes};
ghost use Rattle.um_word.specs.Scroll.{scroll, most_scroll_bytes, IsScrollFault};

use std::alloc::Global;
use thiserror::Error;
use umix_base::Memory;

/// The most words that a scroll has. See "Scrolls" in docs/MACHINE.md.
pub const MOST_SCROLL_WORDS: usize = 16_777_216;

/// The most bytes that a scroll has.
pub const MOST_SCROLL_BYTES: usize = 4 * MOST_SCROLL_WORDS;

/// Why bytes are no scroll. The number is the count of bytes.
#[derive(Debug, Drop, Error)]
pub enum ScrollFault {
    /// There are more than 67,108,864 bytes.
    #[error("TooLong")]
    TooLong(usize),
    /// The count of bytes is no multiple of 4.
    #[error("Ragged")]
    Ragged(usize),
    /// There was no memory.
    #[error("Memory")]
    Memory,
}

/// The words of a scroll, read four bytes at a time, the first byte most significant. `TooLong` exactly
/// over 67,108,864 bytes; else `Ragged` exactly where their count is no multiple of 4.
pub fn words_of(alloc: Global, bytes: &[u8]) -> Result<Vec<u32>, ScrollFault>
    ensures words { IfOk result (λ words. scroll words.items ≡ bytes.now) }
    ensures fits { OnOk result (length bytes.now ≤ most_scroll_bytes) }
    ensures platters { IfOk result (λ words. (at : ℕ) → slice_index words.items at < 2 ^ 32) }
    ensures fault { IfErr result (λ fault. IsScrollFault bytes.now fault) }
{
    if bytes.len() > MOST_SCROLL_BYTES {
        return Err(ScrollFault::TooLong(bytes.len()));
    }
    if bytes.len() % 4 != 0 {
        return Err(ScrollFault::Ragged(bytes.len()));
    }
    match read_words(alloc, bytes) {
        Ok(words) => Ok(words),
        Err(_) => Err(ScrollFault::Memory),
    }
}

// a word has 32 bits: a fact of its type
fn words_fit(words: &[u32])
    ensures { (at : ℕ) → slice_index words.now at < 2 ^ 32 }
{
    let _ = words;
}

fn read_words(alloc: Global, bytes: &[u8]) -> Result<Vec<u32>, Memory>
    requires { length bytes.now % 4 ≡ 0 }
    ensures words { IfOk result (λ words. scroll words.items ≡ bytes.now) }
    ensures platters { IfOk result (λ words. (at : ℕ) → slice_index words.items at < 2 ^ 32) }
{
    let mut words = Vec::with_capacity(alloc, bytes.len() / 4)?;
    let mut rest = bytes;
    while rest.len() >= 4 {
        let (four, more) = rest.split_at(4);
        words.push(word_from(four))?;
        rest = more;
    }
    words_fit(&words);
    Ok(words)
}

// the word of four bytes, the first most significant
fn word_from(four: &[u8]) -> u32
    requires { length four.now ≡ 4 }
    ensures { to_be_bytes w32 result ≡ four.now }
{
    u32::from_be_bytes([four[0], four[1], four[2], four[3]])
}

/// The bytes of the words, four for each, the most significant first.
pub fn bytes_of(alloc: Global, words: &[u32]) -> Result<Vec<u8>, Memory>
    ensures { IfOk result (λ bytes. bytes.items ≡ scroll words.now) }
{
    let mut bytes = Vec::with_capacity(alloc, 4 * words.len())?;
    for word in words {
        bytes.extend_from_slice(&four_of(*word))?;
    }
    Ok(bytes)
}

// the four bytes of a word, the most significant first
fn four_of(word: u32) -> [u8; 4]
    ensures { result ≡ to_be_bytes w32 word }
{
    word.to_be_bytes()
}

#[cfg(test)]
mod tests {
    use super::*;
    use std::test::Fail;

    #[test]
    fn words_and_bytes(rt: HostRuntime) -> Result<(), Fail> {
        let bytes = [0xd0, 0, 0, 0x41];
        let words = words_of(rt.alloc(), &bytes)?;
        assert_eq!(rt; words.as_slice(), [0xd000_0041].as_slice());
        let again = bytes_of(rt.alloc(), &words)?;
        assert_eq!(rt; again.as_slice(), bytes.as_slice());
        let ragged = words_of(rt.alloc(), &[0x70, 0, 0, 0, 0]);
        assert!(rt; matches!(ragged, Err(ScrollFault::Ragged(5))));
        let names = [
            (ScrollFault::TooLong(67_108_868), "TooLong"),
            (ScrollFault::Ragged(5), "Ragged"),
            (ScrollFault::Memory, "Memory"),
        ];
        for (fault, name) in &names {
            assert_eq!(rt; format!(in rt.alloc(); "{fault}")?.as_str(), *name);
        }
        Ok(())
    }
}

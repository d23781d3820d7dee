use thiserror::Error;

/// Why a store refuses a call. The numbers are the arrays and the words that there would be.
#[derive(Debug, Drop, Error)]
pub enum StoreFault {
    /// No array has the identifier.
    #[error("Inactive")]
    Inactive,
    /// The array has no word at the offset.
    #[error("Outside")]
    Outside,
    /// Array 0 is never abandoned.
    #[error("Zero")]
    Zero,
    /// There would be more arrays than the limit allows.
    #[error("ArraysFull")]
    ArraysFull(u64),
    /// There would be more words than the limit allows.
    #[error("WordsFull")]
    WordsFull(u64),
    /// There was no memory.
    #[error("Memory")]
    Memory,
}

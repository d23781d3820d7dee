//! Why bytes are no image.

/// Why `read_image` refuses bytes.
/// See "Bytes that are no image" in docs/IMAGES.md.
#[derive(Debug, Drop)]
pub enum ImageFault {
    /// There are more than 1,207,959,624 bytes. The number is their count.
    TooLong(usize),
    /// No image has these bytes. The number is the length of their longest prefix, of a multiple of
    /// 4 bytes, that is a prefix of some image.
    Bad(usize),
    /// There was no memory.
    Memory,
}

//! The numbers of an image, each of which `laws::image_limits` ties to its definition.

/// The first word of every image.
pub const IMAGE_MARK: u32 = 0x554d_4931;

/// The number of words between the first one and the abandoned identifiers.
pub const HEAD_LENGTH: usize = 16;

/// The most bytes that an image has.
pub const MOST_IMAGE_BYTES: usize = 1_207_959_624;

/// The most cycles that a machine has made that has an image.
pub const MOST_SAVED_CYCLES: u64 = 1 << 62;

//! The codes that calls answer.

/// The call was carried out.
pub(crate) const DONE: u32 = 0;

/// The handle is closed.
pub(crate) const NOT_OPEN: u32 = 1;

/// The handle is open, and stays as it was.
pub(crate) const IS_OPEN: u32 = 2;

/// Memory was refused.
pub(crate) const MEMORY: u32 = 3;

/// The number of changes would pass the largest `usize`.
pub(crate) const NUMBER: u32 = 4;

/// The terminal has failed: an earlier call was refused.
pub(crate) const FAILED: u32 = 5;

/// A size isn't from 1 to 2^32 - 1, or two terminals have different sizes.
pub(crate) const SIZE: u32 = 6;

/// There is no such row, profile or format; or a plain terminal has no modes.
pub(crate) const RANGE: u32 = 7;

/// The other terminal has failed.
pub(crate) const OTHER_FAILED: u32 = 8;

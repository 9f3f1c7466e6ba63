//! Ranges of a line that a caller asks for.
ghost use Rattle.std.specs.Prelude.{◌≡◌, Ok};

use crate::attributes::SemanticType;
use std::alloc::AllocError;
use std::ops::Range;

/// Neighbouring cells of one semantic type: their columns, counted from 0.
#[derive(Debug, Drop, PartialEq, Eq)]
pub struct ZoneRange {
    pub semantic_type: SemanticType,
    pub range: Range<u16>,
}

/// The columns of a word, counted from 0; `RangeWithWrap` says that it goes on in the next line.
#[derive(Debug, Drop, PartialEq)]
pub enum DoubleClickRange {
    Range(Range<usize>),
    RangeWithWrap(Range<usize>),
}

impl ZoneRange {
    /// A copy; it takes no memory.
    pub fn try_clone(&self) -> Result<ZoneRange, AllocError>
        ensures { result ≡ Ok self.now }
    {
        Ok(ZoneRange {
            semantic_type: self.semantic_type,
            range: self.range.start..self.range.end,
        })
    }
}

impl DoubleClickRange {
    /// A copy; it takes no memory.
    pub fn try_clone(&self) -> Result<DoubleClickRange, AllocError>
        ensures { result ≡ Ok self.now }
    {
        Ok(match self {
            DoubleClickRange::Range(range) => DoubleClickRange::Range(range.start..range.end),
            DoubleClickRange::RangeWithWrap(range) => {
                DoubleClickRange::RangeWithWrap(range.start..range.end)
            }
        })
    }
}

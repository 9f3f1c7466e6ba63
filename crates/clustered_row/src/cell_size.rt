//! The sizes of cells.
ghost use Rattle.std.specs.Prelude.{◌≡◌, ◌≤◌};

/// How many bytes a cell's text has, and whether it takes two columns.
#[derive(Debug, Clone, Copy)]
pub struct CellSize {
    /// The number of bytes, at least 1.
    pub len: usize,
    /// Whether the cell takes two columns.
    pub is_wide: bool,
    pub ghost some: { 1 ≤ len },
}

/// The size of a plain cell: one byte in one column.
pub const PLAIN: CellSize = CellSize {
    len: 1,
    is_wide: false,
};

impl CellSize {
    ghost use Rattle.clustered_row.specs.Sizes.{is_plain, width_of};

    /// How many columns the cell takes.
    #[inline(always)]
    pub fn columns(self) -> usize
        ensures { result ≡ width_of self.is_wide }
    {
        if self.is_wide { 2 } else { 1 }
    }

    // Whether the cell is one byte in one column.
    #[inline(always)]
    pub(crate) fn is_plain(self) -> bool
        ensures { result ≡ is_plain self }
    {
        !self.is_wide && self.len == 1
    }
}

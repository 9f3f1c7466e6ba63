//! Columns with equal attributes, and positions among them.
use cell_base::CellAttributes;

/// Columns side by side with equal attributes.
#[derive(Debug, Drop)]
pub struct Run {
    /// The number of columns, at least 1.
    pub count: u32,
    /// The attributes of each of these columns.
    pub attributes: CellAttributes,
}

/// The position of a column: after `index` whole runs, and `offset` columns of the next one.
#[derive(Clone, Copy)]
pub(crate) struct Position {
    pub(crate) index: usize,
    pub(crate) offset: usize,
}

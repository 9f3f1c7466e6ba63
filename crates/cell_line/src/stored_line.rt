//! The stored form of a line.
use cell_base::Cell;
use clustered_row::StoredRow;

/// The stored form of a line's columns: cells, or one text and runs of equal attributes.
#[derive(Clone, Copy)]
pub enum StoredLine<'a> {
    /// Read from the left: the cell stored after a wide one is ignored, and a wide cell with none
    /// after it is a blank with its attributes.
    Cells(&'a [Cell]),
    /// The stored form of the line's clustered row. There are no cells beside it.
    Clustered(StoredRow<'a>),
}

//! Lines: rows of cells with a number and bits, and every call that editors of lines use.
//!
//! - `changes`: the changes that write a line.
//! - `clustered`: cells that are set on a clustered row.
//! - `fast`: shortcuts, for the crates above that write rows and differences; users don't call them.
//! - `laws`: laws of the definitions: the cut of a line into clusters, the results of some edits and queries of
//!   lines, and comparisons.
//! - `lent_cells`: the cells that a line lends.
//! - `line`: `Line`: a row of columns with a number and bits.
//! - `line_bits`: the bits of a line.
//! - `line_cells`: cells and columns of a line that are set, inserted, removed and filled.
//! - `line_size`: the sizes at which a line is shown.
//! - `line_storage`: how a line keeps its columns: as cells, or clustered.
//! - `line_views`: what a line shows, and values made of it.
//! - `line_width`: lines that become wider or narrower, are cut and joined.
//! - `row_writing`: rows of lines that are made and written without the number of a change, for screens, which
//!   number their changes themselves.
//! - `stored_line`: the stored form of a line.
//! - `taken_cells`: the cells of a line that is taken apart, read from the left.
//! - `wrap`: parts of a line: its cells in a range, and its cells in rows of a width.
#![tactic(auto)]

mod changes;
mod clustered;
pub mod fast;
pub mod laws;
mod lent_cells;
mod line;
mod line_bits;
mod line_cells;
mod line_size;
mod line_storage;
mod line_views;
mod line_width;
pub mod row_writing;
mod stored_line;
mod taken_cells;
mod wrap;

pub use cell_views::{CellCluster, CellRef, RegionIter, VisibleCellIter};
pub use line::Line;
pub use stored_line::StoredLine;

//! What a row shows, whether it is kept as cells or as one text and runs: its visible cells, the cells
//! between two columns, clusters of them, words, zones and queries.
//!
//! - `byte_columns`: the columns of the cells of a text's bytes.
//! - `cell_ref`: visible cells, borrowed from a line.
//! - `clusters`: clusters of a line: neighbouring cells that are shown together.
//! - `fast`: shortcuts, which a reader may skip: each returns what the general way does, or `None`, which
//!   leaves all to it.
//! - `half`: what an edge leaves of a wide cell that it cuts.
//! - `query`: queries on the cells of a row.
//! - `read_cells`: the cells of a line as they are stored, read from the left.
//! - `region`: the visible cells of a part of a row.
//! - `stored_cells`: the stored form of a row.
//! - `visible_cells`: the visible cells of a row.
//! - `words`: the columns that a double click selects.
//! - `zones`: zones of a line: neighbouring cells of one semantic type.
#![tactic(auto)]

mod byte_columns;
mod cell_ref;
mod clusters;
mod fast;
mod half;
pub mod query;
mod read_cells;
mod region;
mod stored_cells;
mod visible_cells;
pub mod words;
pub mod zones;

pub use cell_ref::CellRef;
pub use clusters::CellCluster;
pub use read_cells::ReadCells;
pub use region::RegionIter;
pub use stored_cells::StoredCells;
pub use visible_cells::VisibleCellIter;

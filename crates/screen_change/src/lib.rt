//! Changes of a screen as values.
//!
//! - `cell_writer`: changes that write cells.
//! - `change`: a change of a screen.
//! - `cut_cells`: the texts of cells side by side, joined.
//! - `laws`: laws of changes: each is the contract of a function that does nothing.
//! - `texts`: the texts by which cells are written.
#![tactic(auto)]

mod cell_writer;
mod change;
mod cut_cells;
pub mod laws;
mod texts;

pub use cell_writer::CellWriter;
pub use change::{Change, cloned_changes};

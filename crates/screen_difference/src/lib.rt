//! Differences: the changes that make part of one screen show what another shows.
//!
//! - `difference_writer`: changes that write cells at their positions.
//! - `fast`: shortcuts, which a reader may skip: each returns what the general way does, or `None`, which
//!   leaves all to it.
//! - `fresh_cells`: cells that are compared with old ones, and written where these don't show them.
//! - `laws`: laws of differences: they show the new side, and print its cells.
//! - `print_laws`: laws of what changes print, and where; a difference prints the fresh cells and no others.
//! - `regions`: differences of regions, of lines and of screens.
//! - `rows`: rows that are compared.
//! - `shown_cells`: cells that are passed while new cells are compared with them.
#![tactic(auto)]

mod difference_writer;
mod fast;
mod fresh_cells;
pub mod laws;
pub mod print_laws;
mod regions;
mod rows;
mod shown_cells;

pub use regions::{diff_against_numbered_line, diff_lines, diff_region, diff_screens};

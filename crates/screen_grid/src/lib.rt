//! A display that is kept as lines, and what each change does to it.
//!
//! - `fast`: shortcuts, which a reader may skip.
//! - `grid`: `Grid`: a display kept as lines, and what each change does to it.
//! - `positions`: the column or row that a `Position` names, going from the current one.
//! - `ring`: items of which the first is dropped, and another added after the last, at little cost.
//! - `rows`: rows of lines that are cleared, written and moved.
//! - `text`: the next cluster of a text.
#![tactic(auto)]

mod fast;
mod grid;
mod positions;
mod ring;
mod rows;
mod text;

pub use grid::{Grid, blank_of};

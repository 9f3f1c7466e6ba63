//! The changes that paint a screen anew, on any screen of its size.
//!
//! - `ends`: ends of rows: the blanks of one background there, and how many cells come before them.
//! - `fast`: shortcuts, which a reader may skip: each returns what the general way does, or `None`, which
//!   leaves all to it.
//! - `laws`: the law of repaints: the contract of a function that does nothing.
//! - `rows`: the changes that paint rows.
//! - `screen`: `repaint`: the changes that paint a screen anew.
#![tactic(auto)]

mod ends;
mod fast;
pub mod laws;
mod rows;
mod screen;

pub use screen::{repaint, repaint_with_title};

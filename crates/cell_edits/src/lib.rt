//! Steps on the cells of a row: cells put in, taken out, erased and copied, runs of text that are
//! set as far as they fit, texts as cells.
//!
//! - `row`: steps on the cells of a line, which are read from the left: the cell stored after a wide one is
//!   ignored.
//! - `runs`: columns of a row that are set at once: blanks, and the cells of a text as far as they fit.
//! - `text`: texts as cells of a line: a cell for each extended grapheme cluster (UAX 29).
#![tactic(auto)]

pub mod row;
pub mod runs;
pub mod text;

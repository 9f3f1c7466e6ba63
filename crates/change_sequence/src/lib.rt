//! Lists of changes that know where they leave the cursor.
//!
//! - `laws`: laws of sequences: each is the contract of a function that does nothing.
//! - `moves`: where texts and positions leave a cursor that doesn't scroll.
//! - `sequence`: `ChangeSequence`: a list of changes that knows where it leaves the cursor.
#![tactic(auto)]

pub mod laws;
mod moves;
mod sequence;

pub use sequence::ChangeSequence;

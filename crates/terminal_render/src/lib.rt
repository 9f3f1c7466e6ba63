//! The encoding of a change of a screen: the actions that have the change's effect on a terminal. Users call `render`;
//! `append_encodings` is for the crate `terminal_viewers` alone.
//!
//! - `actions`: `Actions`: the actions that encode changes, gathered one after another.
//! - `borrowed_action`: actions that encode a change, borrowed from it.
//! - `coordinate`: lines and columns as control sequences count them, from 1.
//! - `encoding`: the encoding of a change that has one: its actions, or their bytes.
//! - `encoding_laws`: laws of which changes have an encoding: all that a terminal makes.
//! - `error`: why a change was not rendered.
//! - `examples`: worked examples: the bytes of changes.
//! - `laws`: laws of encodings: they have the change's effect and read back, and how long they are.
//! - `links`: texts that a stream carries as they are, and links that OSC 8 carries.
//! - `moves`: moves of the cursor, with their numbers.
//! - `pen`: attributes, pens and clears.
//! - `positions`: positions as moves of the cursor.
//! - `rendering`: `render`: the encoding of a change, if it has one.
//! - `sizes`: laws of how many bytes encode changes at most.
//! - `texts`: texts, cut at their controls.
#![tactic(auto)]

mod actions;
mod borrowed_action;
mod coordinate;
mod encoding;
pub mod encoding_laws;
mod error;
pub mod examples;
pub mod laws;
mod links;
mod moves;
mod pen;
mod positions;
mod rendering;
pub mod sizes;
mod texts;

pub use encoding::append_encodings;
pub use error::RenderError;
pub use rendering::{has_encoding, render};

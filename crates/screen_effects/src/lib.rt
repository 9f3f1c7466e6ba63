//! What changes do to a screen: the definitions, their laws, and worked examples.
//!
//! - `examples`: worked examples: what a new display shows after some changes.
//! - `laws`: laws of effects: displays stay lawful.
//! - `replay_laws`: laws of what changes that write cells do to a display; repaints and differences build on
//!   them.
//! - `text`: texts cut at their controls.
#![tactic(auto)]

pub mod examples;
pub mod laws;
pub mod replay_laws;
mod text;

pub use text::{split_at_control, split_control};

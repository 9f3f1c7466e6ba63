//! The bytes that make a viewer show a terminal's screen, and their effect on the viewer. `update` and `patch` are
//! for the crate `terminal` alone: users call `Terminal::update` and `Terminal::patch` of `terminal`.
//!
//! - `patch`: the bytes that make a viewer of the same size show a screen.
//! - `patch_laws`: laws of patches: they lead to the screen, and print the fresh cells.
//! - `repaint_laws`: laws of repaints: their changes have encodings.
//! - `session_laws`: laws of sessions of a terminal and its viewers: a viewer shows the screen of the one that
//!   answered it.
//! - `update`: the bytes of the changes that are due, or of the whole screen.
//! - `update_laws`: laws of updates: they paint the screen or have the changes that are due, and have encodings.
//! - `viewers`: laws of viewers: which screen a viewer shows that reads updates.
#![tactic(auto)]

pub mod patch;
pub mod patch_laws;
pub mod repaint_laws;
pub mod session_laws;
pub mod update;
pub mod update_laws;
pub mod viewers;

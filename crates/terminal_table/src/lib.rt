//! The terminal's table: the effect of each control function on a terminal's state, the changes that are
//! logged for it, and the meaning of a history.
//!
//! - `examples`: worked examples: the screen of a new terminal after some bytes, and the changes that are logged.
//! - `flags`: what a terminal of the profile xterm keeps for the program around it.
//! - `laws`: laws of the table: each is the contract of a function that does nothing.
//! - `led_laws`: laws of what is logged as the difference of two screens.
//! - `print_laws`: laws of how much streams print at least, where they are plain.
#![tactic(auto)]

pub mod examples;
pub mod flags;
pub mod laws;
pub mod led_laws;
pub mod print_laws;

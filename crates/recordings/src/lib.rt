//! Recordings of terminals: asciicast, versions 1 to 3, and the bytes of an application as they are.
//!
//! - `entry`: an event of a recording, read: its time and its act.
//! - `event`: `Event`: an output of the application or a resize of the terminal, and its time.
//! - `fault`: faults of a recording.
//! - `header`: the header of a recording.
//! - `laws`: laws of recordings, as the contracts of functions that do nothing.
//! - `numerals`: times and counts, read from decimal numerals.
//! - `reader`: a recording that is read event by event.
//! - `recording`: `Recording`: the size and the events of a terminal, read from an input.
//! - `size`: the size of a terminal.
#![tactic(auto)]

mod entry;
mod event;
mod fault;
mod header;
pub mod laws;
mod numerals;
mod reader;
mod recording;
mod size;

pub use event::{Act, Event};
pub use fault::{BadLine, Fault};
pub use numerals::time_of;
pub use recording::{Recording, read_recording};
pub use size::Size;

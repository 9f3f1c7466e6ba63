//! A terminal: its screen and replies, kept from the bytes that an application writes.
//!
//! - `driver`: `show` and `show_on`, which run a reader's bytes through a terminal.
//! - `error`: why `show`, `run` or their like ended early.
//! - `laws`: laws of terminals, as the contracts of functions that do nothing.
//! - `steps`: steps of a terminal, played on a new one.
//! - `terminal`: `Terminal` and its calls.
//! - `updates`: `run` and `run_on`, which write the updates of an input, one after each chunk of `every` bytes and one
//!   at the end; `run_live` and `run_live_on`, which write one after each read.
//! - `viewers`: laws of viewers, as the contracts of functions that do nothing.
//! - `watched`: readers and writers whose failures are seen.
//! - `worked`: worked examples: the bytes of updates and patches, and what a stream prints.
#![tactic(auto)]

mod driver;
mod error;
pub mod laws;
mod steps;
mod terminal;
mod updates;
pub mod viewers;
mod watched;
pub mod worked;

pub use cell_base::{ProgramWidth, SequenceNo, Widths};
pub use cell_surface::Surface;
pub use driver::{show, show_on};
pub use error::RunError;
pub use steps::{Step, play};
pub use terminal::Terminal;
pub use terminal_render::{RenderError, render};
pub use terminal_steps::{
    CursorStyle, Modes, MouseProtocolEncoding, MouseProtocolMode, Profile, TerminalError,
};
pub use updates::{run, run_live, run_live_on, run_on};
pub use watched::Watched;

//! Operating system commands of terminals, read from and written as their parts.
//!
//! - `body`: the body of a command, as one table for its printed text and its bytes.
//! - `bytes`: the bytes of a command, appended to a list.
//! - `command`: operating system commands.
//! - `copy`: copies of commands.
//! - `laws`: laws of the definitions, as functions that do nothing.
//! - `parts`: the parts of a command's body: joining them, copying them, and finding C1 controls in them.
//! - `read`: reading the parts of a body as a command.
//! - `selection`: the selections of OSC 52.
//! - `show`: printing the parts of a command's text that take a loop.
#![tactic(auto)]

mod body;
mod bytes;
mod command;
mod copy;
pub mod laws;
mod parts;
mod read;
mod selection;
mod show;

pub use command::OperatingSystemCommand;
pub use selection::Selection;

//! Escape streams: the parser, which reads bytes and hands out texts and actions as soon as the bytes decide them, and
//! the encoder of actions.
//!
//! - `action`: the actions of a stream.
//! - `action_laws`: laws of the actions of a stream: functions that do nothing, each ensuring one or more.
//! - `control`: control characters by name.
//! - `device`: device control strings (DCS), in parts.
//! - `encoding`: the bytes of actions.
//! - `encoding_laws`: laws of the texts of actions: functions that do nothing, each ensuring one.
//! - `engine`: the walk over the bytes of a call, which finds each text and each action and hands it to a
//!   performer.
//! - `event_actions`: the actions of events that are not control sequences.
//! - `fast`: shortcuts: one reads a command that is whole at the start of the remaining bytes without a copy, another
//!   reads a command of few parts without a list of them.
//! - `first`: the first action of some bytes, or the actions of their shortest prefix that leaves nothing unfinished.
//! - `handover`: `Parser::hand_to`: hands what is read to a performer.
//! - `parse`: the actions of bytes, handed to a callback one by one, or as a list.
//! - `parser`: `Parser`: reads a stream of bytes as actions.
//! - `perform`: `Perform`: the trait of performers, which act on each text and action that a parser reads.
//! - `pieces`: the pieces of a stream: texts, which are lent from the bytes of the call, and actions.
//! - `sequence`: the actions of a control sequence, one by one.
#![tactic(auto)]

mod action;
pub mod action_laws;
mod control;
mod device;
mod encoding;
pub mod encoding_laws;
mod engine;
mod event_actions;
mod fast;
mod first;
mod handover;
mod parse;
mod parser;
mod perform;
mod pieces;
mod sequence;

pub use action::Action;
pub use control::ControlCode;
pub use device::{DeviceControlMode, EnterDeviceControlMode};
pub use encoding::encode;
pub use escape_framing::ParseError;
pub use escape_osc::{OperatingSystemCommand, Selection};
pub use parser::Parser;
pub use perform::{Halted, Perform};
pub use pieces::{Piece, Pieces};

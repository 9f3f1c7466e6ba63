//! Framing of escape streams: from the bytes of a stream to events, one at a time. How a stream is cut into segments,
//! and which dispatches these decide, is defined in `specs`; each event is one of these dispatches.
//!
//! - `bodies`: bodies of commands and strings: how many bytes at the start are literal.
//! - `bytes`: classes of bytes (ECMA-48, 5).
//! - `characters`: the first bytes of a character in UTF-8, and the byte after them.
//! - `error`: refusals of a framer, and of a parser over one.
//! - `event`: what a framer hands out, one at a time.
//! - `fast`: shortcuts: they read a whole sequence or a run at the start of the bytes of a call at once.
//! - `framer`: `Framer`: reads the bytes of a call as events: texts, runs, whole control sequences or single
//!   bytes.
//! - `laws`: laws of the definitions: a stream has one cut, each dispatch has its offset, and chunks join.
//! - `states`: the states of a framer: what a byte of the seven-bit form does after what is open.
//! - `texts`: the characters at the start of some bytes that the framer lends without a copy.
#![tactic(auto)]

mod bodies;
mod bytes;
mod characters;
mod error;
mod event;
mod fast;
mod framer;
pub mod laws;
mod states;
mod texts;

pub use error::ParseError;
pub use event::{Event, Read};
pub use framer::Framer;

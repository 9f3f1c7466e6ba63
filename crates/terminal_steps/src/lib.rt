//! What a terminal does with each action: it reads which control function the action asks for, and adds the changes of
//! the terminal's table to a surface. `TerminalState` is for the crate `terminal` alone: users call its `Terminal`,
//! whose errors are this crate's `TerminalError`.
//!
//! - `actions`: what a terminal does with an action, and with a run of printed characters.
//! - `changes`: changes that are added to a surface, one after another.
//! - `charsets`: character sets of the profile xterm: which characters are printed for those of a run.
//! - `control_functions`: which control function an action asks for.
//! - `cursor`: the changes that set the cursor's position and the pen, and the one that erases to the end of a
//!   row.
//! - `cursor_moves`: moves of the cursor: where CUU, CUD, CUB, CUF, CNL, CPL, CHA, VPA, CUP and HT lead.
//! - `erase`: erasures (ED, EL), scrolls (SU, SD) and the reverse index (RI).
//! - `error`: why a call of a terminal was refused.
//! - `fast`: shortcuts, which a reader may skip: each answers for a whole what the general way does part by part.
//! - `flags`: flags, and what else a terminal of the profile xterm keeps for the program around it.
//! - `function`: the control functions of a terminal, with their mnemonics.
//! - `laws`: the law that the texts and actions of a call have the meaning of its bytes.
//! - `mode_requests`: what the profile xterm has for modes.
//! - `modes`: what the modes of the profile xterm tell the program around the terminal.
//! - `other_requests`: what the profile xterm has for device attributes, reports, and titles that are pushed.
//! - `pen`: SGR, and its effect on the pen.
//! - `profile`: the profiles of a terminal, and what a terminal keeps for its profile.
//! - `replies`: replies to the application.
//! - `requests`: what the profile xterm has for an action, where that differs from the table.
//! - `runs`: runs of printed characters under xterm, where something may be asked for before a cluster is put.
//! - `saved`: saved cursors (DECSC, DECRC, SCOSC, SCORC) and the full reset (RIS).
//! - `screens`: saved cursors of the profile xterm; its two screens, of which one is shown; the soft reset and the
//!   alignment display; and titles that are pushed.
//! - `state`: the state that a terminal keeps beside its parser, and its changes by events.
//! - `tab_stops`: tab stops of the profile xterm.
//! - `text_runs`: runs of text, and the performer that the parser calls: a text joins the held run, and other
//!   actions end it.
//! - `xterm`: the functions that only the profile xterm has, and what each does.
#![tactic(auto)]

mod actions;
mod changes;
mod charsets;
mod control_functions;
mod cursor;
mod cursor_moves;
mod erase;
mod error;
mod fast;
mod flags;
mod function;
pub mod laws;
mod mode_requests;
mod modes;
mod other_requests;
mod pen;
mod profile;
mod replies;
mod requests;
mod runs;
mod saved;
mod screens;
mod state;
mod tab_stops;
mod text_runs;
mod xterm;

pub use csi_codec::CursorStyle;
pub use error::TerminalError;
pub use profile::{Modes, Profile};
pub use saved::SavedCursor;
pub use state::TerminalState;
pub use terminal_table::flags::{MouseProtocolEncoding, MouseProtocolMode};

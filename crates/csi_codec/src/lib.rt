//! CSI, SGR and ESC sequences both ways: what parameters with a final byte mean, and the bytes of every action.
//!
//! - `cracked`: `Cracked`: a list of parameters as entries, each a number or absent.
//! - `cursors`: sequences that move the cursor, set tab stops and margins, and report or save a position.
//! - `devices`: requests to the terminal itself: DECSTR, DA and DSR 5.
//! - `edits`: sequences that erase, insert, delete, scroll and repeat.
//! - `escapes`: ESC pairs: an ESC, at most one intermediate byte, and a final byte.
//! - `groups`: groups of parameters: the kinds of lists, and the group of a mode.
//! - `laws`: laws of the readings, as functions that do nothing and ensure them.
//! - `modes`: modes by number, and the sequences that set, reset, save and restore them.
//! - `one_based`: lines and columns as sequences count them.
//! - `param_cursor`: `ParamCursor`: reads the actions of a parameter list, one at a time.
//! - `parameters`: tokens of a CSI list, and how they are written.
//! - `prefixes`: a control sequence at the start of some bytes (ECMA-48 5.4).
//! - `rendition`: SGR: how characters look from now on.
//! - `sequences`: CSI sequences: what a list of parameters before a final byte means, action by action.
//! - `settings`: SGR lists, read setting by setting where their bytes stand.
//! - `sgr_reading`: SGR: reading a group, by the number that it begins with.
//! - `sgr_spelling`: SGR: writing a setting.
//! - `slots`: the numbers and positions that a list of few tokens can have.
//! - `sources`: `TokenSource`: the tokens of a list, read where they stand.
//! - `spelling`: values that are written as a control sequence (`ESC [`, parameters and an ASCII final byte), and
//!   the texts that several kinds of them share.
//! - `text`: the bytes of a sequence, as they are written.
//! - `tokens`: the tokens of a control sequence, as its bytes come.
#![tactic(auto)]

mod cracked;
mod cursors;
mod devices;
mod edits;
mod escapes;
mod groups;
pub mod laws;
mod modes;
mod one_based;
mod param_cursor;
mod parameters;
mod prefixes;
mod rendition;
mod sequences;
mod settings;
mod sgr_reading;
mod sgr_spelling;
mod slots;
mod sources;
mod spelling;
mod text;
mod tokens;

pub use cracked::Cracked;
pub use cursors::{Cursor, CursorStyle, CursorTabulationControl, TabulationClear, cursor_reading};
pub use devices::Device;
pub use edits::{Edit, EraseInDisplay, EraseInLine, edit_reading};
pub use escapes::{Esc, EscCode};
pub use modes::{DecPrivateMode, DecPrivateModeCode, Mode, TerminalMode, TerminalModeCode};
pub use one_based::OneBased;
pub use param_cursor::ParamCursor;
pub use parameters::{CrackError, CsiParam, Unspecified};
pub use prefixes::{CsiFront, read_csi};
pub use rendition::{Font, Sgr};
pub use sequences::{CSI, CSIParser};
pub use settings::next_setting;
pub use sources::{RawParameters, TokenSource, is_list_byte};
pub use tokens::{Parameters, is_parameter};

//! The functions that only the profile "xterm" has, on a surface: each changes it by what leads from its screen to the
//! function's.
//!
//! - `additions`: changes that are added, so that a surface shows another screen.
//! - `place`: the changes that put the cursor at its place and set the pen, and a move of the cursor.
//! - `row_copies`: edited copies of the cursor's line.
//! - `row_edits`: functions that edit the cursor's row: ECH, EL, ICH and DCH.
//! - `row_moves`: functions that move rows between margins: SU, SD, IL, DL, LF, NEL and RI.
//! - `screens`: screens that are given by their rows, cursor and pen.
#![tactic(auto)]

mod additions;
mod displays;
mod place;
mod row_copies;
mod row_edits;
mod row_moves;
mod screens;

pub use displays::{erase_display_end, erase_display_start};
pub use row_copies::blank_line;
pub use row_edits::{
    delete_characters, erase_characters, erase_line_end, erase_line_start, insert_characters,
};
pub use row_moves::{
    delete_lines, insert_lines, line_feed, next_line, reverse_index, scroll_down, scroll_up,
};
pub use screens::{place_with_pen, show_screen};

//! Laws of how much streams print at least, where they are plain. Each is the contract of a function that does
//! nothing.
ghost use Rattle.terminal_table.specs.Bounds.{NarrowStreamsPrintAsMany, PlainStreamsPrintAThird};

use crate::laws::{prints_hold_no_controls, views_stay_lawful};

/// A stream is plain where only its runs change rows and nothing scrolls. It prints at least a third as many
/// texts as the screen after it has visible cells that the screen before it didn't show; and at least as many
/// where the screen before it has no wide text and the stream prints none.
pub fn plain_streams_print_what_is_fresh()
    ensures third { PlainStreamsPrintAThird }
    ensures narrow { NarrowStreamsPrintAsMany }
{
    prints_hold_no_controls();
    views_stay_lawful();
}

//! Laws of how many bytes encode changes at most. Each is the contract of a function that does nothing.
ghost use Rattle.std.specs.Prelude.{◌≡◌, ◌≤◌, ℕ, List, Some, length};
ghost use Rattle.cell_base.specs.ScreenSize.{IsScreenSize};
ghost use Rattle.screen_change.specs.ChangeValue.{ChangeValue};
ghost use Rattle.escape_stream.specs.StreamAction.{StreamAction};
ghost use Rattle.escape_stream.specs.StreamText.{stream_text};
ghost use Rattle.terminal_render.specs.Lists.{all_rendered};
ghost use Rattle.terminal_render.specs.EncodedSizes.{AreShort, all_encoded_size, prints_in, runs_in};
ghost use Rattle.terminal_render.specs.Spelling.{HaveEncodings};

use crate::laws::renderings_are_short;

/// The encodings of changes are together no longer than the sum of a bound for each: 320 bytes besides a title
/// or a link; for a text twice its length in bytes, or its length and one where it holds no C0 control or DEL.
pub fn encoded_lists_are_short()
    ensures { (width : ℕ) (height : ℕ) (changes : List ChangeValue) (actions : List StreamAction)
        → IsScreenSize width height → HaveEncodings width height changes
        → all_rendered changes width height ≡ Some actions → length (stream_text actions) ≤ all_encoded_size changes }
{
    renderings_are_short();
}

/// At most 320 bytes encode each change, besides its text, its title, or its link's parameters and URI.
pub fn encoded_changes_are_short()
    ensures { (width : ℕ) (height : ℕ) (changes : List ChangeValue) → IsScreenSize width height
        → HaveEncodings width height changes → AreShort width height changes }
{
    renderings_are_short();
}

/// The encodings of changes print the texts of the changes, each once and in turn; a C0 control or DEL in a
/// text prints a space, except CR and LF, which print nothing.
pub fn deltas_print_each_run_once()
    ensures { (width : ℕ) (height : ℕ) (changes : List ChangeValue) (actions : List StreamAction)
        → all_rendered changes width height ≡ Some actions → prints_in actions ≡ runs_in changes }
{}

//! Laws of the definitions, as functions that do nothing.

ghost use Rattle.std.specs.Prelude.{◌≡◌, false, None, Some, ℕ, List};
ghost use Rattle.text_clusters.specs.Controls.{holds_c1};
ghost use Rattle.cell_base.specs.Link.{Link};
ghost use Rattle.escape_osc.specs.Command.{Command, set_icon_name_and_window_title, set_icon_name, set_window_title};
ghost use Rattle.escape_osc.specs.Command.{current_working_directory};
ghost use Rattle.escape_osc.specs.Parts.{parts_of};
ghost use Rattle.escape_osc.specs.Reading.{osc_reading};
ghost use Rattle.escape_osc.specs.Sizes.{AllSelectionsTakeMost, EndOfLinkTakesSeven, LinksTakeSeven};
ghost use Rattle.escape_osc.specs.Sizes.{SelectionsAreShort, TextsTakeSix};
ghost use Rattle.escape_osc.specs.Writable.{IsLink, IsReadableLink, IsWritable, LacksControls, ReadsBack};

use crate::command::OperatingSystemCommand;

/// A command that was read from a body reads back equal from the body of its text.
pub fn read_command_reads_back(body: &[u8])
    ensures { ReadsBack (osc_reading (parts_of body.now)) }
{
    let _ = body;
}

/// A command that a byte stream can carry reads back equal from the body of its text.
pub fn writable_command_reads_back()
    ensures { (command : Command) → IsWritable command → ReadsBack command }
{}

/// A title, the name of an icon or a directory whose text holds no control of any kind can be written.
pub fn text_is_writable(text: &str)
    requires { LacksControls text.now }
    ensures icon_name_and_title { IsWritable (set_icon_name_and_window_title text.now) }
    ensures icon_name { IsWritable (set_icon_name text.now) }
    ensures title { IsWritable (set_window_title text.now) }
    ensures directory { IsWritable (current_working_directory text.now) }
{
    let _ = text;
}

/// A link that a program builds from texts without the separators of a link's text reads back equal from its own text,
/// and so does the end of a link.
pub fn links_read_back()
    ensures link { (link : Link) → IsLink link → IsReadableLink (Some link) }
    ensures end_of_link { IsReadableLink None }
{}

/// A text without U+0080 to U+009F reads back from the body of each command that carries it.
pub fn text_reads_back(text: &str)
    requires { holds_c1 text.now ≡ false }
    ensures icon_name_and_title { ReadsBack (set_icon_name_and_window_title text.now) }
    ensures icon_name { ReadsBack (set_icon_name text.now) }
    ensures title { ReadsBack (set_window_title text.now) }
    ensures directory { ReadsBack (current_working_directory text.now) }
{
    let _ = text;
}

/// The bytes of a command besides its payload: six besides a title, the name of an icon or a directory, seven besides
/// the parameters and the URI of a link, and seven for the end of a link. A query of selections takes at most 22 bytes,
/// a command that clears them 20, and one that sets them 21 besides the base64 of its text; exactly that many where the
/// command names all thirteen selections.
pub fn text_lengths()
    ensures texts { (text : List ℕ) → TextsTakeSix text }
    ensures links { LinksTakeSeven }
    ensures end_of_link { EndOfLinkTakesSeven }
    ensures selections { (bits : ℕ) → (text : List ℕ) → SelectionsAreShort bits text }
    ensures all_selections { (text : List ℕ) → AllSelectionsTakeMost text }
{}

//! Operating system commands.

ghost use Rattle.std.specs.Prelude.{Some};
ghost use Rattle.escape_osc.specs.CommandView.{command_of};
ghost use Rattle.escape_osc.specs.Text.{shown_text};

use crate::selection::Selection;
use cell_base::Hyperlink;
use std::fmt;
use std::rc::Rc;

/// An operating system command (OSC), as a request to a terminal.
#[derive(Debug, PartialEq, Eq, Drop)]
pub enum OperatingSystemCommand {
    /// OSC 0: sets the name of the icon and the title of the window.
    SetIconNameAndWindowTitle(String),
    /// OSC 1: sets the name of the icon.
    SetIconName(String),
    /// OSC 2: sets the title of the window.
    SetWindowTitle(String),
    /// OSC 7: reports the working directory, as a URL.
    CurrentWorkingDirectory(String),
    /// OSC 8: links the text that follows, or ends the link.
    SetHyperlink(Option<Rc<Hyperlink>>),
    /// OSC 52 with a text: sets selections.
    SetSelection(Selection, String),
    /// OSC 52 with `?`: asks for selections.
    QuerySelection(Selection),
    /// OSC 52 with nothing after its letters: clears selections.
    ClearSelection(Selection),
    /// Any other command, by the parts of its body, which `;` separates.
    Unspecified(Vec<Vec<u8>>),
}

/// The text of the command. The parts of an `Unspecified` have U+FFFD in place of each ill-formed sequence
/// of bytes, as `String::from_utf8_lossy` writes it.
impl fmt::Display for OperatingSystemCommand {
    ghost output = { λ command. Some (shown_text (command_of command)) };

    fn fmt<W: fmt::Write>(&self, f: &mut fmt::Formatter<W>) -> fmt::Result {
        let body = self.body();
        write!(f, "\x1b]{body}\x1b\\")
    }
}

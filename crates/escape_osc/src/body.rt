//! The body of a command, as one table for its printed text and its bytes.

ghost use Rattle.std.specs.Prelude.{◌≡◌, ◌++◌, Some, OnOk, length, take};
ghost use Rattle.escape_osc.specs.Body.{bytes_of_body, shown_by_body};
ghost use Rattle.escape_osc.specs.CommandView.{command_of};
ghost use Rattle.escape_osc.specs.Text.{body_of, shown_body};

use crate::bytes::{append_base64, append_letters, append_link};
use crate::command::OperatingSystemCommand;
use crate::parts::append_joined;
use crate::selection::Selection;
use crate::show::{Base64, Letters, LossyParts};
use cell_base::Hyperlink;
use std::alloc::AllocError;
use std::fmt;

// The bytes between ESC ] and ESC \, by form.
#[derive(Clone, Copy)]
pub(crate) enum Body<'a> {
    // A code with its `;`, and a text after it.
    Text(&'static str, &'a str),
    // A link.
    Link(&'a Hyperlink),
    // The letters of selections, and a fixed text after them.
    Selection(Selection, &'static str),
    // The letters of selections, and a text that follows them in base64.
    SelectionText(Selection, &'a str),
    // Parts, joined by `;`.
    Parts(&'a [Vec<u8>]),
}

impl OperatingSystemCommand {
    // The body of the command.
    pub(crate) fn body(&self) -> Body<'_>
        ensures bytes { bytes_of_body result ≡ body_of (command_of self.now) }
        ensures shown { shown_by_body result ≡ shown_body (command_of self.now) }
    {
        match self {
            OperatingSystemCommand::SetIconNameAndWindowTitle(text) => Body::Text("0;", text),
            OperatingSystemCommand::SetIconName(text) => Body::Text("1;", text),
            OperatingSystemCommand::SetWindowTitle(text) => Body::Text("2;", text),
            OperatingSystemCommand::CurrentWorkingDirectory(text) => Body::Text("7;", text),
            OperatingSystemCommand::SetHyperlink(Some(link)) => Body::Link(link),
            OperatingSystemCommand::SetHyperlink(None) => Body::Text("8;;", ""),
            OperatingSystemCommand::SetSelection(selection, text) => {
                Body::SelectionText(*selection, text)
            }
            OperatingSystemCommand::QuerySelection(selection) => Body::Selection(*selection, ";?"),
            OperatingSystemCommand::ClearSelection(selection) => Body::Selection(*selection, ""),
            OperatingSystemCommand::Unspecified(parts) => Body::Parts(parts),
        }
    }
}

// The body as text, with U+FFFD in place of each ill-formed sequence of bytes in a part.
impl fmt::Display for Body<'_> {
    ghost output = { λ body. Some (shown_by_body body) };

    fn fmt<W: fmt::Write>(&self, f: &mut fmt::Formatter<W>) -> fmt::Result {
        match self {
            Body::Text(code, text) => write!(f, "{code}{text}"),
            Body::Link(link) => write!(f, "{link}"),
            Body::Selection(selection, rest) => {
                let letters = Letters(*selection);
                write!(f, "52;{letters}{rest}")
            }
            Body::SelectionText(selection, text) => {
                let letters = Letters(*selection);
                let text = Base64(text.as_bytes());
                write!(f, "52;{letters};{text}")
            }
            Body::Parts(parts) => {
                let parts = LossyParts(parts);
                write!(f, "{parts}")
            }
        }
    }
}

impl Body<'_> {
    // Appends the bytes of the body. Where memory is refused, what was appended before stays.
    #[tactic(auto, using(crate::proofs::AppendLemmas::kept))]
    pub(crate) fn append_to(&self, dest: &mut Vec<u8>) -> Result<(), AllocError>
        ensures ok { OnOk result (dest.new.items ≡ dest.old.items ++ bytes_of_body self.now) }
        ensures err { take (length dest.old.items) dest.new.items ≡ dest.old.items }
    {
        match self {
            Body::Text(code, text) => {
                dest.extend_from_slice(code.as_bytes())?;
                dest.extend_from_slice(text.as_bytes())
            }
            Body::Link(link) => append_link(link, dest),
            Body::Selection(selection, rest) => {
                dest.extend_from_slice(b"52;")?;
                append_letters(*selection, dest)?;
                dest.extend_from_slice(rest.as_bytes())
            }
            Body::SelectionText(selection, text) => {
                dest.extend_from_slice(b"52;")?;
                append_letters(*selection, dest)?;
                dest.push(b';')?;
                append_base64(text.as_bytes(), dest)
            }
            Body::Parts(parts) => append_joined(parts, dest),
        }
    }
}

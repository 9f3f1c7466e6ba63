//! Actions that encode a change, borrowed from it.
ghost use Rattle.std.specs.Prelude.{◌≡◌, ◌++◌, Some, length, take, IfOk, OnOk, option_map};
ghost use Rattle.escape_osc.specs.Command.{set_hyperlink, set_window_title};
ghost use Rattle.escape_osc.specs.CommandView.{command_of};
ghost use Rattle.escape_osc.specs.Text.{text_of};
ghost use Rattle.escape_stream.specs.StreamAction.{command as stream_command};
ghost use Rattle.escape_stream.specs.StreamActionView.{value_of};
ghost use Rattle.escape_stream.specs.StreamText.{action_text};
ghost use Rattle.terminal_render.specs.BorrowedActionView.{borrowed_value};

use crate::moves::Move;
use cell_base::Hyperlink;
use csi_codec::{CSI, Edit, Mode, Sgr};
use escape_osc::OperatingSystemCommand;
use escape_stream::{Action, ControlCode};
use std::alloc::{AllocError, Global};
use std::rc::Rc;

/// An action that encodes a change.
#[derive(Clone, Copy)]
pub(crate) enum BorrowedAction<'a> {
    /// SGR.
    Setting(Sgr),
    /// A move of the cursor.
    Move(Move),
    /// An edit: ED, EL, SU or SD.
    Edit(Edit),
    /// A mode that is set or reset.
    Mode(Mode),
    /// A control character.
    Control(ControlCode),
    /// Characters that are printed.
    Text(&'a str),
    /// OSC 2.
    Title(&'a str),
    /// OSC 8: a link, or the end of one.
    Link(Option<&'a Rc<Hyperlink>>),
}

// OSC 2 as a command, with a copy of the title.
fn title_command(alloc: Global, title: &str) -> Result<OperatingSystemCommand, AllocError>
    ensures { IfOk result (λ c. command_of c ≡ set_window_title title.now) }
{
    let title = String::from_str(alloc, title)?;
    Ok(OperatingSystemCommand::SetWindowTitle(title))
}

// OSC 8 as a command: a link, or the end of one.
fn link_command(link: Option<&Rc<Hyperlink>>) -> Result<OperatingSystemCommand, AllocError>
    ensures { IfOk result (λ c. command_of c ≡ set_hyperlink (option_map (λ l. l.now.value) link.entry)) }
{
    let link = match link {
        Some(link) => Some(link.clone()?),
        None => None,
    };
    Ok(OperatingSystemCommand::SetHyperlink(link))
}

// A command as an action.
fn command_action(alloc: Global, command: OperatingSystemCommand) -> Result<Action, AllocError>
    ensures { IfOk result (λ action. value_of action ≡ stream_command (command_of command)) }
{
    Ok(Action::OperatingSystemCommand(Box::new(alloc, command)?))
}

// Appends the bytes of OSC 2.
fn append_title(title: &str, bytes: &mut Vec<u8>) -> Result<(), AllocError>
    ensures ok { OnOk result (bytes.new.items ≡ bytes.old.items ++ text_of (set_window_title title.now)) }
    ensures prefix { take (length bytes.old.items) bytes.new.items ≡ bytes.old.items }
{
    bytes.extend_from_slice(b"\x1b]2;")?;
    bytes.extend_from_slice(title.as_bytes())?;
    bytes.extend_from_slice(b"\x1b\\")
}

// Appends the bytes of OSC 8 with a link.
#[inline(never)]
fn append_linked(link: &Rc<Hyperlink>, bytes: &mut Vec<u8>) -> Result<(), AllocError>
    ensures ok { OnOk result (bytes.new.items ≡ bytes.old.items ++ text_of (set_hyperlink (Some link.now.value))) }
    ensures prefix { take (length bytes.old.items) bytes.new.items ≡ bytes.old.items }
{
    let command = OperatingSystemCommand::SetHyperlink(Some(link.clone()?));
    command.append_bytes_to(bytes)
}

// Appends the bytes of OSC 8. Every pen without a link encodes the end of a link, so that is a constant.
fn append_link(link: Option<&Rc<Hyperlink>>, bytes: &mut Vec<u8>) -> Result<(), AllocError>
    ensures ok { OnOk result
        (bytes.new.items ≡ bytes.old.items ++ text_of (set_hyperlink (option_map (λ l. l.now.value) link.entry))) }
    ensures prefix { take (length bytes.old.items) bytes.new.items ≡ bytes.old.items }
{
    match link {
        Some(link) => append_linked(link, bytes),
        None => bytes.extend_from_slice(b"\x1b]8;;\x1b\\"),
    }
}

impl<'a> BorrowedAction<'a> {
    /// The action as one that owns its texts.
    pub(crate) fn to_action(self, alloc: Global) -> Result<Action, AllocError>
        ensures { IfOk result (λ action. value_of action ≡ borrowed_value self.entry) }
    {
        match self {
            BorrowedAction::Setting(value) => Ok(Action::CSI(CSI::Sgr(value))),
            BorrowedAction::Move(step) => Ok(Action::CSI(CSI::Cursor(step.cursor()))),
            BorrowedAction::Edit(edit) => Ok(Action::CSI(CSI::Edit(edit))),
            BorrowedAction::Mode(mode) => Ok(Action::CSI(CSI::Mode(mode))),
            BorrowedAction::Control(code) => Ok(Action::Control(code)),
            BorrowedAction::Text(text) => Ok(Action::PrintString(String::from_str(alloc, text)?)),
            BorrowedAction::Title(title) => command_action(alloc, title_command(alloc, title)?),
            BorrowedAction::Link(link) => command_action(alloc, link_command(link)?),
        }
    }

    /// Appends the bytes of the action. Where memory is refused, some of them may have been appended.
    pub(crate) fn append_to(self, bytes: &mut Vec<u8>) -> Result<(), AllocError>
        ensures ok { OnOk result (bytes.new.items ≡ bytes.old.items ++ action_text (borrowed_value self.entry)) }
        ensures prefix { take (length bytes.old.items) bytes.new.items ≡ bytes.old.items }
    {
        match self {
            BorrowedAction::Setting(value) => CSI::Sgr(value).append_bytes_to(bytes),
            BorrowedAction::Move(step) => CSI::Cursor(step.cursor()).append_bytes_to(bytes),
            BorrowedAction::Edit(edit) => CSI::Edit(edit).append_bytes_to(bytes),
            BorrowedAction::Mode(mode) => CSI::Mode(mode).append_bytes_to(bytes),
            BorrowedAction::Control(code) => bytes.extend_from_slice(&[code.to_u8()]),
            BorrowedAction::Text(text) => bytes.extend_from_slice(text.as_bytes()),
            BorrowedAction::Title(title) => append_title(title, bytes),
            BorrowedAction::Link(link) => append_link(link, bytes),
        }
    }
}

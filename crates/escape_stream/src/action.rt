//! The actions of a stream.
ghost use Rattle.std.specs.Prelude.{◌≡◌, ◌++◌, IfOk, OnErr, OnOk, map};
ghost use Rattle.std.specs.String.{string_bytes};
ghost use Rattle.escape_stream.specs.StreamAction.{appended, is_print, printed};
ghost use Rattle.escape_stream.specs.Joining.{JoinsLast, JoinsPair};
ghost use Rattle.escape_stream.specs.StreamActionView.{value_of};

use crate::control::ControlCode;
use crate::device::DeviceControlMode;
use csi_codec::{CSI, Esc};
use escape_osc::OperatingSystemCommand;
use std::alloc::{AllocError, Global};

/// One action that a stream of bytes asks of a terminal.
#[derive(Debug, PartialEq, Eq, Drop)]
pub enum Action {
    /// Prints a character.
    Print(char),
    /// Prints characters.
    PrintString(String),
    /// A C0 control or DEL.
    Control(ControlCode),
    /// A part of a device control string (DCS).
    DeviceControl(DeviceControlMode),
    /// An operating system command (OSC).
    OperatingSystemCommand(Box<OperatingSystemCommand>),
    /// An action of a control sequence (CSI).
    CSI(CSI),
    /// An ESC pair.
    Esc(Esc),
}

impl Action {
    /// A copy.
    pub fn try_clone(&self, alloc: Global) -> Result<Self, AllocError>
        ensures { IfOk result (λ copy. value_of copy ≡ value_of self.now) }
    {
        match self {
            Action::Print(character) => Ok(Action::Print(*character)),
            Action::PrintString(text) => Ok(Action::PrintString(text.clone()?)),
            Action::Control(code) => Ok(Action::Control(*code)),
            Action::DeviceControl(part) => Ok(Action::DeviceControl(part.try_clone(alloc)?)),
            Action::OperatingSystemCommand(command) => {
                let copy = command.try_clone()?;
                Ok(Action::OperatingSystemCommand(Box::new(alloc, copy)?))
            }
            Action::CSI(sequence) => Ok(Action::CSI(sequence.try_clone(alloc)?)),
            Action::Esc(pair) => Ok(Action::Esc(*pair)),
        }
    }

    /// Appends the action to `dest`. A print after a print is joined with it as one `PrintString`. Where memory is
    /// refused, `dest` keeps its value, and the action is dropped.
    pub fn append_to(self, dest: &mut Vec<Action>) -> Result<(), AllocError>
        ensures ok { OnOk result
            (map value_of dest.new.items ≡ appended (map value_of dest.old.items) (value_of self)) }
        ensures err { OnErr result (map value_of dest.new.items ≡ map value_of dest.old.items) }
    {
        let joined = join_last(*dest.allocator(), dest, &self)?;
        if !joined {
            dest.push(self)?;
        }
        Ok(())
    }

    /// Whether the action prints characters.
    fn is_print(&self) -> bool
        ensures { result ≡ is_print (value_of self.now) }
    {
        matches!(self, Action::Print(_) | Action::PrintString(_))
    }
}

/// Joins a print with the last action, if that is a print too, and returns whether it did.
fn join_last(alloc: Global, actions: &mut [Action], next: &Action) -> Result<bool, AllocError>
    ensures ok { IfOk result
        (λ joined. JoinsLast (map value_of actions.old) (value_of next.now) joined (map value_of actions.new)) }
    ensures err { OnErr result (map value_of actions.new ≡ map value_of actions.old) }
{
    match actions.len() {
        0 => Ok(false),
        count => join(alloc, &mut actions[count - 1], next),
    }
}

/// Joins a print with the action before it, if that is a print too, and returns whether it did.
fn join(alloc: Global, last: &mut Action, next: &Action) -> Result<bool, AllocError>
    ensures ok { IfOk result (λ joined. JoinsPair (value_of last.old) (value_of next.now) joined (value_of last.new)) }
    ensures err { OnErr result (value_of last.new ≡ value_of last.old) }
{
    if !next.is_print() {
        return Ok(false);
    }
    match last {
        Action::Print(character) => {
            let mut text = String::new(alloc);
            text.push(*character)?;
            add_print(&mut text, next)?;
            *last = Action::PrintString(text);
            Ok(true)
        }
        Action::PrintString(text) => {
            add_print(text, next)?;
            Ok(true)
        }
        _ => Ok(false),
    }
}

/// Appends the characters that an action prints to a text.
fn add_print(text: &mut String, next: &Action) -> Result<(), AllocError>
    ensures ok { OnOk result (string_bytes text.new ≡ string_bytes text.old ++ printed (value_of next.now)) }
    ensures err { OnErr result (string_bytes text.new ≡ string_bytes text.old) }
{
    match next {
        Action::Print(character) => text.push(*character),
        Action::PrintString(more) => text.push_str(more),
        _ => Ok(()),
    }
}

//! The actions of events that are not control sequences.
ghost use Rattle.std.specs.Prelude.{◌≡◌, IfOk, OnErr, map};
ghost use Rattle.escape_framing.specs.Lending.{Lending};
ghost use Rattle.escape_osc.specs.CommandView.{command_of};
ghost use Rattle.escape_osc.specs.Parts.{parts_of};
ghost use Rattle.escape_osc.specs.Reading.{osc_reading};
ghost use Rattle.escape_stream.specs.Controls.{control_named};
ghost use Rattle.escape_stream.specs.Sequences.{FirstTakes, optional_action, own_actions};
ghost use Rattle.escape_stream.specs.StreamAction.{command, enter};
ghost use Rattle.escape_stream.specs.StreamActionView.{value_of};
ghost use Rattle.escape_stream.specs.StreamActions.{named_control};

use crate::action::Action;
use crate::control::ControlCode;
use crate::device::{DeviceControlMode, EnterDeviceControlMode};
use crate::fast::command_of_short;
use csi_codec::Esc;
use escape_framing::Event;
use escape_osc::OperatingSystemCommand;
use std::alloc::{AllocError, Global};

// A control by its name.
fn control_action(byte: u8) -> Option<Action>
    ensures { optional_action result ≡ named_control (control_named byte) }
{
    ControlCode::from_u8(byte).map(Action::Control)
}

// The parts of a body, which is cut at each `;`.
fn parts(alloc: Global, body: &[u8]) -> Result<Vec<&[u8]>, AllocError>
    ensures { IfOk result (λ parts. map (λ p. p.now) parts.items ≡ parts_of body.now) }
{
    body.split(|byte| *byte == b';').collect(alloc)
}

// The command of a body of any count of parts, read from a list of them.
#[inline(never)]
fn command_of_all(alloc: Global, body: &[u8]) -> Result<OperatingSystemCommand, AllocError>
    ensures { IfOk result (λ c. command_of c ≡ osc_reading (parts_of body.now)) }
{
    let parts = parts(alloc, body)?;
    OperatingSystemCommand::parse(alloc, &parts)
}

// The command of a body.
fn command_of_body(alloc: Global, body: &[u8]) -> Result<OperatingSystemCommand, AllocError>
    ensures { IfOk result (λ c. command_of c ≡ osc_reading (parts_of body.now)) }
{
    match command_of_short(alloc, body) {
        Some(command) => command,
        None => command_of_all(alloc, body),
    }
}

/// The command of a body, as an action.
pub(crate) fn command_action(alloc: Global, body: &[u8]) -> Result<Action, AllocError>
    ensures { IfOk result (λ action. value_of action ≡ command (osc_reading (parts_of body.now))) }
{
    let command = command_of_body(alloc, body)?;
    Ok(Action::OperatingSystemCommand(Box::new(alloc, command)?))
}

// The begin of a device control string.
fn enter_action(alloc: Global, header: &[u8], byte: u8) -> Result<Action, AllocError>
    ensures { IfOk result (λ action. value_of action ≡ enter header.now byte) }
{
    let header = Vec::from_slice(alloc, header)?;
    let opening = Box::new(alloc, EnterDeviceControlMode { header, byte })?;
    Ok(Action::DeviceControl(DeviceControlMode::Enter(opening)))
}

/// The action of an event, unless it is a control sequence, or a control without a name. `body` is the body that the
/// framer lends.
pub(crate) fn event_action(
    alloc: Global,
    event: Event,
    body: &[u8],
) -> Result<Option<Action>, AllocError>
    ensures action { (l : Lending) → l.body ≡ body.now
        → IfOk result (λ action. optional_action action ≡ own_actions l event) }
    ensures memory { (l : Lending) → OnErr result (FirstTakes (own_actions l event)) }
{
    let action = match event {
        Event::Print(character) => Action::Print(character),
        Event::Control(byte) => return Ok(control_action(byte)),
        Event::Escape {
            intermediate,
            control,
        } => Action::Esc(Esc::parse(intermediate, control)),
        Event::ControlSequence(_) => return Ok(None),
        Event::OperatingSystemCommand => command_action(alloc, body)?,
        Event::Enter(byte) => enter_action(alloc, body, byte)?,
        Event::Data(byte) => Action::DeviceControl(DeviceControlMode::Data(byte)),
        Event::Exit => Action::DeviceControl(DeviceControlMode::Exit),
    };
    Ok(Some(action))
}

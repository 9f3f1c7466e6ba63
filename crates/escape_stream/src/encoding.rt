//! The bytes of actions.
ghost use Rattle.std.specs.Prelude.{◌≡◌, ◌++◌, IfOk, OnOk, map};
ghost use Rattle.escape_stream.specs.StreamActionView.{device_value, value_of};
ghost use Rattle.escape_stream.specs.StreamText.{action_text, closes_string, is_string_terminator, stream_text};
ghost use Rattle.escape_stream.specs.StreamText.{text_after};

use crate::action::Action;
use crate::device::DeviceControlMode;
use csi_codec::{Esc, EscCode};
use std::alloc::{AllocError, Global};

/// The bytes of a list of actions: their texts joined (ECMA-48 5.4; prints in UTF-8), where a `StringTerminator`
/// directly after an operating system command or the end of a device control string is not written twice, since the
/// text of these ends in `ESC \`.
#[tactic(auto, using(crate::proofs::StreamLemmas::encode_next, crate::proofs::StreamLemmas::encode_end))]
pub fn encode(alloc: Global, actions: &[Action]) -> Result<Vec<u8>, AllocError>
    ensures { IfOk result (λ bytes. bytes.items ≡ stream_text (map value_of actions.now)) }
{
    let mut bytes = Vec::new(alloc);
    let mut closed = false;
    for action in actions {
        append_after(closed, action, &mut bytes)?;
        closed = closes_string(action);
    }
    Ok(bytes)
}

/// Whether the text of an action ends in a string terminator that closes it.
fn closes_string(action: &Action) -> bool
    ensures { result ≡ closes_string (value_of action.now) }
{
    matches!(
        action,
        Action::OperatingSystemCommand(_) | Action::DeviceControl(DeviceControlMode::Exit)
    )
}

/// Whether an action is the string terminator.
fn is_string_terminator(action: &Action) -> bool
    ensures { result ≡ is_string_terminator (value_of action.now) }
{
    matches!(action, Action::Esc(Esc::Code(EscCode::StringTerminator)))
}

/// Appends the bytes of an action, where `closed` says whether the action before it closed a string.
fn append_after(closed: bool, action: &Action, bytes: &mut Vec<u8>) -> Result<(), AllocError>
    ensures { OnOk result (bytes.new.items ≡ bytes.old.items ++ text_after closed (value_of action.now)) }
{
    if closed && is_string_terminator(action) {
        return Ok(());
    }
    append_text(action, bytes)
}

/// Appends the bytes of one action.
fn append_text(action: &Action, bytes: &mut Vec<u8>) -> Result<(), AllocError>
    ensures { OnOk result (bytes.new.items ≡ bytes.old.items ++ action_text (value_of action.now)) }
{
    match action {
        Action::Print(character) => {
            let mut buffer = [0; 4];
            bytes.extend_from_slice(character.encode_utf8(&mut buffer).as_bytes())
        }
        Action::PrintString(text) => bytes.extend_from_slice(text.as_bytes()),
        Action::Control(code) => {
            bytes.push(code.to_u8())?;
            Ok(())
        }
        Action::DeviceControl(part) => append_device_text(part, bytes),
        Action::OperatingSystemCommand(command) => command.append_bytes_to(bytes),
        Action::CSI(sequence) => sequence.append_bytes_to(bytes),
        Action::Esc(pair) => pair.append_bytes_to(bytes),
    }
}

/// Appends the bytes of a part of a device control string.
fn append_device_text(part: &DeviceControlMode, bytes: &mut Vec<u8>) -> Result<(), AllocError>
    ensures { OnOk result (bytes.new.items ≡ bytes.old.items ++ action_text (device_value part.now)) }
{
    match part {
        DeviceControlMode::Enter(opening) => {
            bytes.extend_from_slice(b"\x1bP")?;
            bytes.extend_from_slice(&opening.header)?;
            bytes.push(opening.byte)?;
            Ok(())
        }
        DeviceControlMode::Data(byte) => {
            bytes.push(*byte)?;
            Ok(())
        }
        DeviceControlMode::Exit => bytes.extend_from_slice(b"\x1b\\"),
    }
}

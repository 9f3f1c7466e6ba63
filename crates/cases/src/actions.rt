//! Actions as rows write them, in words close to their `Debug`.
use crate::fault::Fault;
use crate::sheet::Sheet;
use csi_codec::{CSI, Esc};
use escape_osc::OperatingSystemCommand;
use escape_stream::{Action, DeviceControlMode};
use std::alloc::Global;

// Writes a text without the `OneBased { value: .. }` around the numbers of lines and columns.
fn say_unwrapped(text: &str, sheet: &mut Sheet) {
    sheet.word("");
    let mut is_first = true;
    for piece in text.split("OneBased { value: ") {
        let cut = if is_first {
            None
        } else {
            piece.split_once(" }")
        };
        is_first = false;
        let (number, after) = cut.unwrap_or((piece, ""));
        sheet.add(number.as_bytes());
        sheet.add(after.as_bytes());
    }
}

/// An action of a control sequence: its `Debug` with lines and columns as numbers; an `Unspecified` by its text.
pub fn say_csi(alloc: Global, action: &CSI, sheet: &mut Sheet) {
    if let CSI::Unspecified(left) = action {
        sheet.word(if left.parameters_truncated {
            "Truncated("
        } else {
            "Unspecified("
        });
        sheet.add_shown(&**left);
        sheet.add(b")");
        return;
    }
    match format!(in alloc; "{action:?}") {
        Ok(text) => say_unwrapped(text.as_str(), sheet),
        Err(_) => sheet.fail(Fault::Memory),
    }
}

/// A pair: the name of its code, or its `Debug`.
pub fn say_esc(pair: &Esc, sheet: &mut Sheet) {
    match pair {
        Esc::Code(code) => sheet.debug(code),
        Esc::Unspecified { .. } => sheet.debug(pair),
    }
}

/// A command: its `Debug`; an `Unspecified` by its parts joined by `;`.
pub fn say_command(command: &OperatingSystemCommand, sheet: &mut Sheet) {
    let OperatingSystemCommand::Unspecified(parts) = command else {
        sheet.debug(command);
        return;
    };
    sheet.word("Unspecified(");
    let mut is_first = true;
    for part in parts {
        if !is_first {
            sheet.add(b";");
        }
        is_first = false;
        sheet.add(part);
    }
    sheet.add(b")");
}

// A part of a device control string.
fn say_device(part: &DeviceControlMode, sheet: &mut Sheet) {
    match part {
        DeviceControlMode::Enter(opening) => {
            sheet.word("Enter(");
            sheet.add(&opening.header);
            sheet.add(&[opening.byte]);
            sheet.add(b")");
        }
        DeviceControlMode::Data(byte) => {
            sheet.word("Data(");
            sheet.add_hex(*byte);
            sheet.add(b")");
        }
        DeviceControlMode::Exit => sheet.word("Exit"),
    }
}

/// An action: a print between quotes, a control by its name, every other action as above.
pub fn say_action(alloc: Global, action: &Action, sheet: &mut Sheet) {
    match action {
        Action::Print(character) => {
            sheet.word("'");
            sheet.add_shown(character);
            sheet.add(b"'");
        }
        Action::PrintString(text) => sheet.quoted(text.as_str()),
        Action::Control(code) => sheet.debug(code),
        Action::DeviceControl(part) => say_device(part, sheet),
        Action::OperatingSystemCommand(command) => say_command(command, sheet),
        Action::CSI(sequence) => say_csi(alloc, sequence, sheet),
        Action::Esc(Esc::Code(code)) => {
            sheet.word("Esc(");
            sheet.add_debug(code);
            sheet.add(b")");
        }
        Action::Esc(pair) => sheet.debug(pair),
    }
}

/// Actions, one after the other.
pub fn say_actions(alloc: Global, actions: &[Action], sheet: &mut Sheet) {
    for action in actions {
        say_action(alloc, action, sheet);
    }
}

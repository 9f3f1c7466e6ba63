//! Commands of the operating system (OSC), read and written.
use crate::outcome::{Outcome, all};
use crate::tally::Tally;
use escape_osc::OperatingSystemCommand;
use std::alloc::Global;
use std::io::Write;

// Bodies of commands of each kind, each of which is also the body of the written command.
const BODIES: [&str; 12] = [
    "0;t",
    "1;t",
    "2;a;b",
    "7;file;x",
    "8;a=1:id=x;u;v",
    "8;;",
    "52;c;aGVsbG8=",
    "52;c;?",
    "52;c",
    "9;x",
    "8;bad;u",
    "",
];

// Whether a command equals its copy.
fn has_copy(command: &OperatingSystemCommand) -> Outcome {
    Ok(command.try_clone()? == *command)
}

// Whether the bytes of a command are this text.
fn has_bytes(alloc: Global, command: &OperatingSystemCommand, text: &str) -> Outcome {
    let mut bytes = Vec::new(alloc);
    command.append_bytes_to(&mut bytes)?;
    Ok(bytes.as_slice() == text.as_bytes())
}

// Whether a text is that of the command with this body.
fn is_text(text: &str, body: &str) -> bool {
    match text.strip_prefix("\x1b]") {
        Some(rest) => rest.strip_suffix("\x1b\\") == Some(body),
        None => false,
    }
}

// A command of some parts: its copy, and what is written for it.
fn is_command(alloc: Global, body: &str) -> Outcome {
    let parts: Vec<&[u8]> = body.as_bytes().split(|byte| *byte == b';').collect(alloc)?;
    let command = OperatingSystemCommand::parse(alloc, &parts)?;
    let text = command.to_string(alloc)?;
    all(&[
        has_copy(&command),
        has_bytes(alloc, &command, text.as_str()),
        Ok(is_text(text.as_str(), body)),
    ])
}

// Commands of each kind.
fn commands(alloc: Global) -> Outcome {
    for body in BODIES {
        if !is_command(alloc, body)? {
            return Ok(false);
        }
    }
    Ok(true)
}

/// Checks operating system commands.
pub fn check<W: Write>(alloc: Global, tally: &mut Tally<W>) {
    tally.take("commands", commands(alloc));
}

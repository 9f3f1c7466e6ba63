//! Reading the parts of a body as a command.

ghost use Rattle.std.specs.Prelude.{◌≡◌, map, option_map, IfOk};
ghost use Rattle.std.specs.String.{string_bytes};
ghost use Rattle.base64.specs.Engines.{standard};
ghost use Rattle.base64.specs.GeneralPurpose.{decoded_of};
ghost use Rattle.escape_osc.specs.CommandView.{command_of};
ghost use Rattle.escape_osc.specs.Reading.{utf8_reading, text_reading, base64_reading, data_reading, clear_reading};
ghost use Rattle.escape_osc.specs.Reading.{lettered_reading, selection_command, link_command, coded_reading};
ghost use Rattle.escape_osc.specs.Reading.{fitting_reading, osc_reading};
ghost use Rattle.escape_osc.specs.Selection.{bits_of};

use crate::command::OperatingSystemCommand;
use crate::parts::{any_holds_c1, append_joined, copied};
use crate::selection::Selection;
use base64::DecodeAllocError;
use base64::engine::general_purpose::STANDARD;
use cell_base::{Hyperlink, LinkError};
use std::alloc::{AllocError, Global};
use std::rc::Rc;

// The bytes as a text, where they are UTF-8.
#[tactic(auto, using(crate::proofs::ReadingLemmas::utf8_no))]
fn utf8(bytes: Vec<u8>) -> Option<String>
    ensures { option_map string_bytes result ≡ utf8_reading bytes.items }
{
    match String::from_utf8(bytes) {
        Ok(text) => Some(text),
        Err(_) => None,
    }
}

// The text of the parts after a code, joined by `;`, if there is a part and the text is UTF-8.
#[tactic(auto, unfolding(crate::specs::Reading::text_reading))]
fn read_text(alloc: Global, rest: &[&[u8]]) -> Result<Option<String>, AllocError>
    ensures { IfOk result (λ o. option_map string_bytes o ≡ text_reading (map (λ p. p.now) rest.now)) }
{
    if rest.is_empty() {
        return Ok(None);
    }
    let mut text = Vec::new(alloc);
    append_joined(rest, &mut text)?;
    Ok(utf8(text))
}

// The bytes that `text` encodes, if it is canonical base64.
#[tactic(auto, unfolding(base64::specs::GeneralPurpose::decoded_of))]
fn decoded(alloc: Global, text: &[u8]) -> Result<Option<Vec<u8>>, AllocError>
    ensures { IfOk result (λ o. option_map (λ v. v.items) o ≡ decoded_of standard text.now) }
{
    match STANDARD.decode(alloc, text) {
        Ok(bytes) => Ok(Some(bytes)),
        Err(DecodeAllocError::DecodeError(_)) => Ok(None),
        Err(DecodeAllocError::OutOfMemory) => Err(AllocError),
    }
}

// The text that `text` encodes, if it is canonical base64 of UTF-8.
#[tactic(auto, unfolding(crate::specs::Reading::base64_reading))]
fn read_base64(alloc: Global, text: &[u8]) -> Result<Option<String>, AllocError>
    ensures { IfOk result (λ o. option_map string_bytes o ≡ base64_reading text.now) }
{
    match decoded(alloc, text)? {
        Some(bytes) => Ok(utf8(bytes)),
        None => Ok(None),
    }
}

// The command of the text after the letters: `?` asks for the selection, base64 sets it.
#[tactic(auto, unfolding(crate::specs::Reading::data_reading))]
fn read_data(
    alloc: Global,
    selection: Selection,
    text: &[u8],
) -> Result<Option<OperatingSystemCommand>, AllocError>
    ensures { IfOk result (λ o. option_map command_of o ≡ data_reading (bits_of selection) text.now) }
{
    if text == b"?".as_slice() {
        return Ok(Some(OperatingSystemCommand::QuerySelection(selection)));
    }
    let text = read_base64(alloc, text)?;
    Ok(text.map(|text| OperatingSystemCommand::SetSelection(selection, text)))
}

// The command of letters with nothing after them, which clears a selection.
#[tactic(auto, unfolding(crate::specs::Reading::clear_reading))]
fn read_clear(letters: &[u8]) -> Option<OperatingSystemCommand>
    ensures { option_map command_of result ≡ clear_reading letters.now }
{
    Selection::from_letters(letters).map(OperatingSystemCommand::ClearSelection)
}

// The command of letters with a text after them, if they encode one.
#[tactic(auto, unfolding(crate::specs::Reading::lettered_reading))]
fn read_lettered(
    alloc: Global,
    letters: &[u8],
    text: &[u8],
) -> Result<Option<OperatingSystemCommand>, AllocError>
    ensures { IfOk result (λ o. option_map command_of o ≡ lettered_reading letters.now text.now) }
{
    match Selection::from_letters(letters) {
        Some(selection) => read_data(alloc, selection, text),
        None => Ok(None),
    }
}

// The command of the parts after `52`, if they encode one.
#[tactic(auto, using(crate::proofs::ReadingLemmas::selection_more))]
fn read_selection(
    alloc: Global,
    rest: &[&[u8]],
) -> Result<Option<OperatingSystemCommand>, AllocError>
    ensures { IfOk result (λ o. option_map command_of o ≡ selection_command (map (λ p. p.now) rest.now)) }
{
    match rest {
        [letters] => Ok(read_clear(letters)),
        [letters, text] => read_lettered(alloc, letters, text),
        _ => Ok(None),
    }
}

// The command of all parts of an OSC 8, if they encode a link or the end of one.
#[tactic(auto, using(crate::proofs::ReadingLemmas::link_read), unfolding(crate::specs::Reading::link_command))]
fn read_link(alloc: Global, parts: &[&[u8]]) -> Result<Option<OperatingSystemCommand>, AllocError>
    ensures { IfOk result (λ o. option_map command_of o ≡ link_command (map (λ p. p.now) parts.now)) }
{
    let link = match Hyperlink::parse(alloc, parts) {
        Ok(Some(link)) => Some(Rc::new(alloc, link)?),
        Ok(None) => None,
        Err(LinkError::Memory) => return Err(AllocError),
        Err(LinkError::PartCount | LinkError::Utf8 | LinkError::Params) => return Ok(None),
    };
    Ok(Some(OperatingSystemCommand::SetHyperlink(link)))
}

// The command of a code, the parts after it (`rest`) and all parts (`parts`), if they encode one.
#[tactic(auto, unfolding(crate::specs::Reading::coded_reading))]
fn read_coded(
    alloc: Global,
    code: &[u8],
    rest: &[&[u8]],
    parts: &[&[u8]],
) -> Result<Option<OperatingSystemCommand>, AllocError>
    ensures { IfOk result (λ o. option_map command_of o
        ≡ coded_reading code.now (map (λ p. p.now) rest.now) (map (λ p. p.now) parts.now)) }
{
    if code == b"0".as_slice() {
        Ok(read_text(alloc, rest)?.map(OperatingSystemCommand::SetIconNameAndWindowTitle))
    } else if code == b"1".as_slice() {
        Ok(read_text(alloc, rest)?.map(OperatingSystemCommand::SetIconName))
    } else if code == b"2".as_slice() {
        Ok(read_text(alloc, rest)?.map(OperatingSystemCommand::SetWindowTitle))
    } else if code == b"7".as_slice() {
        Ok(read_text(alloc, rest)?.map(OperatingSystemCommand::CurrentWorkingDirectory))
    } else if code == b"8".as_slice() {
        read_link(alloc, parts)
    } else if code == b"52".as_slice() {
        read_selection(alloc, rest)
    } else {
        Ok(None)
    }
}

// The command of all parts, if they fit a code.
fn read_fitting(
    alloc: Global,
    parts: &[&[u8]],
) -> Result<Option<OperatingSystemCommand>, AllocError>
    ensures { IfOk result (λ o. option_map command_of o ≡ fitting_reading (map (λ p. p.now) parts.now)) }
{
    match parts.split_first() {
        Some((code, rest)) => read_coded(alloc, code, rest, parts),
        None => Ok(None),
    }
}

impl OperatingSystemCommand {
    /// Reads a command from the parts of its body, which is cut at each `;`. Parts that fit no code are
    /// `Unspecified` with the same parts, and so are parts that hold one of U+0080 to U+009F. It fails
    /// only where memory is refused.
    pub fn parse(alloc: Global, parts: &[&[u8]]) -> Result<OperatingSystemCommand, AllocError>
        ensures { IfOk result (λ command. command_of command
            ≡ osc_reading (map (λ p. p.now) parts.now)) }
    {
        if !any_holds_c1(parts)
            && let Some(command) = read_fitting(alloc, parts)?
        {
            return Ok(command);
        }
        Ok(OperatingSystemCommand::Unspecified(copied(alloc, parts)?))
    }
}

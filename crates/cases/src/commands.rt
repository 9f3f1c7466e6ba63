//! Commands of the operating system (OSC), selections and links.
use crate::actions::say_command;
use crate::fault::Fault;
use crate::row::Row;
use crate::sheet::Sheet;
use bitflags::Flags;
use cell_base::{Hyperlink, LinkError};
use escape_osc::{OperatingSystemCommand, Selection};
use std::alloc::Global;

// The parts of a body between `;`.
fn parts_of(alloc: Global, body: &[u8]) -> Result<Vec<&[u8]>, Fault> {
    Ok(body.split(|byte| *byte == b';').collect(alloc)?)
}

// The bytes between `ESC ]` and `ESC \`.
fn body_in(bytes: &[u8]) -> Option<&[u8]> {
    bytes.strip_prefix(b"\x1b]")?.strip_suffix(b"\x1b\\")
}

// The body of a command that was written.
fn say_body(bytes: &[u8], sheet: &mut Sheet) {
    sheet.column();
    match body_in(bytes) {
        Some(body) => sheet.add(body),
        None => sheet.word("(not between ESC ] and ESC \\)"),
    }
}

// Writes a command, whether it differs from its copy, and its body.
fn say_written(
    alloc: Global,
    command: &OperatingSystemCommand,
    sheet: &mut Sheet,
) -> Result<(), Fault> {
    say_command(command, sheet);
    let copy = command.try_clone()?;
    sheet.word_if(copy != *command, "(its copy differs)");
    let mut bytes = Vec::new(alloc);
    command.append_bytes_to(&mut bytes)?;
    say_body(&bytes, sheet);
    let text = command.to_string(alloc)?;
    say_body(text.as_bytes(), sheet);
    Ok(())
}

/// `BODY => COMMAND | BODY | BODY`: what the parts of a body between `;` are read as, the body that is written for it
/// as bytes, and as a text; each equal to its copy.
pub fn osc(row: &Row<'_>, sheet: &mut Sheet) -> Result<(), Fault> {
    let body = row.bytes(0)?;
    let parts = parts_of(row.alloc(), &body)?;
    let command = OperatingSystemCommand::parse(row.alloc(), &parts)?;
    say_written(row.alloc(), &command, sheet)
}

/// `NAME => BITS`: the bits of the selection with this name, from which the same selection is made; `none` where no
/// selection has this name.
pub fn selection(row: &Row<'_>, sheet: &mut Sheet) -> Result<(), Fault> {
    match Selection::from_name(row.column(0)) {
        Some(selection) => {
            let bits = selection.bits();
            sheet.show(&bits);
            let same = Selection::from_bits(bits);
            sheet.word_if(same != Some(selection), "(whose bits name another)");
            sheet.word_if(!Selection::all().contains(selection), "(not among all)");
        }
        None => sheet.word("none"),
    }
    Ok(())
}

/// `PARTS => TEXT`: what the parts between `;` are read as, as a text: a link, `none`, or why they are no link.
pub fn link(row: &Row<'_>, sheet: &mut Sheet) -> Result<(), Fault> {
    let body = row.bytes(0)?;
    let parts = parts_of(row.alloc(), &body)?;
    match Hyperlink::parse(row.alloc(), &parts) {
        Ok(Some(link)) => sheet.show(&link),
        Ok(None) => sheet.word("none"),
        Err(LinkError::Memory) => sheet.fail(Fault::Memory),
        Err(error) => sheet.show(&error),
    }
    Ok(())
}

//! Events of streams.
use crate::fault::Fault;
use crate::row::Row;
use crate::sheet::Sheet;
use escape_framing::{Event, Framer, Read};

// The tokens of a control sequence in brackets, with `!` after them where some were dropped.
fn say_parameters(framer: &Framer, sheet: &mut Sheet) {
    sheet.word("CSI[");
    for token in framer.parameters() {
        sheet.add_shown(token);
    }
    sheet.add(if framer.parameters_truncated() {
        b"]!"
    } else {
        b"]"
    });
}

// A name, bytes in brackets, and bytes after them.
fn say_body(name: &str, body: &[u8], after: &[u8], sheet: &mut Sheet) {
    sheet.word(name);
    sheet.add(b"[");
    sheet.add(body);
    sheet.add(b"]");
    sheet.add(after);
}

// A character between quotes.
fn say_character(character: char, sheet: &mut Sheet) {
    sheet.word("'");
    sheet.add_shown(&character);
    sheet.add(b"'");
}

// Writes an event: a character between quotes, a control or data by its number, an escape sequence after ESC, and the
// contents of every other event in brackets.
fn say_event(framer: &Framer, event: Event, sheet: &mut Sheet) {
    match event {
        Event::Print(character) => say_character(character, sheet),
        Event::Control(byte) => {
            sheet.word("^");
            sheet.add_hex(byte);
        }
        Event::Escape {
            intermediate,
            control,
        } => {
            sheet.word("ESC");
            if let Some(byte) = intermediate {
                sheet.add(&[byte]);
            }
            sheet.add(&[control]);
        }
        Event::ControlSequence(control) => {
            say_parameters(framer, sheet);
            sheet.add(&[control]);
        }
        Event::OperatingSystemCommand => say_body("OSC", framer.body(), b"", sheet),
        Event::Enter(byte) => say_body("DCS", framer.body(), &[byte], sheet),
        Event::Data(byte) => {
            sheet.word("=");
            sheet.add_hex(byte);
        }
        Event::Exit => sheet.word("END"),
    }
}

// How often a byte is handed to the framer at most: up to three times the framer reads none of it, and closes
// something that the byte ends.
const READS: usize = 4;

// What a byte hands out.
fn say_fed(framer: &mut Framer, byte: u8, sheet: &mut Sheet) -> Result<(), Fault> {
    for _ in 0..READS {
        match framer.next(&[byte])? {
            Read::Text(_) => {
                say_character(char::from(byte), sheet);
                return Ok(());
            }
            Read::Bytes { event, count } => {
                if let Some(event) = event {
                    say_event(framer, event, sheet);
                }
                if count == 1 {
                    return Ok(());
                }
            }
        }
    }
    Ok(())
}

// Writes what some bytes hand out, with a word after the events of each byte, if there is one.
fn say_all(
    framer: &mut Framer,
    bytes: &[u8],
    mark: Option<&str>,
    sheet: &mut Sheet,
) -> Result<(), Fault> {
    for byte in bytes {
        say_fed(framer, *byte, sheet)?;
        if let Some(mark) = mark {
            sheet.word(mark);
        }
    }
    Ok(())
}

/// `BYTES => EVENTS | idle or open`: what a stream hands out, and whether something is unfinished after it.
pub fn framing(row: &Row<'_>, sheet: &mut Sheet) -> Result<(), Fault> {
    let bytes = row.bytes(0)?;
    let mut framer = Framer::new(row.alloc());
    say_all(&mut framer, &bytes, None, sheet)?;
    sheet.column();
    sheet.word(if framer.is_idle() { "idle" } else { "open" });
    Ok(())
}

/// `BYTES => EVENTS`: what a stream hands out, with a `/` after the events of each byte.
pub fn positions(row: &Row<'_>, sheet: &mut Sheet) -> Result<(), Fault> {
    let bytes = row.bytes(0)?;
    say_all(&mut Framer::new(row.alloc()), &bytes, Some("/"), sheet)
}

//! `Recording`: the size and the events of a terminal, read from an input.
ghost use Rattle.std.specs.Prelude.{◌≡◌, IfOk, codes, map, option_and_then, option_map};
ghost use Rattle.json.specs.Find.{as_array, get};
ghost use Rattle.json.specs.Value.{items_view, value_view};
ghost use Rattle.recordings.specs.Events.{json_of};
ghost use Rattle.recordings.specs.RecordingView.{reading_of, recording_value};
ghost use Rattle.recordings.specs.Recordings.{bad_recording, bytes_recording, items_read, lines_of, lines_read};
ghost use Rattle.recordings.specs.Recordings.{list_read, reading_first, recording_in, recording_of, recording_read};
ghost use Rattle.recordings.specs.Recordings.{whole_recording};

use crate::entry::json_of;
use crate::event::{Act, Event};
use crate::fault::{BadLine, Fault};
use crate::header::{Head, Version, read_head, whole_head};
use crate::reader::Reader;
use crate::size::Size;
use json::{Scratch, Value};
use std::alloc::{AllocError, Global};

/// A recording: the size and the events of a terminal.
#[derive(Debug, Drop)]
pub struct Recording {
    /// The size of the terminal at first.
    pub size: Size,
    /// Whether its header says that the application ran under `TERM=rilqamyn`, the project's own terminal description.
    pub has_own_term: bool,
    /// The events in the order of their times.
    pub events: Vec<Event>,
    /// The line that is wrong, if one is; nothing was read of it and after it.
    pub fault: Option<BadLine>,
}

// The lines of an input, without the line feeds after them.
fn lines_of(alloc: Global, input: &[u8]) -> Result<Vec<&[u8]>, AllocError>
    ensures { IfOk result (λ lines. map (λ line. line.now) lines.items ≡ lines_of input.now) }
{
    input.split(|byte| *byte == b'\n').collect(alloc)
}

// A reader after the lines that follow a header.
fn read_lines(alloc: Global, version: Version, lines: &[&[u8]]) -> Result<Reader, AllocError>
    ensures { IfOk result (λ reading.
        reading_of reading ≡ lines_read 2 (reading_first version) (map (λ line. line.now) lines.now)) }
{
    let mut reading = Reader::new(alloc, version);
    for at in 0..lines.len() {
        reading.read_line(alloc, at + 2, at + 1 == lines.len(), lines[at])?;
    }
    Ok(reading)
}

// The recording of the bytes of an application.
fn bytes_recording(alloc: Global, size: Size, input: &[u8]) -> Result<Recording, AllocError>
    ensures { IfOk result (λ recording. recording_value recording ≡ bytes_recording size.width size.height input.now) }
{
    let mut bytes = Vec::new(alloc);
    bytes.extend_from_slice(input)?;
    let mut events = Vec::new(alloc);
    events.push(Event {
        time: 0,
        act: Act::Output(bytes),
    })?;
    Ok(Recording {
        size,
        has_own_term: false,
        events,
        fault: None,
    })
}

// A recording whose header is wrong.
fn bad_recording(alloc: Global, size: Size, fault: Fault) -> Recording
    ensures { recording_value result ≡ bad_recording size.width size.height fault }
{
    Recording {
        size,
        has_own_term: false,
        events: Vec::new(alloc),
        fault: Some(BadLine { line: 1, fault }),
    }
}

// A recording with a header.
fn lines_recording(
    alloc: Global,
    version: Version,
    size: Size,
    has_own_term: bool,
    lines: &[&[u8]],
) -> Result<Recording, AllocError>
    ensures { IfOk result
        (λ recording. recording_value recording
        ≡ recording_read size.width size.height has_own_term
        (lines_read 2 (reading_first version) (map (λ line. line.now) lines.now))) }
{
    let Reader { events, fault, .. } = read_lines(alloc, version, lines)?;
    Ok(Recording {
        size,
        has_own_term,
        events,
        fault,
    })
}

// A reader after the events of version 1.
fn read_items(alloc: Global, version: Version, events: &[Value<'_>]) -> Result<Reader, AllocError>
    ensures { IfOk result
        (λ reading. reading_of reading ≡ items_read (reading_first version) (items_view events.now)) }
{
    let mut reading = Reader::new(alloc, version);
    for event in events {
        reading.read_item(alloc, event)?;
    }
    Ok(reading)
}

// A reader after the events in the member `stdout`, which is to be a list.
fn read_list(alloc: Global, version: Version, whole: &Value<'_>) -> Result<Reader, AllocError>
    ensures { IfOk result (λ reading. reading_of reading
        ≡ list_read (option_and_then as_array (get (codes "stdout") (value_view whole.now))) (reading_first version)) }
{
    match whole.get("stdout") {
        Some(Value::Array(events)) => read_items(alloc, version, events),
        _ => {
            let mut reading = Reader::new(alloc, version);
            reading.refuse_list();
            Ok(reading)
        }
    }
}

// The recording of version 1 that an input is, if it is one.
fn whole_recording(alloc: Global, size: Size, input: &[u8]) -> Result<Option<Recording>, AllocError>
    ensures { IfOk result (λ recording. option_map recording_value recording
        ≡ whole_recording size.width size.height (json_of input.now)) }
{
    let mut scratch = Scratch::new(alloc);
    let Some(whole) = json_of(alloc, input, &mut scratch)? else {
        return Ok(None);
    };
    match whole_head(&whole) {
        Head::Bytes => Ok(None),
        Head::Bad(fault) => Ok(Some(bad_recording(alloc, size, fault))),
        Head::Recorded(version, size, has_own_term) => {
            let Reader { events, fault, .. } = read_list(alloc, version, &whole)?;
            Ok(Some(Recording {
                size,
                has_own_term,
                events,
                fault,
            }))
        }
    }
}

// The recording in the lines of an input.
fn recording_in(alloc: Global, size: Size, input: &[u8]) -> Result<Recording, AllocError>
    ensures { IfOk result (λ recording.
        recording_value recording ≡ recording_in size.width size.height input.now (lines_of input.now)) }
{
    let lines = lines_of(alloc, input)?;
    let Some((first, remaining)) = lines.split_first() else {
        return bytes_recording(alloc, size, input);
    };
    match read_head(alloc, first)? {
        Head::Bytes => bytes_recording(alloc, size, input),
        Head::Bad(fault) => Ok(bad_recording(alloc, size, fault)),
        Head::Recorded(version, size, has_own_term) => {
            lines_recording(alloc, version, size, has_own_term, remaining)
        }
    }
}

/// Reads a recording: asciicast of version 1, where the input is one object of JSON with the version 1; or of version 2
/// or 3, where the first line is an object of JSON with a member `version` that is a number; or else the bytes of an
/// application, which are all written at the beginning to a terminal of this size.
///
/// Of a recording its size, its TERM, its outputs (`o`) and its resizes (`r`) are read; events of other codes and empty
/// lines are skipped, and in version 3 lines that begin with `#`. Times are decimal numbers of seconds; fractions of a
/// microsecond are cut off. Those of versions 1 and 3 are from one event, of any code, to the next, and their sums are
/// exact. Takes memory in proportion to the input.
#[tactic(auto, unfolding(crate::specs::Recordings::recording_of))]
pub fn read_recording(alloc: Global, size: Size, input: &[u8]) -> Result<Recording, AllocError>
    ensures { IfOk result (λ recording. recording_value recording ≡ recording_of size.width size.height input.now) }
{
    match whole_recording(alloc, size, input)? {
        Some(recording) => Ok(recording),
        None => recording_in(alloc, size, input),
    }
}

//! A recording that is read event by event.
ghost use Rattle.std.specs.Prelude.{◌≡◌, IfOk, OnOk, None, Ok, option_map};
ghost use Rattle.json.specs.Value.{value_view};
ghost use Rattle.recordings.specs.Events.{entry_in, json_of};
ghost use Rattle.recordings.specs.EventView.{act_of, entry_of, line_act_of};
ghost use Rattle.recordings.specs.Recordings.{is_passed_over, item_read, line_read, list_read, reading_first};
ghost use Rattle.recordings.specs.Recordings.{time_after, with_act, with_entry, with_fault, with_value};
ghost use Rattle.recordings.specs.RecordingView.{reading_of};

use crate::entry::{Entry, LineAct, delayed_entry, entry_in, json_of};
use crate::event::{Act, Event};
use crate::fault::{BadLine, Fault};
use crate::header::Version;
use json::{Scratch, Value};
use std::alloc::{AllocError, Global};

/// The part of a recording that was read so far.
#[derive(Drop)]
pub(crate) struct Reader {
    pub(crate) version: Version,
    /// The time of the last event, in microseconds.
    pub(crate) time: u64,
    pub(crate) events: Vec<Event>,
    /// The line that is wrong, after which nothing is read.
    pub(crate) fault: Option<BadLine>,
}

// Whether a line is skipped: an empty line, and in version 3 a comment, which begins with `#`.
fn is_passed_over(version: Version, line: &[u8]) -> bool
    ensures { result ≡ is_passed_over version line.now }
{
    match version {
        Version::One => false,
        Version::Two => line.is_empty(),
        Version::Three => line.is_empty() || line[0] == b'#',
    }
}

const TOO_LATE: u64 = 1 << 63;

// The time after an event, from the time before it and the event's own time: in version 2 the event's time, if it has
// an act; in versions 1 and 3 the sum of both.
fn time_after(version: Version, before: u64, time: u64, is_done: bool) -> Result<u64, Fault>
    ensures { result ≡ time_after version before time is_done }
{
    match version {
        Version::Two if !is_done => Ok(before),
        Version::Two if before <= time => Ok(time),
        Version::Two => Err(Fault::Back),
        Version::One | Version::Three => {
            let time = before.saturating_add(time);
            if time < TOO_LATE {
                Ok(time)
            } else {
                Err(Fault::Late)
            }
        }
    }
}

fn act_of(alloc: Global, act: LineAct<'_>) -> Result<Act, AllocError>
    ensures { IfOk result (λ made. act_of made ≡ line_act_of act.entry) }
{
    match act {
        LineAct::Output(text) => {
            let mut bytes = Vec::new(alloc);
            bytes.extend_from_slice(text.as_bytes())?;
            Ok(Act::Output(bytes))
        }
        LineAct::Resize(size) => Ok(Act::Resize(size)),
    }
}

impl Reader {
    /// A reader after the header.
    pub(crate) fn new(alloc: Global, version: Version) -> Reader
        ensures { reading_of result ≡ reading_first version }
    {
        Reader {
            version,
            time: 0,
            events: Vec::new(alloc),
            fault: None,
        }
    }

    fn refuse(&mut self, number: usize, fault: Fault)
        ensures { reading_of self.new ≡ with_fault number fault (reading_of self.old) }
    {
        self.fault = Some(BadLine {
            line: number,
            fault,
        });
    }

    // Adds an event with an act, if there is one, and sets the time.
    fn add(&mut self, alloc: Global, time: u64, act: Option<LineAct<'_>>) -> Result<(), AllocError>
        ensures { OnOk result
            (reading_of self.new ≡ with_act time (option_map line_act_of act.entry) (reading_of self.old)) }
    {
        if let Some(act) = act {
            let act = act_of(alloc, act)?;
            self.events.push(Event { time, act })?;
        }
        self.time = time;
        Ok(())
    }

    // Takes the time and the act of an event.
    fn take_entry(
        &mut self,
        alloc: Global,
        number: usize,
        entry: Entry<'_>,
    ) -> Result<(), AllocError>
        ensures { OnOk result
            (reading_of self.new ≡ with_entry number (Ok (entry_of entry.entry)) (reading_of self.old)) }
    {
        match time_after(self.version, self.time, entry.time, entry.act.is_some()) {
            Ok(time) => self.add(alloc, time, entry.act)?,
            Err(fault) => self.refuse(number, fault),
        }
        Ok(())
    }

    // Takes the value of a line.
    fn take_value(
        &mut self,
        alloc: Global,
        number: usize,
        value: &Value<'_>,
    ) -> Result<(), AllocError>
        ensures { OnOk result
            (reading_of self.new ≡ with_entry number (entry_in (value_view value.now)) (reading_of self.old)) }
    {
        match entry_in(value) {
            Ok(entry) => self.take_entry(alloc, number, entry)?,
            Err(fault) => self.refuse(number, fault),
        }
        Ok(())
    }

    // Takes a line that is not passed over.
    fn take_line(
        &mut self,
        alloc: Global,
        number: usize,
        is_last: bool,
        line: &[u8],
    ) -> Result<(), AllocError>
        ensures { OnOk result
            (reading_of self.new ≡ with_value number is_last (json_of line.now) (reading_of self.old)) }
    {
        let mut scratch = Scratch::new(alloc);
        match json_of(alloc, line, &mut scratch)? {
            Some(value) => self.take_value(alloc, number, &value)?,
            None if is_last => self.refuse(number, Fault::CutOff),
            None => self.refuse(number, Fault::NotJson),
        }
        Ok(())
    }

    /// Reads an event of version 1.
    #[tactic(auto, unfolding(crate::specs::Recordings::item_read))]
    pub(crate) fn read_item(&mut self, alloc: Global, event: &Value<'_>) -> Result<(), AllocError>
        ensures { OnOk result (reading_of self.new ≡ item_read (reading_of self.old) (value_view event.now)) }
    {
        if self.fault.is_some() {
            return Ok(());
        }
        match delayed_entry(event) {
            Ok(entry) => self.take_entry(alloc, 1, entry)?,
            Err(fault) => self.refuse(1, fault),
        }
        Ok(())
    }

    /// Notes that the events of version 1 are no list.
    pub(crate) fn refuse_list(&mut self)
        ensures { reading_of self.new ≡ list_read None (reading_of self.old) }
    {
        self.refuse(1, Fault::Outputs);
    }

    /// Reads the line of a number, which may be the last one.
    #[tactic(auto, unfolding(crate::specs::Recordings::line_read))]
    pub(crate) fn read_line(
        &mut self,
        alloc: Global,
        number: usize,
        is_last: bool,
        line: &[u8],
    ) -> Result<(), AllocError>
        ensures { OnOk result (reading_of self.new ≡ line_read number is_last (reading_of self.old) line.now) }
    {
        if self.fault.is_some() || is_passed_over(self.version, line) {
            return Ok(());
        }
        self.take_line(alloc, number, is_last, line)?;
        Ok(())
    }
}

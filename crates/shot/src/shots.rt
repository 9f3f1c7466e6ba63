//! The screens of a recording.
ghost use Rattle.std.specs.Prelude.{◌≡◌, ◌<◌, ◌≤◌, ◌*◌, ◌^◌, [], ◌∷◌, ℕ, List, map, IfOk, OnErr, OnOk};
ghost use Rattle.std.specs.Io.KnownBytes.{Appends};
ghost use Rattle.recordings.specs.EventView.{event_of};
ghost use Rattle.recordings.specs.RecordingView.{recording_value};
ghost use Rattle.shot.specs.Shots.{count_below, last_time, multiples, pictures, shots, times_after, times_of};
ghost use Rattle.shot.specs.Writing.{IsWriting};
ghost use Rattle.terminal.specs.Headline.{StandsAt};
ghost use Rattle.terminal.specs.Shown.{AppendsPrefix};
ghost use Rattle.terminal_table.specs.Meaning.{View};

use crate::error::ShotError;
use crate::format::Format;
use crate::play::{Screen, write_screen};
use crate::sink::Sink;
use recordings::{Event, Recording};
use std::alloc::Global;
use terminal::{Profile, ProgramWidth, Terminal};

// The time of the last event, or 0.
fn last_time(events: &[Event]) -> u64
    ensures { result ≡ last_time (map event_of events.now) }
{
    if events.is_empty() {
        return 0;
    }
    events[events.len() - 1].time
}

// How many multiples of a step from 1 on are below a time.
fn count_below(step: u64, time: u64) -> u64
    ensures count { result ≡ count_below step time }
    ensures below { result * step ≤ time }
{
    if step == 0 {
        return 0;
    }
    time.saturating_sub(1) / step
}

// Writes the screens at `count` times, each a step after the one before it; returns the events after the last one.
fn write_steps<'a, T: Sink>(
    alloc: Global,
    terminal: &mut Screen,
    events: &'a [Event],
    step: u64,
    count: u64,
    format: Format,
    writer: &mut T,
) -> Result<&'a [Event], ShotError>
    requires { count * step < 2 ^ 64 }
    ensures writes { IfOk result
        (λ rest. (view : View) → StandsAt terminal.old view
        → IsWriting format view (map event_of events.entry.now) step count terminal.new (map event_of rest.now)
        (count * step) count 0 (T.contents writer.old) (T.contents writer.new)) }
    ensures part { OnErr result ((view : View) → StandsAt terminal.old view → (remaining : List ℕ)
        → AppendsPrefix (T.contents writer.old) (T.contents writer.new)
        (pictures format view (map event_of events.entry.now) (times_after 0 step count remaining))) }
{
    let mut rest = events;
    let mut time = 0;
    let mut number = 0;
    let mut left = count;
    while left > 0 {
        left -= 1;
        time += step;
        rest = write_screen(alloc, terminal, rest, time, number, format, writer)?;
        number += 1;
    }
    Ok(rest)
}

// Writes the screens at the multiples of a step below the end, and at the end.
fn write_whole<T: Sink>(
    alloc: Global,
    terminal: &mut Screen,
    events: &[Event],
    step: u64,
    end: u64,
    format: Format,
    writer: &mut T,
) -> Result<(), ShotError>
    ensures writes { OnOk result ((view : View) → StandsAt terminal.old view
        → Appends (T.contents writer.old) (T.contents writer.new)
        (pictures format view (map event_of events.now) (multiples step end (end ∷ [])))) }
    ensures part { OnErr result ((view : View) → StandsAt terminal.old view
        → AppendsPrefix (T.contents writer.old) (T.contents writer.new)
        (pictures format view (map event_of events.now) (multiples step end (end ∷ [])))) }
{
    let count = count_below(step, end);
    let rest = write_steps(alloc, terminal, events, step, count, format, writer)?;
    write_screen(alloc, terminal, rest, end, count, format, writer)?;
    Ok(())
}

// Writes the screens at the multiples of a step below the end.
fn write_part<T: Sink>(
    alloc: Global,
    terminal: &mut Screen,
    events: &[Event],
    step: u64,
    end: u64,
    format: Format,
    writer: &mut T,
) -> Result<(), ShotError>
    ensures writes { OnOk result ((view : View) → StandsAt terminal.old view
        → Appends (T.contents writer.old) (T.contents writer.new)
        (pictures format view (map event_of events.now) (multiples step end []))) }
    ensures part { OnErr result ((view : View) → StandsAt terminal.old view
        → AppendsPrefix (T.contents writer.old) (T.contents writer.new)
        (pictures format view (map event_of events.now) (multiples step end []))) }
{
    let count = count_below(step, end);
    write_steps(alloc, terminal, events, step, count, format, writer)?;
    Ok(())
}

/// The requested screens of a recording.
#[derive(Clone, Copy, Debug, PartialEq, Eq)]
pub struct Shots {
    /// The form of each screen.
    pub format: Format,
    /// The time of the last screen, in microseconds; without it the time of the last event.
    pub at: Option<u64>,
    /// There is also a screen at each multiple of this many microseconds before that time, if this isn't 0.
    pub step: u64,
}

// Writes the requested screens of a recording, which is played to a new terminal.
fn write_by<T: Sink>(
    alloc: Global,
    terminal: &mut Screen,
    recording: &Recording,
    asked: Shots,
    writer: &mut T,
) -> Result<(), ShotError>
    ensures writes { OnOk result
        ((view : View) → StandsAt terminal.old view
        → Appends (T.contents writer.old) (T.contents writer.new)
        (pictures asked.format view (recording_value recording.now).events
        (times_of asked.at asked.step (recording_value recording.now)))) }
    ensures part { OnErr result
        ((view : View) → StandsAt terminal.old view
        → AppendsPrefix (T.contents writer.old) (T.contents writer.new)
        (pictures asked.format view (recording_value recording.now).events
        (times_of asked.at asked.step (recording_value recording.now)))) }
{
    let events = recording.events.as_slice();
    let last = last_time(events);
    let end = asked.at.unwrap_or(last);
    if recording.fault.is_none() || end < last {
        write_whole(
            alloc,
            terminal,
            events,
            asked.step,
            end,
            asked.format,
            writer,
        )?;
    } else {
        write_part(
            alloc,
            terminal,
            events,
            asked.step,
            last,
            asked.format,
            writer,
        )?;
    }
    Ok(())
}

/// Plays a recording to a new terminal of its size and of a profile, and writes the screen at the requested time, as it
/// is after all events at that time or before it; and before that the screens at each multiple of the step below that
/// time. The terminal takes a look for each screen, in order. Of a recording with a line that is wrong only the screens
/// are written that no later event could change. After an error a prefix of the screens' bytes is written.
#[tactic(auto, using(crate::proofs::WriteLemmas::prefix_none))]
pub fn write_shots<T: Sink>(
    alloc: Global,
    recording: &Recording,
    asked: Shots,
    profile: Profile,
    writer: &mut T,
) -> Result<(), ShotError>
    ensures writes { OnOk result (Appends (T.contents writer.old) (T.contents writer.new)
        (shots asked.format asked.at asked.step profile (recording_value recording.now))) }
    ensures part { OnErr result (AppendsPrefix (T.contents writer.old) (T.contents writer.new)
        (shots asked.format asked.at asked.step profile (recording_value recording.now))) }
{
    let size = recording.size;
    let mut terminal = Terminal::with_profile(
        alloc,
        size.width,
        size.height,
        ProgramWidth,
        profile,
    )?;
    write_by(alloc, &mut terminal, recording, asked, writer)?;
    Ok(())
}

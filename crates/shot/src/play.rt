//! A recording that is played to a terminal.
ghost use Rattle.std.specs.Prelude.{◌≡◌, [], ◌∷◌, map, IfOk, OnErr, OnOk};
ghost use Rattle.std.specs.List.{prefix_len};
ghost use Rattle.std.specs.Io.KnownBytes.{Appends};
ghost use Rattle.cell_base.specs.Cluster.{program_width};
ghost use Rattle.recordings.specs.EventView.{act_of, event_of};
ghost use Rattle.shot.specs.Play.{events_after, is_by, step_of, steps_of, until, view_at};
ghost use Rattle.shot.specs.Shots.{parted};
ghost use Rattle.terminal.specs.Headline.{GoesBy, StandsAt};
ghost use Rattle.terminal.specs.Shown.{AppendsPrefix};
ghost use Rattle.terminal_table.specs.Meaning.{View, after};

use crate::error::ShotError;
use crate::format::{Format, between, picture};
use crate::sink::Sink;
use recordings::{Act, Event};
use std::alloc::Global;
use terminal::{ProgramWidth, Terminal, TerminalError};

/// A terminal that recordings are played to.
pub type Screen = Terminal<ProgramWidth>;

// Plays an act to the terminal.
fn act(terminal: &mut Screen, act: &Act) -> Result<(), TerminalError>
    ensures { OnOk result (GoesBy (λ w. program_width) terminal.old terminal.new (step_of (act_of act.now) ∷ [])) }
{
    match act {
        Act::Output(bytes) => terminal.feed(bytes),
        Act::Resize(size) => terminal.resize(size.width, size.height),
    }
}

// Plays events to the terminal.
fn act_all(terminal: &mut Screen, events: &[Event]) -> Result<(), TerminalError>
    ensures { OnOk result ((view : View) → StandsAt terminal.old view
        → StandsAt terminal.new (after program_width view (steps_of (map event_of events.now)))) }
{
    for event in events {
        act(terminal, &event.act)?;
    }
    Ok(())
}

// How many of the first events are at a time or before it.
fn count_until(events: &[Event], time: u64) -> usize
    ensures { result ≡ prefix_len (λ event. is_by time (event_of event)) events.now }
{
    events.iter().take_while(|event| event.time <= time).count()
}

// Plays the events up to a time, and takes a look; returns the events after that time.
#[tactic(auto, unfolding(crate::specs::Play::view_at))]
fn play_until<'a>(
    terminal: &mut Screen,
    events: &'a [Event],
    time: u64,
) -> Result<&'a [Event], TerminalError>
    ensures stands { OnOk result ((view : View) → StandsAt terminal.old view
        → StandsAt terminal.new (view_at view (map event_of events.entry.now) time)) }
    ensures rest { IfOk result (λ rest. map event_of rest.now ≡ events_after time (map event_of events.entry.now)) }
{
    let (now, later) = events.split_at(count_until(events, time));
    act_all(terminal, now)?;
    terminal.settle()?;
    Ok(later)
}

/// Plays the events up to a time, and writes the screen after `number` other ones; returns the events after that time.
#[tactic(auto, using(crate::proofs::WriteLemmas::prefix_none))]
pub fn write_screen<'a, T: Sink>(
    alloc: Global,
    terminal: &mut Screen,
    events: &'a [Event],
    time: u64,
    number: u64,
    format: Format,
    writer: &mut T,
) -> Result<&'a [Event], ShotError>
    ensures stands { OnOk result ((view : View) → StandsAt terminal.old view
        → StandsAt terminal.new (view_at view (map event_of events.entry.now) time)) }
    ensures writes { OnOk result ((view : View) → StandsAt terminal.old view
        → Appends (T.contents writer.old) (T.contents writer.new)
        (parted format number (view_at view (map event_of events.entry.now) time).state.screen)) }
    ensures part { OnErr result ((view : View) → StandsAt terminal.old view
        → AppendsPrefix (T.contents writer.old) (T.contents writer.new)
        (parted format number (view_at view (map event_of events.entry.now) time).state.screen)) }
    ensures rest { IfOk result (λ rest. map event_of rest.now ≡ events_after time (map event_of events.entry.now)) }
{
    let rest = play_until(terminal, events, time)?;
    let text = picture(alloc, format, terminal.surface())?;
    writer.write_screen(number, between(format), &text)?;
    Ok(rest)
}

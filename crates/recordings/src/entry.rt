//! An event of a recording, read: its time and its act.
ghost use Rattle.std.specs.Prelude.{◌≡◌, IfOk, option_and_then, option_map};
ghost use Rattle.json.specs.Value.{value_view};
ghost use Rattle.recordings.specs.Events.{act_in, delayed_entry, entry_in, json_of, output_in, resize_in, resize_of};
ghost use Rattle.recordings.specs.Events.{text_at, time_in};
ghost use Rattle.recordings.specs.EventView.{entry_of, line_act_of, result_of};

use crate::fault::Fault;
use crate::numerals::{size_of, time_of};
use crate::size::Size;
use json::{Error, Scratch, Value};
use std::alloc::{AllocError, Global};
use std::str;

/// The act of an event.
#[derive(Clone, Copy, Debug)]
pub(crate) enum LineAct<'a> {
    Output(&'a str),
    Resize(Size),
}

/// The time of an event in microseconds, and its act, which only events of the codes `o` and `r` have.
#[derive(Clone, Copy, Debug)]
pub(crate) struct Entry<'a> {
    pub(crate) time: u64,
    pub(crate) act: Option<LineAct<'a>>,
}

/// The value of a line, or of an input, that is UTF-8 and JSON.
pub(crate) fn json_of<'a>(
    alloc: Global,
    line: &'a [u8],
    scratch: &'a mut Scratch,
) -> Result<Option<Value<'a>>, AllocError>
    ensures { IfOk result (λ value. option_map value_view value ≡ json_of line.now) }
{
    let Ok(text) = str::from_utf8(line) else {
        return Ok(None);
    };
    match Value::parse(alloc, text, scratch) {
        Ok(value) => Ok(Some(value)),
        Err(Error::Invalid) => Ok(None),
        Err(_) => Err(AllocError),
    }
}

// The size in a text like 80x24.
#[tactic(auto, unfolding(crate::specs::Events::resize_of))]
fn resize_of(text: &str) -> Option<LineAct<'_>>
    ensures { option_map line_act_of result ≡ resize_of text.now }
{
    let (width, height) = text.split_once('x')?;
    let width = size_of(width)?;
    let height = size_of(height)?;
    Some(LineAct::Resize(Size { width, height }))
}

fn output_in(text: Option<&str>) -> Result<Option<LineAct<'_>>, Fault>
    ensures { result_of (option_map line_act_of) result ≡ output_in (option_map (λ t. t.now) text.entry) }
{
    match text {
        Some(text) => Ok(Some(LineAct::Output(text))),
        None => Err(Fault::Data),
    }
}

fn resize_in(text: Option<&str>) -> Result<Option<LineAct<'_>>, Fault>
    ensures { result_of (option_map line_act_of) result
        ≡ resize_in (option_and_then resize_of (option_map (λ t. t.now) text.entry)) }
{
    let Some(text) = text else {
        return Err(Fault::Size);
    };
    match resize_of(text) {
        Some(act) => Ok(Some(act)),
        None => Err(Fault::Size),
    }
}

// The act of an event, by its code and its text.
#[tactic(auto, unfolding(crate::specs::Events::act_in))]
fn act_in<'a>(code: &str, text: Option<&'a str>) -> Result<Option<LineAct<'a>>, Fault>
    ensures { result_of (option_map line_act_of) result ≡ act_in code.now (option_map (λ t. t.now) text.entry) }
{
    match code {
        "o" => output_in(text),
        "r" => resize_in(text),
        _ => Ok(None),
    }
}

// An item of an event, if it is a text.
fn text_at<'a>(event: &Value<'a>, index: usize) -> Option<&'a str>
    ensures { option_map (λ t. t.now) result ≡ text_at index (value_view event.now) }
{
    event.at(index)?.as_str()
}

// The first item of an event, if it is a time.
fn time_in(event: &Value<'_>) -> Option<u64>
    ensures { result ≡ time_in (value_view event.now) }
{
    time_of(event.at(0)?.as_number()?)
}

/// The time and the act of an event.
#[tactic(auto, unfolding(crate::specs::Events::entry_in))]
pub(crate) fn entry_in<'a>(event: &Value<'a>) -> Result<Entry<'a>, Fault>
    ensures { result_of entry_of result ≡ entry_in (value_view event.now) }
{
    let Some(time) = time_in(event) else {
        return Err(Fault::Time);
    };
    let Some(code) = text_at(event, 1) else {
        return Err(Fault::Code);
    };
    match act_in(code, text_at(event, 2)) {
        Ok(act) => Ok(Entry { time, act }),
        Err(fault) => Err(fault),
    }
}

/// The time and the act of an event of version 1: a list of its delay and its output.
#[tactic(auto, unfolding(crate::specs::Events::delayed_entry))]
pub(crate) fn delayed_entry<'a>(event: &Value<'a>) -> Result<Entry<'a>, Fault>
    ensures { result_of entry_of result ≡ delayed_entry (value_view event.now) }
{
    let Some(time) = time_in(event) else {
        return Err(Fault::Time);
    };
    match output_in(text_at(event, 1)) {
        Ok(act) => Ok(Entry { time, act }),
        Err(fault) => Err(fault),
    }
}

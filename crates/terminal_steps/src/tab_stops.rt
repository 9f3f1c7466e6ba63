//! Tab stops of the profile xterm (HTS, TBC): of each of the first columns, whether it is one; of the columns after
//! them each that 8 divides is one.
ghost use Rattle.std.specs.Prelude.{◌≡◌, ◌<◌, ◌≤◌, OnOk};
ghost use Rattle.terminal_table.specs.TabStops.{is_stop, next_stop, no_stops, stop_before, stops_back, stops_on};
ghost use Rattle.terminal_table.specs.TabStops.{with_stop};

use std::alloc::AllocError;

// Whether a column is a stop.
fn is_stop(stops: &[bool], column: usize) -> bool
    ensures { result ≡ is_stop stops.now column }
{
    match stops.get(column) {
        Some(stop) => *stop,
        None => column % 8 == 0,
    }
}

/// A column is a stop, or none.
pub(crate) fn set_stop(stops: &mut Vec<bool>, column: usize, stop: bool) -> Result<(), AllocError>
    ensures { OnOk result (stops.new.items ≡ with_stop column stop stops.old.items) }
{
    while stops.len() <= column {
        stops.push(stops.len() % 8 == 0)?;
    }
    stops[column] = stop;
    Ok(())
}

/// No column of so many is a stop.
pub(crate) fn clear_stops(stops: &mut Vec<bool>, width: usize) -> Result<(), AllocError>
    ensures { OnOk result (stops.new.items ≡ no_stops width) }
{
    stops.clear();
    for _ in 0..width {
        stops.push(false)?;
    }
    Ok(())
}

// The next stop past a column, or the last column.
fn next_stop(stops: &[bool], width: usize, column: usize) -> usize
    requires { column < width }
    ensures value { result ≡ next_stop stops.now width column }
    ensures within { result < width }
{
    let last = width - 1;
    let mut next = column + 1;
    while next < last && !is_stop(stops, next) {
        next += 1;
    }
    next.min(last)
}

// The last stop before a column, or the first column.
fn stop_before(stops: &[bool], column: usize) -> usize
    ensures value { result ≡ stop_before stops.now column }
    ensures within { result ≤ column }
{
    let mut before = column;
    while 0 < before {
        before -= 1;
        if is_stop(stops, before) {
            return before;
        }
    }
    0
}

/// The column that is so many stops on from a column, or the last one.
pub(crate) fn stops_on(stops: &[bool], width: usize, column: usize, count: u32) -> usize
    requires { column < width }
    ensures value { result ≡ stops_on stops.now width column count }
    ensures within { result < width }
{
    let mut at = column;
    for _ in 0..count {
        let next = next_stop(stops, width, at);
        if next == at {
            return at;
        }
        at = next;
    }
    at
}

/// The column that is so many stops back from a column, or the first one.
pub(crate) fn stops_back(stops: &[bool], column: usize, count: u32) -> usize
    ensures value { result ≡ stops_back stops.now column count }
    ensures within { result ≤ column }
{
    let mut at = column;
    for _ in 0..count {
        if at == 0 {
            return 0;
        }
        at = stop_before(stops, at);
    }
    at
}

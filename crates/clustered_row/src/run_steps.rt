//! Steps of which edits of runs are made: positions of columns, and runs that grow.
ghost use Rattle.std.specs.Prelude.{◌≡◌, [], ◌∷◌, ◌++◌, ◌+◌, ◌-◌, ◌<◌, ◌≤◌, ◌↔◌, length, take, drop, replicate};
ghost use Rattle.std.specs.Prelude.{slice_index_or, slice_set, vec_len, vec_capacity, IfOk, OnOk, OnErr, IsTrue};
ghost use Rattle.std.specs.List.{insert};
ghost use Rattle.clustered_row.specs.Runs.{columns_of, spread, AreMaximal, attributes_set};
ghost use Rattle.clustered_row.specs.RunSteps.{counted, column_at, IsAt, IsLast, IsRoom, IsPosition, IsParted};
ghost use Rattle.clustered_row.specs.declared.run.Run.{Run};
ghost use Rattle.clustered_row.specs.declared.run.Position.{Position};

use crate::run::{Position, Run};
use cell_base::CellAttributes;
use std::alloc::{AllocError, Global};

// Whether a run has these attributes.
#[inline(always)]
fn has(run: &Run, attributes: &CellAttributes) -> bool
    ensures { IsTrue result ↔ (run.now.attributes ≡ attributes.now) }
{
    run.attributes == *attributes
}

// Sets the column count of the run at `at`.
fn set_count(runs: &mut Vec<Run>, at: usize, count: u32)
    requires { at < length runs.old.items }
    ensures items { (d : Run) → runs.new.items
        ≡ slice_set runs.old.items at (counted (slice_index_or runs.old.items at d) count) }
    ensures capacity { vec_capacity runs.new ≡ vec_capacity runs.old }
{
    let run = &mut runs[at];
    run.count = count;
}

// Adds `by` columns to the run at `at`.
#[inline(always)]
fn grow(runs: &mut Vec<Run>, at: usize, by: u32)
    requires within { at < length runs.old.items }
    requires fits { (run : Run) → IsAt runs.old.items at run → run.count + by ≤ 4294967295 }
    ensures { (run : Run) → IsAt runs.old.items at run
        → runs.new.items ≡ slice_set runs.old.items at (counted run (run.count + by)) }
{
    let run = &mut runs[at];
    run.count += by;
}

// The position `offset` columns after the first column of a run.
pub(crate) fn position_from(runs: &[Run], index: usize, offset: usize) -> Position
    requires within { index ≤ length runs.now }
    requires column { length (spread (take index runs.now)) + offset ≤ length (spread runs.now) }
    ensures position { IsPosition runs.now result }
    ensures column { column_at runs.now result ≡ length (spread (take index runs.now)) + offset }
    ensures order { index ≤ result.index }
{
    let mut at = index;
    let mut left = offset;
    while at < runs.len() {
        let count = runs[at].count as usize;
        if left < count {
            break;
        }
        left -= count;
        at += 1;
    }
    Position {
        index: at,
        offset: left,
    }
}

// The position of a column: in the last run, as in most calls, or searched from the first run on.
fn position_of(runs: &[Run], columns: usize, column: usize) -> Position
    requires columns { columns ≡ length (spread runs.now) }
    requires within { column < columns }
    ensures position { IsPosition runs.now result }
    ensures column { column_at runs.now result ≡ column }
    ensures within { result.index < length runs.now }
{
    let last = runs.len() - 1;
    let start = columns - runs[last].count as usize;
    if start <= column {
        return Position {
            index: last,
            offset: column - start,
        };
    }
    position_from(runs, 0, column)
}

/// The attributes of a column.
pub(crate) fn at(runs: &[Run], columns: usize, column: usize) -> &CellAttributes
    requires columns { columns ≡ length (spread runs.now) }
    requires within { column < columns }
    ensures { result.now ≡ slice_index_or (spread runs.now) column result.now }
{
    let position = position_of(runs, columns, column);
    &runs[position.index].attributes
}

// How many columns with these attributes the last run can count more.
#[inline(always)]
fn room_after(runs: &[Run], attributes: &CellAttributes) -> u32
    ensures { IsRoom runs.now attributes.now result }
{
    let len = runs.len();
    if len == 0 {
        return 0;
    }
    let last = &runs[len - 1];
    let count = last.count;
    if has(last, attributes) {
        return u32::MAX - count;
    }
    0
}

/// Adds columns with these attributes after the last.
#[inline(always)]
pub(crate) fn push(
    runs: &mut Vec<Run>,
    count: u32,
    attributes: &CellAttributes,
) -> Result<(), AllocError>
    requires { AreMaximal runs.old.items }
    ensures done { OnOk result (spread runs.new.items ≡ spread runs.old.items ++ replicate count attributes.now) }
    ensures refused { OnErr result (runs.new.items ≡ runs.old.items) }
    ensures maximal { AreMaximal runs.new.items }
{
    if count == 0 {
        return Ok(());
    }
    let room = room_after(runs, attributes);
    if count <= room {
        grow_last(runs, count);
        return Ok(());
    }
    push_run(runs, room, count - room, attributes)
}

// Adds `by` columns to the last run.
#[inline(always)]
fn grow_last(runs: &mut Vec<Run>, by: u32)
    requires some { 0 < length runs.old.items }
    requires fits { (last : Run) → IsLast runs.old.items last → last.count + by ≤ 4294967295 }
    requires maximal { AreMaximal runs.old.items }
    ensures columns { (last : Run) → IsLast runs.old.items last
        → spread runs.new.items ≡ spread runs.old.items ++ replicate by last.attributes }
    ensures maximal { AreMaximal runs.new.items }
{
    let last = runs.len() - 1;
    grow(runs, last, by);
}

// Adds columns: `room` to the last run, as many as it can count more, and a run of `count` more, at least one.
#[inline(always)]
fn push_run(
    runs: &mut Vec<Run>,
    room: u32,
    count: u32,
    attributes: &CellAttributes,
) -> Result<(), AllocError>
    requires room { IsRoom runs.old.items attributes.now room }
    requires some { 0 < count }
    requires maximal { AreMaximal runs.old.items }
    ensures done { OnOk result
        (spread runs.new.items ≡ spread runs.old.items ++ replicate (room + count) attributes.now) }
    ensures refused { OnErr result (runs.new.items ≡ runs.old.items) }
    ensures maximal { AreMaximal runs.new.items }
{
    let len = runs.len();
    runs.reserve(1)?;
    let attributes = attributes.try_clone()?;
    runs.push_reserved(Run { count, attributes });
    if room == 0 {
        return Ok(());
    }
    grow(runs, len - 1, room);
    Ok(())
}

// Drops at most `by` columns of the last run. Returns how many.
fn shorten(runs: &mut Vec<Run>, by: usize) -> usize
    requires some { 0 < by }
    requires within { by ≤ length (spread runs.old.items) }
    requires maximal { AreMaximal runs.old.items }
    ensures some { 0 < result }
    ensures most { result ≤ by }
    ensures columns { spread runs.new.items ≡ take (length (spread runs.old.items) - result) (spread runs.old.items) }
    ensures maximal { AreMaximal runs.new.items }
{
    let last = runs.len() - 1;
    let count = runs[last].count;
    if by < count as usize {
        set_count(runs, last, count - by as u32);
        return by;
    }
    runs.truncate(last);
    count as usize
}

/// Drops the columns from `at` on.
pub(crate) fn cut(runs: &mut Vec<Run>, columns: usize, at: usize)
    requires columns { columns ≡ length (spread runs.old.items) }
    requires within { at ≤ columns }
    requires maximal { AreMaximal runs.old.items }
    ensures columns { spread runs.new.items ≡ take at (spread runs.old.items) }
    ensures maximal { AreMaximal runs.new.items }
{
    let mut left = columns;
    while left > at {
        left -= shorten(runs, left - at);
    }
}

// Whether one run holds `count` columns from a position on, and has these attributes.
fn is_set(runs: &[Run], from: Position, count: usize, attributes: &CellAttributes) -> bool
    requires from { IsPosition runs.now from }
    requires within { from.index < length runs.now }
    requires some { 0 < count }
    ensures { IsTrue result → spread runs.now
        ≡ attributes_set (column_at runs.now from) (column_at runs.now from + count) attributes.now (spread runs.now) }
{
    let run = &runs[from.index];
    count <= run.count as usize - from.offset && has(run, attributes)
}

// Ends the columns before `from` with a run of their own, where `from` is within a run. Returns the number of their
// runs, and where the position `to` is then.
fn end_at(
    runs: &mut Vec<Run>,
    from: Position,
    to: Position,
) -> Result<(usize, Position), AllocError>
    requires from { IsPosition runs.old.items from }
    requires to { IsPosition runs.old.items to }
    requires order { from.index ≤ to.index }
    requires columns { column_at runs.old.items from < column_at runs.old.items to }
    requires fits { length (spread runs.old.items) ≤ 4294967295 }
    requires maximal { AreMaximal runs.old.items }
    requires room { vec_len runs.old + 2 ≤ vec_capacity runs.old }
    ensures parted { IfOk result (λ r. IsParted (column_at runs.old.items from) (column_at runs.old.items to)
        runs.old.items runs.new.items r.0 r.1) }
    ensures room { OnOk result (vec_len runs.new < vec_capacity runs.new) }
    ensures refused { OnErr result (runs.new.items ≡ runs.old.items) }
{
    if from.offset == 0 {
        return Ok((from.index, to));
    }
    if from.index == to.index {
        let position = split(runs, from, to)?;
        return Ok((position.index, position));
    }
    set_count(runs, from.index, from.offset as u32);
    Ok((from.index + 1, to))
}

// Makes two runs of one that holds both positions. Returns where the second position is then.
fn split(runs: &mut Vec<Run>, from: Position, to: Position) -> Result<Position, AllocError>
    requires from { IsPosition runs.old.items from }
    requires to { IsPosition runs.old.items to }
    requires one { from.index ≡ to.index }
    requires order { (0 < from.offset) × (from.offset < to.offset) }
    requires fits { length (spread runs.old.items) ≤ 4294967295 }
    requires maximal { AreMaximal runs.old.items }
    requires room { vec_len runs.old + 2 ≤ vec_capacity runs.old }
    ensures parted { IfOk result (λ position. IsParted (column_at runs.old.items from) (column_at runs.old.items to)
        runs.old.items runs.new.items position.index position) }
    ensures room { OnOk result (vec_len runs.new < vec_capacity runs.new) }
    ensures refused { OnErr result (runs.new.items ≡ runs.old.items) }
{
    let run = &runs[from.index];
    let count = run.count;
    let attributes = run.attributes.try_clone()?;
    let after = from.index + 1;
    runs.insert(
        after,
        Run {
            count: count - from.offset as u32,
            attributes,
        },
    )?;
    set_count(runs, from.index, from.offset as u32);
    Ok(Position {
        index: after,
        offset: to.offset - from.offset,
    })
}

// Begins the columns from a position on with a run of their own.
fn begin_at(runs: &mut Vec<Run>, position: Position)
    requires position { IsPosition runs.old.items position }
    requires fits { length (spread (drop position.index runs.old.items)) ≤ 4294967295 }
    requires maximal { AreMaximal (drop position.index runs.old.items) }
    ensures prefix { take position.index runs.new.items ≡ take position.index runs.old.items }
    ensures columns { spread (drop position.index runs.new.items)
        ≡ drop position.offset (spread (drop position.index runs.old.items)) }
    ensures maximal { AreMaximal (drop position.index runs.new.items) }
    ensures len { length runs.new.items ≡ length runs.old.items }
    ensures capacity { vec_capacity runs.new ≡ vec_capacity runs.old }
{
    if position.offset == 0 {
        return;
    }
    let count = runs[position.index].count;
    set_count(runs, position.index, count - position.offset as u32);
}

// Joins the run before index `kept` to `run`, where both have the same attributes. Returns how many runs remain before
// `run`.
fn join_before(runs: &[Run], kept: usize, run: &mut Run) -> usize
    requires within { kept ≤ length runs.now }
    requires some { 0 < run.old.count }
    requires fits { length (spread (take kept runs.now)) + run.old.count ≤ 4294967295 }
    requires maximal { AreMaximal (take kept runs.now) }
    ensures order { result ≤ kept }
    ensures columns { spread (take result runs.now) ++ columns_of run.new
        ≡ spread (take kept runs.now) ++ columns_of run.old }
    ensures attributes { run.new.attributes ≡ run.old.attributes }
    ensures maximal { AreMaximal (take result runs.now ++ run.new ∷ []) }
{
    if kept == 0 {
        return kept;
    }
    let previous = &runs[kept - 1];
    if !has(previous, &run.attributes) {
        return kept;
    }
    run.count += previous.count;
    kept - 1
}

// Joins the run at index `from` to `run`, where both have the same attributes. Returns the index at which the remaining
// runs begin.
fn join_after(runs: &[Run], from: usize, run: &mut Run) -> usize
    requires within { from ≤ length runs.now }
    requires some { 0 < run.old.count }
    requires fits { run.old.count + length (spread (drop from runs.now)) ≤ 4294967295 }
    requires maximal { AreMaximal (drop from runs.now) }
    ensures order { from ≤ result }
    ensures within { result ≤ length runs.now }
    ensures columns { columns_of run.new ++ spread (drop result runs.now)
        ≡ columns_of run.old ++ spread (drop from runs.now) }
    ensures attributes { run.new.attributes ≡ run.old.attributes }
    ensures some { 0 < run.new.count }
    ensures maximal { AreMaximal (run.new ∷ drop result runs.now) }
{
    if from == runs.len() {
        return from;
    }
    let after = &runs[from];
    if !has(after, &run.attributes) {
        return from;
    }
    run.count += after.count;
    from + 1
}

// Inserts the run at `at`.
fn put_in(runs: &mut Vec<Run>, at: usize, run: Run)
    requires within { at ≤ vec_len runs.old }
    requires room { vec_len runs.old < vec_capacity runs.old }
    ensures { runs.new.items ≡ insert runs.old.items at run }
{
    let _never = runs.insert(at, run);
}

// Replaces the run at `at`.
fn put(runs: &mut Vec<Run>, at: usize, run: Run)
    requires { at < vec_len runs.old }
    ensures { runs.new.items ≡ slice_set runs.old.items at run }
{
    runs[at] = run;
}

// Drops the runs from index `from` on and before index `to`.
fn remove(runs: &mut Vec<Run>, from: usize, to: usize)
    requires order { from ≤ to }
    requires within { to ≤ length runs.old.items }
    ensures { runs.new.items ≡ take from runs.old.items ++ drop to runs.old.items }
{
    if from == to {
        return;
    }
    let after = runs.len() - to;
    for k in 0..after {
        runs.swap(from + k, to + k);
    }
    runs.truncate(from + after);
}

// Replaces the runs from index `from` on and before index `to` by `run`.
fn replace(runs: &mut Vec<Run>, from: usize, to: usize, run: Run)
    requires order { from ≤ to }
    requires within { to ≤ length runs.old.items }
    requires room { vec_len runs.old < vec_capacity runs.old }
    ensures { runs.new.items ≡ take from runs.old.items ++ run ∷ drop to runs.old.items }
{
    if from == to {
        put_in(runs, from, run);
        return;
    }
    put(runs, from, run);
    remove(runs, from + 1, to);
}

// Puts the run between the first `kept` runs and `position`, joined with neighbours of the same attributes.
fn put_between(runs: &mut Vec<Run>, kept: usize, position: Position, run: Run)
    requires order { kept ≤ position.index }
    requires position { IsPosition runs.old.items position }
    requires some { 0 < run.count }
    requires part { length (spread (drop position.index runs.old.items)) ≤ 4294967295 }
    requires fits { length (spread (take kept runs.old.items)) + run.count
        + length (drop position.offset (spread (drop position.index runs.old.items))) ≤ 4294967295 }
    requires prefix { AreMaximal (take kept runs.old.items) }
    requires after { AreMaximal (drop position.index runs.old.items) }
    requires room { vec_len runs.old < vec_capacity runs.old }
    ensures columns { spread runs.new.items ≡ spread (take kept runs.old.items) ++ columns_of run
        ++ drop position.offset (spread (drop position.index runs.old.items)) }
    ensures maximal { AreMaximal runs.new.items }
{
    let mut run = run;
    begin_at(runs, position);
    let from = join_before(runs, kept, &mut run);
    let to = join_after(runs, position.index, &mut run);
    replace(runs, from, to, run);
}

// Gives `count` columns from a position on these attributes, where one run could count all columns.
#[inline(never)]
fn set_from(
    runs: &mut Vec<Run>,
    from: Position,
    count: usize,
    attributes: &CellAttributes,
) -> Result<(), AllocError>
    requires position { IsPosition runs.old.items from }
    requires fits { length (spread runs.old.items) ≤ 4294967295 }
    requires some { 0 < count }
    requires within { column_at runs.old.items from + count ≤ length (spread runs.old.items) }
    requires maximal { AreMaximal runs.old.items }
    ensures done { OnOk result
        (spread runs.new.items
        ≡ attributes_set (column_at runs.old.items from) (column_at runs.old.items from + count) attributes.now
        (spread runs.old.items)) }
    ensures refused { OnErr result (runs.new.items ≡ runs.old.items) }
    ensures maximal { AreMaximal runs.new.items }
{
    let to = position_from(runs, from.index, from.offset + count);
    runs.reserve(2)?;
    let run = Run {
        count: count as u32,
        attributes: attributes.try_clone()?,
    };
    let (kept, position) = end_at(runs, from, to)?;
    put_between(runs, kept, position, run);
    Ok(())
}

/// Gives the columns from `a` on, before `b`, these attributes, where one run could count all columns.
pub(crate) fn set(
    runs: &mut Vec<Run>,
    columns: usize,
    a: usize,
    b: usize,
    attributes: &CellAttributes,
) -> Result<(), AllocError>
    requires columns { columns ≡ length (spread runs.old.items) }
    requires fits { columns ≤ 4294967295 }
    requires order { a < b }
    requires within { b ≤ columns }
    requires maximal { AreMaximal runs.old.items }
    ensures done { OnOk result
        (spread runs.new.items ≡ attributes_set a b attributes.now (spread runs.old.items)) }
    ensures refused { OnErr result (runs.new.items ≡ runs.old.items) }
    ensures maximal { AreMaximal runs.new.items }
{
    let from = position_of(runs, columns, a);
    if is_set(runs, from, b - a, attributes) {
        return Ok(());
    }
    set_from(runs, from, b - a, attributes)
}

/// A copy of the runs.
pub(crate) fn copy(alloc: Global, runs: &[Run]) -> Result<Vec<Run>, AllocError>
    ensures { IfOk result (λ copy. copy.items ≡ runs.now) }
{
    let mut copy = Vec::with_capacity(alloc, runs.len())?;
    for run in runs {
        copy.push(Run {
            count: run.count,
            attributes: run.attributes.try_clone()?,
        })?;
    }
    Ok(copy)
}

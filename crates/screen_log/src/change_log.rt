//! `ChangeLog`: numbered changes, of which those are kept that may be due.
ghost use Rattle.std.specs.Prelude.{IfOk, ◌≡◌, ◌⊎◌, ◌+◌, ◌-◌, ◌<◌, ◌≤◌, ◌^◌, ◌↔◌, ◌++◌, ◌∷◌, IsTrue, [], drop, length};
ghost use Rattle.std.specs.List.{All};
ghost use Rattle.std.specs.Prelude.{map, take, vec_len, OnOk, OnErr};
ghost use Rattle.std.specs.Option.{option_map};
ghost use Rattle.std.specs.String.{string_bytes};
ghost use Rattle.screen_change.specs.ValueOf.{value_of};
ghost use Rattle.screen_log.specs.Log.{due, new_log};
ghost use Rattle.screen_log.specs.LogSteps.{Forgotten, Logged, Resized, step_of_kept};
ghost use Rattle.screen_log.specs.LogView.{OwnsNothing, owns_memory};

use crate::text_pool::{MOST_POOLED, TextPool};
use cell_base::{AttributeChange, CursorShape, SequenceNo};
use screen_change::{Change, cloned_changes};
use std::alloc::{AllocError, Global};
use std::marker::Model;
use std::mem;

/// Numbered changes, of which the last ones that may be due are kept. At most twice as many slots are in use, and a
/// change that isn't kept any more is dropped at once: beside the kept changes a log has at most 64 KB of texts'
/// memory, for later texts. The log reserves slots for that memory where it logs a text, so that dropping changes asks
/// for no memory.
#[derive(Drop)]
pub struct ChangeLog {
    // The changes from `start` on are kept. The ones before it own no memory.
    changes: Vec<Change>,
    start: usize,
    most: usize,
    number: SequenceNo,
    pool: TextPool,
}

impl Model for ChangeLog {
    ghost use Rattle.screen_log.specs.LogSteps.{Sized};

    ghost Value = { Sized };

    ghost use Rattle.screen_log.specs.LogView.{log_of, IsBounded};

    ghost view = { log_of };

    ghost invariant = { IsBounded };
}

// How many changes are swapped at once.
const BLOCK: usize = 64;

// Swaps the first changes of both, a block of each.
fn swap_blocks(prefix: &mut [Change], after: &mut [Change])
    requires prefix { BLOCK ≤ length prefix.old }
    requires after { BLOCK ≤ length after.old }
    ensures prefix { prefix.new ≡ take BLOCK after.old ++ drop BLOCK prefix.old }
    ensures after { after.new ≡ take BLOCK prefix.old ++ drop BLOCK after.old }
{
    if let Some(one) = prefix.first_chunk_mut::<BLOCK>() {
        if let Some(other) = after.first_chunk_mut::<BLOCK>() {
            mem::swap(one, other);
        }
    }
}

// Swaps the changes of two lists of equal length.
fn swap_changes(prefix: &mut [Change], after: &mut [Change])
    requires { length prefix.old ≡ length after.old }
    ensures prefix { prefix.new ≡ after.old }
    ensures after { after.new ≡ prefix.old }
{
    let mut at = 0;
    while BLOCK <= prefix.len() - at {
        swap_blocks(&mut prefix[at..], &mut after[at..]);
        at += BLOCK;
    }
    prefix[at..].swap_with_slice(&mut after[at..]);
}

// Swaps the changes from `start` on with the first ones. The ones before it own no memory.
#[cold]
#[inline(never)]
fn move_to_start(changes: &mut [Change], start: usize)
    requires within { start ≤ length changes.old }
    requires short { length changes.old ≤ start + start }
    requires dropped { All OwnsNothing (take start changes.old) }
    ensures len { length changes.new ≡ length changes.old }
    ensures prefix { take (length changes.old - start) changes.new ≡ drop start changes.old }
    ensures dropped { All OwnsNothing (drop (length changes.old - start) changes.new) }
{
    let (prefix, after) = changes.split_at_mut(start);
    let count = after.len();
    swap_changes(&mut prefix[..count], after);
}

// Whether a change owns memory: that of a text, a title or a link.
#[inline(always)]
fn owns_memory(change: &Change) -> bool
    ensures { result ≡ owns_memory change.now }
{
    match change {
        Change::Attribute(AttributeChange::Hyperlink(link)) => link.is_some(),
        Change::AllAttributes(attributes) => attributes.hyperlink().is_some(),
        Change::Text(_) | Change::Title(_) => true,
        _ => false,
    }
}

// Makes room to keep the memory of a text that is logged, and of the texts among the kept changes: dropping them then
// asks for no memory.
#[inline(always)]
fn reserve_for(pool: &mut TextPool, change: &Change, kept: usize) -> Result<(), AllocError>
    requires { kept + 1 < 2 ^ 64 }
    ensures { pool.new ≡ pool.old }
{
    if let Change::Text(_) = change {
        pool.reserve(kept + 1)?;
    }
    Ok(())
}

// A change that owns no memory.
#[inline(always)]
fn nothing() -> Change
    ensures { OwnsNothing result }
{
    Change::CursorShape(CursorShape::Default)
}

// Drops the change in a slot, and keeps the memory of a text. A change that owns no memory stays where it is.
#[inline(always)]
fn drop_change(slot: &mut Change, pool: &mut TextPool)
    requires { pool.old ≤ MOST_POOLED }
    ensures dropped { OwnsNothing slot.new }
    ensures pool { pool.new ≤ MOST_POOLED }
{
    if slot.is_text() {
        if let Change::Text(text) = mem::replace(slot, nothing()) {
            pool.put(text);
        }
    } else if owns_memory(slot) {
        *slot = nothing();
    }
}

// Drops the changes of `from..to` in place.
#[inline(always)]
fn drop_in_place(changes: &mut [Change], from: usize, to: usize, pool: &mut TextPool)
    requires order { from ≤ to }
    requires within { to ≤ length changes.old }
    requires dropped { All OwnsNothing (take from changes.old) }
    requires pool { pool.old ≤ MOST_POOLED }
    ensures len { length changes.new ≡ length changes.old }
    ensures dropped { All OwnsNothing (take to changes.new) }
    ensures rest { drop to changes.new ≡ drop to changes.old }
    ensures pool { pool.new ≤ MOST_POOLED }
{
    for at in from..to {
        drop_change(&mut changes[at], pool);
    }
}

// Forgets a change that owns no memory: nothing is left to drop.
#[inline(always)]
fn forget(change: Change)
    requires { OwnsNothing change }
{
    mem::forget(change);
}

// Shortens a list, of which the changes from `len` on own no memory, without a look at them.
#[inline(always)]
fn shorten(changes: &mut Vec<Change>, len: usize)
    requires { All OwnsNothing (drop len changes.old.items) }
    ensures { changes.new.items ≡ take len changes.old.items }
{
    while len < changes.len() {
        if let Some(change) = changes.pop() {
            forget(change);
        }
    }
}

// Drops the changes before `position` in place; the ones before `start` are dropped already. Where at most `position`
// changes are left, these move to the start: so each change that is dropped moves at most one other.
#[inline(always)]
fn drop_before(changes: &mut Vec<Change>, start: &mut usize, position: usize, pool: &mut TextPool)
    requires order { start.old ≤ position }
    requires within { position ≤ vec_len changes.old }
    requires dropped { All OwnsNothing (take start.old changes.old.items) }
    requires pool { pool.old ≤ MOST_POOLED }
    ensures left { drop start.new changes.new.items ≡ drop position changes.old.items }
    ensures len { vec_len changes.new + position ≡ start.new + vec_len changes.old }
    ensures short { start.new + start.new ≤ vec_len changes.new }
    ensures dropped { All OwnsNothing (take start.new changes.new.items) }
    ensures pool { pool.new ≤ MOST_POOLED }
{
    drop_in_place(changes, *start, position, pool);
    let left = changes.len() - position;
    if position < left {
        *start = position;
        return;
    }
    move_to_start(changes, position);
    shorten(changes, left);
    *start = 0;
}

impl ChangeLog {
    /// An empty log, of whose changes at most `most` may be due.
    pub fn new(alloc: Global, most: usize) -> ChangeLog
        ensures most { result.most ≡ most }
        ensures log { result.log ≡ new_log }
    {
        ChangeLog {
            changes: Vec::new(alloc),
            start: 0,
            most,
            number: 0,
            pool: TextPool::new(alloc),
        }
    }

    /// The current number. A logged change raises it by one, and so does `resize` where a change is kept.
    pub fn number(&self) -> SequenceNo
        ensures { result ≡ self.now.log.number }
    {
        self.number
    }

    /// Whether no change is kept.
    pub fn is_empty(&self) -> bool
        ensures { IsTrue result ↔ (self.now.log.entries ≡ []) }
    {
        self.start == self.changes.len()
    }

    /// Logs a change, which raises the number by one. Where memory is refused nothing is changed, and
    /// the change is dropped.
    #[inline(always)]
    pub fn push(&mut self, change: Change) -> Result<(), AllocError>
        requires { self.old.log.number + 1 < 2 ^ 64 }
        ensures done { OnOk result (self.new ≡ step_of_kept self.old (Logged (value_of change))) }
        ensures refused { OnErr result (self.new ≡ self.old) }
    {
        self.changes.reserve(1)?;
        reserve_for(&mut self.pool, &change, self.changes.len() - self.start)?;
        self.changes.push_reserved(change);
        self.number += 1;
        if self.most < self.changes.len() - self.start {
            let second = self.start + 1;
            drop_before(&mut self.changes, &mut self.start, second, &mut self.pool);
        }
        Ok(())
    }

    /// An empty text, with the memory of one that was logged and dropped, where there is some.
    pub fn pooled_text(&mut self) -> String
        ensures empty { string_bytes result ≡ [] }
        ensures same { self.new ≡ self.old }
    {
        self.pool.take(*self.changes.allocator())
    }

    /// Forgets the changes before a number; none where it lies above the current one.
    pub fn forget_before(&mut self, number: SequenceNo)
        ensures { self.new ≡ step_of_kept self.old (Forgotten number) }
    {
        if number <= self.number {
            let before = self.number - (self.changes.len() - self.start);
            let first = self.start + number.saturating_sub(before);
            drop_before(&mut self.changes, &mut self.start, first, &mut self.pool);
        }
    }

    /// Sets how many changes may be due, for another size of the screen. Where a change is kept, the
    /// number rises by one, and all changes are dropped.
    pub fn resize(&mut self, most: usize)
        requires { (self.old.log.entries ≡ []) ⊎ (self.old.log.number + 1 < 2 ^ 64) }
        ensures { self.new ≡ step_of_kept self.old (Resized most) }
    {
        if self.start < self.changes.len() {
            self.number += 1;
        }
        self.changes = Vec::new(*self.changes.allocator());
        self.start = 0;
        self.most = most;
    }

    // Each change that is kept has a number, and at most as many are kept as may be due.
    pub(crate) fn is_counted(&self)
        ensures numbered { length self.now.log.entries ≤ self.now.log.number }
        ensures most { length self.now.log.entries ≤ self.now.most }
    {
        let _changes = &self.changes;
    }

    /// A copy.
    pub fn try_clone(&self, alloc: Global) -> Result<ChangeLog, AllocError>
        ensures { IfOk result (λ log. log ≡ self.now) }
    {
        let changes = cloned_changes(alloc, &self.changes[self.start..])?;
        let mut pool = TextPool::new(alloc);
        pool.reserve(changes.len())?;
        Ok(ChangeLog {
            changes,
            start: 0,
            most: self.most,
            number: self.number,
            pool,
        })
    }

    /// The changes from a number on. `None` at 0, before the first that is kept, above the current
    /// number, and where there are more than may be due.
    pub fn due(&self, number: SequenceNo) -> Option<&[Change]>
        ensures { option_map (λ changes. map value_of changes.now) result ≡ due self.now.most self.now.log number }
    {
        let first = self.number - (self.changes.len() - self.start);
        if number == 0
            || number < first
            || self.number < number
            || self.most < self.number - number
        {
            return None;
        }
        Some(&self.changes[self.start + (number - first)..])
    }
}

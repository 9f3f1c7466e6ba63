//! Items of which the first is dropped, and another added after the last, at little cost.
ghost use Rattle.std.specs.Prelude.{◌≡◌, ◌+◌, ◌-◌, ◌<◌, ◌≤◌, ◌++◌, ◌∷◌, [], length, drop, take, slice_index_or};
ghost use Rattle.std.specs.Prelude.{slice_set, vec_len, OnErr, OnOk};
ghost use Rattle.std.specs.List.{refill};
ghost use Rattle.std.specs.Borrow.{sem, Array, Lends};
ghost use Rattle.screen_grid.specs.contracts.ring.Ring.{the_row};

use std::alloc::AllocError;
use std::marker::Model;
use std::ops::{Index, IndexMut};

/// A ring of items: dropping the first and adding one after the last cost little, since the items are in a vector with
/// free slots around them.
#[derive(Drop)]
pub(crate) struct Ring<T> {
    // The `len` slots from `start` on hold the items; the remaining ones are free, and keep what was in them.
    items: Vec<T>,
    start: usize,
    len: usize,
}

impl<T> Model for Ring<T> {
    ghost use Rattle.std.specs.Prelude.{◌+◌, ◌≤◌, List, drop, take};
    ghost use Rattle.std.specs.Coded.{coded_list};

    ghost Value = { List T };

    ghost coded = { coded_list T.code };

    ghost view = { λ t. take t.len (drop t.start t.items.items) };

    ghost invariant = { λ t. t.start + t.len ≤ t.items.len };
}

// Replaces the item at `at`, or appends the item where there is no position `at` yet.
fn store<T: Drop>(items: &mut Vec<T>, at: usize, item: T) -> Result<(), AllocError>
    requires { at ≤ vec_len items.old }
    ensures stored { OnOk result (take (at + 1) items.new.items ≡ take at items.old.items ++ item ∷ []) }
    ensures len { OnOk result (at + 1 ≤ vec_len items.new) }
    ensures refused { OnErr result (items.new.items ≡ items.old.items) }
{
    if at < items.len() {
        items[at] = item;
        return Ok(());
    }
    items.push(item)?;
    Ok(())
}

// Brings the `len` items from `start` on to the start: swaps one after another with the item there.
#[cold]
#[inline(never)]
fn move_to_start<T>(items: &mut [T], start: usize, len: usize)
    requires some { 0 < start }
    requires within { start + len ≤ length items.old }
    ensures len { length items.new ≡ length items.old }
    ensures prefix { take len items.new ≡ take len (drop start items.old) }
{
    for at in 0..len {
        items.swap(at, start + at);
    }
}

// Of the `len` items from `start` on, the first becomes the last.
#[cold]
#[inline(never)]
fn rotate<T>(items: &mut [T], start: usize, len: usize)
    requires within { start + len ≤ length items.old }
    requires some { 0 < len }
    ensures len { length items.new ≡ length items.old }
    ensures turned { take len (drop start items.new)
        ≡ drop 1 (take len (drop start items.old)) ++ take 1 (take len (drop start items.old)) }
{
    items[start..start + len].rotate_left(1);
}

impl<T> Ring<T> {
    /// The items of a vector.
    pub(crate) fn new(items: Vec<T>) -> Ring<T>
        ensures { result ≡ items.items }
    {
        let len = items.len();
        Ring {
            items,
            start: 0,
            len,
        }
    }

    /// How many there are.
    #[inline(always)]
    pub(crate) fn len(&self) -> usize
        ensures { result ≡ length self.now }
    {
        self.len
    }

    /// How many slots are free.
    pub(crate) fn room(&self) -> usize {
        self.items.len() - self.len
    }

    /// The items.
    #[inline(always)]
    pub(crate) fn as_slice(&self) -> &[T]
        ensures { result.now ≡ self.now }
    {
        &self.items[self.start..self.start + self.len]
    }

    /// The items, for writing.
    #[inline(always)]
    pub(crate) fn as_mut_slice(&mut self) -> &mut [T]
        ensures* writes_back { sem 𝓛
            (Lends (the_row T.row) (Array T.row 0) self.entry result (refill (length self.old) self.old)) }
        ensures value { result.now ≡ self.old }
    {
        self.items.slice_mut(self.start..self.start + self.len)
    }

    /// Drops the first item, and adds one after the last: a free slot's item, or the first item where none is free.
    #[inline(always)]
    pub(crate) fn turn(&mut self)
        requires { 0 < length self.old }
        ensures len { length self.new ≡ length self.old }
        ensures prefix { take (length self.old - 1) self.new ≡ drop 1 self.old }
    {
        if self.start + self.len < self.items.len() {
            self.start += 1;
            return;
        }
        self.turn_at_end();
    }

    // `turn` where no slot after the items is free: the free slots before the items move after them first.
    fn turn_at_end(&mut self)
        requires some { 0 < length self.old }
        ensures len { length self.new ≡ length self.old }
        ensures prefix { take (length self.old - 1) self.new ≡ drop 1 self.old }
    {
        if self.start == 0 {
            rotate(&mut self.items, self.start, self.len);
            return;
        }
        move_to_start(&mut self.items, self.start, self.len);
        self.start = 1;
    }
}

impl<T: Drop> Ring<T> {
    /// Adds an item after the last, in a free slot if there is one. Where memory is refused nothing changes.
    pub(crate) fn push(&mut self, item: T) -> Result<(), AllocError>
        ensures done { OnOk result (self.new ≡ self.old ++ item ∷ []) }
        ensures refused { OnErr result (self.new ≡ self.old) }
    {
        store(&mut self.items, self.start + self.len, item)?;
        self.len += 1;
        Ok(())
    }

    /// Adds a free slot, which keeps `pooled`.
    pub(crate) fn add_room(&mut self, pooled: T) -> Result<(), AllocError>
        ensures { self.new ≡ self.old }
    {
        self.items.push(pooled)?;
        Ok(())
    }

    /// Keeps the first `len` items; drops the remaining ones, and the free slots after them.
    pub(crate) fn truncate(&mut self, len: usize)
        ensures { self.new ≡ take len self.old }
    {
        self.len = self.len.min(len);
        self.items.truncate(self.start + self.len);
    }
}

impl<T> Index<usize> for Ring<T> {
    type Output = T;

    ghost can_index = { λ items at. at < length items };

    ghost index_gives = { λ items at item. item ≡ slice_index_or items at item };

    /// An item.
    #[inline(always)]
    fn index(&self, at: usize) -> &T {
        &self.items[self.start + at]
    }
}

impl<T> IndexMut<usize> for Ring<T> {
    /// An item, for writing.
    #[inline(always)]
    fn index_mut(&mut self, at: usize) -> &mut T
        requires { at < length self.old }
        ensures* writes_back { sem 𝓛 (Lends (the_row T.row) T.row self.entry result (slice_set self.old at)) }
        ensures value { result.now ≡ slice_index_or self.old at result.now }
    {
        &mut self.items[self.start + at]
    }
}

//! Items of a vector that are replaced by others.
ghost use Rattle.std.specs.Prelude.{◌≡◌, ℕ, ◌+◌, ◌≤◌, ◌++◌, length, take, drop, is_ok, if◌then◌else◌, IsOk};
ghost use Rattle.std.specs.List.{splice};
ghost use Rattle.std.specs.Str.{IsUtf8};
ghost use Rattle.std.specs.String.Boundary.{IsSplitPoint};
ghost use Rattle.std.specs.Vec.{vec_len, vec_capacity};

use std::alloc::AllocError;
use std::mem;

// Copies `with` over the items from `at` on. A single one is stored, in place of a block copy.
#[inline(always)]
pub(crate) fn put<T: Copy>(items: &mut Vec<T>, at: usize, with: &[T])
    requires { at + length with.now ≤ vec_len items.old }
    ensures items { items.new.items ≡ splice items.old.items at (at + length with.now) with.now }
    ensures len { vec_len items.new ≡ vec_len items.old }
    ensures capacity { vec_capacity items.new ≡ vec_capacity items.old }
{
    if let [item] = with {
        items[at] = *item;
        return;
    }
    items[at..at + with.len()].copy_from_slice(with);
}

// Appends `with`, for which there is room.
#[inline(always)]
pub(crate) fn push_all<T: Copy>(items: &mut Vec<T>, with: &[T])
    requires { vec_len items.old + length with.now ≤ vec_capacity items.old }
    ensures items { items.new.items ≡ items.old.items ++ with.now }
    ensures len { vec_len items.new ≡ vec_len items.old + length with.now }
    ensures capacity { vec_capacity items.old ≤ vec_capacity items.new }
{
    let _pushed = items.extend_from_slice(with);
}

// Appends bytes. A single one is stored, in place of a block copy.
#[inline(always)]
pub(crate) fn push_bytes(items: &mut Vec<u8>, bytes: &[u8]) -> Result<(), AllocError>
    ensures items { items.new.items ≡ (if is_ok result then items.old.items ++ bytes.now else items.old.items) }
    ensures len { vec_len items.new
        ≡ (if is_ok result then vec_len items.old + length bytes.now else vec_len items.old) }
    ensures capacity { vec_capacity items.old ≤ vec_capacity items.new }
    ensures succeeds { vec_len items.old + length bytes.now ≤ vec_capacity items.old → IsOk result }
{
    if let [byte] = bytes {
        items.reserve(1)?;
        items.push_reserved(*byte);
        return Ok(());
    }
    items.extend_from_slice(bytes)?;
    Ok(())
}

// Moves the items from `from` on up to `to`, which is not before `from`; there is room for them.
fn move_up<T: Copy>(items: &mut Vec<T>, from: usize, to: usize, filler: T)
    requires order { from ≤ to }
    requires within { from ≤ vec_len items.old }
    requires room { vec_len items.old + to ≤ vec_capacity items.old + from }
    ensures before { take from items.new.items ≡ take from items.old.items }
    ensures after { drop to items.new.items ≡ drop from items.old.items }
    ensures len { vec_len items.new + from ≡ vec_len items.old + to }
    ensures capacity { vec_capacity items.old ≤ vec_capacity items.new }
{
    if to - from == 1 {
        let _inserted = items.insert(from, filler);
        return;
    }
    let len = items.len();
    if items.resize(len + (to - from), filler).is_err() {
        return;
    }
    items.copy_within(from..len, to);
}

// Moves the items from `from` on down to `to`, which is not after `from`.
fn move_down<T: Copy>(items: &mut Vec<T>, from: usize, to: usize)
    requires order { to ≤ from }
    requires within { from ≤ vec_len items.old }
    ensures before { take to items.new.items ≡ take to items.old.items }
    ensures after { drop to items.new.items ≡ drop from items.old.items }
    ensures len { vec_len items.new + from ≡ vec_len items.old + to }
    ensures capacity { vec_capacity items.new ≡ vec_capacity items.old }
{
    if from - to == 1 {
        let _removed = items.remove(to);
        return;
    }
    let len = items.len();
    items.copy_within(from..len, to);
    items.truncate(len - (from - to));
}

// Moves the items from `from` on to `to`.
#[inline(always)]
fn move_rest<T: Copy>(items: &mut Vec<T>, from: usize, to: usize, filler: T)
    requires within { from ≤ vec_len items.old }
    requires room { vec_len items.old + to ≤ vec_capacity items.old + from }
    ensures before { (k : ℕ) → k ≤ from → k ≤ to → take k items.new.items ≡ take k items.old.items }
    ensures after { drop to items.new.items ≡ drop from items.old.items }
    ensures len { vec_len items.new + from ≡ vec_len items.old + to }
    ensures capacity { vec_capacity items.old ≤ vec_capacity items.new }
{
    if from == to {
        return;
    }
    if from < to {
        move_up(items, from, to, filler);
        return;
    }
    move_down(items, from, to);
}

// Replaces the items from `from` on and before `to` by `with`, for which there is room: the rest after them is
// moved once.
#[inline(always)]
pub(crate) fn replace_items<T: Copy>(
    items: &mut Vec<T>,
    from: usize,
    to: usize,
    with: &[T],
    filler: T,
)
    requires order { from ≤ to }
    requires within { to ≤ vec_len items.old }
    requires room { vec_len items.old + length with.now ≤ vec_capacity items.old }
    ensures items { items.new.items ≡ splice items.old.items from to with.now }
    ensures len { vec_len items.new + to ≡ vec_len items.old + (from + length with.now) }
    ensures capacity { vec_capacity items.old ≤ vec_capacity items.new }
{
    move_rest(items, to, from + with.len(), filler);
    put(items, from, with);
}

// Replaces the bytes from `from` on and before `to` by `with`, for which there is room: the rest after them is
// moved as one block.
pub(crate) fn replace_text(text: &mut Vec<u8>, from: usize, to: usize, with: &str)
    requires utf8 { IsUtf8 text.old.items }
    requires order { from ≤ to }
    requires start { IsSplitPoint text.old.items from }
    requires cut { IsSplitPoint text.old.items to }
    requires room { vec_len text.old + length with.now ≤ vec_capacity text.old }
    ensures items { text.new.items ≡ splice text.old.items from to with.now }
    ensures len { vec_len text.new + to ≡ vec_len text.old + (from + length with.now) }
    ensures capacity { vec_capacity text.old ≤ vec_capacity text.new }
{
    if with.len() == to - from {
        put(text, from, with.as_bytes());
        return;
    }
    let empty = Vec::new(*text.allocator());
    let mut string = unsafe { String::from_utf8_unchecked(mem::replace(text, empty)) };
    let _replaced = string.replace_range(from..to, with);
    *text = string.into_bytes();
}

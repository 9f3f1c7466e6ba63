//! What C calls.
ghost use Rattle.std.specs.Prelude.{◌≡◌, ◌↔◌, [], ◌∷◌, true, None, IsSome, IsSomeAnd};
ghost use Rattle.std.specs.Vec.{vec_ptr};
ghost use Rattle.cell_base.specs.Screen.{height, screen_text};
ghost use Rattle.cell_base.specs.ScreenSize.{IsScreenSize};
ghost use Rattle.cell_edits.specs.VisibleCells.{texts_joined, visible_cells};
ghost use Rattle.terminal_c.specs.Codes.{DONE, is_among, IS_OPEN, MEMORY, RANGE, SIZE};
ghost use Rattle.terminal_c.specs.Calls.{Feeds, Forgets, Opens, Patches, Reads, ReadsPart, Resizes, Settles};
ghost use Rattle.terminal_c.specs.Calls.{TakesReplies, Updates};
ghost use Rattle.terminal_c.specs.Formats.{format_count, screen_in};
ghost use Rattle.terminal_c.specs.Handles.{Calls, CallsOnTwo, Lends, LendsCells};
ghost use Rattle.terminal_c.specs.States.{profile_of, row_at, screen_of, state_of};
ghost use Rattle.terminal_c.specs.ToldModes.{is_alternate, TellsModes};
ghost use Rattle.terminal_c.specs.ToldView.{IsTold};
ghost use Rattle.terminal_steps.specs.ProfileView.{modes_of};

use crate::codes::{DONE, IS_OPEN, MEMORY, NOT_OPEN, RANGE, SIZE};
use crate::handle::{Handle, give, take};
use crate::kept::{Kept, State, is_size, profile_of};
use crate::modes::ToldModes;
use crate::told::{Cell, Row};
use std::alloc::Global;
use std::ptr;

/// Bytes that the library keeps until the next call with the same handle.
#[repr(C)]
#[derive(Drop)]
pub struct Bytes {
    pub at: *const u8,
    pub len: usize,
}

/// The cells of a row, which the library keeps until the next call with the same handle.
#[repr(C)]
#[derive(Drop)]
pub struct Cells {
    pub cells: *const Cell,
    pub count: usize,
    pub text: Bytes,
    pub links: Bytes,
}

// Where an answer of no bytes leads, so that it isn't null.
static NOTHING: u8 = 0;

// Lends the bytes to C if the code says that the call was carried out; returns the code.
fn lend(code: u32, bytes: &Vec<u8>, out: &mut Bytes) -> u32
    ensures same { result ≡ code }
    ensures lent { Lends code bytes.now.items (vec_ptr bytes.now) out.new }
    ensures stays { (code ≡ DONE → ⊥) → out.new ≡ out.old }
{
    if code == DONE {
        out.len = bytes.len();
        out.at = if bytes.is_empty() {
            ptr::from_ref(&NOTHING)
        } else {
            bytes.as_ptr()
        };
    }
    code
}

// Lends the cells of a row to C if the code says that the call was carried out; returns the code.
fn lend_cells(code: u32, row: &Row, out: &mut Cells) -> u32
    ensures same { result ≡ code }
    ensures lent { LendsCells code row.now out.new }
    ensures stays { (code ≡ DONE → ⊥) → out.new ≡ out.old }
{
    if code == DONE {
        out.cells = row.cells.as_ptr();
        out.count = row.cells.len();
        lend(code, &row.text, &mut out.text);
        lend(code, &row.links, &mut out.links);
    }
    code
}

// Opens a closed handle.
fn open(alloc: Global, h: &mut Handle, width: usize, height: usize, profile: u32) -> u32
    requires { h.old.inner.value ≡ None }
    ensures codes { is_among (DONE ∷ MEMORY ∷ SIZE ∷ RANGE ∷ []) result ≡ true }
    ensures size { (result ≡ SIZE) ↔ (IsScreenSize width height → ⊥) }
    ensures range { (result ≡ RANGE) ↔ (IsScreenSize width height × (profile_of profile ≡ None)) }
    ensures stays { (result ≡ DONE → ⊥) → h.new.inner.value ≡ None }
    ensures done { result ≡ DONE → IsSomeAnd (profile_of profile) (λ p. IsSomeAnd h.new.inner.value
        (λ b. Opens (modes_of p) width height b.terminal)) }
{
    if !is_size(width, height) {
        return SIZE;
    }
    let Some(profile) = profile_of(profile) else {
        return RANGE;
    };
    match Kept::new(alloc, width, height, profile) {
        Some(kept) => {
            give(h, kept);
            DONE
        }
        None => MEMORY,
    }
}

#[unsafe(no_mangle)]
pub extern "C" fn rilqamyn_new(
    alloc: Global,
    h: &mut Handle,
    width: usize,
    height: usize,
    profile: u32,
) -> u32
    ensures codes { is_among (DONE ∷ IS_OPEN ∷ MEMORY ∷ SIZE ∷ RANGE ∷ []) result ≡ true }
    ensures open { (result ≡ IS_OPEN) ↔ IsSome h.old.inner.value }
    ensures size { (result ≡ SIZE) ↔ ((h.old.inner.value ≡ None) × (IsScreenSize width height → ⊥)) }
    ensures range { (result ≡ RANGE)
        ↔ ((h.old.inner.value ≡ None) × IsScreenSize width height × (profile_of profile ≡ None)) }
    ensures stays { (result ≡ DONE → ⊥) → h.new.inner.value ≡ h.old.inner.value }
    ensures done { result ≡ DONE → IsSomeAnd (profile_of profile) (λ p. IsSomeAnd h.new.inner.value
        (λ b. Opens (modes_of p) width height b.terminal)) }
{
    match take(h, alloc) {
        Some(kept) => {
            give(h, kept);
            IS_OPEN
        }
        None => open(alloc, h, width, height, profile),
    }
}

#[unsafe(no_mangle)]
pub extern "C" fn rilqamyn_free(alloc: Global, h: &mut Handle)
    ensures { h.new.inner.value ≡ None }
{
    let _kept = take(h, alloc);
}

#[unsafe(no_mangle)]
pub extern "C" fn rilqamyn_feed(alloc: Global, h: &mut Handle, bytes: &[u8]) -> u32
    ensures { Calls h.old.inner.value h.new.inner.value result
        (λ a b. Feeds bytes.now a.terminal b.terminal result) }
{
    match take(h, alloc) {
        Some(mut kept) => {
            let code = kept.feed(bytes);
            give(h, kept);
            code
        }
        None => NOT_OPEN,
    }
}

#[unsafe(no_mangle)]
pub extern "C" fn rilqamyn_settle(alloc: Global, h: &mut Handle) -> u32
    ensures { Calls h.old.inner.value h.new.inner.value result (λ a b. Settles a.terminal b.terminal result) }
{
    match take(h, alloc) {
        Some(mut kept) => {
            let code = kept.settle();
            give(h, kept);
            code
        }
        None => NOT_OPEN,
    }
}

#[unsafe(no_mangle)]
pub extern "C" fn rilqamyn_resize(alloc: Global, h: &mut Handle, width: usize, height: usize) -> u32
    ensures { Calls h.old.inner.value h.new.inner.value result
        (λ a b. Resizes width height a.terminal b.terminal result) }
{
    match take(h, alloc) {
        Some(mut kept) => {
            let code = kept.resize(width, height);
            give(h, kept);
            code
        }
        None => NOT_OPEN,
    }
}

#[unsafe(no_mangle)]
pub extern "C" fn rilqamyn_update(
    alloc: Global,
    h: &mut Handle,
    since: usize,
    now: &mut usize,
    out: &mut Bytes,
) -> u32
    ensures updated { Calls h.old.inner.value h.new.inner.value result
        (λ a b. Updates since a.terminal b.terminal now.new b.bytes.items result
        × Lends result b.bytes.items (vec_ptr b.bytes) out.new) }
    ensures number_stays { (result ≡ DONE → ⊥) → now.new ≡ now.old }
    ensures stays { (result ≡ DONE → ⊥) → out.new ≡ out.old }
{
    match take(h, alloc) {
        Some(mut kept) => {
            let code = lend(kept.update(since, now), &kept.bytes, out);
            give(h, kept);
            code
        }
        None => NOT_OPEN,
    }
}

#[unsafe(no_mangle)]
pub extern "C" fn rilqamyn_patch(
    alloc: Global,
    h: &mut Handle,
    shown: &mut Handle,
    now: &mut usize,
    out: &mut Bytes,
) -> u32
    ensures patched { CallsOnTwo h.old.inner.value h.new.inner.value shown.old.inner.value result
        (λ a o b. Patches o.terminal a.terminal b.terminal now.new b.bytes.items result
        × Lends result b.bytes.items (vec_ptr b.bytes) out.new) }
    ensures shown { shown.new.inner.value ≡ shown.old.inner.value }
    ensures number_stays { (result ≡ DONE → ⊥) → now.new ≡ now.old }
    ensures stays { (result ≡ DONE → ⊥) → out.new ≡ out.old }
{
    match take(h, alloc) {
        Some(mut kept) => {
            let code = match take(shown, alloc) {
                Some(other) => {
                    let code = lend(kept.patch(&other, now), &kept.bytes, out);
                    give(shown, other);
                    code
                }
                None => NOT_OPEN,
            };
            give(h, kept);
            code
        }
        None => NOT_OPEN,
    }
}

#[unsafe(no_mangle)]
pub extern "C" fn rilqamyn_take_replies(alloc: Global, h: &mut Handle, out: &mut Bytes) -> u32
    ensures taken { Calls h.old.inner.value h.new.inner.value result
        (λ a b. TakesReplies a.terminal b.terminal b.bytes.items result
        × Lends result b.bytes.items (vec_ptr b.bytes) out.new) }
    ensures stays { (result ≡ DONE → ⊥) → out.new ≡ out.old }
{
    match take(h, alloc) {
        Some(mut kept) => {
            let code = lend(kept.take_replies(), &kept.bytes, out);
            give(h, kept);
            code
        }
        None => NOT_OPEN,
    }
}

#[unsafe(no_mangle)]
pub extern "C" fn rilqamyn_forget_before(alloc: Global, h: &mut Handle, number: usize) -> u32
    ensures { Calls h.old.inner.value h.new.inner.value result
        (λ a b. Forgets number a.terminal b.terminal result) }
{
    match take(h, alloc) {
        Some(mut kept) => {
            let code = kept.forget_before(number);
            give(h, kept);
            code
        }
        None => NOT_OPEN,
    }
}

#[unsafe(no_mangle)]
pub extern "C" fn rilqamyn_state(alloc: Global, h: &mut Handle, out: &mut State) -> u32
    ensures told { Calls h.old.inner.value h.new.inner.value result
        (λ a b. (result ≡ DONE) × (b ≡ a) × (out.new ≡ state_of a.terminal)) }
    ensures stays { (result ≡ DONE → ⊥) → out.new ≡ out.old }
{
    match take(h, alloc) {
        Some(kept) => {
            *out = kept.state();
            give(h, kept);
            DONE
        }
        None => NOT_OPEN,
    }
}

#[unsafe(no_mangle)]
pub extern "C" fn rilqamyn_modes(alloc: Global, h: &mut Handle, out: &mut ToldModes) -> u32
    ensures told { Calls h.old.inner.value h.new.inner.value result
        (λ a b. (b ≡ a) × TellsModes a.terminal.modes out.new result) }
    ensures stays { (result ≡ DONE → ⊥) → out.new ≡ out.old }
{
    match take(h, alloc) {
        Some(kept) => {
            let code = kept.modes(out);
            give(h, kept);
            code
        }
        None => NOT_OPEN,
    }
}

#[unsafe(no_mangle)]
pub extern "C" fn rilqamyn_is_alternate(alloc: Global, h: &mut Handle, out: &mut bool) -> u32
    ensures told { Calls h.old.inner.value h.new.inner.value result
        (λ a b. (result ≡ DONE) × (b ≡ a) × (out.new ≡ is_alternate a.terminal.modes)) }
    ensures stays { (result ≡ DONE → ⊥) → out.new ≡ out.old }
{
    match take(h, alloc) {
        Some(kept) => {
            *out = kept.is_alternate();
            give(h, kept);
            DONE
        }
        None => NOT_OPEN,
    }
}

#[unsafe(no_mangle)]
pub extern "C" fn rilqamyn_title(alloc: Global, h: &mut Handle, out: &mut Bytes) -> u32
    ensures read { Calls h.old.inner.value h.new.inner.value result
        (λ a b. Reads (screen_of a.terminal).title a.terminal b.terminal b.bytes.items result
        × Lends result b.bytes.items (vec_ptr b.bytes) out.new) }
    ensures stays { (result ≡ DONE → ⊥) → out.new ≡ out.old }
{
    match take(h, alloc) {
        Some(mut kept) => {
            let code = lend(kept.title(), &kept.bytes, out);
            give(h, kept);
            code
        }
        None => NOT_OPEN,
    }
}

#[unsafe(no_mangle)]
pub extern "C" fn rilqamyn_row_text(
    alloc: Global,
    h: &mut Handle,
    row: usize,
    out: &mut Bytes,
) -> u32
    ensures read { Calls h.old.inner.value h.new.inner.value result
        (λ a b. ReadsPart row (height (screen_of a.terminal)) a.terminal b.terminal result
        × (result ≡ DONE
        → b.bytes.items ≡ texts_joined (visible_cells (row_at row (screen_of a.terminal))))
        × Lends result b.bytes.items (vec_ptr b.bytes) out.new) }
    ensures stays { (result ≡ DONE → ⊥) → out.new ≡ out.old }
{
    match take(h, alloc) {
        Some(mut kept) => {
            let code = lend(kept.row_text(alloc, row), &kept.bytes, out);
            give(h, kept);
            code
        }
        None => NOT_OPEN,
    }
}

#[unsafe(no_mangle)]
pub extern "C" fn rilqamyn_row(alloc: Global, h: &mut Handle, row: usize, out: &mut Cells) -> u32
    ensures read { Calls h.old.inner.value h.new.inner.value result
        (λ a b. ReadsPart row (height (screen_of a.terminal)) a.terminal b.terminal result
        × (result ≡ DONE → IsTold (visible_cells (row_at row (screen_of a.terminal))) b.row)
        × LendsCells result b.row out.new) }
    ensures stays { (result ≡ DONE → ⊥) → out.new ≡ out.old }
{
    match take(h, alloc) {
        Some(mut kept) => {
            let code = lend_cells(kept.row(alloc, row), &kept.row, out);
            give(h, kept);
            code
        }
        None => NOT_OPEN,
    }
}

#[unsafe(no_mangle)]
pub extern "C" fn rilqamyn_screen_text(alloc: Global, h: &mut Handle, out: &mut Bytes) -> u32
    ensures read { Calls h.old.inner.value h.new.inner.value result
        (λ a b. Reads (screen_text (screen_of a.terminal)) a.terminal b.terminal b.bytes.items result
        × Lends result b.bytes.items (vec_ptr b.bytes) out.new) }
    ensures stays { (result ≡ DONE → ⊥) → out.new ≡ out.old }
{
    match take(h, alloc) {
        Some(mut kept) => {
            let code = lend(kept.screen_text(), &kept.bytes, out);
            give(h, kept);
            code
        }
        None => NOT_OPEN,
    }
}

#[unsafe(no_mangle)]
pub extern "C" fn rilqamyn_screen(
    alloc: Global,
    h: &mut Handle,
    format: u32,
    out: &mut Bytes,
) -> u32
    ensures read { Calls h.old.inner.value h.new.inner.value result
        (λ a b. ReadsPart format format_count a.terminal b.terminal result
        × (result ≡ DONE → b.bytes.items ≡ screen_in format (screen_of a.terminal))
        × Lends result b.bytes.items (vec_ptr b.bytes) out.new) }
    ensures stays { (result ≡ DONE → ⊥) → out.new ≡ out.old }
{
    match take(h, alloc) {
        Some(mut kept) => {
            let code = lend(kept.screen(alloc, format), &kept.bytes, out);
            give(h, kept);
            code
        }
        None => NOT_OPEN,
    }
}

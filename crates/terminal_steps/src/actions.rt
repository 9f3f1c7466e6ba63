//! What a terminal does with an action, and with a run of printed characters.
ghost use Rattle.std.specs.Prelude.{◌≡◌, ◌⊎◌, ◌+◌, ◌-◌, ◌^◌, ◌<◌, ◌≤◌, ◌↔◌, true, IfOk, OnOk, IsErr, IsErrOf};
ghost use Rattle.std.specs.Prelude.{[], ◌∷◌, ◌||◌, None, Option, Some, false, length, ℕ};
ghost use Rattle.std.specs.String.{string_bytes};
ghost use Rattle.cell_base.specs.Screen.{height};
ghost use Rattle.cell_surface.specs.Surface.{number_of, shown_by};
ghost use Rattle.escape_stream.specs.StreamActionView.{value_of};
ghost use Rattle.terminal_table.specs.Changes.{changes, changes_of, run_change, visibility};
ghost use Rattle.terminal_table.specs.Functions.{function_of};
ghost use Rattle.terminal_table.specs.Modes.{Modes as TableModes, reset_modes};
ghost use Rattle.terminal_table.specs.Request.{modes_set};
ghost use Rattle.terminal_table.specs.Steps.{reply_step, saved_step, step_of};
ghost use Rattle.xterm_steps.specs.Additions.{AddsAll, AddsWith, IsChangeRefused};
ghost use Rattle.terminal_steps.specs.CarriesOut.{Applies, CarriesOut, CarriesOutAction};
ghost use Rattle.terminal_steps.specs.TerminalStates.{state_of};
ghost use Rattle.terminal_steps.specs.FunctionView.{asked_for, setting_of, table_function};
ghost use Rattle.terminal_steps.specs.ProfileView.{kept_modes, modes_in};
ghost use Rattle.terminal_steps.specs.Memory.{TakesSettingMemory, TakesTableMemory, copies, keeps};

use crate::changes::{add, add_attribute, add_nothing, add_run, add_text};
use crate::control_functions::control_function_of;
use crate::cursor_moves::move_cursor;
use crate::erase::{
    erase_display, erase_line, erase_to_end_of_display, erase_to_end_of_line, reverse_index,
    scroll_down, scroll_up,
};
use crate::flags::{end_encoding, set_flag};
use crate::function::ControlFunction;
use crate::pen::render;
use crate::profile::{Modes, Region, initial_modes, region_on};
use crate::replies::{report_position, report_status, send};
use crate::requests::{Request, Setting, xterm_request};
use crate::runs::{forget_last, repeat_last};
use crate::saved::{SavedCursor, full_reset, restore_cursor, save_cursor};
use crate::screens::{align, switch_screens};
use crate::tab_stops::{clear_stops, set_stop};
use crate::xterm::perform_xterm;
use cell_base::{AttributeChange, CursorVisibility, Widths};
use cell_surface::{Surface, SurfaceError};
use escape_stream::Action;
use screen_change::Change;
use std::alloc::{AllocError, Global};
use std::mem;

// Whether the cursor is shown, as a change.
fn visibility(shown: bool) -> CursorVisibility
    ensures { result ≡ visibility shown }
{
    if shown {
        CursorVisibility::Visible
    } else {
        CursorVisibility::Hidden
    }
}

// Refuses a control function that copies a text or a pen where no number is left for a change: so a call reports that
// the numbers are used up before it takes memory.
#[inline(always)]
fn check_number<W: Widths + Drop>(
    surface: &Surface<W>,
    function: &ControlFunction,
) -> Result<(), SurfaceError>
    ensures ok { OnOk result (copies (table_function function.now) ≡ true → number_of surface.now + 1 < 2 ^ 64) }
    ensures numbers { IsErrOf result SurfaceError.Number
        → (copies (table_function function.now) ≡ true) × (number_of surface.now ≡ 2 ^ 64 - 1) }
    ensures only { IsErr result → IsErrOf result SurfaceError.Number }
{
    if surface.current_seqno() == usize::MAX && function.copies() {
        return Err(SurfaceError::Number);
    }
    Ok(())
}

// Does a control function.
#[inline(always)]
fn perform<W: Widths + Drop>(
    surface: &mut Surface<W>,
    saved: &mut Option<SavedCursor>,
    replies: &mut Vec<u8>,
    function: ControlFunction,
) -> Result<(), SurfaceError>
    ensures added { AddsWith (copies (table_function function) || keeps (table_function function)) (λ w. W.width_of w)
        surface.old (changes (table_function function) saved.old (shown_by surface.old).screen) result surface.new }
    ensures saved { IfOk result
        (λ _. saved.new ≡ saved_step (table_function function) saved.old (shown_by surface.old).screen) }
    ensures replies { IfOk result
        (λ _. replies.new.items
        ≡ reply_step (table_function function) replies.old.items (shown_by surface.old).screen) }
{
    match function {
        ControlFunction::Moves(movement) => move_cursor(surface, movement),
        ControlFunction::LineFeed => add_text(surface, "\n"),
        ControlFunction::CarriageReturn => add_text(surface, "\r"),
        ControlFunction::NextRow => add_text(surface, "\r\n"),
        ControlFunction::ReverseIndex => reverse_index(surface),
        ControlFunction::EraseToEndOfDisplay => erase_to_end_of_display(surface),
        ControlFunction::EraseDisplay => erase_display(surface),
        ControlFunction::EraseToEndOfLine => erase_to_end_of_line(surface),
        ControlFunction::EraseLine => erase_line(surface),
        ControlFunction::ScrollUp(count) => scroll_up(surface, count),
        ControlFunction::ScrollDown(count) => scroll_down(surface, count),
        ControlFunction::Rendition(value) => render(surface, value),
        ControlFunction::Hyperlink(link) => {
            add_attribute(surface, AttributeChange::Hyperlink(link))
        }
        ControlFunction::Title(text) => add(surface, Change::Title(text)),
        ControlFunction::ShowCursor(shown) => {
            add(surface, Change::CursorVisibility(visibility(shown)))
        }
        ControlFunction::SaveCursor => save_cursor(surface, saved),
        ControlFunction::RestoreCursor => restore_cursor(surface, saved),
        ControlFunction::FullReset => full_reset(surface, saved),
        ControlFunction::ReportStatus => {
            report_status(replies)?;
            add_nothing(surface)
        }
        ControlFunction::ReportPosition => {
            report_position(surface, replies)?;
            add_nothing(surface)
        }
    }
}

// Does a control function on a surface that hasn't failed.
#[inline(always)]
fn carry_out<W: Widths + Drop>(
    surface: &mut Surface<W>,
    saved: &mut Option<SavedCursor>,
    replies: &mut Vec<u8>,
    function: ControlFunction,
) -> Result<(), SurfaceError>
    requires stays { surface.old.is_failed ≡ false }
    ensures added { IfOk result
        (λ _. AddsAll (λ w. W.width_of w) surface.old surface.new
        (changes (table_function function) saved.old (shown_by surface.old).screen)) }
    ensures saved { IfOk result
        (λ _. saved.new ≡ saved_step (table_function function) saved.old (shown_by surface.old).screen) }
    ensures replies { IfOk result
        (λ _. replies.new.items
        ≡ reply_step (table_function function) replies.old.items (shown_by surface.old).screen) }
    ensures failed { IsErrOf result SurfaceError.Failed → ⊥ }
    ensures numbers { IsErrOf result SurfaceError.Number
        → 2 ^ 64
        ≤ number_of surface.old + length (changes (table_function function) saved.old (shown_by surface.old).screen) }
    ensures memory { IsErrOf result SurfaceError.Memory → number_of surface.old < 2 ^ 64
        → TakesTableMemory (Some (table_function function)) (number_of surface.old)
        ⊎ IsChangeRefused (changes (table_function function) saved.old (shown_by surface.old).screen)
        (number_of surface.old) surface.new.is_failed }
    ensures fits { OnOk result (number_of surface.old < 2 ^ 64 → number_of surface.new < 2 ^ 64) }
{
    check_number(surface, &function)?;
    perform(surface, saved, replies, function)
}

// Does what the terminal's table has for an action, on a surface that hasn't failed.
#[inline(always)]
fn apply_table<W: Widths + Drop>(
    surface: &mut Surface<W>,
    saved: &mut Option<SavedCursor>,
    replies: &mut Vec<u8>,
    action: Action,
) -> Result<(), SurfaceError>
    requires stays { surface.old.is_failed ≡ false }
    ensures added { (modes : Option TableModes) → IfOk result
        (λ _. AddsAll (λ w. W.width_of w) surface.old surface.new
        (changes_of (function_of (value_of action)) (state_of surface.old saved.old replies.old.items modes))) }
    ensures saved { (modes : Option TableModes) → IfOk result
        (λ _. saved.new
        ≡ (step_of (function_of (value_of action)) (state_of surface.old saved.old replies.old.items modes)).saved) }
    ensures replies { (modes : Option TableModes) → IfOk result
        (λ _. replies.new.items
        ≡ (step_of (function_of (value_of action)) (state_of surface.old saved.old replies.old.items modes)).replies) }
    ensures failed { IsErrOf result SurfaceError.Failed → ⊥ }
    ensures numbers { (modes : Option TableModes) → IsErrOf result SurfaceError.Number
        → 2 ^ 64
        ≤ number_of surface.old
        + length
        (changes_of (function_of (value_of action)) (state_of surface.old saved.old replies.old.items modes)) }
    ensures memory { (modes : Option TableModes) → IsErrOf result SurfaceError.Memory → number_of surface.old < 2 ^ 64
        → TakesTableMemory (function_of (value_of action)) (number_of surface.old)
        ⊎ IsChangeRefused
        (changes_of (function_of (value_of action)) (state_of surface.old saved.old replies.old.items modes))
        (number_of surface.old) surface.new.is_failed }
    ensures fits { OnOk result (number_of surface.old < 2 ^ 64 → number_of surface.new < 2 ^ 64) }
{
    match control_function_of(action) {
        Some(function) => { carry_out(surface, saved, replies, function) }
        None => Ok(()),
    }
}

// The modes become those of a new terminal, but for the titles.
fn reset_modes(alloc: Global, modes: &mut Modes)
    ensures { modes_in modes.new ≡ reset_modes (modes_in modes.old) }
{
    let titles = mem::replace(&mut modes.titles, Vec::new(alloc));
    *modes = initial_modes(alloc);
    modes.titles = titles;
}

// The modes become others.
fn set_modes(alloc: Global, modes: &mut Modes, setting: Setting) -> Result<(), AllocError>
    ensures done { OnOk result (modes_in modes.new ≡ modes_set (setting_of setting) (modes_in modes.old)) }
    ensures refused { IsErr result → (number : ℕ) → number < 2 ^ 64 → TakesSettingMemory (setting_of setting) number }
{
    match setting {
        Setting::Reset => reset_modes(alloc, modes),
        Setting::Region(top, bottom) => modes.region = Some(Region { top, bottom }),
        Setting::Origin(origin) => modes.origin = origin,
        Setting::Insert(insert) => modes.insert = insert,
        Setting::Autowrap(autowrap) => modes.autowrap = autowrap,
        Setting::Newline(newline) => modes.newline = newline,
        Setting::Stop(column, stop) => return set_stop(&mut modes.stops, column, stop),
        Setting::NoStops(width) => return clear_stops(&mut modes.stops, width),
        Setting::First(charset) => modes.charsets.g0 = charset,
        Setting::Second(charset) => modes.charsets.g1 = charset,
        Setting::Shift(shifted) => modes.charsets.shifted = shifted,
        Setting::Flag(flag, on) => set_flag(&mut modes.flags, flag, on),
        Setting::Mouse(protocol) => modes.flags.mouse_protocol_mode = protocol,
        Setting::Encoding(encoding) => modes.flags.mouse_protocol_encoding = encoding,
        Setting::WithoutEncoding(encoding) => end_encoding(&mut modes.flags, encoding),
        Setting::Style(style) => modes.flags.cursor_style = style,
    }
    Ok(())
}

// Does what xterm itself has for an action.
fn carry_out_request<W: Widths + Drop>(
    surface: &mut Surface<W>,
    saved: &mut Option<SavedCursor>,
    replies: &mut Vec<u8>,
    modes: &mut Modes,
    region: Region,
    request: Request,
) -> Result<(), SurfaceError>
    requires stays { surface.old.is_failed ≡ false }
    requires order { region.top ≤ region.bottom }
    requires within { region.bottom < height (shown_by surface.old).screen }
    ensures { CarriesOut (λ w. W.width_of w)
        (state_of surface.old saved.old replies.old.items (Some (modes_in modes.old))) (asked_for region request)
        surface.old result surface.new saved.new replies.new.items (Some (modes_in modes.new)) }
{
    let alloc = *replies.allocator();
    match request {
        Request::Table(function) => carry_out(surface, saved, replies, function),
        Request::Xterm(function) => perform_xterm(alloc, surface, region, function),
        Request::Sets(setting, function) => {
            carry_out(surface, saved, replies, function)?;
            set_modes(alloc, modes, setting)?;
            Ok(())
        }
        Request::SetsAlone(setting) => {
            set_modes(alloc, modes, setting)?;
            Ok(())
        }
        Request::Switches(function) => switch_screens(alloc, surface, saved, modes, function),
        Request::Repeats(count) => repeat_last(alloc, surface, modes, count),
        Request::Aligns => align(alloc, surface, modes),
        Request::Reply(reply) => {
            send(reply, replies)?;
            Ok(())
        }
        Request::Nothing => Ok(()),
    }
}

// Does what the profile xterm has for an action, on a surface that hasn't failed. The run before stays.
fn carry_out_action<W: Widths + Drop>(
    surface: &mut Surface<W>,
    saved: &mut Option<SavedCursor>,
    replies: &mut Vec<u8>,
    modes: &mut Modes,
    action: Action,
) -> Result<(), SurfaceError>
    requires stays { surface.old.is_failed ≡ false }
    ensures { CarriesOutAction (λ w. W.width_of w)
        (state_of surface.old saved.old replies.old.items (Some (modes_in modes.old))) (value_of action) surface.old
        result surface.new saved.new replies.new.items (Some (modes_in modes.new)) }
{
    let region = region_on(modes, surface);
    match xterm_request(modes, region, surface, &action) {
        None => apply_table(surface, saved, replies, action),
        Some(request) => carry_out_request(surface, saved, replies, modes, region, request),
    }
}

// Does what the profile xterm has for an action, on a surface that hasn't failed, and forgets the run before; apart
// from the walk, which a plain terminal shares.
#[inline(never)]
fn apply_xterm<W: Widths + Drop>(
    surface: &mut Surface<W>,
    saved: &mut Option<SavedCursor>,
    replies: &mut Vec<u8>,
    modes: &mut Modes,
    action: Action,
) -> Result<(), SurfaceError>
    requires stays { surface.old.is_failed ≡ false }
    ensures { Applies (λ w. W.width_of w)
        (state_of surface.old saved.old replies.old.items (Some (modes_in modes.old))) (value_of action) surface.old
        result surface.new saved.new replies.new.items (Some (modes_in modes.new)) }
{
    let alloc = *replies.allocator();
    let result = carry_out_action(surface, saved, replies, modes, action);
    forget_last(alloc, &mut modes.last);
    result
}

/// Does what the terminal's profile has for an action: its changes are added to the surface, the cursor is
/// saved or a saved one dropped, a reply is appended to those not yet taken, and the modes change. An action for which
/// the terminal has no function, such as a print, does nothing.
///
/// Refuses as the surface does, and for want of memory for a copy, a saved cursor or a reply; it refuses a change that
/// has no number before it copies a text, a pen or a row. A refusal leaves the changes that were added so far.
#[inline(always)]
pub(crate) fn apply<W: Widths + Drop>(
    surface: &mut Surface<W>,
    saved: &mut Option<SavedCursor>,
    replies: &mut Vec<u8>,
    modes: &mut Option<Modes>,
    action: Action,
) -> Result<(), SurfaceError>
    ensures failed { surface.old.is_failed ≡ true → IsErrOf result SurfaceError.Failed }
    ensures done { surface.old.is_failed ≡ false
        → Applies (λ w. W.width_of w)
        (state_of surface.old saved.old replies.old.items (kept_modes modes.old)) (value_of action) surface.old
        result surface.new saved.new replies.new.items (kept_modes modes.new) }
{
    if surface.is_failed() {
        return Err(SurfaceError::Failed);
    }
    match modes {
        None => apply_table(surface, saved, replies, action),
        Some(modes) => apply_xterm(surface, saved, replies, modes, action),
    }
}

/// A run of printed characters on a plain terminal: one change, which puts each of their clusters at the cursor.
/// Refuses as the surface does.
pub(crate) fn print<W: Widths + Drop>(
    surface: &mut Surface<W>,
    text: String,
) -> Result<(), SurfaceError>
    ensures added { IfOk result
        (λ _. AddsAll (λ w. W.width_of w) surface.old surface.new (run_change (string_bytes text) ∷ [])) }
    ensures failed { IsErrOf result SurfaceError.Failed ↔ (surface.old.is_failed ≡ true) }
    ensures numbers { IsErrOf result SurfaceError.Number → 2 ^ 64 ≤ number_of surface.old + 1 }
    ensures memory { IsErrOf result SurfaceError.Memory → surface.new.is_failed ≡ true }
    ensures numbered { IsErrOf result SurfaceError.Memory → number_of surface.old + 1 < 2 ^ 64 }
    ensures fits { OnOk result (number_of surface.old < 2 ^ 64 → number_of surface.new < 2 ^ 64) }
{
    if surface.is_failed() {
        return Err(SurfaceError::Failed);
    }
    add_run(surface, text)
}

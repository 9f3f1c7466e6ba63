//! Saved cursors of the profile xterm; its two screens, of which one is shown; the soft reset and the alignment
//! display; and titles that are pushed.
ghost use Rattle.std.specs.Prelude.{◌≡◌, ◌≤◌, ◌<◌, ◌+◌, ◌^◌, ◌∷◌, drop, false, map, not, take, IfOk, IsErrOf, OnErr};
ghost use Rattle.std.specs.Prelude.{OnOk};
ghost use Rattle.std.specs.String.{string_bytes};
ghost use Rattle.cell_base.specs.Screen.{Screen, height};
ghost use Rattle.cell_surface.specs.Surface.{number_of, shown_by};
ghost use Rattle.screen_difference.specs.FreshCells.{rows_of};
ghost use Rattle.terminal_steps.specs.FunctionView.{screen_function};
ghost use Rattle.terminal_steps.specs.Memory.{TakesScreenMemory, adds_always};
ghost use Rattle.terminal_steps.specs.ProfileView.{modes_in};
ghost use Rattle.terminal_steps.specs.Switches.{CanSwitch, Switches, screens_on};
ghost use Rattle.terminal_table.specs.Alignment.{alignment_letter, modes_aligned, screen_aligned};
ghost use Rattle.terminal_table.specs.Led.{led};
ghost use Rattle.terminal_table.specs.Modes.{other_rows, region_on};
ghost use Rattle.terminal_table.specs.Screens as screens;
ghost use Rattle.terminal_table.specs.Screens.{cursor_saved, is_pending, restored_column, restored_row, title_changes};
ghost use Rattle.terminal_table.specs.Steps.{active_column, blanks_for};
ghost use Rattle.xterm_steps.specs.Additions.{Adds, CopiesAndAdds};
ghost use Rattle.xterm_steps.specs.Becomes.{Becomes};
ghost use Rattle.xterm_table.specs.Follows.{Follows};

use crate::changes::{add, add_nothing, add_pen};
use crate::charsets::initial_charsets;
use crate::cursor::Pen;
use crate::cursor_moves::current_column;
use crate::erase::erase_display;
use crate::profile::{Modes, SavedModes, add_lines, region_on, unsaved_modes};
use crate::requests::is_pending;
use crate::saved::{SavedCursor, cursor_to_restore};
use cell_base::{Cell, CellAttributes, CursorVisibility, SEQ_ZERO, Widths};
use cell_line::Line;
use cell_surface::laws::surfaces_stay_lawful;
use cell_surface::{Surface, SurfaceError};
use screen_change::Change;
use std::alloc::{AllocError, Global};
use std::mem;
use xterm_steps::{blank_line, place_with_pen, show_screen};

/// What saves and restores cursors, changes the screen that is shown, and what else changes both it and the modes.
#[derive(Clone, Copy)]
pub(crate) enum ScreenFunction {
    /// DECSC (ESC 7), SCOSC (CSI s), DECSET 1048.
    SaveCursor,
    /// DECRC (ESC 8), SCORC (CSI u), DECRST 1048; DECRST 1049 on the normal screen.
    RestoreCursor,
    /// DECSET 47 and 1047, DECRST 47: shows the other screen.
    ShowOther,
    /// DECRST 1047: erases the screen, and shows the other one.
    ClearAndShowOther,
    /// DECSET 1049 on the alternate screen: saves the cursor, and erases the screen.
    SaveAndClear,
    /// DECSET 1049 on the normal screen: saves the cursor, and shows the other screen erased.
    SaveAndShowCleared,
    /// DECRST 1049 on the alternate screen: shows the other one, and restores the cursor that was saved there.
    ShowAndRestore,
    /// DECSTR (CSI ! p): a plain pen, a visible cursor, no saved cursor, all rows scroll, and modes as those of a new
    /// terminal.
    SoftReset,
    /// CSI 22 t: pushes the title.
    PushTitle,
    /// CSI 23 t: the title that was pushed last comes back.
    PopTitle,
}

// The cursor of a surface, to be saved; in the last column, where a wrap is pending.
fn active_cursor<W: Widths + Drop>(surface: &Surface<W>) -> Result<SavedCursor, AllocError>
    ensures { IfOk result
        (λ cursor. cursor
        ≡ record {
          column = active_column (shown_by surface.now).screen;
          row = (shown_by surface.now).screen.row;
          pen = (shown_by surface.now).screen.pen;
        }) }
{
    let (_, row) = surface.cursor_position();
    let pen = surface.pen().try_clone()?;
    Ok(SavedCursor {
        column: current_column(surface),
        row,
        pen,
    })
}

// What is saved with it.
fn modes_to_save<W: Widths + Drop>(surface: &Surface<W>, modes: &Modes) -> SavedModes
    requires { surface.now.is_failed ≡ false }
    ensures pending { result.pending ≡ is_pending (shown_by surface.now).screen }
    ensures origin { result.origin ≡ modes.now.origin }
    ensures charsets { result.charsets ≡ modes.now.charsets }
{
    SavedModes {
        pending: is_pending(surface),
        origin: modes.origin,
        charsets: modes.charsets,
    }
}

// Saves the cursor of a surface.
fn save_cursor<W: Widths + Drop>(
    surface: &mut Surface<W>,
    saved: &mut Option<SavedCursor>,
    modes: &mut Modes,
) -> Result<(), SurfaceError>
    requires stays { surface.old.is_failed ≡ false }
    ensures same { surface.new ≡ surface.old }
    ensures saved { IfOk result
        (λ _. saved.new ≡ (cursor_saved (screens_on surface.old saved.old (modes_in modes.old))).saved) }
    ensures modes { IfOk result
        (λ _. modes_in modes.new ≡ (cursor_saved (screens_on surface.old saved.old (modes_in modes.old))).modes) }
    ensures refused { OnErr result (IsErrOf result SurfaceError.Memory) }
{
    let cursor = active_cursor(surface)?;
    modes.with_cursor = modes_to_save(surface, modes);
    *saved = Some(cursor);
    Ok(())
}

// The column that is restored.
fn restored_column<W: Widths + Drop>(surface: &Surface<W>, pending: bool, column: usize) -> usize
    requires { surface.now.is_failed ≡ false }
    ensures column { result ≡ restored_column pending (shown_by surface.now).screen.width column }
    ensures within { result ≤ (shown_by surface.now).screen.width }
{
    let (width, _height) = surface.dimensions();
    let column = column.min(width - 1);
    if pending && column == width - 1 {
        width
    } else {
        column
    }
}

// The row that is restored.
fn restored_row<W: Widths + Drop>(
    surface: &Surface<W>,
    modes: &Modes,
    origin: bool,
    row: usize,
) -> usize
    requires { surface.now.is_failed ≡ false }
    ensures row { result
        ≡ restored_row origin (region_on (modes_in modes.now) (shown_by surface.now).screen)
        (height (shown_by surface.now).screen) row }
    ensures within { result < height (shown_by surface.now).screen }
{
    let (_, height) = surface.dimensions();
    let region = region_on(modes, surface);
    if !origin {
        row.min(height - 1)
    } else if row < region.top {
        region.top
    } else {
        row.min(region.bottom)
    }
}

// Copies of lines.
fn copy_lines(alloc: Global, lines: &[Line]) -> Result<Vec<Line>, AllocError>
    ensures { IfOk result (λ copies. copies.items ≡ lines.now) }
{
    let mut copies = Vec::new(alloc);
    for line in lines {
        copies.push(line.try_clone()?)?;
    }
    Ok(copies)
}

// As many lines of blanks of the pen's background as the screen has.
fn blank_lines<W: Widths + Drop>(
    alloc: Global,
    surface: &Surface<W>,
) -> Result<Vec<Line>, AllocError>
    requires { surface.now.is_failed ≡ false }
    ensures { IfOk result
        (λ lines. rows_of lines.items
        ≡ blanks_for (shown_by surface.now).screen (shown_by surface.now).screen.rows) }
{
    let (_, height) = surface.dimensions();
    let mut lines = Vec::new(alloc);
    for _ in 0..height {
        lines.push(blank_line(surface)?)?;
    }
    Ok(lines)
}

// Lines of plain blanks, where there are none.
fn fill_lines<W: Widths + Drop>(
    alloc: Global,
    surface: &Surface<W>,
    lines: &mut Vec<Line>,
) -> Result<(), AllocError>
    requires { surface.now.is_failed ≡ false }
    ensures { OnOk result
        (rows_of lines.new.items ≡ other_rows (shown_by surface.now).screen (rows_of lines.old.items)) }
{
    if !lines.is_empty() {
        return Ok(());
    }
    let (width, height) = surface.dimensions();
    add_lines(alloc, lines, width, height)
}

// The surface shows lines, or plain blanks where there are none, with a cursor and a pen.
fn show_lines<W: Widths + Drop>(
    surface: &mut Surface<W>,
    lines: &mut Vec<Line>,
    column: usize,
    row: usize,
    pen: &CellAttributes,
) -> Result<(), SurfaceError>
    requires { surface.old.is_failed ≡ false }
    ensures { (screen : Screen)
        → screen
        ≡ record (shown_by surface.old).screen {
          rows = other_rows (shown_by surface.old).screen (rows_of lines.old.items);
          column = column;
          row = row;
          pen = pen.now;
        }
        → Follows (W.width_of surface.old.grid.widths) (shown_by surface.old).screen screen
        → Becomes (λ w. W.width_of w) surface.old screen result surface.new }
{
    let alloc = *lines.allocator();
    fill_lines(alloc, surface, lines)?;
    show_screen(alloc, surface, lines, column, row, pen)
}

// The other screen is shown, and lines are those of the one that was: what was saved on each changes places.
fn exchange(saved: &mut Option<SavedCursor>, modes: &mut Modes, lines: Vec<Line>)
    ensures saved { saved.new ≡ modes.old.other.cursor }
    ensures modes { modes_in modes.new
        ≡ record (modes_in modes.old) {
          alternate = not modes.old.alternate;
          with_cursor = (modes_in modes.old).other.with_cursor;
          other = record {
            rows = rows_of lines.items;
            cursor = saved.old;
            with_cursor = (modes_in modes.old).with_cursor;
          };
        } }
{
    let cursor = mem::replace(&mut modes.other.cursor, None);
    modes.other.cursor = mem::replace(saved, cursor);
    modes.other.lines = lines;
    let with_cursor = modes.other.with_cursor;
    modes.other.with_cursor = modes.with_cursor;
    modes.with_cursor = with_cursor;
    modes.alternate = !modes.alternate;
}

// The cursor that was saved is restored.
fn restore_cursor<W: Widths + Drop>(
    alloc: Global,
    surface: &mut Surface<W>,
    saved: &Option<SavedCursor>,
    modes: &mut Modes,
) -> Result<(), SurfaceError>
    requires stays { surface.old.is_failed ≡ false }
    ensures { Switches (λ w. W.width_of w) (screens_on surface.old saved.now (modes_in modes.old)) screens.RestoreCursor
        surface.old result surface.new saved.now (modes_in modes.new) }
{
    let SavedCursor { column, row, pen } = cursor_to_restore(saved)?;
    let SavedModes {
        pending,
        origin,
        charsets,
    } = modes.with_cursor;
    let column = restored_column(surface, pending, column);
    let row = restored_row(surface, modes, origin, row);
    place_with_pen(alloc, surface, column, row, &pen)?;
    modes.origin = origin;
    modes.charsets = charsets;
    Ok(())
}

// The other screen is shown.
fn show_other<W: Widths + Drop>(
    alloc: Global,
    surface: &mut Surface<W>,
    saved: &mut Option<SavedCursor>,
    modes: &mut Modes,
) -> Result<(), SurfaceError>
    requires stays { surface.old.is_failed ≡ false }
    ensures { CanSwitch (λ w. W.width_of w) surface.old (modes_in modes.old)
        → Switches (λ w. W.width_of w) (screens_on surface.old saved.old (modes_in modes.old)) screens.ShowOther
        surface.old result surface.new saved.new (modes_in modes.new) }
{
    surfaces_stay_lawful(surface);
    let lines = copy_lines(alloc, surface.screen_lines())?;
    let (column, row) = surface.cursor_position();
    let pen = surface.pen().try_clone()?;
    show_lines(surface, &mut modes.other.lines, column, row, &pen)?;
    exchange(saved, modes, lines);
    Ok(())
}

// The screen is erased, and the other one shown.
fn clear_and_show_other<W: Widths + Drop>(
    alloc: Global,
    surface: &mut Surface<W>,
    saved: &mut Option<SavedCursor>,
    modes: &mut Modes,
) -> Result<(), SurfaceError>
    requires stays { surface.old.is_failed ≡ false }
    ensures { CanSwitch (λ w. W.width_of w) surface.old (modes_in modes.old)
        → Switches (λ w. W.width_of w) (screens_on surface.old saved.old (modes_in modes.old))
        screens.ClearAndShowOther surface.old result surface.new saved.new (modes_in modes.new) }
{
    surfaces_stay_lawful(surface);
    let lines = blank_lines(alloc, surface)?;
    let column = current_column(surface);
    let (_, row) = surface.cursor_position();
    let pen = surface.pen().try_clone()?;
    show_lines(surface, &mut modes.other.lines, column, row, &pen)?;
    exchange(saved, modes, lines);
    Ok(())
}

// The cursor is saved, and the screen is erased.
fn save_and_clear<W: Widths + Drop>(
    surface: &mut Surface<W>,
    saved: &mut Option<SavedCursor>,
    modes: &mut Modes,
) -> Result<(), SurfaceError>
    requires stays { surface.old.is_failed ≡ false }
    ensures { Switches (λ w. W.width_of w) (screens_on surface.old saved.old (modes_in modes.old)) screens.SaveAndClear
        surface.old result surface.new saved.new (modes_in modes.new) }
{
    save_cursor(surface, saved, modes)?;
    erase_display(surface)
}

// The cursor is saved, and the other screen is shown erased.
fn save_and_show_cleared<W: Widths + Drop>(
    alloc: Global,
    surface: &mut Surface<W>,
    saved: &mut Option<SavedCursor>,
    modes: &mut Modes,
) -> Result<(), SurfaceError>
    requires stays { surface.old.is_failed ≡ false }
    ensures { Switches (λ w. W.width_of w) (screens_on surface.old saved.old (modes_in modes.old))
        screens.SaveAndShowCleared surface.old result surface.new saved.new (modes_in modes.new) }
{
    let lines = copy_lines(alloc, surface.screen_lines())?;
    save_cursor(surface, saved, modes)?;
    erase_display(surface)?;
    exchange(saved, modes, lines);
    Ok(())
}

// The other screen is shown, and the cursor that was saved there restored.
fn show_and_restore<W: Widths + Drop>(
    alloc: Global,
    surface: &mut Surface<W>,
    saved: &mut Option<SavedCursor>,
    modes: &mut Modes,
) -> Result<(), SurfaceError>
    requires stays { surface.old.is_failed ≡ false }
    ensures { CanSwitch (λ w. W.width_of w) surface.old (modes_in modes.old)
        → Switches (λ w. W.width_of w) (screens_on surface.old saved.old (modes_in modes.old))
        screens.ShowAndRestore surface.old result surface.new saved.new (modes_in modes.new) }
{
    surfaces_stay_lawful(surface);
    let lines = copy_lines(alloc, surface.screen_lines())?;
    let SavedCursor { column, row, pen } = cursor_to_restore(&modes.other.cursor)?;
    let SavedModes {
        pending,
        origin,
        charsets,
    } = modes.other.with_cursor;
    let column = restored_column(surface, pending, column);
    let row = restored_row(surface, modes, origin, row);
    show_lines(surface, &mut modes.other.lines, column, row, &pen)?;
    exchange(saved, modes, lines);
    modes.origin = origin;
    modes.charsets = charsets;
    Ok(())
}

// DECSTR.
fn soft_reset<W: Widths + Drop>(
    surface: &mut Surface<W>,
    saved: &mut Option<SavedCursor>,
    modes: &mut Modes,
) -> Result<(), SurfaceError>
    requires stays { surface.old.is_failed ≡ false }
    ensures { Switches (λ w. W.width_of w) (screens_on surface.old saved.old (modes_in modes.old)) screens.SoftReset
        surface.old result surface.new saved.new (modes_in modes.new) }
{
    let attributes = CellAttributes::blank();
    add_pen(surface, Pen { attributes })?;
    add(surface, Change::CursorVisibility(CursorVisibility::Visible))?;
    *saved = None;
    modes.region = None;
    modes.origin = false;
    modes.insert = false;
    modes.autowrap = true;
    modes.charsets = initial_charsets();
    modes.with_cursor = unsaved_modes();
    modes.flags.application_cursor = false;
    modes.flags.application_keypad = false;
    Ok(())
}

// The title is pushed; of those that were, ten stay.
fn push_title<W: Widths + Drop>(
    alloc: Global,
    surface: &Surface<W>,
    titles: &mut Vec<String>,
) -> Result<(), AllocError>
    ensures { OnOk result
        (map string_bytes titles.new.items
        ≡ take 10 ((shown_by surface.now).screen.title ∷ map string_bytes titles.old.items)) }
{
    let mut title = String::new(alloc);
    title.push_str(surface.title())?;
    titles.insert(0, title)?;
    titles.truncate(10);
    Ok(())
}

// The title that was pushed last comes back, if there is one.
fn pop_title<W: Widths + Drop>(
    surface: &mut Surface<W>,
    titles: &mut Vec<String>,
) -> Result<(), SurfaceError>
    requires stays { surface.old.is_failed ≡ false }
    ensures added { Adds (λ w. W.width_of w) surface.old (title_changes (map string_bytes titles.old.items)) result
        surface.new }
    ensures titles { map string_bytes titles.new.items ≡ drop 1 (map string_bytes titles.old.items) }
{
    if titles.is_empty() {
        return add_nothing(surface);
    }
    add(surface, Change::Title(titles.remove(0)))
}

// The letter E; a space, where an E takes two columns.
fn alignment_letter<W: Widths>(widths: &W) -> &str
    ensures { result.now ≡ alignment_letter (W.width_of widths.now) }
{
    if 2 <= widths.width("E") { " " } else { "E" }
}

// Lines of the letter E in every column, as many as the screen has.
fn letter_lines<W: Widths + Drop>(
    alloc: Global,
    surface: &Surface<W>,
) -> Result<Vec<Line>, AllocError>
    requires { surface.now.is_failed ≡ false }
    ensures { IfOk result
        (λ lines. rows_of lines.items
        ≡ (screen_aligned (W.width_of surface.now.grid.widths) (shown_by surface.now).screen).rows) }
{
    let (width, height) = surface.dimensions();
    let letter = alignment_letter(surface.widths());
    let mut lines = Vec::new(alloc);
    for _ in 0..height {
        let cell = Cell::new_grapheme_with_width(alloc, letter, 1, CellAttributes::blank())?;
        lines.push(Line::with_width_and_cell(alloc, width, cell, SEQ_ZERO)?)?;
    }
    Ok(lines)
}

/// DECALN (ESC # 8): every column is an E with plain attributes, the cursor is at home, and all rows scroll. Refuses as
/// `switch_screens`.
pub(crate) fn align<W: Widths + Drop>(
    alloc: Global,
    surface: &mut Surface<W>,
    modes: &mut Modes,
) -> Result<(), SurfaceError>
    requires stays { surface.old.is_failed ≡ false }
    ensures added { CopiesAndAdds (λ w. W.width_of w) surface.old
        (led (shown_by surface.old).screen
        (screen_aligned (W.width_of surface.old.grid.widths) (shown_by surface.old).screen)) result surface.new }
    ensures modes { IfOk result (λ _. modes_in modes.new ≡ modes_aligned (modes_in modes.old)) }
    ensures memory { IsErrOf result SurfaceError.Memory → number_of surface.old + 1 < 2 ^ 64 }
{
    surfaces_stay_lawful(surface);
    if surface.current_seqno() == usize::MAX {
        return Err(SurfaceError::Number);
    }
    let lines = letter_lines(alloc, surface)?;
    show_screen(alloc, surface, &lines, 0, 0, &CellAttributes::blank())?;
    modes.region = None;
    modes.origin = false;
    Ok(())
}

// Whether a function adds a change in any case.
fn adds_always(function: ScreenFunction) -> bool
    ensures { result ≡ adds_always (screen_function function) }
{
    match function {
        ScreenFunction::SaveCursor | ScreenFunction::PushTitle | ScreenFunction::PopTitle => false,
        _ => true,
    }
}

// Does a function on a surface that hasn't failed.
fn perform<W: Widths + Drop>(
    alloc: Global,
    surface: &mut Surface<W>,
    saved: &mut Option<SavedCursor>,
    modes: &mut Modes,
    function: ScreenFunction,
) -> Result<(), SurfaceError>
    requires stays { surface.old.is_failed ≡ false }
    ensures { CanSwitch (λ w. W.width_of w) surface.old (modes_in modes.old)
        → Switches (λ w. W.width_of w) (screens_on surface.old saved.old (modes_in modes.old))
        (screen_function function) surface.old result surface.new saved.new (modes_in modes.new) }
{
    match function {
        ScreenFunction::SaveCursor => save_cursor(surface, saved, modes),
        ScreenFunction::RestoreCursor => restore_cursor(alloc, surface, saved, modes),
        ScreenFunction::ShowOther => show_other(alloc, surface, saved, modes),
        ScreenFunction::ClearAndShowOther => clear_and_show_other(alloc, surface, saved, modes),
        ScreenFunction::SaveAndClear => save_and_clear(surface, saved, modes),
        ScreenFunction::SaveAndShowCleared => save_and_show_cleared(alloc, surface, saved, modes),
        ScreenFunction::ShowAndRestore => show_and_restore(alloc, surface, saved, modes),
        ScreenFunction::SoftReset => soft_reset(surface, saved, modes),
        ScreenFunction::PushTitle => {
            push_title(alloc, surface, &mut modes.titles)?;
            Ok(())
        }
        ScreenFunction::PopTitle => pop_title(surface, &mut modes.titles),
    }
}

/// Does a function on a surface that hasn't failed. Refuses as the surface does, and for want of memory for a copy of
/// the cursor, of rows or of a title; where it adds a change in any case, it refuses one that has no number before it
/// copies anything.
pub(crate) fn switch_screens<W: Widths + Drop>(
    alloc: Global,
    surface: &mut Surface<W>,
    saved: &mut Option<SavedCursor>,
    modes: &mut Modes,
    function: ScreenFunction,
) -> Result<(), SurfaceError>
    requires stays { surface.old.is_failed ≡ false }
    ensures done { CanSwitch (λ w. W.width_of w) surface.old (modes_in modes.old)
        → Switches (λ w. W.width_of w) (screens_on surface.old saved.old (modes_in modes.old))
        (screen_function function) surface.old result surface.new saved.new (modes_in modes.new) }
    ensures memory { IsErrOf result SurfaceError.Memory → number_of surface.old < 2 ^ 64
        → TakesScreenMemory (screen_function function) (number_of surface.old) }
{
    surfaces_stay_lawful(surface);
    if adds_always(function) && surface.current_seqno() == usize::MAX {
        return Err(SurfaceError::Number);
    }
    perform(alloc, surface, saved, modes, function)
}

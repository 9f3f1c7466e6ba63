//! Functions that move rows between margins: SU, SD, IL, DL, LF, NEL and RI. No line is copied but one for a blank row.
ghost use Rattle.std.specs.Prelude.{◌≡◌, ◌≤◌, ◌<◌, ◌+◌, ◌++◌, [], false, length, map, replicate, slice_index_or};
ghost use Rattle.std.specs.Prelude.{IfOk, OnErr, OnOk, IsErrOf};
ghost use Rattle.cell_base.specs.Screen.{height};
ghost use Rattle.cell_surface.specs.Surface.{shown_by};
ghost use Rattle.screen_change.specs.ValueOf.{value_of};
ghost use Rattle.screen_difference.specs.Difference.{difference};
ghost use Rattle.screen_difference.specs.FreshCells.{lines_fresh, rows_of};
ghost use Rattle.screen_effects.specs.Regions.{in_region, moved_down, moved_up};
ghost use Rattle.terminal_table.specs.Led.{led};
ghost use Rattle.xterm_table.specs.Follows.{Follows};
ghost use Rattle.xterm_table.specs.RowEdits.{blanks};
ghost use Rattle.xterm_table.specs.RowMoves.{in_column, line_fed, lines_deleted, lines_inserted, next_line, next_row};
ghost use Rattle.xterm_table.specs.RowMoves.{reverse_line_fed, row_before, rows_down, rows_up, scrolled_down};
ghost use Rattle.xterm_table.specs.RowMoves.{scrolled_up};
ghost use Rattle.xterm_steps.specs.Becomes.{Becomes};
ghost use Rattle.xterm_steps.specs.Place.{place_and_pen};

use crate::additions::show;
use crate::place::place_cursor;
use crate::row_copies::{active_column, blank_line};
use crate::screens::screen_changes;
use cell_base::Widths;
use cell_line::Line;
use cell_surface::laws::surfaces_stay_lawful;
use cell_surface::{Surface, SurfaceError};
use screen_change::Change;
use std::alloc::{AllocError, Global};
use xterm_table::laws::row_moves_follow;

/// Appends lines.
pub(crate) fn push_lines<'a>(news: &mut Vec<&'a Line>, lines: &'a [Line]) -> Result<(), AllocError>
    ensures { OnOk result
        (map (λ line. line.now) news.new.items ≡ map (λ line. line.now) news.old.items ++ lines.now) }
{
    for line in lines {
        news.push(line)?;
    }
    Ok(())
}

// Appends a line some times.
fn push_copies<'a>(news: &mut Vec<&'a Line>, line: &'a Line, count: usize) -> Result<(), AllocError>
    ensures { OnOk result
        (map (λ line. line.now) news.new.items
        ≡ map (λ line. line.now) news.old.items ++ replicate count line.now) }
{
    for at in 0..count {
        let _at = at;
        news.push(line)?;
    }
    Ok(())
}

/// Lines of which some have moved up.
pub(crate) fn lines_up<'a>(
    alloc: Global,
    lines: &'a [Line],
    blank: &'a Line,
    first: usize,
    size: usize,
    count: usize,
) -> Result<Vec<&'a Line>, AllocError>
    requires { first + size ≤ length lines.now }
    ensures { IfOk result
        (λ news. map (λ line. line.now) news.items ≡ in_region (moved_up blank.now count) first size lines.now) }
{
    let gone = count.min(size);
    let mut news = Vec::new(alloc);
    push_lines(&mut news, &lines[..first])?;
    push_lines(&mut news, &lines[first + gone..first + size])?;
    push_copies(&mut news, blank, gone)?;
    push_lines(&mut news, &lines[first + size..])?;
    Ok(news)
}

// Lines of which some have moved down.
fn lines_down<'a>(
    alloc: Global,
    lines: &'a [Line],
    blank: &'a Line,
    first: usize,
    size: usize,
    count: usize,
) -> Result<Vec<&'a Line>, AllocError>
    requires { first + size ≤ length lines.now }
    ensures { IfOk result
        (λ news. map (λ line. line.now) news.items ≡ in_region (moved_down blank.now count) first size lines.now) }
{
    let gone = count.min(size);
    let mut news = Vec::new(alloc);
    push_lines(&mut news, &lines[..first])?;
    push_copies(&mut news, blank, gone)?;
    push_lines(&mut news, &lines[first..first + (size - gone)])?;
    push_lines(&mut news, &lines[first + size..])?;
    Ok(news)
}

/// The changes that make all rows show lines, and put the cursor into a column of its row.
pub(crate) fn lines_changes<W: Widths + Drop>(
    alloc: Global,
    surface: &Surface<W>,
    news: Vec<&Line>,
    column: usize,
) -> Result<Vec<Change>, SurfaceError>
    requires stays { surface.now.is_failed ≡ false }
    requires row { (shown_by surface.now).screen.row < length news.items }
    ensures changes { IfOk result
        (λ changes. map value_of changes.items
        ≡ difference
        (lines_fresh (shown_by surface.now).screen.rows 0 (rows_of (map (λ line. line.now) news.entry.items)))
        ++ place_and_pen (shown_by surface.now).screen.width column (shown_by surface.now).screen.row
        (shown_by surface.now).screen.pen
        (slice_index_or (rows_of (map (λ line. line.now) news.entry.items)) (shown_by surface.now).screen.row [])) }
    ensures refused { OnErr result (IsErrOf result SurfaceError.Memory) }
{
    let (_, row) = surface.cursor_position();
    let changes = screen_changes(alloc, surface, news, column, row, surface.pen())?;
    Ok(changes)
}

// The changes of a move up.
fn up_changes<W: Widths + Drop>(
    alloc: Global,
    surface: &Surface<W>,
    blank: &Line,
    first: usize,
    size: usize,
    count: usize,
    column: usize,
) -> Result<Vec<Change>, SurfaceError>
    requires stays { surface.now.is_failed ≡ false }
    requires blank { blank.now.columns ≡ blanks (shown_by surface.now).screen.width (shown_by surface.now).screen }
    requires within { first + size ≤ height (shown_by surface.now).screen }
    requires follows { Follows (W.width_of surface.now.grid.widths) (shown_by surface.now).screen
        (in_column column (rows_up first size count (shown_by surface.now).screen)) }
    ensures changes { IfOk result
        (λ changes. map value_of changes.items
        ≡ led (shown_by surface.now).screen
        (in_column column (rows_up first size count (shown_by surface.now).screen))) }
    ensures refused { OnErr result (IsErrOf result SurfaceError.Memory) }
{
    let lines = surface.screen_lines();
    let news = lines_up(alloc, lines, blank, first, size, count)?;
    let changes = lines_changes(alloc, surface, news, column)?;
    Ok(changes)
}

// The changes of a move down.
fn down_changes<W: Widths + Drop>(
    alloc: Global,
    surface: &Surface<W>,
    blank: &Line,
    first: usize,
    size: usize,
    count: usize,
    column: usize,
) -> Result<Vec<Change>, SurfaceError>
    requires stays { surface.now.is_failed ≡ false }
    requires blank { blank.now.columns ≡ blanks (shown_by surface.now).screen.width (shown_by surface.now).screen }
    requires within { first + size ≤ height (shown_by surface.now).screen }
    requires follows { Follows (W.width_of surface.now.grid.widths) (shown_by surface.now).screen
        (in_column column (rows_down first size count (shown_by surface.now).screen)) }
    ensures changes { IfOk result
        (λ changes. map value_of changes.items
        ≡ led (shown_by surface.now).screen
        (in_column column (rows_down first size count (shown_by surface.now).screen))) }
    ensures refused { OnErr result (IsErrOf result SurfaceError.Memory) }
{
    let lines = surface.screen_lines();
    let news = lines_down(alloc, lines, blank, first, size, count)?;
    let changes = lines_changes(alloc, surface, news, column)?;
    Ok(changes)
}

// Rows move up, and the cursor goes to a column of its row.
fn move_up<W: Widths + Drop>(
    alloc: Global,
    surface: &mut Surface<W>,
    first: usize,
    size: usize,
    count: usize,
    column: usize,
) -> Result<(), SurfaceError>
    requires stays { surface.old.is_failed ≡ false }
    requires within { first + size ≤ height (shown_by surface.old).screen }
    requires column { column ≤ (shown_by surface.old).screen.width }
    ensures { Becomes (λ w. W.width_of w) surface.old
        (in_column column (rows_up first size count (shown_by surface.old).screen)) result surface.new }
{
    surfaces_stay_lawful(surface);
    row_moves_follow();
    let blank = blank_line(surface)?;
    let changes = up_changes(alloc, surface, &blank, first, size, count, column)?;
    show(surface, changes)
}

// Rows move down, and the cursor goes to a column of its row.
fn move_down<W: Widths + Drop>(
    alloc: Global,
    surface: &mut Surface<W>,
    first: usize,
    size: usize,
    count: usize,
    column: usize,
) -> Result<(), SurfaceError>
    requires stays { surface.old.is_failed ≡ false }
    requires within { first + size ≤ height (shown_by surface.old).screen }
    requires column { column ≤ (shown_by surface.old).screen.width }
    ensures { Becomes (λ w. W.width_of w) surface.old
        (in_column column (rows_down first size count (shown_by surface.old).screen)) result surface.new }
{
    surfaces_stay_lawful(surface);
    row_moves_follow();
    let blank = blank_line(surface)?;
    let changes = down_changes(alloc, surface, &blank, first, size, count, column)?;
    show(surface, changes)
}

/// SU (CSI S) between margins: the rows from `top` to `bottom`, counted from 0, move up by `count`, and blanks of the
/// pen's background come. The cursor's place is kept, also where a wrap is pending.
pub fn scroll_up<W: Widths + Drop>(
    alloc: Global,
    surface: &mut Surface<W>,
    top: usize,
    bottom: usize,
    count: usize,
) -> Result<(), SurfaceError>
    requires order { top ≤ bottom }
    requires within { surface.old.is_failed ≡ false → bottom < height (shown_by surface.old).screen }
    ensures { Becomes (λ w. W.width_of w) surface.old (scrolled_up top bottom count (shown_by surface.old).screen)
        result surface.new }
{
    if surface.is_failed() {
        return Err(SurfaceError::Failed);
    }
    let (_width, _height) = surface.dimensions();
    let (column, _) = surface.cursor_position();
    move_up(alloc, surface, top, bottom - top + 1, count, column)
}

/// SD (CSI T) between margins: they move down.
pub fn scroll_down<W: Widths + Drop>(
    alloc: Global,
    surface: &mut Surface<W>,
    top: usize,
    bottom: usize,
    count: usize,
) -> Result<(), SurfaceError>
    requires order { top ≤ bottom }
    requires within { surface.old.is_failed ≡ false → bottom < height (shown_by surface.old).screen }
    ensures { Becomes (λ w. W.width_of w) surface.old (scrolled_down top bottom count (shown_by surface.old).screen)
        result surface.new }
{
    if surface.is_failed() {
        return Err(SurfaceError::Failed);
    }
    let (_width, _height) = surface.dimensions();
    let (column, _) = surface.cursor_position();
    move_down(alloc, surface, top, bottom - top + 1, count, column)
}

/// IL (CSI L): the rows from the cursor's to the lower margin, counted from 0, move down by `count`, blanks of the
/// pen's background come, and the cursor goes to the first column.
pub fn insert_lines<W: Widths + Drop>(
    alloc: Global,
    surface: &mut Surface<W>,
    bottom: usize,
    count: usize,
) -> Result<(), SurfaceError>
    requires within { surface.old.is_failed ≡ false → bottom < height (shown_by surface.old).screen }
    ensures { Becomes (λ w. W.width_of w) surface.old (lines_inserted bottom count (shown_by surface.old).screen) result
        surface.new }
{
    if surface.is_failed() {
        return Err(SurfaceError::Failed);
    }
    surfaces_stay_lawful(surface);
    let (_width, _height) = surface.dimensions();
    let (_, row) = surface.cursor_position();
    move_down(
        alloc,
        surface,
        row,
        (bottom + 1).saturating_sub(row),
        count,
        0,
    )
}

/// DL (CSI M): they move up.
pub fn delete_lines<W: Widths + Drop>(
    alloc: Global,
    surface: &mut Surface<W>,
    bottom: usize,
    count: usize,
) -> Result<(), SurfaceError>
    requires within { surface.old.is_failed ≡ false → bottom < height (shown_by surface.old).screen }
    ensures { Becomes (λ w. W.width_of w) surface.old (lines_deleted bottom count (shown_by surface.old).screen) result
        surface.new }
{
    if surface.is_failed() {
        return Err(SurfaceError::Failed);
    }
    surfaces_stay_lawful(surface);
    let (_width, _height) = surface.dimensions();
    let (_, row) = surface.cursor_position();
    move_up(
        alloc,
        surface,
        row,
        (bottom + 1).saturating_sub(row),
        count,
        0,
    )
}

// The cursor goes to a column of the next row; at the lower margin the region scrolls.
fn to_next_row<W: Widths + Drop>(
    alloc: Global,
    surface: &mut Surface<W>,
    top: usize,
    bottom: usize,
    column: usize,
) -> Result<(), SurfaceError>
    requires stays { surface.old.is_failed ≡ false }
    requires order { top ≤ bottom }
    requires within { bottom < height (shown_by surface.old).screen }
    requires column { column < (shown_by surface.old).screen.width }
    ensures { Becomes (λ w. W.width_of w) surface.old
        (next_row top bottom (in_column column (shown_by surface.old).screen)) result surface.new }
{
    let (_width, height) = surface.dimensions();
    let (_, row) = surface.cursor_position();
    if row == bottom {
        return move_up(alloc, surface, top, bottom - top + 1, 1, column);
    }
    place_cursor(alloc, surface, column, (row + 1).min(height - 1))
}

// The cursor goes to a column of the row before; at the upper margin the region scrolls.
fn to_row_before<W: Widths + Drop>(
    alloc: Global,
    surface: &mut Surface<W>,
    top: usize,
    bottom: usize,
    column: usize,
) -> Result<(), SurfaceError>
    requires stays { surface.old.is_failed ≡ false }
    requires order { top ≤ bottom }
    requires within { bottom < height (shown_by surface.old).screen }
    requires column { column < (shown_by surface.old).screen.width }
    ensures { Becomes (λ w. W.width_of w) surface.old
        (row_before top bottom (in_column column (shown_by surface.old).screen)) result surface.new }
{
    let (_width, _height) = surface.dimensions();
    let (_, row) = surface.cursor_position();
    if row == top {
        return move_down(alloc, surface, top, bottom - top + 1, 1, column);
    }
    place_cursor(alloc, surface, column, row.saturating_sub(1))
}

/// LF, VT, FF and IND (ESC D): the cursor goes to the next row; at the lower margin the rows from `top` to `bottom`
/// move up, and at the screen's last row it stays. A pending wrap ends.
pub fn line_feed<W: Widths + Drop>(
    alloc: Global,
    surface: &mut Surface<W>,
    top: usize,
    bottom: usize,
) -> Result<(), SurfaceError>
    requires order { top ≤ bottom }
    requires within { surface.old.is_failed ≡ false → bottom < height (shown_by surface.old).screen }
    ensures { Becomes (λ w. W.width_of w) surface.old (line_fed top bottom (shown_by surface.old).screen) result
        surface.new }
{
    if surface.is_failed() {
        return Err(SurfaceError::Failed);
    }
    surfaces_stay_lawful(surface);
    let column = active_column(surface);
    to_next_row(alloc, surface, top, bottom, column)
}

/// NEL (ESC E): as LF, and the cursor goes to the first column.
pub fn next_line<W: Widths + Drop>(
    alloc: Global,
    surface: &mut Surface<W>,
    top: usize,
    bottom: usize,
) -> Result<(), SurfaceError>
    requires order { top ≤ bottom }
    requires within { surface.old.is_failed ≡ false → bottom < height (shown_by surface.old).screen }
    ensures { Becomes (λ w. W.width_of w) surface.old (next_line top bottom (shown_by surface.old).screen) result
        surface.new }
{
    if surface.is_failed() {
        return Err(SurfaceError::Failed);
    }
    surfaces_stay_lawful(surface);
    to_next_row(alloc, surface, top, bottom, 0)
}

/// RI (ESC M): the cursor goes to the row before; at the upper margin the rows from `top` to `bottom` move down, and at
/// the screen's first row it stays. A pending wrap ends.
pub fn reverse_index<W: Widths + Drop>(
    alloc: Global,
    surface: &mut Surface<W>,
    top: usize,
    bottom: usize,
) -> Result<(), SurfaceError>
    requires order { top ≤ bottom }
    requires within { surface.old.is_failed ≡ false → bottom < height (shown_by surface.old).screen }
    ensures { Becomes (λ w. W.width_of w) surface.old (reverse_line_fed top bottom (shown_by surface.old).screen) result
        surface.new }
{
    if surface.is_failed() {
        return Err(SurfaceError::Failed);
    }
    surfaces_stay_lawful(surface);
    let column = active_column(surface);
    to_row_before(alloc, surface, top, bottom, column)
}

//! The changes that paint rows.
ghost use Rattle.std.specs.Prelude.{◌≡◌, ◌&&◌, ◌==◌, not, nat_le, List, [], true, false, ◌+◌, ◌<◌, ◌≤◌, length, take};
ghost use Rattle.std.specs.Prelude.{if◌then◌else◌, IfOk, OnOk, Some};
ghost use Rattle.std.specs.Option.{option_map};
ghost use Rattle.cell_base.specs.Attributes.{Attributes, blank_of};
ghost use Rattle.cell_base.specs.CellContent.{CellContent};
ghost use Rattle.cell_base.specs.Row.{Row};
ghost use Rattle.screen_change.specs.CellChanges.{clear_due};
ghost use Rattle.screen_change.specs.CellRuns.{background_at_end};
ghost use Rattle.screen_change.specs.Written.{with_cells};
ghost use Rattle.cell_views.specs.CellRefView.{cells_left};
ghost use Rattle.screen_repaint.specs.Ends.{end_of, ends_in};
ghost use Rattle.screen_repaint.specs.PaintedRows.{AreFilled, IsTail, WritesOn, rest_of, ended, moves, rows_of};
ghost use Rattle.screen_repaint.specs.PaintedRows.{with_changes};
ghost use Rattle.screen_repaint.specs.Repaint.{are_some, end_cleared, go_with_blanks, row_cells, row_painted};
ghost use Rattle.screen_repaint.specs.Repaint.{rows_painted};

use crate::ends::{RowEnd, blank_tail, ends_in, row_end};
use crate::fast::write_plain;
use cell_base::{CellAttributes, ColorAttribute, Position};
use cell_line::{Line, VisibleCellIter};
use screen_change::{CellWriter, Change};
use std::alloc::AllocError;

// Moves the cursor to the start of the row `count` rows further down.
fn write_moves(writer: &mut CellWriter<'_>, count: usize) -> Result<(), AllocError>
    requires { writer.old.cells ≡ [] }
    ensures { OnOk result (writer.new ≡ with_changes (moves count) writer.old) }
{
    for _ in 0..count {
        writer.push_change(Change::CursorPosition {
            x: Position::Absolute(0),
            y: Position::Relative(1),
        })?;
    }
    Ok(())
}

// Writes the next of the remaining cells: as many as can be passed as one text (`pass_plain`) and at most `most`, or
// else one. Returns how many; 0 where none is left, or `most` is 0.
fn write_next<'a>(
    writer: &mut CellWriter<'a>,
    cells: &mut VisibleCellIter<'a>,
    most: usize,
) -> Result<usize, AllocError>
    ensures { IfOk result
        (λ count. WritesOn most writer.old (cells_left cells.old) count writer.new (cells_left cells.new)) }
{
    if let Some(count) = write_plain(writer, cells, most)? {
        return Ok(count);
    }
    if most == 0 {
        return Ok(0);
    }
    let Some(cell) = cells.next() else {
        return Ok(0);
    };
    writer.push_cell(cell.str(), cell.attrs())?;
    Ok(1)
}

// Writes the first cells of a line.
fn write_cells<'a>(
    writer: &mut CellWriter<'a>,
    line: &'a Line,
    count: usize,
) -> Result<(), AllocError>
    ensures { OnOk result (writer.new ≡ with_cells writer.old (take count (row_cells line.now.columns))) }
{
    let mut cells = line.visible_cells();
    let mut left = count;
    loop {
        let written = write_next(writer, &mut cells, left)?;
        if written == 0 {
            return Ok(());
        }
        left -= written;
    }
}

// Clears the blanks at a row's end, and with `below_too` also the rows below. Ends the texts before them.
fn write_clear<'a>(
    writer: &mut CellWriter<'a>,
    blanks: Option<&'a CellAttributes>,
    below_too: bool,
) -> Result<(), AllocError>
    requires { (attributes : Attributes) → option_map (λ a. a.now) blanks ≡ Some attributes
        → attributes ≡ blank_of attributes.background }
    ensures { OnOk result
        (writer.new
        ≡ with_changes (end_cleared (option_map (λ a. a.now.background) blanks.entry) below_too)
        (ended writer.old)) }
{
    let Some(attrs) = blanks else {
        writer.end_texts()?;
        return Ok(());
    };
    let color = attrs.background();
    if below_too {
        writer.push_clear(Change::ClearToEndOfScreen(color), attrs)?;
        return Ok(());
    }
    match color {
        ColorAttribute::Default => writer.end_texts()?,
        _ => writer.push_clear(Change::ClearToEndOfLine(color), attrs)?,
    }
    Ok(())
}

// Paints a row's cells, and the blanks at its end.
fn write_row<'a>(
    writer: &mut CellWriter<'a>,
    line: &'a Line,
    end: &RowEnd<'a>,
    below_too: bool,
) -> Result<(), AllocError>
    requires end { end.now ≡ end_of (row_cells line.now.columns) }
    requires ended { writer.old.cells ≡ [] }
    ensures { OnOk result
        (writer.new ≡ with_changes (row_painted writer.old.pen (row_cells line.now.columns) below_too) writer.old) }
{
    write_cells(writer, line, end.kept())?;
    write_clear(writer, end.blanks(), below_too)?;
    Ok(())
}

// Whether the colour isn't the default one.
fn is_coloured(color: ColorAttribute) -> bool
    ensures { result ≡ are_some (clear_due color) }
{
    match color {
        ColorAttribute::Default => false,
        _ => true,
    }
}

// Whether anything is painted of a row with this end.
fn is_painted(end: &RowEnd<'_>) -> bool
    ensures { (pen : Attributes) (cells : List CellContent) (below : List Row) → end.now ≡ end_of cells
        → result ≡ are_some (row_painted pen cells (go_with_blanks (background_at_end cells) below)) }
{
    if end.kept() > 0 {
        return true;
    }
    match end.blanks() {
        None => false,
        Some(attrs) => is_coloured(attrs.background()),
    }
}

// Whether there are any `lines`, all of them among the last `count` ones, which have only blanks with the
// attributes `blanks`, and `blanks` is `attrs`.
fn are_all(
    count: usize,
    blanks: Option<&CellAttributes>,
    lines: &[Line],
    attrs: &CellAttributes,
) -> bool
    ensures { result
        ≡ (not (length lines.now == 0)
        && (ends_in (option_map (λ a. a.now) blanks.entry) attrs.now && nat_le (length lines.now) count)) }
{
    if lines.is_empty() {
        return false;
    }
    ends_in(blanks, attrs) && lines.len() <= count
}

// Whether one clear covers the blanks at the end of a line and the lines below.
fn go_with(
    blanks: Option<&CellAttributes>,
    tail: (usize, Option<&CellAttributes>),
    below: &[Line],
) -> bool
    ensures { IsTail tail.entry.0 (option_map (λ a. a.now) tail.entry.1) (rows_of below.now)
        → ((attributes : Attributes) → option_map (λ a. a.now) blanks.entry ≡ Some attributes
        → attributes ≡ blank_of attributes.background)
        → result ≡ go_with_blanks (option_map (λ a. a.now.background) blanks.entry) (rows_of below.now) }
{
    let Some(attrs) = blanks else {
        return false;
    };
    is_coloured(attrs.background()) && are_all(tail.0, tail.1, below, attrs)
}

// The lines below, or none where they are cleared with the blanks of the line above.
fn rest_of<'a>(below_too: bool, below: &'a [Line]) -> &'a [Line]
    ensures { result.now ≡ rest_of below_too below.now }
{
    if below_too { &[] } else { below }
}

/// Paints rows on plain blanks, from the start of the first; returns whether anything was written.
pub(crate) fn paint_rows<'a>(
    writer: &mut CellWriter<'a>,
    lines: &'a [Line],
) -> Result<bool, AllocError>
    requires filled { AreFilled (rows_of lines.now) }
    requires ended { writer.old.cells ≡ [] }
    ensures written { OnOk result
        (writer.new ≡ with_changes (rows_painted writer.old.pen (rows_of lines.now)) writer.old) }
    ensures any { IfOk result (λ any. any ≡ are_some (rows_painted writer.old.pen (rows_of lines.now))) }
{
    let tail = blank_tail(lines);
    let mut painted = false;
    let mut at = lines.len();
    let mut left = lines;
    while let Some((line, below)) = left.split_first() {
        let end = row_end(line);
        let below_too = go_with(end.blanks(), tail, below);
        if is_painted(&end) {
            write_moves(writer, at - left.len())?;
            write_row(writer, line, &end, below_too)?;
            painted = true;
            at = left.len();
        }
        left = rest_of(below_too, below);
    }
    Ok(painted)
}

//! Differences of regions, of lines and of screens.
ghost use Rattle.std.specs.Prelude.{◌≡◌, ◌+◌, ◌<◌, ◌^◌, [], ◌∷◌, drop, length, map, IfOk, OnOk};
ghost use Rattle.screen_change.specs.ValueOf.{value_of};
ghost use Rattle.screen_difference.specs.Difference.{difference};
ghost use Rattle.screen_difference.specs.Drawing.{with_all};
ghost use Rattle.screen_difference.specs.FreshCells.{lines_fresh, region_fresh, row_fresh, rows_fresh, rows_of};

use crate::difference_writer::DifferenceWriter;
use crate::rows::write_row;
use cell_base::CellAttributes;
use cell_line::Line;
use screen_change::Change;
use std::alloc::{AllocError, Global};

// The lines from index `row` on.
fn lines_from(lines: &[Line], row: usize) -> &[Line]
    ensures { result.now ≡ drop row lines.now }
{
    &lines[row.min(lines.len())..]
}

// Writes the fresh cells of some columns of new lines in turn, each against the old line at the same index; the first
// old line is row `number`.
fn write_region<'a>(
    writer: &mut DifferenceWriter<'a>,
    number: usize,
    x: usize,
    olds: &[Line],
    other_x: usize,
    news: &'a [Line],
    width: usize,
) -> Result<(), AllocError>
    requires { number + length olds.now < 2 ^ 64 }
    ensures { OnOk result
        (writer.new
        ≡ with_all writer.old
        (rows_fresh (row_fresh x other_x width) number (rows_of olds.now) (rows_of news.now))) }
{
    for at in 0..olds.len().min(news.len()) {
        write_row(writer, number + at, x, &olds[at], other_x, &news[at], width)?;
    }
    Ok(())
}

// Writes the fresh cells of whole lines, row by row from row `number` on, as far as both sides have lines.
fn write_lines<'a>(
    writer: &mut DifferenceWriter<'a>,
    number: usize,
    olds: &[Line],
    news: &[&'a Line],
) -> Result<(), AllocError>
    requires { number + length olds.now < 2 ^ 64 }
    ensures { OnOk result
        (writer.new
        ≡ with_all writer.old
        (rows_fresh (λ old new. row_fresh 0 0 (length new) old new) number (rows_of olds.now)
        (rows_of (map (λ line. line.now) news.now)))) }
{
    for at in 0..olds.len().min(news.len()) {
        let new = news[at];
        write_row(writer, number + at, 0, &olds[at], 0, new, new.len())?;
    }
    Ok(())
}

// The changes of `diff_region`. `attrs` is a placeholder.
fn region_changes<'a>(
    alloc: Global,
    attrs: &'a CellAttributes,
    lines: &[Line],
    x: usize,
    y: usize,
    width: usize,
    height: usize,
    other_lines: &'a [Line],
    other_x: usize,
    other_y: usize,
) -> Result<Vec<Change>, AllocError>
    ensures { IfOk result
        (λ changes. map value_of changes.items
        ≡ difference (region_fresh (rows_of lines.now) x y width height (rows_of other_lines.now) other_x other_y)) }
{
    let mut writer = DifferenceWriter::new(alloc, attrs);
    let olds = lines_from(lines, y);
    let olds = &olds[..height.min(olds.len())];
    write_region(
        &mut writer,
        y,
        x,
        olds,
        other_x,
        lines_from(other_lines, other_y),
        width,
    )?;
    let changes = writer.finish()?;
    Ok(changes)
}

/// The changes that make a region of `lines`, whose top left is at column `x` and row `y`, show what the
/// region of `other_lines`, the new side, at `other_x` and `other_y` shows. Columns and rows that either side
/// lacks are left out, and a cell that an edge cuts counts as a blank with its attributes.
pub fn diff_region(
    alloc: Global,
    lines: &[Line],
    x: usize,
    y: usize,
    width: usize,
    height: usize,
    other_lines: &[Line],
    other_x: usize,
    other_y: usize,
) -> Result<Vec<Change>, AllocError>
    ensures { IfOk result
        (λ changes. map value_of changes.items
        ≡ difference (region_fresh (rows_of lines.now) x y width height (rows_of other_lines.now) other_x other_y)) }
{
    let attrs = CellAttributes::blank();
    let changes = region_changes(
        alloc,
        &attrs,
        lines,
        x,
        y,
        width,
        height,
        other_lines,
        other_x,
        other_y,
    )?;
    Ok(changes)
}

// The changes of `diff_lines`. `attrs` is a placeholder.
fn line_changes<'a>(
    alloc: Global,
    attrs: &'a CellAttributes,
    lines: &[Line],
    other_lines: &'a [&'a Line],
) -> Result<Vec<Change>, AllocError>
    ensures { IfOk result
        (λ changes. map value_of changes.items
        ≡ difference (lines_fresh (rows_of lines.now) 0 (rows_of (map (λ line. line.now) other_lines.now)))) }
{
    let mut writer = DifferenceWriter::new(alloc, attrs);
    write_lines(&mut writer, 0, lines, other_lines)?;
    let changes = writer.finish()?;
    Ok(changes)
}

/// The changes that make the first of `lines` show the lines of `other_lines`, which is the new side, line by line.
pub fn diff_lines(
    alloc: Global,
    lines: &[Line],
    other_lines: &[&Line],
) -> Result<Vec<Change>, AllocError>
    ensures { IfOk result
        (λ changes. map value_of changes.items
        ≡ difference (lines_fresh (rows_of lines.now) 0 (rows_of (map (λ line. line.now) other_lines.now)))) }
{
    let attrs = CellAttributes::blank();
    let changes = line_changes(alloc, &attrs, lines, other_lines)?;
    Ok(changes)
}

// The changes of `diff_against_numbered_line`. `attrs` is a placeholder.
fn numbered_line_changes<'a>(
    alloc: Global,
    attrs: &'a CellAttributes,
    lines: &[Line],
    row: usize,
    other: &'a Line,
) -> Result<Vec<Change>, AllocError>
    ensures { IfOk result
        (λ changes. map value_of changes.items
        ≡ difference (lines_fresh (rows_of lines.now) row (rows_of (other.now ∷ [])))) }
{
    let mut writer = DifferenceWriter::new(alloc, attrs);
    write_lines(&mut writer, row, lines_from(lines, row), &[other])?;
    let changes = writer.finish()?;
    Ok(changes)
}

/// The changes that make line `row`, counted from 0, show what `other` shows; none where there is no
/// line `row`.
pub fn diff_against_numbered_line(
    alloc: Global,
    lines: &[Line],
    row: usize,
    other: &Line,
) -> Result<Vec<Change>, AllocError>
    ensures { IfOk result
        (λ changes. map value_of changes.items
        ≡ difference (lines_fresh (rows_of lines.now) row (rows_of (other.now ∷ [])))) }
{
    let attrs = CellAttributes::blank();
    let changes = numbered_line_changes(alloc, &attrs, lines, row, other)?;
    Ok(changes)
}

/// The changes that make the lines of a screen of `width` columns show what the lines of another
/// screen, `other_lines`, show.
pub fn diff_screens(
    alloc: Global,
    width: usize,
    lines: &[Line],
    other_lines: &[Line],
) -> Result<Vec<Change>, AllocError>
    ensures { IfOk result
        (λ changes. map value_of changes.items
        ≡ difference (region_fresh (rows_of lines.now) 0 0 width (length lines.now) (rows_of other_lines.now) 0 0)) }
{
    diff_region(alloc, lines, 0, 0, width, lines.len(), other_lines, 0, 0)
}

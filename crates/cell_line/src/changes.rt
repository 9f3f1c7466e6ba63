//! The changes that write a line.
ghost use Rattle.std.specs.Prelude.{◌≡◌, ◌++◌, [], ◌∷◌, not, map, filter, OnOk, IfOk, Some, if◌then◌else◌};
ghost use Rattle.cell_base.specs.Attributes.{blank_of};
ghost use Rattle.screen_change.specs.CellChanges.{cells_written, clear_due, row_written};
ghost use Rattle.screen_change.specs.CellRuns.{is_blank_of, background_at_end};
ghost use Rattle.screen_change.specs.ValueOf.{value_of};
ghost use Rattle.screen_change.specs.Written.{finished, with_cells};
ghost use Rattle.cell_views.specs.CellRefView.{shown_by};
ghost use Rattle.cell_line.specs.OpenChanges.{background_of, last_non_blank, written_with_clear};
ghost use Rattle.cell_views.specs.OpenZones.{is_kept_by};
ghost use Rattle.cell_views.specs.StoredCells.{stored_row};
ghost use Rattle.cell_edits.specs.VisibleCells.{visible_cells, contents};

use cell_base::{CellAttributes, ColorAttribute};
use cell_views::query::is_space;
use cell_views::zones::is_kept;
use cell_views::{CellRef, StoredCells, VisibleCellIter};
use screen_change::{CellWriter, Change};
use std::alloc::{AllocError, Global};

// Plain attributes with a background colour.
fn blank_attrs(color: ColorAttribute) -> CellAttributes
    ensures { result ≡ blank_of color }
{
    let mut attrs = CellAttributes::blank();
    attrs.set_background(color);
    attrs
}

// Whether the cell is one space, plain except for this background.
#[tactic(auto, unfolding(screen_change::specs::CellRuns::is_blank_of))]
fn is_blank_of(color: ColorAttribute, cell: &CellRef<'_>) -> bool
    ensures { result ≡ is_blank_of color (shown_by cell.now).cell }
{
    is_space(cell.str()) && *cell.attrs() == blank_attrs(color)
}

// The background of a cell that is one space, plain except for its background.
fn background_of(cell: &CellRef<'_>) -> Option<ColorAttribute>
    ensures { result ≡ background_of (shown_by cell.now).cell }
{
    let color = cell.attrs().background();
    if is_blank_of(color, cell) {
        Some(color)
    } else {
        None
    }
}

// The background of the blanks at the end.
fn background_at_end(cells: StoredCells<'_>) -> Option<ColorAttribute>
    ensures { result ≡ background_at_end (contents (visible_cells (stored_row cells.entry))) }
{
    let mut found = None;
    for cell in VisibleCellIter::new(cells) {
        found = background_of(&cell);
    }
    found
}

// The column of the cell, or `last` where the cell is a blank of this background.
fn later_non_blank(color: ColorAttribute, last: Option<usize>, cell: &CellRef<'_>) -> Option<usize>
    ensures { result ≡ (if is_blank_of color (shown_by cell.now).cell then last else Some (shown_by cell.now).column) }
{
    if is_blank_of(color, cell) {
        last
    } else {
        Some(cell.cell_index())
    }
}

// The column of the last cell that isn't a blank of this background.
fn last_non_blank(cells: StoredCells<'_>, color: ColorAttribute) -> Option<usize>
    ensures { result ≡ last_non_blank color (visible_cells (stored_row cells.entry)) }
{
    let mut last = None;
    for cell in VisibleCellIter::new(cells) {
        last = later_non_blank(color, last, &cell);
    }
    last
}

// Writes the cells up to column `last`, or all with `None`.
fn write_cells<'a>(
    writer: &mut CellWriter<'a>,
    cells: StoredCells<'a>,
    last: Option<usize>,
) -> Result<(), AllocError>
    ensures { OnOk result
        (writer.new
        ≡ with_cells writer.old
        (contents (filter (λ v. is_kept_by last v.column) (visible_cells (stored_row cells.entry))))) }
{
    for cell in VisibleCellIter::new(cells) {
        if is_kept(last, cell.cell_index()) {
            writer.push_cell(cell.str(), cell.attrs())?;
        }
    }
    Ok(())
}

// Clears to the end of the row, where the background isn't the default.
fn write_clear(writer: &mut CellWriter<'_>, color: ColorAttribute) -> Result<(), AllocError>
    ensures { OnOk result (finished writer.new ≡ finished writer.old ++ clear_due color) }
{
    match color {
        ColorAttribute::Default => Ok(()),
        _ => {
            writer.push_change(Change::ClearToEndOfLine(color))?;
            Ok(())
        }
    }
}

// The clear to the end of the row, where no cells precede the blanks.
fn clear_alone(
    alloc: Global,
    start: &CellAttributes,
    color: ColorAttribute,
) -> Result<Vec<Change>, AllocError>
    ensures { IfOk result (λ changes. map value_of changes.items ≡ clear_due color) }
{
    let mut writer = CellWriter::new(alloc, start);
    write_clear(&mut writer, color)?;
    let changes = writer.finish()?;
    Ok(changes)
}

// The changes that write all cells.
fn all_written<'a>(
    alloc: Global,
    cells: StoredCells<'a>,
    start: &'a CellAttributes,
) -> Result<Vec<Change>, AllocError>
    ensures { IfOk result
        (λ changes. map value_of changes.items
        ≡ cells_written start.now (contents (visible_cells (stored_row cells.entry)))) }
{
    let mut writer = CellWriter::new(alloc, start);
    write_cells(&mut writer, cells, None)?;
    let changes = writer.finish()?;
    Ok(changes)
}

// The changes that write the cells up to a column, and a clear after them that leaves blanks with the attributes
// `blank`.
fn written_before<'a>(
    alloc: Global,
    cells: StoredCells<'a>,
    start: &'a CellAttributes,
    last: usize,
    color: ColorAttribute,
    blank: &'a CellAttributes,
) -> Result<Vec<Change>, AllocError>
    requires { blank.now ≡ blank_of color }
    ensures { IfOk result
        (λ changes. map value_of changes.items
        ≡ written_with_clear start.now
        (contents (filter (λ v. is_kept_by (Some last) v.column) (visible_cells (stored_row cells.entry))))
        color) }
{
    let mut writer = CellWriter::new(alloc, start);
    write_cells(&mut writer, cells, Some(last))?;
    writer.set_attributes(blank)?;
    write_clear(&mut writer, color)?;
    let changes = writer.finish()?;
    Ok(changes)
}

// The changes that write the cells up to a column, and a clear after them.
fn written_with_clear(
    alloc: Global,
    cells: StoredCells<'_>,
    start: &CellAttributes,
    last: usize,
    color: ColorAttribute,
) -> Result<Vec<Change>, AllocError>
    ensures { IfOk result
        (λ changes. map value_of changes.items
        ≡ written_with_clear start.now
        (contents (filter (λ v. is_kept_by (Some last) v.column) (visible_cells (stored_row cells.entry))))
        color) }
{
    let blank = blank_attrs(color);
    let changes = written_before(alloc, cells, start, last, color, &blank)?;
    Ok(changes)
}

// The changes that write the cells on blanks.
pub(crate) fn changes(
    alloc: Global,
    cells: StoredCells<'_>,
    start: &CellAttributes,
) -> Result<Vec<Change>, AllocError>
    ensures { IfOk result
        (λ changes. map value_of changes.items
        ≡ row_written start.now (contents (visible_cells (stored_row cells.entry)))) }
{
    let Some(color) = background_at_end(cells) else {
        let changes = all_written(alloc, cells, start)?;
        return Ok(changes);
    };
    match last_non_blank(cells, color) {
        None => {
            let changes = clear_alone(alloc, start, color)?;
            Ok(changes)
        }
        Some(last) => {
            let changes = written_with_clear(alloc, cells, start, last, color)?;
            Ok(changes)
        }
    }
}

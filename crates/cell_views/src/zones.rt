//! Zones of a line: neighbouring cells of one semantic type.
ghost use Rattle.std.specs.Prelude.{◌≡◌, IfOk, OnOk};
ghost use Rattle.cell_base.specs.Attributes.{plain};
ghost use Rattle.cell_base.specs.CellContent.{blank_cell};
ghost use Rattle.cell_base.specs.SameCell.{same_cell};
ghost use Rattle.cell_views.specs.CellRefView.{shown_by};
ghost use Rattle.cell_edits.specs.VisibleCells.{visible_cells};
ghost use Rattle.cell_views.specs.StoredCells.{stored_row};
ghost use Rattle.cell_views.specs.Zones.{same_type, zone_column, zones};
ghost use Rattle.cell_views.specs.OpenZones.{joined_zone, last_kept, is_kept_by};

use crate::cell_ref::CellRef;
use crate::stored_cells::StoredCells;
use crate::visible_cells::VisibleCellIter;
use cell_base::{CellAttributes, SemanticType, ZoneRange};
use std::alloc::{AllocError, Global};

fn same_type(a: SemanticType, b: SemanticType) -> bool
    ensures { result ≡ same_type a b }
{
    match a {
        SemanticType::Output => b == SemanticType::Output,
        SemanticType::Input => b == SemanticType::Input,
        SemanticType::Prompt => b == SemanticType::Prompt,
    }
}

// A column as a zone has it: at most 65,535.
fn zone_column(column: usize) -> u16
    ensures { result ≡ zone_column column }
{
    column.min(65535) as u16
}

// Whether the cell is a space of one column with plain attributes.
fn is_plain_blank(cell: &CellRef<'_>) -> bool
    ensures { result ≡ same_cell (shown_by cell.now).cell (blank_cell plain) }
{
    let attrs = CellAttributes::blank();
    cell.same_contents(&CellRef::ClusterRef {
        cell_index: 0,
        text: " ",
        width: 1,
        attrs: &attrs,
    })
}

// The column of the last cell that isn't a plain blank.
fn last_kept(cells: StoredCells<'_>) -> Option<usize>
    ensures { result ≡ last_kept (visible_cells (stored_row cells.entry)) }
{
    let mut last = None;
    for cell in VisibleCellIter::new(cells) {
        if !is_plain_blank(&cell) {
            last = Some(cell.cell_index());
        }
    }
    last
}

/// Whether a column is kept where all columns after `last` are dropped; with `None` each column is kept.
pub fn is_kept(last: Option<usize>, column: usize) -> bool
    ensures { result ≡ is_kept_by last column }
{
    match last {
        None => true,
        Some(last) => column <= last,
    }
}

// The cell joins the last zone if it has its type, and begins a zone of its own if not.
fn join(zones: &mut Vec<ZoneRange>, cell: &CellRef<'_>) -> Result<(), AllocError>
    ensures { OnOk result (zones.new.items ≡ joined_zone zones.old.items (shown_by cell.now)) }
{
    let semantic_type = cell.attrs().semantic_type();
    let column = zone_column(cell.cell_index());
    let count = zones.len();
    if count > 0 && same_type(zones[count - 1].semantic_type, semantic_type) {
        zones[count - 1].range.end = column;
    } else {
        zones.push(ZoneRange {
            semantic_type,
            range: column..column,
        })?;
    }
    Ok(())
}

/// The zones of the cells up to the last that isn't a plain blank, or of all if there is none.
pub fn zones(alloc: Global, cells: StoredCells<'_>) -> Result<Vec<ZoneRange>, AllocError>
    ensures { IfOk result (λ found. found.items ≡ zones (visible_cells (stored_row cells.entry))) }
{
    let last = last_kept(cells);
    let mut zones = Vec::new(alloc);
    for cell in VisibleCellIter::new(cells) {
        if is_kept(last, cell.cell_index()) {
            join(&mut zones, &cell)?;
        }
    }
    Ok(zones)
}

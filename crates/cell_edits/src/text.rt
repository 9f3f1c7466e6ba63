//! Texts as cells of a line: a cell for each extended grapheme cluster (UAX 29).
ghost use Rattle.std.specs.Prelude.{◌≡◌, false, IfOk, OnOk};
ghost use Rattle.cell_base.specs.CellContent.{row_of_cells};
ghost use Rattle.cell_edits.specs.CellList.{ends_split, text_cells, text_row};
ghost use Rattle.cell_edits.specs.RowEdits.{overlaid};

use crate::row::{column_count, push_cell, set_cell};
use cell_base::{Cell, CellAttributes, Widths};
use std::alloc::{AllocError, Global};
use unicode_segmentation::UnicodeSegmentation;

/// A cell for each cluster of the text, and a blank after each wide one.
pub fn cells_of_text<W: Widths>(
    alloc: Global,
    text: &str,
    attrs: &CellAttributes,
    w: &W,
) -> Result<Vec<Cell>, AllocError>
    ensures { IfOk result (λ cells. row_of_cells cells.items ≡ text_row (W.width_of w.now) text.now attrs.now) }
{
    let mut cells = Vec::new(alloc);
    for cluster in text.graphemes(true) {
        let cell = Cell::new_grapheme(alloc, cluster, attrs.try_clone()?, w)?;
        push_cell(&mut cells, cell)?;
    }
    Ok(cells)
}

/// Sets the cells of the clusters of the text, side by side from `start` on.
pub fn overlay<W: Widths>(
    alloc: Global,
    cells: &mut Vec<Cell>,
    start: usize,
    text: &str,
    attrs: &CellAttributes,
    w: &W,
) -> Result<(), AllocError>
    ensures { OnOk result
        (row_of_cells cells.new.items
        ≡ overlaid (row_of_cells cells.old.items) start (text_cells (W.width_of w.now) text.now attrs.now)) }
{
    let mut at = start;
    for cluster in text.graphemes(true) {
        let cell = Cell::new_grapheme(alloc, cluster, attrs.try_clone()?, w)?;
        let end = at.checked_add(column_count(&cell)).ok_or(AllocError)?;
        set_cell(cells, at, cell)?;
        at = end;
    }
    Ok(())
}

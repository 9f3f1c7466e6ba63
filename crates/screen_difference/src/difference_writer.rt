//! Changes that write cells at their positions.
ghost use Rattle.std.specs.Prelude.{◌≡◌, ◌+◌, ◌<◌, ◌^◌, true, List, length, map, OnOk, IfOk};
ghost use Rattle.std.specs.List.{list_all};
ghost use Rattle.text_clusters.specs.Plain.{is_printable};
ghost use Rattle.cell_base.specs.Attributes.{Attributes};
ghost use Rattle.screen_change.specs.ValueOf.{value_of};
ghost use Rattle.cell_edits.specs.VisibleCells.{visible_each};
ghost use Rattle.cell_views.specs.CellRefView.{shown_by};
ghost use Rattle.screen_difference.specs.Difference.{difference, position};
ghost use Rattle.screen_difference.specs.Drawing.{first_moved, moved_to, new_drawing, with_all, with_placed};
ghost use Rattle.screen_difference.specs.FreshCells.{placed, PlacedCell};

use cell_base::{CellAttributes, Position};
use cell_line::CellRef;
use screen_change::{CellWriter, Change};
use std::alloc::{AllocError, Global};
use std::marker::Model;

/// Makes the changes that write cells, each at its position, row by row.
#[derive(Drop)]
pub(crate) struct DifferenceWriter<'a> {
    alloc: Global,
    writer: CellWriter<'a>,
    has_begun: bool,
    row: usize,
    column: usize,
}

impl<'a> Model for DifferenceWriter<'a> {
    ghost use Rattle.screen_difference.specs.Drawing.{Drawing};

    ghost Value = { Drawing };

    ghost use Rattle.screen_difference.specs.DrawingView.{drawing_of};

    ghost view = { drawing_of };
}

// The change that moves the cursor to a position.
fn position(column: usize, row: usize) -> Change
    ensures { value_of result ≡ position column row }
{
    Change::CursorPosition {
        x: Position::Absolute(column),
        y: Position::Absolute(row),
    }
}

impl<'a> DifferenceWriter<'a> {
    /// No changes yet. `attrs` is a placeholder: the first cell sets its own attributes.
    pub(crate) fn new(alloc: Global, attrs: &'a CellAttributes) -> DifferenceWriter<'a>
        ensures { result ≡ new_drawing attrs.now }
    {
        DifferenceWriter {
            alloc,
            writer: CellWriter::new(alloc, attrs),
            has_begun: false,
            row: 0,
            column: 0,
        }
    }

    // Writes the position and the attributes of the first cell.
    fn begin(
        &mut self,
        row: usize,
        column: usize,
        attrs: &'a CellAttributes,
    ) -> Result<(), AllocError>
        ensures { OnOk result (self.new ≡ record self.old { written = first_moved row column attrs.now }) }
    {
        self.writer = CellWriter::new(self.alloc, attrs);
        self.writer.push_change(position(column, row))?;
        self.writer
            .push_change(Change::AllAttributes(attrs.try_clone()?))?;
        Ok(())
    }

    // Writes what precedes a cell: its position, unless the last cell ends there, and before the first cell its
    // attributes.
    fn move_to(
        &mut self,
        row: usize,
        column: usize,
        attrs: &'a CellAttributes,
    ) -> Result<(), AllocError>
        ensures { OnOk result (self.new ≡ record self.old { written = moved_to row column attrs.now self.old }) }
    {
        if !self.has_begun {
            self.begin(row, column, attrs)?;
            return Ok(());
        }
        if self.row == row && self.column == column {
            return Ok(());
        }
        self.writer.push_change(position(column, row))?;
        Ok(())
    }

    /// Writes a cell at a position.
    pub(crate) fn push(
        &mut self,
        row: usize,
        column: usize,
        cell: &CellRef<'a>,
    ) -> Result<(), AllocError>
        requires { column + (shown_by cell.now).cell.width < 2 ^ 64 }
        ensures { OnOk result
            (self.new ≡ with_placed self.old (record { row = row; column = column; cell = (shown_by cell.now).cell })) }
    {
        self.move_to(row, column, cell.attrs())?;
        self.writer.push_cell(cell.str(), cell.attrs())?;
        self.has_begun = true;
        self.row = row;
        self.column = column + cell.width();
        Ok(())
    }

    /// Writes plain cells side by side, a cell for each character of a text in printable ASCII, all with the same
    /// attributes.
    pub(crate) fn push_plain(
        &mut self,
        row: usize,
        column: usize,
        text: &str,
        attrs: &'a CellAttributes,
    ) -> Result<(), AllocError>
        requires printable { list_all is_printable text.now ≡ true }
        requires room { column + length text.now < 2 ^ 64 }
        ensures { OnOk result (self.new ≡ with_all self.old (placed row (visible_each column text.now attrs.now))) }
    {
        if text.is_empty() {
            return Ok(());
        }
        self.move_to(row, column, attrs)?;
        self.writer.push_plain(text, attrs)?;
        self.has_begun = true;
        self.row = row;
        self.column = column + text.len();
        Ok(())
    }

    /// The changes.
    pub(crate) fn finish(self) -> Result<Vec<Change>, AllocError>
        ensures { (pen : Attributes) (cells : List PlacedCell) → self.entry ≡ with_all (new_drawing pen) cells
            → IfOk result (λ changes. map value_of changes.items ≡ difference cells) }
    {
        let changes = self.writer.finish()?;
        Ok(changes)
    }
}

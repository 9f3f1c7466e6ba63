//! Plain cells of equal attributes that are told at once.
ghost use Rattle.std.specs.Prelude.{◌≡◌, ◌+◌, ◌<◌, ◌^◌, ◌++◌, fold, length, IfOk, MatchOption, OnOk};
ghost use Rattle.cell_edits.specs.VisibleCells.{visible_each};
ghost use Rattle.cell_views.specs.CellRefView.{cells_left};
ghost use Rattle.screen_difference.specs.ShownCells.{HaveRoom};
ghost use Rattle.terminal_c.specs.Told.{with_cell};
ghost use Rattle.terminal_c.specs.ToldCells.{each_told, with_each, TellsNext};

use crate::told::{Cell, Face, Telling};
use cell_base::CellAttributes;
use cell_line::VisibleCellIter;
use std::alloc::AllocError;

// Adds cells of one byte in one column each, which share a face. They are side by side from a column on, and so are
// their texts from `text_at` on.
fn push_cells(
    cells: &mut Vec<Cell>,
    column: usize,
    text_at: usize,
    count: usize,
    face: Face,
) -> Result<(), AllocError>
    requires columns { column + count < 2 ^ 64 }
    requires texts { text_at + count < 2 ^ 64 }
    ensures { OnOk result (cells.new.items ≡ cells.old.items ++ each_told column text_at count face) }
{
    cells.reserve(count)?;
    for at in 0..count {
        cells.push_reserved(Cell {
            column: column + at,
            width: 1,
            text_at: text_at + at,
            text_len: 1,
            face,
        });
    }
    Ok(())
}

impl<'a> Telling<'a> {
    // Adds a cell for each byte of a text, with the face of the last cell, side by side from a column on.
    fn push_each(&mut self, column: usize, text: &str) -> Result<(), AllocError>
        requires { column + length text.now < 2 ^ 64 }
        ensures { OnOk result (self.new ≡ with_each self.old column text.now) }
    {
        let count = text.len();
        self.row.text.extend_from_slice(text.as_bytes())?;
        let end = self.row.text.len();
        push_cells(&mut self.row.cells, column, end - count, count, self.face)?;
        Ok(())
    }

    // Adds a cell of these attributes for each byte of a text, side by side from a column on.
    fn push_text_of(
        &mut self,
        column: usize,
        text: &str,
        attrs: &'a CellAttributes,
    ) -> Result<(), AllocError>
        requires some { 0 < length text.now }
        requires room { column + length text.now < 2 ^ 64 }
        ensures { OnOk result (self.new ≡ fold with_cell self.old (visible_each column text.now attrs.now)) }
    {
        self.push_face(attrs)?;
        self.push_each(column, text)?;
        Ok(())
    }

    /// Adds the next cells, the first at a column, where these are plain and of equal attributes. Returns how many
    /// columns they take. `None`: take the general way.
    pub(crate) fn push_plain(
        &mut self,
        column: usize,
        cells: &mut VisibleCellIter<'a>,
    ) -> Result<Option<usize>, AllocError>
        requires { HaveRoom column (cells_left cells.old) }
        ensures { IfOk result (λ next. MatchOption next
            ((self.new ≡ self.old) × (cells_left cells.new ≡ cells_left cells.old))
            (λ count. TellsNext column count self.old self.new (cells_left cells.old) (cells_left cells.new))) }
    {
        if !self.tries_plain {
            return Ok(None);
        }
        let Some((text, attrs)) = cells.pass_plain(usize::MAX) else {
            return Ok(None);
        };
        self.push_text_of(column, text, attrs)?;
        Ok(Some(text.len()))
    }
}

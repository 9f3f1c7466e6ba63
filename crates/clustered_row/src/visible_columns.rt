//! Queries on a row's columns.
ghost use Rattle.std.specs.Prelude.{◌≡◌, ◌<◌, length, drop, slice_index_or, option_map};
ghost use Rattle.cell_base.specs.Row.{blank};
ghost use Rattle.cell_base.specs.WholeRow.{IsWhole};
ghost use Rattle.cell_edits.specs.VisibleCells.{visible_cells, cell_at, ends_wrapped};
ghost use Rattle.clustered_row.specs.Faces.{starts_right};
ghost use Rattle.clustered_row.specs.VisibleCells.{shown_by};
ghost use Rattle.clustered_row.specs.VisibleColumns.{is_split, column_attributes};

use crate::columns::Columns;
use crate::row::ClusteredRow;
use crate::texts::Texts;
use crate::visible::ClusteredCell;
use cell_base::CellAttributes;

impl Texts {
    ghost use Rattle.clustered_row.specs.TextsShown.{faces};

    // Whether a column is the second one of a wide text.
    #[inline(always)]
    fn is_split(&self, at: usize) -> bool
        requires { at < length (faces self.now) }
        ensures { result ≡ starts_right (drop at (faces self.now)) }
    {
        self.cell_at(at).is_none()
    }
}

impl Columns {
    // Whether a column is the second one of a wide text.
    #[inline(always)]
    fn is_split(&self, at: usize) -> bool
        requires { at < length self.now }
        ensures { result ≡ is_split at self.now }
    {
        self.texts.is_split(at)
    }

    // The attributes of a column.
    #[inline(always)]
    fn attributes_at(&self, column: usize) -> &CellAttributes
        requires { column < length self.now }
        ensures { result.now ≡ column_attributes (slice_index_or self.now column (blank result.now)) }
    {
        self.runs.at(column)
    }

    // The cell that begins at a column.
    fn cell_at(&self, column: usize) -> Option<ClusteredCell<'_>>
        requires { column < length self.now }
        ensures { option_map shown_by result ≡ cell_at column self.now }
    {
        match self.texts.cell_at(column) {
            None => None,
            Some(cell) => Some(ClusteredCell {
                column,
                text: cell.text,
                is_wide: cell.is_wide,
                attributes: self.runs.at(column),
            }),
        }
    }
}

impl ClusteredRow {
    /// Whether a column is the second one of a wide text. `whole` is the law of rows that `len` states.
    pub fn is_split(&self, column: usize) -> bool
        ensures value { result ≡ is_split column self.now }
        ensures whole { IsWhole self.now }
    {
        column < self.columns.len() && self.columns.is_split(column)
    }

    /// The attributes of a column.
    pub fn attributes_at(&self, column: usize) -> &CellAttributes
        requires { column < length self.now }
        ensures { result.now ≡ column_attributes (slice_index_or self.now column (blank result.now)) }
    {
        if column < self.columns.len() {
            return self.columns.attributes_at(column);
        }
        &self.rest
    }

    /// The visible cell that begins at a column.
    pub fn cell_at(&self, column: usize) -> Option<ClusteredCell<'_>>
        ensures { option_map shown_by result ≡ cell_at column self.now }
    {
        if column < self.columns.len() {
            return self.columns.cell_at(column);
        }
        if self.width <= column {
            return None;
        }
        Some(ClusteredCell {
            column,
            text: " ",
            is_wide: false,
            attributes: &self.rest,
        })
    }

    /// Whether the line goes on in the next row after the last cell of this one; `false` where there is no cell.
    pub fn ends_wrapped(&self) -> bool
        ensures { result ≡ ends_wrapped (visible_cells self.now) }
    {
        let len = self.columns.len();
        if len < self.width {
            return self.rest.wrapped();
        }
        if len == 0 {
            return false;
        }
        self.columns.attributes_at(len - 1).wrapped()
    }
}

//! Cells that are passed while new cells are compared with them.
ghost use Rattle.std.specs.Prelude.{◌≡◌, ◌+◌, ◌<◌, ◌≤◌};
ghost use Rattle.cell_views.specs.CellRefView.{shown_by};
ghost use Rattle.cell_views.specs.Region.{region_left};
ghost use Rattle.screen_difference.specs.ShownCells.{begins_with, from_column, shown_left, side_by_side, Fits};
ghost use Rattle.screen_difference.specs.ShownCells.{HaveRoom};

use cell_line::{CellRef, RegionIter};

/// The visible cells of a part of a line, side by side, of which the ones before `column` are passed.
#[derive(Drop)]
pub(crate) struct ShownCells<'a> {
    pub(crate) column: usize,
    pub(crate) cells: RegionIter<'a>,
}

impl<'a> ShownCells<'a> {
    /// The cells of `cells`, side by side from a column on, of which none is passed.
    pub(crate) fn new(column: usize, cells: RegionIter<'a>) -> ShownCells<'a>
        requires { HaveRoom column (region_left cells) }
        ensures shown { shown_left result ≡ side_by_side column (region_left cells.entry) }
        ensures fits { Fits result }
    {
        ShownCells { column, cells }
    }

    // Passes the first cell, and returns whether it is the same as `cell`; `false` where no cell is left.
    fn pass_cell(&mut self, cell: &CellRef<'_>) -> bool
        requires { Fits self.old }
        ensures shown { result ≡ begins_with (shown_left self.old) self.old.column (shown_by cell.now).cell }
        ensures passed { shown_left self.new ≡ from_column (self.old.column + 1) (shown_left self.old) }
        ensures fits { Fits self.new }
    {
        let Some(next) = self.cells.next() else {
            return false;
        };
        self.column += next.width();
        next.same_contents(cell)
    }

    // Passes some of the first cells, none that begins at a column or after it.
    fn pass_some(&mut self, column: usize)
        requires before { self.old.column < column }
        requires fits { Fits self.old }
        ensures left { from_column column (shown_left self.new) ≡ from_column column (shown_left self.old) }
        ensures more { self.old.column < self.new.column }
        ensures fits { Fits self.new }
    {
        if let Some((_text, _attrs)) = self.pass_plain(column - self.column) {
            return;
        }
        match self.cells.next() {
            None => self.column = column,
            Some(next) => self.column += next.width(),
        }
    }

    /// Passes the cells that begin before a column.
    pub(crate) fn pass(&mut self, column: usize)
        requires { Fits self.old }
        ensures left { shown_left self.new ≡ from_column column (shown_left self.old) }
        ensures there { column ≤ self.new.column }
        ensures fits { Fits self.new }
    {
        while self.column < column {
            self.pass_some(column);
        }
    }

    /// Whether an old cell begins at `column` and is the same as `cell`. The old cells that begin at `column` or before
    /// it are passed.
    pub(crate) fn shows(&mut self, column: usize, cell: &CellRef<'_>) -> bool
        requires { Fits self.old }
        ensures shown { result
            ≡ begins_with (from_column column (shown_left self.old)) column (shown_by cell.now).cell }
        ensures passed { shown_left self.new ≡ from_column (column + 1) (shown_left self.old) }
        ensures fits { Fits self.new }
    {
        self.pass(column);
        if self.column > column {
            return false;
        }
        self.pass_cell(cell)
    }
}

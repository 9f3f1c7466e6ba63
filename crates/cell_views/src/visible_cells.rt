//! The visible cells of a row.
ghost use Rattle.std.specs.Prelude.{◌≡◌, ◌+◌, ◌<◌, ◌^◌, ◌++◌, length};

use crate::cell_ref::CellRef;
use crate::half::Half;
use crate::stored_cells::StoredCells;
use cell_base::Cell;
use clustered_row::ClusteredCells;

// The remaining cells of cells that are read from the left; the first is at `cell_index`.
#[derive(Drop)]
pub(crate) struct CellsLeft<'a> {
    cells: &'a [Cell],
    cell_index: usize,
    ghost within: { cell_index + length cells.now < 2 ^ 64 },
}

impl<'a> Iterator for CellsLeft<'a> {
    type Item = CellRef<'a>;

    ghost use Rattle.std.specs.Iterator.{YieldsFirstBy, item_count};
    ghost use Rattle.cell_views.specs.CellRefView.{shown_by, left_of_cells};

    ghost next_gives = { YieldsFirstBy shown_by left_of_cells };

    ghost remaining = { item_count left_of_cells };

    #[inline(always)]
    fn next(&mut self) -> Option<CellRef<'a>> {
        let (cell, rest) = self.cells.split_first()?;
        let cell_index = self.cell_index;
        if cell.width() < 2 {
            self.cells = rest;
            self.cell_index = cell_index + 1;
            return Some(CellRef::CellRef { cell_index, cell });
        }
        match rest.split_first() {
            None => {
                self.cells = rest;
                Some(CellRef::ClusterRef {
                    cell_index,
                    text: " ",
                    width: 1,
                    attrs: cell.attrs(),
                })
            }
            Some((_, after)) => {
                self.cells = after;
                self.cell_index = cell_index + 2;
                Some(CellRef::CellRef { cell_index, cell })
            }
        }
    }
}

// The remaining cells of a clustered row, and the half after them that an edge leaves.
#[derive(Drop)]
pub(crate) struct ClusteredLeft<'a> {
    pub(crate) cells: ClusteredCells<'a>,
    half: Option<Half<'a>>,
}

impl<'a> Iterator for ClusteredLeft<'a> {
    type Item = CellRef<'a>;

    ghost use Rattle.std.specs.Iterator.{YieldsFirstBy, item_count};
    ghost use Rattle.cell_views.specs.CellRefView.{shown_by, left_of_clustered};

    ghost next_gives = { YieldsFirstBy shown_by left_of_clustered };

    ghost remaining = { item_count left_of_clustered };

    #[inline(always)]
    fn next(&mut self) -> Option<CellRef<'a>> {
        if let Some(cell) = self.cells.next() {
            return Some(CellRef::from_clustered(&cell));
        }
        let half = self.half.take()?;
        Some(half.as_cell_ref())
    }
}

// The remaining cells, of either kind of row.
#[derive(Drop)]
pub(crate) enum Left<'a> {
    Cells(CellsLeft<'a>),
    Clustered(ClusteredLeft<'a>),
}

/// The visible cells of a row, in the order of their columns.
#[derive(Drop)]
pub struct VisibleCellIter<'a> {
    pub(crate) left: Left<'a>,
}

impl<'a> VisibleCellIter<'a> {
    ghost use Rattle.cell_base.specs.CellContent.{row_of_cells};
    ghost use Rattle.cell_base.specs.WholeRow.{IsWhole};
    ghost use Rattle.cell_edits.specs.VisibleCells.{visible_from};
    ghost use Rattle.clustered_row.specs.VisibleCells as clustered;
    ghost use Rattle.cell_views.specs.CellRefView.{cells_left};
    ghost use Rattle.cell_views.specs.Halves.{half_left};
    ghost use Rattle.cell_views.specs.StoredCells.{stored_row};

    /// All visible cells of a row. `whole` is the law of rows that `StoredCells::len` states.
    #[inline(always)]
    pub fn new(stored: StoredCells<'a>) -> VisibleCellIter<'a>
        ensures value { cells_left result ≡ visible_from 0 (stored_row stored.entry) }
        ensures whole { IsWhole (stored_row stored.entry) }
    {
        match stored {
            StoredCells::Cells(cells) => VisibleCellIter::from_column(cells, 0),
            StoredCells::Clustered(row) => VisibleCellIter::of_clustered(row.visible_cells(), None),
        }
    }

    // The visible cells of `cells`, the first at column `cell_index`.
    #[inline(always)]
    pub(crate) fn from_column(cells: &'a [Cell], cell_index: usize) -> VisibleCellIter<'a>
        requires { cell_index + length cells.now < 2 ^ 64 }
        ensures { cells_left result ≡ visible_from cell_index (row_of_cells cells.now) }
    {
        VisibleCellIter {
            left: Left::Cells(CellsLeft { cells, cell_index }),
        }
    }

    // The remaining cells of a clustered row, and a half after them.
    #[inline(always)]
    pub(crate) fn of_clustered(
        cells: ClusteredCells<'a>,
        half: Option<Half<'a>>,
    ) -> VisibleCellIter<'a>
        ensures { cells_left result ≡ clustered.cells_left cells.entry ++ half_left half.entry }
    {
        VisibleCellIter {
            left: Left::Clustered(ClusteredLeft { cells, half }),
        }
    }
}

impl<'a> Iterator for VisibleCellIter<'a> {
    type Item = CellRef<'a>;

    ghost use Rattle.std.specs.Iterator.{YieldsFirstBy, item_count};
    ghost use Rattle.cell_views.specs.CellRefView.{shown_by, cells_left};

    ghost next_gives = { YieldsFirstBy shown_by cells_left };

    ghost remaining = { item_count cells_left };

    fn next(&mut self) -> Option<CellRef<'a>> {
        match &mut self.left {
            Left::Cells(cells) => cells.next(),
            Left::Clustered(cells) => cells.next(),
        }
    }
}

//! The visible cells of a part of a row.
ghost use Rattle.std.specs.Prelude.{◌≡◌, ◌+◌, ◌<◌, ◌≤◌, ◌^◌, [], length};
ghost use Rattle.cell_base.specs.CellContent.{row_of_cells};
ghost use Rattle.cell_base.specs.WholeRow.{IsWhole};
ghost use Rattle.cell_views.specs.Halves.{half_left};
ghost use Rattle.cell_views.specs.StoredCells.{stored_row};
ghost use Rattle.cell_views.specs.Region.{start_half, inner_start, end_half, inner_end};

use crate::cell_ref::CellRef;
use crate::half::Half;
use crate::stored_cells::StoredCells;
use crate::visible_cells::VisibleCellIter;
use cell_base::Cell;
use cell_edits::row::is_split;
use clustered_row::ClusteredRow;

/// The visible cells of some columns of a row, in the order of their columns. A cell that an edge
/// cuts shows as a blank with its attributes.
#[derive(Drop)]
pub struct RegionIter<'a> {
    pub(crate) half: Option<Half<'a>>,
    pub(crate) cells: VisibleCellIter<'a>,
}

// The column beside an edge at which no cell is cut, and the half between the two, if there is one.
#[derive(Clone, Copy)]
struct Edge<'a> {
    column: usize,
    half: Option<Half<'a>>,
}

// The edge at which a region starts: `start` itself, or the column after it with the half at `start`.
fn start_edge(row: &ClusteredRow, start: usize) -> Edge<'_>
    requires within { start < length row.now }
    requires small { start + 1 < 2 ^ 64 }
    ensures column { result.column ≡ inner_start start row.now }
    ensures whole { IsWhole row.now }
    ensures half { half_left result.half ≡ start_half start row.now }
{
    if row.is_split(start) {
        return Edge {
            column: start + 1,
            half: Some(Half {
                cell_index: start,
                attrs: row.attributes_at(start),
            }),
        };
    }
    Edge {
        column: start,
        half: None,
    }
}

// The edge at which a region ends: `end` itself, or the column before it with the half in that column.
fn end_edge(row: &ClusteredRow, end: usize) -> Edge<'_>
    requires within { 0 < end }
    ensures column { result.column ≡ inner_end «end» row.now }
    ensures half { half_left result.half ≡ end_half «end» row.now }
{
    if row.is_split(end) {
        return Edge {
            column: end - 1,
            half: Some(Half {
                cell_index: end - 1,
                attrs: row.attributes_at(end),
            }),
        };
    }
    Edge {
        column: end,
        half: None,
    }
}

impl<'a> RegionIter<'a> {
    ghost use Rattle.cell_views.specs.Region.{region, region_left};

    /// The visible cells from `start` on and before `end`.
    pub fn new(stored: StoredCells<'a>, start: usize, end: usize) -> RegionIter<'a>
        requires order { start ≤ «end» }
        requires within { «end» ≤ length (stored_row stored) }
        ensures { region_left result ≡ region start «end» (stored_row stored.entry) }
    {
        match stored {
            StoredCells::Cells(cells) => RegionIter::of_cells(cells, start, end),
            StoredCells::Clustered(row) => RegionIter::of_clustered(row, start, end),
        }
    }

    // The region of cells that are read from the left.
    fn of_cells(cells: &'a [Cell], start: usize, end: usize) -> RegionIter<'a>
        requires order { start ≤ «end» }
        requires within { «end» ≤ length cells.now }
        ensures { region_left result ≡ region start «end» (row_of_cells cells.now) }
    {
        if start < end && is_split(cells, start) {
            return RegionIter {
                half: Some(Half {
                    cell_index: start,
                    attrs: cells[start - 1].attrs(),
                }),
                cells: VisibleCellIter::from_column(&cells[start + 1..end], start + 1),
            };
        }
        RegionIter {
            half: None,
            cells: VisibleCellIter::from_column(&cells[start..end], start),
        }
    }

    // No cells.
    fn none() -> RegionIter<'a>
        ensures { region_left result ≡ [] }
    {
        RegionIter {
            half: None,
            cells: VisibleCellIter::from_column(&[], 0),
        }
    }

    // The region of a clustered row.
    fn of_clustered(row: &'a ClusteredRow, start: usize, end: usize) -> RegionIter<'a>
        requires order { start ≤ «end» }
        requires within { «end» ≤ length row.now }
        ensures { region_left result ≡ region start «end» row.now }
    {
        if start == end {
            return RegionIter::none();
        }
        let first = start_edge(row, start);
        let last = end_edge(row, end);
        let cells = row.cells_between(first.column, last.column);
        RegionIter {
            half: first.half,
            cells: VisibleCellIter::of_clustered(cells, last.half),
        }
    }
}

impl<'a> Iterator for RegionIter<'a> {
    type Item = CellRef<'a>;

    ghost use Rattle.std.specs.Iterator.{YieldsFirstBy, item_count};
    ghost use Rattle.cell_views.specs.CellRefView.{shown_by};
    ghost use Rattle.cell_views.specs.Region.{region_left};

    ghost next_gives = { YieldsFirstBy shown_by region_left };

    ghost remaining = { item_count region_left };

    fn next(&mut self) -> Option<CellRef<'a>> {
        if let Some(half) = self.half.take() {
            return Some(half.as_cell_ref());
        }
        self.cells.next()
    }
}

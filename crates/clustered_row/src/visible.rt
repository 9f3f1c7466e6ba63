//! The visible cells of a row.
ghost use Rattle.std.specs.Prelude.{◌≡◌, ◌+◌, ◌<◌, ◌≤◌, ◌^◌, ◌++◌, false, length, take, drop};
ghost use Rattle.cell_base.specs.CellContent.{shows_as_space};
ghost use Rattle.cell_base.specs.WholeRow.{IsWhole};
ghost use Rattle.clustered_row.specs.Faces.{row_of};
ghost use Rattle.clustered_row.specs.Sizes.{width_of};
ghost use Rattle.clustered_row.specs.VisibleColumns.{is_split};
ghost use Rattle.clustered_row.specs.VisibleRuns.{attributes_left};
ghost use Rattle.clustered_row.specs.VisibleTexts.{faces_left};

use crate::columns::Columns;
use crate::row::ClusteredRow;
use crate::runs_left::RunsLeft;
use crate::texts_left::TextsLeft;
use cell_base::CellAttributes;

/// A visible cell of a row.
#[derive(Debug, Clone, Copy)]
pub struct ClusteredCell<'a> {
    /// The first column, counted from 0.
    pub column: usize,
    /// The text.
    pub text: &'a str,
    /// Whether it takes two columns.
    pub is_wide: bool,
    /// The attributes.
    pub attributes: &'a CellAttributes,
    pub ghost kept: { shows_as_space text.now ≡ false },
}

impl<'a> ClusteredCell<'a> {
    /// The columns that the cell takes: 1 or 2.
    #[inline(always)]
    pub fn width(&self) -> usize
        ensures { result ≡ width_of self.now.is_wide }
    {
        width(self.is_wide)
    }
}

// The columns that a cell takes.
#[inline(always)]
fn width(is_wide: bool) -> usize
    ensures { result ≡ width_of is_wide }
{
    if is_wide { 2 } else { 1 }
}

/// The remaining visible cells of a row, in the order of their columns. They are borrowed as they are stored.
#[derive(Drop)]
pub struct ClusteredCells<'a> {
    pub(crate) texts: TextsLeft<'a>,
    pub(crate) runs: RunsLeft<'a>,
    // The number of blanks after these, which all have the attributes `rest`.
    pub(crate) blanks: usize,
    pub(crate) rest: &'a CellAttributes,
    // The first column of the next cell.
    pub(crate) column: usize,
    ghost covered: { length (faces_left texts) ≤ length (attributes_left runs) },
    ghost small: { column + (length (faces_left texts) + blanks) < 2 ^ 64 },
}

impl<'a> Iterator for ClusteredCells<'a> {
    type Item = ClusteredCell<'a>;

    ghost use Rattle.std.specs.Iterator.{YieldsFirstBy, item_count};
    ghost use Rattle.clustered_row.specs.VisibleCells.{shown_by, cells_left};

    ghost next_gives = { YieldsFirstBy shown_by cells_left };

    ghost remaining = { item_count cells_left };

    #[inline(always)]
    fn next(&mut self) -> Option<ClusteredCell<'a>> {
        let column = self.column;
        if let Some(cell) = self.texts.pass() {
            let attributes = self.runs.pass_cell(cell.is_wide);
            self.column = column + width(cell.is_wide);
            return Some(ClusteredCell {
                column,
                text: cell.text,
                is_wide: cell.is_wide,
                attributes,
            });
        }
        if self.blanks == 0 {
            return None;
        }
        self.blanks -= 1;
        self.column = column + 1;
        Some(ClusteredCell {
            column,
            text: " ",
            is_wide: false,
            attributes: self.rest,
        })
    }
}

impl Columns {
    // All cells.
    #[inline(always)]
    fn left(&self) -> (TextsLeft<'_>, RunsLeft<'_>)
        ensures row { row_of (faces_left result.0) (attributes_left result.1) ≡ self.now }
        ensures texts { length (faces_left result.0) ≡ length self.now }
        ensures runs { length (attributes_left result.1) ≡ length self.now }
    {
        (self.texts.left(), self.runs.left())
    }

    // The cells from a column on and before another, at which no cell is cut, and the attributes from the first on.
    fn between(&self, from: usize, to: usize) -> (TextsLeft<'_>, RunsLeft<'_>)
        requires order { from ≤ to }
        requires within { to ≤ length self.now }
        requires first { is_split from self.now ≡ false }
        requires last { is_split to self.now ≡ false }
        ensures row { row_of (faces_left result.0) (attributes_left result.1) ≡ drop from (take to self.now) }
        ensures texts { length (faces_left result.0) + from ≡ to }
        ensures covered { length (faces_left result.0) ≤ length (attributes_left result.1) }
    {
        (self.texts.between(from, to), self.runs.left_from(from))
    }
}

impl ClusteredRow {
    ghost use Rattle.clustered_row.specs.VisibleCells.{row_left, next_column};

    /// All visible cells, in the order of their columns. `whole` is a law of rows: after the first column of a wide
    /// cell comes its second one, with the same attributes, and there is no other second column.
    #[inline(always)]
    pub fn visible_cells(&self) -> ClusteredCells<'_>
        ensures row { row_left result ≡ self.now }
        ensures column { next_column result ≡ 0 }
        ensures whole { IsWhole self.now }
    {
        let blanks = self.width - self.columns.len();
        let (texts, runs) = self.columns.left();
        ClusteredCells {
            texts,
            runs,
            blanks,
            rest: &self.rest,
            column: 0,
        }
    }

    /// The visible cells from a column on and before another; neither column may be the second one of a wide cell (see
    /// `is_split`).
    pub fn cells_between(&self, start: usize, stop: usize) -> ClusteredCells<'_>
        requires order { start ≤ stop }
        requires within { stop ≤ length self.now }
        requires first { is_split start self.now ≡ false }
        requires last { is_split stop self.now ≡ false }
        ensures row { row_left result ≡ drop start (take stop self.now) }
        ensures column { next_column result ≡ start }
    {
        let len = self.columns.len();
        let from = start.min(len);
        let to = stop.min(len);
        let (texts, runs) = self.columns.between(from, to);
        ClusteredCells {
            texts,
            runs,
            blanks: stop - to - (start - from),
            rest: &self.rest,
            column: start,
        }
    }
}

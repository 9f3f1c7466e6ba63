//! What a line shows, and values made of it.
ghost use Rattle.std.specs.Prelude.{◌≡◌, ℕ, ◌≤◌, List, Bool, length, map, IfOk, string_bytes};
ghost use Rattle.std.specs.Cow.{cow_str_bytes};
ghost use Rattle.std.specs.Option.{option_map};
ghost use Rattle.screen_change.specs.ValueOf.{value_of};
ghost use Rattle.cell_line.specs.LineCalls.{wrap, semantic_zone_ranges, compute_double_click_range, columns_as_str};
ghost use Rattle.cell_line.specs.LineCalls.{columns_as_line, len, as_str, has_hyperlink, visible_cells};
ghost use Rattle.cell_line.specs.LineCalls.{visible_cells_between, cluster, changes, get_cell, is_whitespace};
ghost use Rattle.cell_line.specs.LineCalls.{last_cell_was_wrapped};
ghost use Rattle.cell_views.specs.Words.{Answers};
ghost use Rattle.cell_views.specs.CellRefView.{shown_by, cells_left};
ghost use Rattle.cell_views.specs.Region.{region_left};
ghost use Rattle.cell_edits.specs.VisibleCells.{row_of_visible};
ghost use Rattle.cell_base.specs.Cluster.{clusters};
ghost use Rattle.cell_base.specs.WholeRow.{IsWhole};

use crate::line::Line;
use crate::{changes, wrap};
use cell_base::{CellAttributes, DoubleClickRange, SequenceNo, ZoneRange};
use cell_edits::{row, text};
use cell_views::{CellCluster, CellRef, RegionIter, VisibleCellIter, query, words, zones};
use screen_change::Change;
use std::alloc::AllocError;
use std::borrow::CowStr;
use std::ops::Range;

impl Line {
    /// How many columns there are. `whole` is a law of lines: each left half has its right half after it, and there is
    /// no other right half.
    pub fn len(&self) -> usize
        ensures value { result ≡ len self.now }
        ensures whole { IsWhole self.now.columns }
    {
        self.stored_cells().len()
    }

    /// The visible cells, each with its first column, in order. Their columns, side by side, are the
    /// line's.
    pub fn visible_cells(&self) -> VisibleCellIter<'_>
        ensures cells { cells_left result ≡ visible_cells self.now }
        ensures row { row_of_visible (cells_left result) ≡ self.now.columns }
    {
        VisibleCellIter::new(self.stored_cells())
    }

    /// The visible cells of a range of columns, each with its first column, in order. Where an
    /// edge cuts a wide cell, its column within the range is a blank with its attributes.
    pub fn visible_cells_between(&self, cols: Range<usize>) -> RegionIter<'_>
        requires order { cols.start ≤ cols.end }
        requires within { cols.end ≤ length self.now.columns }
        ensures { region_left result ≡ visible_cells_between self.now cols.start cols.end }
    {
        RegionIter::new(self.stored_cells(), cols.start, cols.end)
    }

    /// The clusters of the visible cells, in order.
    pub fn cluster(&self) -> Result<Vec<CellCluster>, AllocError>
        ensures { IfOk result (λ clusters. clusters.items ≡ cluster self.now) }
    {
        CellCluster::make_cluster(self.alloc, 0, self.visible_cells())
    }

    /// The changes that write the line where the pen has these attributes, on blanks of the default
    /// background: each run of neighbours of equal attributes has its attributes, unless the pen has
    /// them, and then its texts, joined where the clusters of the joined text (UAX 29) are the cells.
    /// Blanks at the end, plain except for one background, aren't written as a text. Their attributes
    /// come in place of them, where other cells precede them, and then a clear to the end of the line,
    /// unless their background is the default one.
    pub fn changes(&self, start_attr: &CellAttributes) -> Result<Vec<Change>, AllocError>
        ensures { IfOk result (λ found. map value_of found.items ≡ changes self.now start_attr.now) }
    {
        let found = changes::changes(self.alloc, self.stored_cells(), start_attr)?;
        Ok(found)
    }

    /// The visible cell that begins at a column.
    pub fn get_cell(&self, cell_index: usize) -> Option<CellRef<'_>>
        ensures { option_map shown_by result ≡ get_cell self.now cell_index }
    {
        query::cell_at(self.stored_cells(), cell_index)
    }

    /// The texts of the visible cells, joined.
    pub fn as_str(&self) -> Result<CowStr<'_>, AllocError>
        ensures { IfOk result (λ text. cow_str_bytes text ≡ as_str self.now) }
    {
        let mut text = String::new(self.alloc);
        query::push_all_texts(&mut text, self.stored_cells())?;
        Ok(CowStr::Owned(text))
    }

    /// The texts of the visible cells that begin in a range of columns, joined.
    pub fn columns_as_str(&self, range: Range<usize>) -> Result<String, AllocError>
        ensures { IfOk result (λ text. string_bytes text ≡ columns_as_str self.now range.start range.end) }
    {
        let mut text = String::new(self.alloc);
        query::push_texts(&mut text, self.stored_cells(), range.start, range.end)?;
        Ok(text)
    }

    /// The visible cells that begin in a range of columns, whole, as a line of cells at normal size
    /// with this line's number.
    pub fn columns_as_line(&self, range: Range<usize>) -> Result<Line, AllocError>
        ensures { IfOk result (λ line. line ≡ columns_as_line self.now range.start range.end) }
    {
        let cells = wrap::between(self.alloc, self.stored_cells(), range.start, range.end)?;
        Ok(Line::from_cells(self.alloc, cells, self.number))
    }

    /// The line in rows of at most `width` columns, each a line of cells at normal size; a single cell
    /// may be wider. The spaces after the last other text are dropped. The line goes on after each row except the
    /// last. A line whose texts are all spaces stays as it is. If memory is refused the line is dropped.
    pub fn wrap(mut self, width: usize, seqno: SequenceNo) -> Result<Vec<Line>, AllocError>
        ensures { IfOk result (λ lines. lines.items ≡ wrap self width seqno) }
    {
        if self.is_whitespace() {
            let mut lines = Vec::new(self.alloc);
            lines.push(self)?;
            return Ok(lines);
        }
        let cells = self.open()?;
        wrap::rows(self.alloc, cells, width, seqno)
    }

    /// Whether a cell has a link.
    pub fn has_hyperlink(&self) -> bool
        ensures { result ≡ has_hyperlink self.now }
    {
        query::has_link(self.stored_cells())
    }

    /// Whether each visible cell is a space, of whatever attributes.
    pub fn is_whitespace(&self) -> bool
        ensures { result ≡ is_whitespace self.now }
    {
        query::is_whitespace(self.stored_cells())
    }

    /// Whether the line goes on after its last visible cell; false where there is none.
    pub fn last_cell_was_wrapped(&self) -> bool
        ensures { result ≡ last_cell_was_wrapped self.now }
    {
        query::ends_wrapped(self.stored_cells())
    }

    /// The zones: neighbouring visible cells of one semantic type, each from its first cell's
    /// column to its last one's. Plain blanks after all other cells are in no zone, unless there
    /// is nothing else. A column past 65,535 counts as that.
    pub fn semantic_zone_ranges(&self) -> Result<Vec<ZoneRange>, AllocError>
        ensures { IfOk result (λ found. found.items ≡ semantic_zone_ranges self.now) }
    {
        zones::zones(self.alloc, self.stored_cells())
    }

    /// The columns of the words around a column. A word cell is a visible cell for whose text `is_word`
    /// returns true. The range starts with the first column of the run of word cells that ends with the
    /// last cell at or before `click_col`. It ends one past the first column of the last cell in the run
    /// of word cells that begins with the first cell at or after `click_col`. Each end is `click_col`
    /// where there is no such run, and where `click_col` is at or past the end of the line.
    /// `RangeWithWrap` means that the range reaches the end of the line and the line goes on after it.
    /// `is_word` is called for the cells up to `click_col` and then for those from it on, each time in the
    /// order of columns, so it may be called twice for one cell; nothing is promised of that.
    pub fn compute_double_click_range<F: Fn(&str) -> bool>(
        &self,
        click_col: usize,
        is_word: F,
    ) -> DoubleClickRange
        requires { F.IsAlwaysCallable is_word }
        ensures { (test : List ℕ → Bool) → Answers F.Fn is_word test
            → result ≡ compute_double_click_range self.now click_col test }
    {
        words::double_click_range(self.stored_cells(), click_col, &is_word)
    }
}

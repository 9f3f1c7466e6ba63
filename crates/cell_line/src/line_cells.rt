//! Cells and columns of a line that are set, inserted, removed and filled.
ghost use Rattle.std.specs.Prelude.{◌≡◌, ◌≤◌, ◌-◌, ◌==◌, ◌&&◌, length, map, OnOk, OnErr};
ghost use Rattle.cell_base.specs.Attributes.{plain};
ghost use Rattle.cell_base.specs.CellContent.{row_of_cells, cell_of, blank_cell};
ghost use Rattle.cell_base.specs.SameCell.{same_cell};
ghost use Rattle.cell_line.specs.LineContent.{IsRefused};
ghost use Rattle.cell_line.specs.LineCalls.{invalidate_implicit_hyperlinks, set_cell};
ghost use Rattle.cell_line.specs.LineCalls.{set_cell_clearing_image_placements, set_cell_grapheme};
ghost use Rattle.cell_line.specs.LineCalls.{overlay_text_with_attribute, insert_cell, remove_cell, erase_cell};
ghost use Rattle.cell_line.specs.LineCalls.{erase_cell_with_margin, fill_range, set_last_cell_was_wrapped};
ghost use Rattle.cell_edits.specs.RowEdits.{filled, with_cell};
ghost use Rattle.cell_edits.specs.Links.{without_implicit, column_with};

use crate::clustered;
use crate::line::Line;
use cell_base::{Cell, CellAttributes, SequenceNo, Widths};
use cell_edits::{row, text};
use cell_views::query;
use std::alloc::AllocError;
use std::ops::Range;

// Sets a cell at each column of a range in turn. A range that there is no memory for is refused at once.
fn fill(cells: &mut Vec<Cell>, cols: Range<usize>, cell: &Cell) -> Result<(), AllocError>
    ensures { OnOk result
        (row_of_cells cells.new.items
        ≡ filled (row_of_cells cells.old.items) cols.start (cols.end - cols.start) cell.now) }
{
    if cols.start < cols.end {
        cells.reserve(cols.end.saturating_sub(cells.len()))?;
    }
    row::fill(cells, cols.start, cols.end, cell)?;
    Ok(())
}

impl Line {
    /// Sets a cell, whose columns are `idx` and, if it is wide, the next one. A line that ends before
    /// the cell's end is padded with plain blanks first.
    pub fn set_cell(&mut self, idx: usize, cell: Cell, seqno: SequenceNo) -> Result<(), AllocError>
        ensures done { OnOk result (self.new ≡ set_cell self.old idx cell seqno) }
        ensures refused { OnErr result (IsRefused self.old self.new) }
    {
        self.put_cell(idx, cell)?;
        self.update_last_change_seqno(seqno);
        Ok(())
    }

    // Sets a cell; the number stays.
    fn put_cell(&mut self, at: usize, cell: Cell) -> Result<(), AllocError>
        ensures done { OnOk result (self.new ≡ record self.old { columns = with_cell self.old.columns at cell }) }
        ensures refused { OnErr result (IsRefused self.old self.new) }
    {
        if self.is_clustered {
            clustered::set_cell(&mut self.row, at, &cell)?;
            return Ok(());
        }
        row::set_cell(&mut self.cells, at, cell)?;
        Ok(())
    }

    /// Sets a cell, as `set_cell` does: a line holds no images.
    pub fn set_cell_clearing_image_placements(
        &mut self,
        idx: usize,
        cell: Cell,
        seqno: SequenceNo,
    ) -> Result<(), AllocError>
        ensures done { OnOk result (self.new ≡ set_cell_clearing_image_placements self.old idx cell seqno) }
        ensures refused { OnErr result (IsRefused self.old self.new) }
    {
        self.set_cell(idx, cell, seqno)
    }

    /// Sets the cell of a cluster that takes `width` columns.
    pub fn set_cell_grapheme(
        &mut self,
        idx: usize,
        text: &str,
        width: usize,
        attr: CellAttributes,
        seqno: SequenceNo,
    ) -> Result<(), AllocError>
        requires some { 1 ≤ width }
        requires most { width ≤ 2 }
        ensures done { OnOk result (self.new ≡ set_cell_grapheme self.old idx text.now width attr seqno) }
        ensures refused { OnErr result (IsRefused self.old self.new) }
    {
        self.put_cluster(idx, text, width, attr)?;
        self.update_last_change_seqno(seqno);
        Ok(())
    }

    // Sets the cell of a cluster; the number stays.
    #[inline(always)]
    fn put_cluster(
        &mut self,
        at: usize,
        text: &str,
        width: usize,
        attrs: CellAttributes,
    ) -> Result<(), AllocError>
        requires some { 1 ≤ width }
        requires most { width ≤ 2 }
        ensures done { OnOk result
            (self.new ≡ record self.old { columns = with_cell self.old.columns at (cell_of text.now width attrs) }) }
        ensures refused { OnErr result (IsRefused self.old self.new) }
    {
        if self.is_clustered {
            clustered::set_cluster(&mut self.row, at, text, width, &attrs)?;
            return Ok(());
        }
        let cell = Cell::new_grapheme_with_width(self.alloc, text, width, attrs)?;
        row::set_cell(&mut self.cells, at, cell)?;
        Ok(())
    }

    /// Drops the last column within `right_margin` columns, if the line has it, and then inserts a cell
    /// at column `x`. A line that ends before `x` is padded with plain blanks to it.
    pub fn insert_cell(
        &mut self,
        x: usize,
        cell: Cell,
        right_margin: usize,
        seqno: SequenceNo,
    ) -> Result<(), AllocError>
        requires { 1 ≤ right_margin }
        ensures done { OnOk result (self.new ≡ insert_cell self.old x cell right_margin seqno) }
        ensures refused { OnErr result (IsRefused self.old self.new) }
    {
        let mut cells = self.open()?;
        let inserted = row::insert_cell(&mut cells, x, cell, right_margin);
        self.close(cells)?;
        inserted?;
        self.update_last_change_seqno(seqno);
        Ok(())
    }

    /// Removes a column and adds a plain blank; past the end nothing changes.
    pub fn erase_cell(&mut self, x: usize, seqno: SequenceNo) -> Result<(), AllocError>
        ensures done { OnOk result (self.new ≡ erase_cell self.old x seqno) }
        ensures refused { OnErr result (IsRefused self.old self.new) }
    {
        if self.len() <= x {
            return Ok(());
        }
        let mut cells = self.open()?;
        let erased = row::erase_column(&mut cells, x);
        self.close(cells)?;
        erased?;
        self.update_last_change_seqno(seqno);
        Ok(())
    }

    /// Removes a column; past the end nothing changes.
    pub fn remove_cell(&mut self, x: usize, seqno: SequenceNo) -> Result<(), AllocError>
        ensures done { OnOk result (self.new ≡ remove_cell self.old x seqno) }
        ensures refused { OnErr result (IsRefused self.old self.new) }
    {
        if self.len() <= x {
            return Ok(());
        }
        let mut cells = self.open()?;
        let removed = row::remove_column(&mut cells, x);
        self.close(cells)?;
        removed?;
        self.update_last_change_seqno(seqno);
        Ok(())
    }

    /// Removes a column if it is there, and then inserts a blank as the last column within
    /// `right_margin` columns, if none before it is missing.
    pub fn erase_cell_with_margin(
        &mut self,
        x: usize,
        right_margin: usize,
        seqno: SequenceNo,
        blank_attr: CellAttributes,
    ) -> Result<(), AllocError>
        requires { 1 ≤ right_margin }
        ensures done { OnOk result (self.new ≡ erase_cell_with_margin self.old x right_margin seqno blank_attr) }
        ensures refused { OnErr result (IsRefused self.old self.new) }
    {
        let mut cells = self.open()?;
        let erased = row::erase_within(&mut cells, x, right_margin, blank_attr);
        self.close(cells)?;
        erased?;
        self.update_last_change_seqno(seqno);
        Ok(())
    }

    /// Sets a cell for each cluster of a text, as UAX 29 cuts it, side by side from `start_idx` on.
    pub fn overlay_text_with_attribute<W: Widths>(
        &mut self,
        start_idx: usize,
        text: &str,
        attr: CellAttributes,
        seqno: SequenceNo,
        w: &W,
    ) -> Result<(), AllocError>
        ensures done { OnOk result
            (self.new ≡ overlay_text_with_attribute self.old start_idx text.now attr seqno (W.width_of w.now)) }
        ensures refused { OnErr result (IsRefused self.old self.new) }
    {
        let mut cells = self.open()?;
        let overlaid = text::overlay(self.alloc, &mut cells, start_idx, text, &attr, w);
        self.close(cells)?;
        overlaid?;
        self.update_last_change_seqno(seqno);
        Ok(())
    }

    /// Sets a cell at each column of a range in turn, and then removes the plain blanks at the end,
    /// unless no column would be left.
    /// Nothing changes where a plain blank is set on a line of no columns.
    #[tactic(auto, using(crate::proofs::NumberLemmas::numbered_last))]
    pub fn fill_range(
        &mut self,
        cols: Range<usize>,
        cell: &Cell,
        seqno: SequenceNo,
    ) -> Result<(), AllocError>
        ensures done { OnOk result (self.new ≡ fill_range self.old cols.start cols.end cell.now seqno) }
        ensures refused { OnErr result (IsRefused self.old self.new) }
    {
        if self.fills_nothing(cell) {
            return Ok(());
        }
        self.fill_columns(cols, cell)?;
        self.prune_trailing_blanks(seqno)?;
        self.update_last_change_seqno(seqno);
        Ok(())
    }

    // Whether the cell is a plain blank and the line has no columns.
    fn fills_nothing(&self, cell: &Cell) -> bool
        ensures { result ≡ (length self.now.columns == 0 && same_cell cell.now (blank_cell plain)) }
    {
        self.len() == 0 && *cell == Cell::blank()
    }

    // Sets a cell at each column of a range in turn.
    fn fill_columns(&mut self, cols: Range<usize>, cell: &Cell) -> Result<(), AllocError>
        ensures done { OnOk result
            (self.new
            ≡ record self.old { columns = filled self.old.columns cols.start (cols.end - cols.start) cell.now }) }
        ensures refused { OnErr result (IsRefused self.old self.new) }
    {
        let mut cells = self.open()?;
        let filled = fill(&mut cells, cols, cell);
        self.close(cells)?;
        filled?;
        Ok(())
    }

    /// Drops the links that were found in a text from every cell; nothing changes where there is
    /// none.
    pub fn invalidate_implicit_hyperlinks(&mut self, seqno: SequenceNo) -> Result<(), AllocError>
        ensures done { OnOk result (self.new ≡ invalidate_implicit_hyperlinks self.old seqno) }
        ensures refused { OnErr result (IsRefused self.old self.new) }
    {
        if !query::has_implicit_link(self.stored_cells()) {
            return Ok(());
        }
        self.drop_implicit_links()?;
        self.update_last_change_seqno(seqno);
        Ok(())
    }

    // Drops the links that were found in a text.
    fn drop_implicit_links(&mut self) -> Result<(), AllocError>
        ensures done { OnOk result
            (self.new ≡ record self.old { columns = map (column_with without_implicit) self.old.columns }) }
        ensures refused { OnErr result (IsRefused self.old self.new) }
    {
        let mut cells = self.open()?;
        row::drop_implicit_links(&mut cells);
        self.close(cells)?;
        Ok(())
    }

    /// Sets whether the line goes on after its last visible cell, if there is one.
    pub fn set_last_cell_was_wrapped(
        &mut self,
        wrapped: bool,
        seqno: SequenceNo,
    ) -> Result<(), AllocError>
        ensures done { OnOk result (self.new ≡ set_last_cell_was_wrapped self.old wrapped seqno) }
        ensures refused { OnErr result (IsRefused self.old self.new) }
    {
        let mut cells = self.open()?;
        row::set_end_wrapped(&mut cells, wrapped);
        self.close(cells)?;
        self.update_last_change_seqno(seqno);
        Ok(())
    }
}

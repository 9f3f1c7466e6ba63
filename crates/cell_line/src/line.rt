//! `Line`: a row of columns with a number and bits.
ghost use Rattle.std.specs.Prelude.{◌≡◌, length, IfOk, IsTrue, ◌↔◌};
ghost use Rattle.cell_base.specs.CellContent.{row_of_cells};
ghost use Rattle.std.specs.Borrow.{sem};
ghost use Rattle.cell_line.specs.LineContent.{SameShown};
ghost use Rattle.cell_line.specs.LineCalls.{with_width_and_cell, with_width, from_cells, new, from_text};
ghost use Rattle.cell_line.specs.LineCalls.{from_text_with_wrapped_last_col, try_from_text, changed_since};
ghost use Rattle.cell_line.specs.LineCalls.{update_last_change_seqno, current_seqno};
ghost use Rattle.cell_line.specs.LentCells.{LendsCells, LendsStored};
ghost use Rattle.cell_edits.specs.ShownCells.{lent_cells};

use crate::line_bits::LineBits;
use crate::row_writing::with_width_clustered;
use crate::{clustered, lent_cells, line_storage};
use cell_base::{Cell, CellAttributes, LineAttribute, SEQ_ZERO, SequenceNo, Widths};
use cell_edits::{row, text};
use cell_views::query;
use clustered_row::ClusteredRow;
use std::alloc::{AllocError, Global};
use std::marker::Model;

/// A row of columns with the number of its last change and its bits. A column has a text of its
/// own, or is one of the two halves of a wide cell; columns count from 0. Where an edit leaves a
/// half of a wide cell alone, that half becomes a blank with the wide cell's attributes.
///
/// The columns are kept as cells, or clustered: as one text and runs of equal attributes; `stored`
/// tells which. Edits keep the form, except that `compress_for_scrollback` and `row_writing::reset` make
/// the line clustered, and `cells_mut` and `cells_mut_for_attr_changes_only` make it one of cells.
/// Nothing else tells the two apart.
///
/// Calls that change a line take the number of the change, and the line keeps the greatest.
/// A call that is refused memory leaves number and bits as they were; the columns, and how they are
/// kept, are then unspecified.
#[derive(Debug, Drop)]
pub struct Line {
    pub(crate) alloc: Global,
    pub(crate) number: SequenceNo,
    pub(crate) bits: LineBits,
    pub(crate) is_clustered: bool,
    // The cells of a line of cells; empty where the line is clustered.
    pub(crate) cells: Vec<Cell>,
    // The columns of a clustered line.
    pub(crate) row: ClusteredRow,
}

impl Model for Line {
    ghost use Rattle.cell_line.specs.LineContent.{LineContent};

    ghost Value = { LineContent };

    ghost use Rattle.cell_line.specs.LineView.{content_of, IsKeptOnce};

    ghost view = { content_of };

    ghost invariant = { IsKeptOnce };
}

impl Line {
    /// A line of cells: `width` copies of `cell`, read from the left; of a wide cell, `width` columns.
    pub fn with_width_and_cell(
        alloc: Global,
        width: usize,
        cell: Cell,
        seqno: SequenceNo,
    ) -> Result<Line, AllocError>
        ensures { IfOk result (λ line. line ≡ with_width_and_cell width cell seqno) }
    {
        let mut cells = Vec::new(alloc);
        row::push_copies(&mut cells, width, &cell)?;
        Ok(Line::from_cells(alloc, cells, seqno))
    }

    /// A line of these cells, read from the left: the cell stored after a wide one is ignored, and a
    /// wide cell with none after it counts as a blank with its attributes.
    pub fn from_cells(alloc: Global, cells: Vec<Cell>, seqno: SequenceNo) -> Line
        ensures { result ≡ from_cells cells.items seqno }
    {
        Line {
            alloc,
            number: seqno,
            bits: LineBits::new(LineAttribute::SingleWidthLine),
            is_clustered: false,
            cells,
            row: ClusteredRow::new(alloc, 0),
        }
    }

    /// A line of no columns, clustered.
    pub fn new(alloc: Global, seqno: SequenceNo) -> Line
        ensures { result ≡ new seqno }
    {
        with_width_clustered(alloc, 0, seqno)
    }

    /// A line of cells, which are plain blanks.
    #[tactic(auto, using(cell_edits::proofs::CutLemmas::row_of_blanks))]
    pub fn with_width(alloc: Global, width: usize, seqno: SequenceNo) -> Result<Line, AllocError>
        ensures { IfOk result (λ line. line ≡ with_width width seqno) }
    {
        let mut cells = Vec::new(alloc);
        row::push_blanks(&mut cells, width)?;
        Ok(Line::from_cells(alloc, cells, seqno))
    }

    /// Whether the line changed after the change with this number, or never got a number.
    pub fn changed_since(&self, seqno: SequenceNo) -> bool
        ensures { result ≡ changed_since self.now seqno }
    {
        self.number == SEQ_ZERO || self.number > seqno
    }

    /// The number of the last change.
    pub fn current_seqno(&self) -> SequenceNo
        ensures { result ≡ current_seqno self.now }
    {
        self.number
    }

    /// Gives the line the number of a change.
    pub fn update_last_change_seqno(&mut self, seqno: SequenceNo)
        ensures { self.new ≡ update_last_change_seqno self.old seqno }
    {
        self.number = self.number.max(seqno);
    }

    /// A line of cells, one for each cluster of a text, as UAX 29 cuts it.
    pub fn from_text<W: Widths>(
        alloc: Global,
        s: &str,
        attrs: &CellAttributes,
        seqno: SequenceNo,
        w: &W,
    ) -> Result<Line, AllocError>
        ensures { IfOk result (λ line. line ≡ from_text s.now attrs.now seqno (W.width_of w.now)) }
    {
        let cells = text::cells_of_text(alloc, s, attrs, w)?;
        Ok(Line::from_cells(alloc, cells, seqno))
    }

    /// A line of plain cells, one for each cluster of a text, as UAX 29 cuts it, with number 0.
    pub fn try_from_text<W: Widths>(alloc: Global, s: &str, w: &W) -> Result<Line, AllocError>
        ensures { IfOk result (λ line. line ≡ try_from_text s.now (W.width_of w.now)) }
    {
        Line::from_text(alloc, s, &CellAttributes::blank(), SEQ_ZERO, w)
    }

    /// The line of a text, as `from_text` makes it, with the last visible cell one after which the line goes on.
    pub fn from_text_with_wrapped_last_col<W: Widths>(
        alloc: Global,
        s: &str,
        attrs: &CellAttributes,
        seqno: SequenceNo,
        w: &W,
    ) -> Result<Line, AllocError>
        ensures { IfOk result
            (λ line. line ≡ from_text_with_wrapped_last_col s.now attrs.now seqno (W.width_of w.now)) }
    {
        let mut cells = text::cells_of_text(alloc, s, attrs, w)?;
        row::set_end_wrapped(&mut cells, true);
        Ok(Line::from_cells(alloc, cells, seqno))
    }

    /// A mutable borrow of a cell for each column: the one that begins there, and after a wide
    /// cell the blank with its attributes. The cells that it leaves are read from the left as
    /// the line's columns: the cell after a wide one is ignored, and a wide cell with none after
    /// it counts as a blank with its attributes. Number and bits stay, and the line is one of cells.
    pub fn cells_mut(&mut self) -> Result<&mut [Cell], AllocError>
        ensures* writes_back { sem 𝓛 (LendsCells self.entry result) }
        ensures lent { IfOk result (λ cells. cells.now ≡ lent_cells self.old.columns) }
        ensures cells { IfOk result (λ cells. row_of_cells cells.now ≡ self.old.columns) }
        ensures count { IfOk result (λ cells. length cells.now ≡ length self.old.columns) }
    {
        match self.settled_cells() {
            Ok(cells) => Ok(lent_cells::slice_of(cells)),
            Err(refused) => Err(refused),
        }
    }

    /// Borrows the cells, as `cells_mut` does, for callers that change attributes alone.
    pub fn cells_mut_for_attr_changes_only(&mut self) -> Result<&mut [Cell], AllocError>
        ensures* writes_back { sem 𝓛 (LendsCells self.entry result) }
        ensures lent { IfOk result (λ cells. cells.now ≡ lent_cells self.old.columns) }
        ensures cells { IfOk result (λ cells. row_of_cells cells.now ≡ self.old.columns) }
        ensures count { IfOk result (λ cells. length cells.now ≡ length self.old.columns) }
    {
        match self.settled_cells() {
            Ok(cells) => Ok(lent_cells::slice_of(cells)),
            Err(refused) => Err(refused),
        }
    }

    // A mutable borrow of the vector of cells, each as it is shown in its column.
    fn settled_cells(&mut self) -> Result<&mut Vec<Cell>, AllocError>
        ensures* writes_back { sem 𝓛 (LendsStored self.entry result) }
        ensures cells { IfOk result
            (λ cells. (cells.now.items ≡ lent_cells self.old.columns)
            × (row_of_cells cells.now.items ≡ self.old.columns)) }
    {
        line_storage::settle(self.alloc, self.is_clustered, &self.row, &mut self.cells)?;
        clustered::forget(self.alloc, &mut self.row);
        self.is_clustered = false;
        Ok(&mut self.cells)
    }

    // Whether number, bits and columns are the same, however these are kept.
    fn is_same(&self, other: &Line) -> bool
        ensures { IsTrue result ↔ SameShown self.now other.now }
    {
        if self.number != other.number {
            return false;
        }
        if !self.bits.is_same(&other.bits) {
            return false;
        }
        query::same_columns(self.stored_cells(), other.stored_cells())
    }

    /// A copy, kept in the same form.
    pub fn try_clone(&self) -> Result<Line, AllocError>
        ensures { IfOk result (λ copy. copy ≡ self.now) }
    {
        Ok(Line {
            alloc: self.alloc,
            number: self.number,
            bits: self.bits.copy(),
            is_clustered: self.is_clustered,
            cells: row::copy(self.alloc, &self.cells)?,
            row: self.row.try_clone(self.alloc)?,
        })
    }
}

impl PartialEq for Line {
    ghost use Rattle.std.specs.Prelude.{◌≡◌, ◌↔◌, IsTrue};
    ghost use Rattle.std.specs.Cmp.{partial_equiv_from_equiv};
    ghost use Rattle.cell_line.specs.LineContent.{SameShown};
    ghost use Rattle.cell_line.specs.SameLine.{same_line, same_line_equivalence};

    ghost eq = { same_line };

    ghost laws = { partial_equiv_from_equiv same_line_equivalence };

    fn eq(&self, other: &Line) -> bool
        ensures same { result ≡ same_line self.now other.now }
        ensures by_value { IsTrue result ↔ SameShown self.now other.now }
    {
        self.is_same(other)
    }
}

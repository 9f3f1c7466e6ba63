//! Lines that become wider or narrower, are cut and joined.
ghost use Rattle.std.specs.Prelude.{◌≡◌, replicate, IfOk, OnOk, OnErr};
ghost use Rattle.cell_base.specs.Row.{blank};
ghost use Rattle.cell_line.specs.LineContent.{IsRefused};
ghost use Rattle.cell_line.specs.LineCalls.{resize, resize_and_clear, split_off_kept, split_off, append_line};
ghost use Rattle.cell_line.specs.LineCalls.{prune_trailing_blanks};
ghost use Rattle.cell_edits.specs.RowEdits.{resized};

use crate::line::Line;
use cell_base::{CellAttributes, SequenceNo};
use cell_edits::{row, runs};
use std::alloc::AllocError;

impl Line {
    /// Makes the line `width` columns wide: drops columns at its end, or appends plain blanks.
    pub fn resize(&mut self, width: usize, seqno: SequenceNo) -> Result<(), AllocError>
        ensures done { OnOk result (self.new ≡ resize self.old width seqno) }
        ensures refused { OnErr result (IsRefused self.old self.new) }
    {
        self.set_width(width)?;
        self.update_last_change_seqno(seqno);
        Ok(())
    }

    // Makes the line `width` columns wide; the number stays.
    fn set_width(&mut self, width: usize) -> Result<(), AllocError>
        ensures done { OnOk result (self.new ≡ record self.old { columns = resized width self.old.columns }) }
        ensures refused { OnErr result (IsRefused self.old self.new) }
    {
        if self.is_clustered {
            self.row.resize(width)?;
            return Ok(());
        }
        row::resize(&mut self.cells, width)?;
        Ok(())
    }

    /// Makes the line `width` blanks with these attributes, at normal size.
    pub fn resize_and_clear(
        &mut self,
        width: usize,
        seqno: SequenceNo,
        blank_attr: CellAttributes,
    ) -> Result<(), AllocError>
        ensures done { OnOk result (self.new ≡ resize_and_clear self.old width seqno blank_attr) }
        ensures refused { OnErr result (IsRefused self.old self.new) }
    {
        self.clear_to(width, &blank_attr)?;
        self.set_single_width(seqno);
        Ok(())
    }

    // Makes the line `width` blanks with these attributes; number and bits stay.
    #[tactic(auto, using(cell_edits::proofs::CutLemmas::row_of_blanks_with))]
    fn clear_to(&mut self, width: usize, attrs: &CellAttributes) -> Result<(), AllocError>
        ensures done { OnOk result (self.new ≡ record self.old { columns = replicate width (blank attrs.now) }) }
        ensures refused { OnErr result (IsRefused self.old self.new) }
    {
        if self.is_clustered {
            self.row.clear_to(width, attrs)?;
            return Ok(());
        }
        runs::clear(&mut self.cells, width, attrs)?;
        Ok(())
    }

    /// Cuts the line at a column, or at its end if that comes first, and returns the columns from
    /// there on, as a line of cells with the same bits.
    pub fn split_off(&mut self, idx: usize, seqno: SequenceNo) -> Result<Line, AllocError>
        ensures kept { OnOk result (self.new ≡ split_off_kept self.old idx) }
        ensures rest { IfOk result (λ rest. rest ≡ split_off self.old idx seqno) }
        ensures refused { OnErr result (IsRefused self.old self.new) }
    {
        let at = idx.min(self.len());
        let mut cells = self.open()?;
        let rest = row::split_off(&mut cells, at);
        self.close(cells)?;
        let mut line = Line::from_cells(self.alloc, rest?, seqno);
        line.bits = self.bits.copy();
        Ok(line)
    }

    /// Puts the columns of another line after those of this one.
    pub fn append_line(&mut self, mut other: Line, seqno: SequenceNo) -> Result<(), AllocError>
        ensures done { OnOk result (self.new ≡ append_line self.old other seqno) }
        ensures refused { OnErr result (IsRefused self.old self.new) }
    {
        let after = other.open()?;
        let mut cells = self.open()?;
        let appended = row::append(&mut cells, after);
        self.close(cells)?;
        appended?;
        self.update_last_change_seqno(seqno);
        Ok(())
    }

    /// Removes the plain blanks at the end, unless no column would be left: then nothing changes.
    #[tactic(auto, using(crate::proofs::NumberLemmas::left_none, crate::proofs::NumberLemmas::left_some))]
    pub fn prune_trailing_blanks(&mut self, seqno: SequenceNo) -> Result<(), AllocError>
        ensures done { OnOk result (self.new ≡ prune_trailing_blanks self.old seqno) }
        ensures refused { OnErr result (IsRefused self.old self.new) }
    {
        let mut cells = self.open()?;
        let pruned = row::prune(&mut cells);
        self.close(cells)?;
        if pruned? {
            self.update_last_change_seqno(seqno);
        }
        Ok(())
    }
}

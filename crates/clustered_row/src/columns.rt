//! The columns of a row up to the last one that was written.
ghost use Rattle.std.specs.Prelude.{◌≡◌, ◌+◌, ◌-◌, ◌<◌, ◌≤◌, ◌^◌, ◌++◌, [], true, length, take, replicate, IfOk, OnOk};
ghost use Rattle.std.specs.Prelude.{OnErr};
ghost use Rattle.std.specs.List.{list_all};
ghost use Rattle.text_clusters.specs.Plain.{is_printable};
ghost use Rattle.cell_base.specs.Row.{blank, closed_end, set_columns};
ghost use Rattle.cell_base.specs.WholeRow.{IsWhole};
ghost use Rattle.clustered_row.specs.Ends.{EndsAt};
ghost use Rattle.clustered_row.specs.Faces.{plain_faces, row_of};
ghost use Rattle.clustered_row.specs.Sizes.{AreSizes, columns_of, faces_of};

use crate::cell_size::CellSize;
use crate::runs::Runs;
use crate::text_cells::fill_plain;
use crate::texts::Texts;
use cell_base::CellAttributes;
use std::alloc::{AllocError, Global};
use std::marker::Model;

// Columns side by side: the texts of their cells, and the attributes of each column.
#[derive(Debug, Drop)]
pub(crate) struct Columns {
    pub(crate) texts: Texts,
    pub(crate) runs: Runs,
}

impl Model for Columns {
    ghost use Rattle.cell_base.specs.Row.{Row};

    ghost Value = { Row };

    ghost use Rattle.clustered_row.specs.ColumnsView.{columns_shown, AreColumns};

    ghost view = { columns_shown };

    ghost invariant = { AreColumns };
}

impl Columns {
    // No column.
    pub(crate) fn new(alloc: Global) -> Columns
        ensures { result ≡ [] }
    {
        Columns {
            texts: Texts::new(alloc),
            runs: Runs::new(alloc),
        }
    }

    // How many columns there are.
    #[inline(always)]
    pub(crate) fn len(&self) -> usize
        ensures len { result ≡ length self.now }
        ensures whole { IsWhole self.now }
    {
        self.runs.len()
    }

    // Removes all columns, and keeps their memory.
    pub(crate) fn clear(&mut self)
        ensures { self.new ≡ [] }
    {
        if self.runs.len() == 0 {
            return;
        }
        self.clear_some();
    }

    // As `clear`, where there are columns.
    #[inline(never)]
    fn clear_some(&mut self)
        ensures { self.new ≡ [] }
    {
        self.texts.clear();
        self.runs.clear();
    }

    // Drops the columns from `at` on.
    pub(crate) fn cut(&mut self, at: usize)
        requires { at ≤ length self.old }
        ensures { self.new ≡ closed_end (take at self.old) }
    {
        self.texts.cut(at);
        self.runs.cut(at);
    }

    // Appends blanks up to `to` columns.
    pub(crate) fn pad(&mut self, to: usize, attrs: &CellAttributes) -> Result<(), AllocError>
        requires { length self.old ≤ to }
        ensures done { OnOk result (self.new ≡ self.old ++ replicate (to - length self.old) (blank attrs.now)) }
        ensures refused { OnErr result (self.new ≡ self.old) }
    {
        let count = to - self.runs.len();
        self.texts.reserve(count, 0)?;
        self.runs.push(count, attrs)?;
        self.texts.pad(to)?;
        Ok(())
    }

    // Sets the number of columns to `at`: drops columns at the end, or appends blanks.
    #[inline(always)]
    pub(crate) fn end_at(&mut self, at: usize, attrs: &CellAttributes) -> Result<(), AllocError>
        ensures done { OnOk result (EndsAt self.old self.new at attrs.now) }
        ensures refused { OnErr result (self.new ≡ self.old) }
        ensures whole { IsWhole self.old }
    {
        let len = self.len();
        if at == len {
            return Ok(());
        }
        if at < len {
            self.cut(at);
            return Ok(());
        }
        self.pad(at, attrs)?;
        Ok(())
    }

    // Appends a column for each byte of a text in printable ASCII.
    #[inline(always)]
    pub(crate) fn push_plain(
        &mut self,
        text: &str,
        attrs: &CellAttributes,
    ) -> Result<(), AllocError>
        requires printable { list_all is_printable text.now ≡ true }
        requires small { length self.old + length text.now < 2 ^ 64 }
        ensures done { OnOk result
            (self.new ≡ self.old ++ row_of (plain_faces text.now) (replicate (length text.now) attrs.now)) }
        ensures refused { OnErr result (self.new ≡ self.old) }
    {
        self.texts.reserve(text.len(), 0)?;
        self.runs.push(text.len(), attrs)?;
        self.texts.push_plain(text)?;
        Ok(())
    }

    // Appends cells, given by their text, their sizes and how many columns they take.
    pub(crate) fn push(
        &mut self,
        text: &str,
        sizes: &[CellSize],
        count: usize,
        attrs: &CellAttributes,
    ) -> Result<(), AllocError>
        requires sizes { AreSizes text.now sizes.now }
        requires count { count ≡ columns_of sizes.now }
        requires small { length self.old + count < 2 ^ 64 }
        ensures done { OnOk result
            (self.new ≡ self.old ++ row_of (faces_of text.now sizes.now) (replicate count attrs.now)) }
        ensures refused { OnErr result (self.new ≡ self.old) }
    {
        let covered = self.texts.columns() - self.texts.plain_from();
        self.texts.reserve(text.len(), covered + sizes.len())?;
        self.runs.push(count, attrs)?;
        self.texts.push_cells(text, sizes, count)?;
        Ok(())
    }

    // The column from which on each cell is a printable ASCII character in one column.
    #[inline(always)]
    pub(crate) fn plain_from(&self) -> usize
        ensures { result ≤ length self.now }
    {
        self.texts.plain_from()
    }

    // Sets cells from column `at` on, given by their text, their sizes and how many columns they take.
    pub(crate) fn set(
        &mut self,
        at: usize,
        text: &str,
        sizes: &[CellSize],
        count: usize,
        attrs: &CellAttributes,
    ) -> Result<(), AllocError>
        requires sizes { AreSizes text.now sizes.now }
        requires count { count ≡ columns_of sizes.now }
        requires within { at + count ≤ length self.old }
        requires small { at + count < 2 ^ 64 }
        ensures done { OnOk result
            (self.new ≡ set_columns self.old at (row_of (faces_of text.now sizes.now) (replicate count attrs.now))) }
        ensures refused { OnErr result (self.new ≡ self.old) }
    {
        let end = at + count;
        let covered = end.saturating_sub(self.texts.plain_from());
        self.texts
            .reserve(text.len() + 3, covered + (sizes.len() + 3))?;
        self.runs.set(at, end, attrs)?;
        self.texts.splice(at, end, text, sizes)?;
        Ok(())
    }

    // As `set_plain`, whatever cells are there. It overwrites `sizes`, a buffer.
    #[inline(never)]
    fn set_over_cells(
        &mut self,
        at: usize,
        text: &str,
        attrs: &CellAttributes,
        sizes: &mut Vec<CellSize>,
    ) -> Result<(), AllocError>
        requires printable { list_all is_printable text.now ≡ true }
        requires within { at + length text.now ≤ length self.old }
        requires small { at + length text.now < 2 ^ 64 }
        ensures done { OnOk result
            (self.new
            ≡ set_columns self.old at (row_of (plain_faces text.now) (replicate (length text.now) attrs.now))) }
        ensures refused { OnErr result (self.new ≡ self.old) }
    {
        fill_plain(sizes, text.len())?;
        self.set(at, text, sizes, text.len(), attrs)?;
        Ok(())
    }

    // Sets the columns from `at` on to the bytes of a text in printable ASCII: where all cells from `at` on are plain,
    // these replace their bytes. It may overwrite `sizes`, a buffer.
    pub(crate) fn set_plain(
        &mut self,
        at: usize,
        text: &str,
        attrs: &CellAttributes,
        sizes: &mut Vec<CellSize>,
    ) -> Result<(), AllocError>
        requires printable { list_all is_printable text.now ≡ true }
        requires within { at + length text.now ≤ length self.old }
        requires small { at + length text.now < 2 ^ 64 }
        ensures done { OnOk result
            (self.new
            ≡ set_columns self.old at (row_of (plain_faces text.now) (replicate (length text.now) attrs.now))) }
        ensures refused { OnErr result (self.new ≡ self.old) }
    {
        if at < self.texts.plain_from() {
            return self.set_over_cells(at, text, attrs, sizes);
        }
        self.runs.set(at, at + text.len(), attrs)?;
        self.texts.set_plain(at, text);
        Ok(())
    }

    // A copy that shares links.
    pub(crate) fn try_clone(&self, alloc: Global) -> Result<Columns, AllocError>
        ensures { IfOk result (λ copy. copy ≡ self.now) }
    {
        Ok(Columns {
            texts: self.texts.try_clone(alloc)?,
            runs: self.runs.try_clone()?,
        })
    }
}

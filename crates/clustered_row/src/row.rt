//! A row that is kept as one text and runs.
ghost use Rattle.std.specs.Prelude.{◌≡◌, ◌+◌, ◌-◌, ◌<◌, ◌≤◌, ◌++◌, true, length, replicate, IfOk, OnOk};
ghost use Rattle.std.specs.List.{list_all};
ghost use Rattle.text_clusters.specs.Plain.{is_printable};
ghost use Rattle.cell_base.specs.Row.{blank, plain_row, set_columns};
ghost use Rattle.cell_base.specs.WholeRow.{IsWhole};
ghost use Rattle.cell_edits.specs.RowEdits.{resized};
ghost use Rattle.clustered_row.specs.Faces.{plain_faces, row_of};
ghost use Rattle.clustered_row.specs.Sizes.{AreSizes, columns_of, faces_of};

use crate::cell_size::CellSize;
use crate::columns::Columns;
use cell_base::CellAttributes;
use std::alloc::{AllocError, Global};
use std::marker::Model;

/// A row of columns, kept as one text, the lengths and widths of its cells, and runs of equal attributes. The columns
/// after the last written one are blanks that all have the same attributes. Columns count from 0.
///
/// A call that is refused memory leaves the count of columns as it was; what they show then is unspecified.
#[derive(Debug, Drop)]
pub struct ClusteredRow {
    pub(crate) columns: Columns,
    pub(crate) width: usize,
    pub(crate) rest: CellAttributes,
    // A buffer for the sizes of cells that are being set.
    pub(crate) sizes: Vec<CellSize>,
}

impl Model for ClusteredRow {
    ghost use Rattle.cell_base.specs.Row.{Row};

    ghost Value = { Row };

    ghost use Rattle.clustered_row.specs.RowView.{row_shown, IsWithin};

    ghost view = { row_shown };

    ghost invariant = { IsWithin };
}

impl ClusteredRow {
    /// A row of `width` plain blanks.
    pub fn new(alloc: Global, width: usize) -> ClusteredRow
        ensures { result ≡ plain_row width }
    {
        ClusteredRow {
            columns: Columns::new(alloc),
            width,
            rest: CellAttributes::blank(),
            sizes: Vec::new(alloc),
        }
    }

    /// How many columns there are. `whole` is a law of rows: after the first column of a wide cell comes its second
    /// one, with the same attributes, and there is no other second column.
    #[inline(always)]
    pub fn len(&self) -> usize
        ensures value { result ≡ length self.now }
        ensures whole { IsWhole self.now }
    {
        prove!(self.columns.len() <= self.width);
        self.width
    }

    /// Makes all columns plain blanks, and keeps the memory of their cells.
    pub fn clear(&mut self)
        ensures { self.new ≡ plain_row (length self.old) }
    {
        self.columns.clear();
        self.rest = CellAttributes::blank();
    }

    /// Makes the columns from `at` on blanks with these attributes.
    pub fn set_blanks_from(&mut self, at: usize, attrs: &CellAttributes) -> Result<(), AllocError>
        requires { at ≤ length self.old }
        ensures len { length self.new ≡ length self.old }
        ensures done { OnOk result
            (self.new ≡ set_columns self.old at (replicate (length self.old - at) (blank attrs.now))) }
    {
        if self.columns.len() <= at && self.rest == *attrs {
            return Ok(());
        }
        self.set_other_blanks_from(at, attrs)
    }

    // As `set_blanks_from`, where the columns from `at` on may show anything.
    #[inline(never)]
    fn set_other_blanks_from(&mut self, at: usize, attrs: &CellAttributes) -> Result<(), AllocError>
        requires { at ≤ length self.old }
        ensures len { length self.new ≡ length self.old }
        ensures done { OnOk result
            (self.new ≡ set_columns self.old at (replicate (length self.old - at) (blank attrs.now))) }
    {
        let rest = attrs.try_clone()?;
        self.columns.end_at(at, &self.rest)?;
        self.rest = rest;
        Ok(())
    }

    /// Sets the columns from `at` on to the printable ASCII characters (20h to 7Eh) of a text, a column each.
    #[inline(always)]
    pub fn set_plain(
        &mut self,
        at: usize,
        text: &str,
        attrs: &CellAttributes,
    ) -> Result<(), AllocError>
        requires printable { list_all is_printable text.now ≡ true }
        requires within { at + length text.now ≤ length self.old }
        ensures len { length self.new ≡ length self.old }
        ensures done { OnOk result
            (self.new
            ≡ set_columns self.old at (row_of (plain_faces text.now) (replicate (length text.now) attrs.now))) }
    {
        if at != self.columns.len() {
            self.set_plain_elsewhere(at, text, attrs)?;
            return Ok(());
        }
        self.columns.push_plain(text, attrs)?;
        Ok(())
    }

    // As `set_plain`, from any column on, not only from the one after the last written column.
    #[inline(never)]
    pub(crate) fn set_plain_elsewhere(
        &mut self,
        at: usize,
        text: &str,
        attrs: &CellAttributes,
    ) -> Result<(), AllocError>
        requires printable { list_all is_printable text.now ≡ true }
        requires within { at + length text.now ≤ length self.old }
        ensures len { length self.new ≡ length self.old }
        ensures done { OnOk result
            (self.new
            ≡ set_columns self.old at (row_of (plain_faces text.now) (replicate (length text.now) attrs.now))) }
    {
        let len = self.columns.len();
        if at + text.len() <= len {
            self.columns.set_plain(at, text, attrs, &mut self.sizes)?;
            return Ok(());
        }
        self.columns.end_at(at, &self.rest)?;
        self.columns.push_plain(text, attrs)?;
        Ok(())
    }

    // Sets cells from column `at` on, given by their text, their sizes and how many columns they take.
    pub(crate) fn set(
        &mut self,
        at: usize,
        text: &str,
        sizes: &[CellSize],
        count: usize,
        attrs: &CellAttributes,
    ) -> Result<(), AllocError>
        requires sizes { AreSizes text.now sizes.now }
        requires count { count ≡ columns_of sizes.now }
        requires within { at + count ≤ length self.old }
        ensures len { length self.new ≡ length self.old }
        ensures done { OnOk result
            (self.new ≡ set_columns self.old at (row_of (faces_of text.now sizes.now) (replicate count attrs.now))) }
    {
        let len = self.columns.len();
        if at + count < len {
            self.columns.set(at, text, sizes, count, attrs)?;
            return Ok(());
        }
        self.columns.end_at(at, &self.rest)?;
        self.columns.push(text, sizes, count, attrs)?;
        Ok(())
    }

    /// Sets the width of the row: drops columns at its end, or appends plain blanks.
    pub fn resize(&mut self, width: usize) -> Result<(), AllocError>
        ensures { OnOk result (self.new ≡ resized width self.old) }
    {
        if self.width < width {
            return self.widen(width);
        }
        if width < self.columns.len() {
            self.columns.cut(width);
            self.width = width;
            return Ok(());
        }
        self.width = width;
        Ok(())
    }

    // Appends plain blanks up to `width` columns.
    fn widen(&mut self, width: usize) -> Result<(), AllocError>
        requires { length self.old < width }
        ensures { OnOk result (self.new ≡ resized width self.old) }
    {
        self.columns.pad(self.width, &self.rest)?;
        self.rest = CellAttributes::blank();
        self.width = width;
        Ok(())
    }

    /// A copy that shares links.
    pub fn try_clone(&self, alloc: Global) -> Result<ClusteredRow, AllocError>
        ensures { IfOk result (λ copy. copy ≡ self.now) }
    {
        Ok(ClusteredRow {
            columns: self.columns.try_clone(alloc)?,
            width: self.width,
            rest: self.rest.try_clone()?,
            sizes: Vec::new(alloc),
        })
    }
}

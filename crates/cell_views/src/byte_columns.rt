//! The columns of the cells of a text's bytes.
ghost use Rattle.std.specs.Prelude.{◌≡◌, ◌+◌, ◌<◌, ◌≤◌, ◌^◌, ◌++◌, [], length, replicate, slice_index, IsTrue, OnOk};
ghost use Rattle.std.specs.Prelude.{IfOk};

use std::alloc::{AllocError, Global};

// The first column of a cell, and the columns that it takes.
#[derive(Debug, Clone, Copy)]
struct ByteColumn {
    column: usize,
    width: u8,
}

// For each byte of a text, the first column of its cell and the columns that the cell takes. Cells
// of one byte and one column that are side by side from the first on are only counted.
#[derive(Debug, Drop)]
pub(crate) struct ByteColumns {
    first: usize,
    counted: usize,
    after: Vec<ByteColumn>,
    ghost within: { first + counted < 2 ^ 64 },
}

// Whether a cell of `count` bytes is one to count: it has one byte and one column, and its column is
// `next`.
fn is_counted(count: usize, column: usize, width: u8, next: usize) -> bool
    ensures bytes { IsTrue result → count ≡ 1 }
    ensures width { IsTrue result → width ≡ 1 }
    ensures column { IsTrue result → column ≡ next }
    ensures last { IsTrue result → column < usize.MAX }
{
    if count != 1 || width != 1 {
        return false;
    }
    column == next && column < usize::MAX
}

// Appends the column and width of a cell, once for each byte of its text.
fn push_copies(
    byte_columns: &mut Vec<ByteColumn>,
    text: &str,
    byte_column: ByteColumn,
) -> Result<(), AllocError>
    ensures items { OnOk result
        (byte_columns.new.items ≡ byte_columns.old.items ++ replicate (length text.now) byte_column) }
    ensures count { length byte_columns.old.items ≤ length byte_columns.new.items }
{
    byte_columns.resize(byte_columns.len() + text.len(), byte_column)?;
    Ok(())
}

impl ByteColumns {
    ghost use Rattle.cell_views.specs.ByteColumns.{columns_in, widths_in};

    // The columns of no byte; the first byte will be at column `first`.
    pub(crate) fn new(alloc: Global, first: usize) -> ByteColumns
        ensures columns { columns_in result ≡ [] }
        ensures widths { widths_in result ≡ [] }
    {
        ByteColumns {
            first,
            counted: 0,
            after: Vec::new(alloc),
        }
    }

    // The first column of a byte's cell.
    pub(crate) fn column(&self, byte: usize) -> usize
        requires { byte < length (columns_in self.now) }
        ensures { result ≡ slice_index (columns_in self.now) byte }
    {
        if byte < self.counted {
            self.first + byte
        } else {
            self.after[byte - self.counted].column
        }
    }

    // The columns that a byte's cell takes.
    pub(crate) fn width(&self, byte: usize) -> u8
        requires { byte < length (widths_in self.now) }
        ensures { result ≡ slice_index (widths_in self.now) byte }
    {
        if byte < self.counted {
            1
        } else {
            self.after[byte - self.counted].width
        }
    }

    // Appends the column and width of a cell for each byte of its text.
    pub(crate) fn push(&mut self, text: &str, column: usize, width: u8) -> Result<(), AllocError>
        ensures columns { OnOk result
            (columns_in self.new ≡ columns_in self.old ++ replicate (length text.now) column) }
        ensures widths { OnOk result (widths_in self.new ≡ widths_in self.old ++ replicate (length text.now) width) }
        ensures column_count { length (columns_in self.old) ≤ length (columns_in self.new) }
        ensures width_count { length (widths_in self.old) ≤ length (widths_in self.new) }
    {
        let next = self.first + self.counted;
        if self.after.is_empty() && is_counted(text.len(), column, width, next) {
            self.counted += 1;
            return Ok(());
        }
        push_copies(&mut self.after, text, ByteColumn { column, width })?;
        Ok(())
    }

    // A copy.
    pub(crate) fn try_clone(&self) -> Result<ByteColumns, AllocError>
        ensures columns { IfOk result (λ copy. columns_in copy ≡ columns_in self.now) }
        ensures widths { IfOk result (λ copy. widths_in copy ≡ widths_in self.now) }
    {
        Ok(ByteColumns {
            first: self.first,
            counted: self.counted,
            after: self.after.clone()?,
        })
    }
}

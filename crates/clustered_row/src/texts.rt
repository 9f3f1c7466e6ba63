//! The texts of a row's cells.
ghost use Rattle.std.specs.Prelude.{◌≡◌, ◌+◌, ◌-◌, ◌<◌, ◌≤◌, ◌++◌, true, false, [], length, take, OnOk, OnErr, IfOk};
ghost use Rattle.std.specs.Prelude.{IsOk};
ghost use Rattle.std.specs.List.{list_all};
ghost use Rattle.text_clusters.specs.Plain.{is_printable};
ghost use Rattle.clustered_row.specs.Faces.{plain_faces, padded, closed_end, set_faces};
ghost use Rattle.clustered_row.specs.LentTexts.{IsLentAt};
ghost use Rattle.clustered_row.specs.Sizes.{AreSizes, columns_of, ends_plain, faces_of};

use crate::cell_size::CellSize;
use crate::cut_text::CutText;
use crate::lent_text::LentText;
use std::alloc::{AllocError, Global};

/// The texts of a row's cells, kept as one text and the sizes of the first cells, up to the last one that isn't
/// plain. A plain cell is one printable ASCII character in one column.
#[derive(Debug, Drop)]
pub struct Texts {
    pub(crate) cut: CutText,
    ghost trimmed: { ends_plain cut.sizes.items ≡ false },
}

impl Texts {
    ghost use Rattle.clustered_row.specs.TextsShown.{text_of, sizes_of, faces, plain_from, room, room_sizes};
    ghost use Rattle.clustered_row.specs.TextsShown.{HasRoomFor, HasRoomAfter};

    /// No cell.
    pub fn new(alloc: Global) -> Texts
        ensures { faces result ≡ [] }
    {
        Texts {
            cut: CutText::new(alloc),
        }
    }

    /// How many columns the cells take.
    #[inline(always)]
    pub fn columns(&self) -> usize
        ensures { result ≡ length (faces self.now) }
    {
        self.cut.columns()
    }

    /// The column from which on each cell is a plain one.
    #[inline(always)]
    pub fn plain_from(&self) -> usize
        ensures column { result ≡ plain_from self.now }
        ensures within { result ≤ length (faces self.now) }
    {
        self.cut.sized_columns
    }

    /// The text of all cells.
    #[inline(always)]
    pub fn text(&self) -> &str
        ensures { result.now ≡ text_of self.now }
    {
        self.cut.text()
    }

    /// The sizes of the first cells, up to the last one that isn't plain.
    #[inline(always)]
    pub fn sizes(&self) -> &[CellSize]
        ensures sizes { result.now ≡ sizes_of self.now }
        ensures trimmed { ends_plain result.now ≡ false }
    {
        &self.cut.sizes
    }

    /// The cell that begins at a column; none at the second column of a wide one.
    #[inline(always)]
    pub fn cell_at(&self, column: usize) -> Option<LentText<'_>>
        requires { column < length (faces self.now) }
        ensures { IsLentAt (faces self.now) column result }
    {
        self.cut.cell_at(column)
    }

    /// Removes all cells, and keeps the memory.
    pub fn clear(&mut self)
        ensures faces { faces self.new ≡ [] }
        ensures room { room self.old ≤ room self.new }
        ensures room_sizes { room_sizes self.old ≤ room_sizes self.new }
    {
        self.cut.clear();
    }

    /// Makes room for `bytes` more bytes, and for the sizes of `sizes` more cells.
    #[inline(always)]
    pub fn reserve(&mut self, bytes: usize, sizes: usize) -> Result<(), AllocError>
        ensures faces { faces self.new ≡ faces self.old }
        ensures plain_from { plain_from self.new ≡ plain_from self.old }
        ensures room { OnOk result (bytes ≤ room self.new) }
        ensures room_sizes { OnOk result (sizes ≤ room_sizes self.new) }
        ensures more { room self.old ≤ room self.new }
        ensures more_sizes { room_sizes self.old ≤ room_sizes self.new }
        ensures succeeds { bytes ≤ room self.old → sizes ≤ room_sizes self.old → IsOk result }
    {
        self.cut.reserve(bytes, sizes)?;
        Ok(())
    }

    /// Appends a cell for each byte of a text in printable ASCII.
    #[inline(always)]
    pub fn push_plain(&mut self, text: &str) -> Result<(), AllocError>
        requires { list_all is_printable text.now ≡ true }
        ensures done { OnOk result (faces self.new ≡ faces self.old ++ plain_faces text.now) }
        ensures refused { OnErr result (faces self.new ≡ faces self.old) }
        ensures succeeds { length text.now ≤ room self.old → IsOk result }
        ensures plain_from { plain_from self.new ≡ plain_from self.old }
        ensures room { room self.old ≤ room self.new + length text.now }
        ensures room_sizes { room_sizes self.new ≡ room_sizes self.old }
    {
        self.cut.push_plain(text)?;
        Ok(())
    }

    /// Appends cells that take `columns` columns, given by their text and sizes. Nothing is refused where room
    /// was made for these, and for the size of each column that isn't kept.
    pub fn push_cells(
        &mut self,
        text: &str,
        sizes: &[CellSize],
        columns: usize,
    ) -> Result<(), AllocError>
        requires sizes { AreSizes text.now sizes.now }
        requires columns { columns_of sizes.now ≡ columns }
        ensures done { OnOk result (faces self.new ≡ faces self.old ++ faces_of text.now sizes.now) }
        ensures refused { OnErr result (faces self.new ≡ faces self.old) }
        ensures succeeds { HasRoomAfter self.old text.now sizes.now → IsOk result }
    {
        let covered = self.columns() - self.cut.sized_columns;
        self.reserve(text.len(), covered + sizes.len())?;
        self.cut.push_cells(text, sizes, columns);
        self.cut.trim();
        Ok(())
    }

    /// Appends spaces up to `columns` columns.
    #[inline(always)]
    pub fn pad(&mut self, columns: usize) -> Result<(), AllocError>
        ensures done { OnOk result (faces self.new ≡ padded columns (faces self.old)) }
        ensures refused { OnErr result (faces self.new ≡ faces self.old) }
        ensures succeeds { columns ≤ length (faces self.old) + room self.old → IsOk result }
        ensures plain_from { plain_from self.new ≡ plain_from self.old }
        ensures room { room self.old ≤ room self.new + (columns - length (faces self.old)) }
        ensures room_sizes { room_sizes self.new ≡ room_sizes self.old }
    {
        self.cut.pad(columns)?;
        Ok(())
    }

    /// Sets the columns from `at` on, whose cells are all plain, to the bytes of a text in printable ASCII.
    #[inline(always)]
    pub fn set_plain(&mut self, at: usize, text: &str)
        requires text { list_all is_printable text.now ≡ true }
        requires after { plain_from self.old ≤ at }
        requires within { at + length text.now ≤ length (faces self.old) }
        ensures faces { faces self.new ≡ set_faces (faces self.old) at (plain_faces text.now) }
        ensures plain_from { plain_from self.new ≡ plain_from self.old }
        ensures room { room self.new ≡ room self.old }
        ensures room_sizes { room_sizes self.new ≡ room_sizes self.old }
    {
        self.cut.set_plain(at, text);
    }

    /// Drops the columns from `at` on. A wide cell of which half is left becomes a space.
    #[inline(always)]
    pub fn cut(&mut self, at: usize)
        requires { at ≤ length (faces self.old) }
        ensures faces { faces self.new ≡ closed_end (take at (faces self.old)) }
        ensures plain_from { plain_from self.new ≤ plain_from self.old }
        ensures room { room self.old ≤ room self.new }
        ensures room_sizes { room_sizes self.old ≤ room_sizes self.new }
    {
        self.cut.truncate(at);
        self.cut.trim();
    }

    /// Replaces the cells of the columns from `from` on and before `to` by cells given by their text and sizes. A wide
    /// cell of which half is left becomes a space. Nothing is refused where room was made for three bytes and three
    /// sizes more than are given, and for the size of each column before `to` that isn't kept.
    pub fn splice(
        &mut self,
        from: usize,
        to: usize,
        text: &str,
        sizes: &[CellSize],
    ) -> Result<(), AllocError>
        requires sizes { AreSizes text.now sizes.now }
        requires columns { from + columns_of sizes.now ≡ to }
        requires within { to ≤ length (faces self.old) }
        ensures done { OnOk result (faces self.new ≡ set_faces (faces self.old) from (faces_of text.now sizes.now)) }
        ensures refused { OnErr result (faces self.new ≡ faces self.old) }
        ensures succeeds { HasRoomFor self.old to text.now sizes.now → IsOk result }
    {
        let covered = to.saturating_sub(self.cut.sized_columns);
        self.reserve(text.len() + 3, covered + (sizes.len() + 3))?;
        self.cut.splice(from, to, text, sizes);
        self.cut.trim();
        Ok(())
    }

    /// A copy.
    pub fn try_clone(&self, alloc: Global) -> Result<Texts, AllocError>
        ensures { IfOk result (λ copy. faces copy ≡ faces self.now) }
    {
        let cut = self.cut.try_clone(alloc)?;
        Ok(Texts { cut })
    }
}

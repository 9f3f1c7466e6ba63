//! A text that is cut into cells.
ghost use Rattle.std.specs.Prelude.{◌≡◌, ◌+◌, ◌-◌, ◌<◌, ◌≤◌, ◌++◌, true, false, [], length, take, drop, OnOk, OnErr};
ghost use Rattle.std.specs.Prelude.{IfOk, IsOk};
ghost use Rattle.std.specs.List.{list_all, splice};
ghost use Rattle.std.specs.Str.{IsUtf8};
ghost use Rattle.std.specs.Vec.{vec_len};
ghost use Rattle.text_clusters.specs.Plain.{is_printable};
ghost use Rattle.clustered_row.specs.declared.cell_size.CellSize.{CellSize};
ghost use Rattle.clustered_row.specs.Faces.{plain_faces, padded, opened, closed_end, set_faces};
ghost use Rattle.clustered_row.specs.LentTexts.{IsLentAt};
ghost use Rattle.clustered_row.specs.Position.{IsPosition, IsSplit, KeepsPositions, HasPlainCell};
ghost use Rattle.clustered_row.specs.Sizes.{AreSizes, bytes_of, columns_of, faces_of, is_cut, ends_plain};

use crate::cell_size::{CellSize, PLAIN};
use crate::items::{push_all, push_bytes, put, replace_items, replace_text};
use crate::lent_text::LentText;
use crate::position::{Position, START, find, find_back};
use std::alloc::{AllocError, Global};
use std::str;

// The texts of cells side by side, and the sizes of the first cells; after these each byte is a plain cell.
#[derive(Debug, Drop)]
pub(crate) struct CutText {
    pub(crate) text: Vec<u8>,
    pub(crate) sizes: Vec<CellSize>,
    pub(crate) sized_bytes: usize,
    pub(crate) sized_columns: usize,
    ghost bytes: { sized_bytes ≡ bytes_of sizes.items },
    ghost columns: { sized_columns ≡ columns_of sizes.items },
    ghost within: { sized_bytes ≤ length text.items },
    ghost parts: { is_cut text.items sizes.items ≡ true },
}

impl CutText {
    ghost use Rattle.clustered_row.specs.CutTexts.{shown, bytes_left, sizes_left};

    // No cell.
    pub(crate) fn new(alloc: Global) -> CutText
        ensures faces { shown result ≡ [] }
        ensures sizes { result.sizes.items ≡ [] }
    {
        CutText {
            text: Vec::new(alloc),
            sizes: Vec::new(alloc),
            sized_bytes: 0,
            sized_columns: 0,
        }
    }

    // How many columns the cells take.
    #[inline(always)]
    pub(crate) fn columns(&self) -> usize
        ensures { result ≡ length (shown self.now) }
    {
        self.sized_columns + (self.text.len() - self.sized_bytes)
    }

    // The byte offset of the plain cell of a column.
    #[inline(always)]
    pub(crate) fn plain_byte(&self, column: usize) -> usize
        requires after { self.now.sized_columns ≤ column }
        requires within { column ≤ length (shown self.now) }
        ensures after { self.now.sized_bytes ≤ result }
        ensures column { result + self.now.sized_columns ≡ self.now.sized_bytes + column }
        ensures within { result ≤ length self.now.text.items }
    {
        self.sized_bytes + (column - self.sized_columns)
    }

    // The position after the cells whose sizes are kept.
    #[inline(always)]
    pub(crate) fn position_after(&self) -> Position
        ensures position { IsPosition self.now.sizes.items result }
        ensures columns { result.columns ≡ self.now.sized_columns }
    {
        Position {
            index: self.sizes.len(),
            bytes: self.sized_bytes,
            columns: self.sized_columns,
        }
    }

    // The part of the text between two bytes.
    #[inline(always)]
    fn part(&self, from: usize, to: usize) -> &str
        requires order { from ≤ to }
        requires within { to ≤ length self.now.text.items }
        requires utf8 { IsUtf8 (take (to - from) (drop from self.now.text.items)) }
        ensures { result.now ≡ take (to - from) (drop from self.now.text.items) }
    {
        unsafe { str::from_utf8_unchecked(&self.text[from..to]) }
    }

    // All of the text.
    #[inline(always)]
    pub(crate) fn text(&self) -> &str
        ensures { result.now ≡ self.now.text.items }
    {
        unsafe { str::from_utf8_unchecked(&self.text) }
    }

    // The cell that begins at a column.
    #[inline(always)]
    pub(crate) fn cell_at(&self, column: usize) -> Option<LentText<'_>>
        requires { column < length (shown self.now) }
        ensures { IsLentAt (shown self.now) column result }
    {
        if self.sized_columns <= column {
            let from = self.plain_byte(column);
            return Some(LentText {
                text: self.part(from, from + 1),
                is_wide: false,
            });
        }
        self.sized_cell_at(column)
    }

    // The cell that begins at a column, where its size is kept.
    fn sized_cell_at(&self, column: usize) -> Option<LentText<'_>>
        requires { column < self.now.sized_columns }
        ensures { IsLentAt (shown self.now) column result }
    {
        let position = self.position(START, column);
        if position.columns < column {
            return None;
        }
        let size = self.sizes[position.index];
        Some(LentText {
            text: self.part(position.bytes, position.bytes + size.len),
            is_wide: size.is_wide,
        })
    }

    // The position at which the cell of column `at` begins, searched from `from` or from the end, whichever is nearer.
    pub(crate) fn position(&self, from: Position, at: usize) -> Position
        requires position { IsPosition self.now.sizes.items from }
        requires order { from.columns ≤ at }
        requires within { at ≤ self.now.sized_columns }
        ensures position { IsPosition self.now.sizes.items result }
        ensures order { from.index ≤ result.index }
        ensures columns { result.columns ≤ at }
        ensures cell { (d : CellSize) → result.columns < at → IsSplit self.now.sizes.items result at d }
    {
        if self.sized_columns - at < at - from.columns {
            return find_back(&self.sizes, self.position_after(), from, at);
        }
        find(&self.sizes, from, at)
    }

    // Removes all cells, and keeps the memory.
    pub(crate) fn clear(&mut self)
        ensures faces { shown self.new ≡ [] }
        ensures sizes { self.new.sizes.items ≡ [] }
        ensures bytes_left { bytes_left self.old ≤ bytes_left self.new }
        ensures sizes_left { sizes_left self.old ≤ sizes_left self.new }
    {
        self.text.clear();
        self.sizes.clear();
        self.sized_bytes = 0;
        self.sized_columns = 0;
    }

    // Makes room for `bytes` more bytes and `sizes` more sizes.
    #[inline(always)]
    pub(crate) fn reserve(&mut self, bytes: usize, sizes: usize) -> Result<(), AllocError>
        ensures faces { shown self.new ≡ shown self.old }
        ensures sizes { self.new.sizes.items ≡ self.old.sizes.items }
        ensures columns { self.new.sized_columns ≡ self.old.sized_columns }
        ensures bytes_left { OnOk result (bytes ≤ bytes_left self.new) }
        ensures sizes_left { OnOk result (sizes ≤ sizes_left self.new) }
        ensures more_bytes { bytes_left self.old ≤ bytes_left self.new }
        ensures more_sizes { sizes_left self.old ≤ sizes_left self.new }
        ensures succeeds { bytes ≤ bytes_left self.old → sizes ≤ sizes_left self.old → IsOk result }
    {
        self.text.reserve(bytes)?;
        self.sizes.reserve(sizes)?;
        Ok(())
    }

    // Appends a plain cell for each byte.
    #[inline(always)]
    pub(crate) fn push_plain(&mut self, text: &str) -> Result<(), AllocError>
        requires { list_all is_printable text.now ≡ true }
        ensures done { OnOk result (shown self.new ≡ shown self.old ++ plain_faces text.now) }
        ensures refused { OnErr result (shown self.new ≡ shown self.old) }
        ensures succeeds { length text.now ≤ bytes_left self.old → IsOk result }
        ensures sizes { self.new.sizes.items ≡ self.old.sizes.items }
        ensures columns { self.new.sized_columns ≡ self.old.sized_columns }
        ensures bytes_left { bytes_left self.old ≤ bytes_left self.new + length text.now }
        ensures sizes_left { sizes_left self.new ≡ sizes_left self.old }
    {
        push_bytes(&mut self.text, text.as_bytes())?;
        Ok(())
    }

    // Appends spaces up to `to` columns.
    #[inline(always)]
    pub(crate) fn pad(&mut self, to: usize) -> Result<(), AllocError>
        ensures done { OnOk result (shown self.new ≡ padded to (shown self.old)) }
        ensures refused { OnErr result (shown self.new ≡ shown self.old) }
        ensures succeeds { to ≤ length (shown self.old) + bytes_left self.old → IsOk result }
        ensures sizes { self.new.sizes.items ≡ self.old.sizes.items }
        ensures columns { self.new.sized_columns ≡ self.old.sized_columns }
        ensures bytes_left { bytes_left self.old ≤ bytes_left self.new + (to - length (shown self.old)) }
        ensures sizes_left { sizes_left self.new ≡ sizes_left self.old }
    {
        let columns = self.columns();
        if to <= columns {
            return Ok(());
        }
        let len = self.text.len().checked_add(to - columns).ok_or(AllocError)?;
        self.text.resize(len, b' ')?;
        Ok(())
    }

    // Replaces the bytes of the plain cells from column `at` on.
    #[inline(always)]
    pub(crate) fn set_plain(&mut self, at: usize, text: &str)
        requires text { list_all is_printable text.now ≡ true }
        requires after { self.old.sized_columns ≤ at }
        requires within { at + length text.now ≤ length (shown self.old) }
        ensures faces { shown self.new ≡ set_faces (shown self.old) at (plain_faces text.now) }
        ensures sizes { self.new.sizes.items ≡ self.old.sizes.items }
        ensures columns { self.new.sized_columns ≡ self.old.sized_columns }
        ensures bytes_left { bytes_left self.new ≡ bytes_left self.old }
        ensures sizes_left { sizes_left self.new ≡ sizes_left self.old }
    {
        let from = self.plain_byte(at);
        put(&mut self.text, from, text.as_bytes());
    }

    // Drops the columns from `at` on. Nothing is refused: a wide cell that is cut gives its memory to the space.
    pub(crate) fn truncate(&mut self, at: usize)
        requires { at ≤ length (shown self.old) }
        ensures faces { shown self.new ≡ closed_end (take at (shown self.old)) }
        ensures bytes_left { bytes_left self.old ≤ bytes_left self.new }
        ensures sizes_left { sizes_left self.old ≤ sizes_left self.new }
        ensures columns { self.new.sized_columns ≤ self.old.sized_columns }
    {
        if self.sized_columns <= at {
            let end = self.plain_byte(at);
            self.text.truncate(end);
        } else {
            self.truncate_sized(at);
        }
    }

    // Drops the columns from `at` on, where the first of them belongs to a cell whose size is stored.
    fn truncate_sized(&mut self, at: usize)
        requires { at < self.old.sized_columns }
        ensures faces { shown self.new ≡ closed_end (take at (shown self.old)) }
        ensures bytes_left { bytes_left self.old ≤ bytes_left self.new }
        ensures sizes_left { sizes_left self.old ≤ sizes_left self.new }
        ensures columns { self.new.sized_columns ≤ self.old.sized_columns }
    {
        let position = self.position(START, at);
        self.text.truncate(position.bytes);
        self.sizes.truncate(position.index);
        self.sized_bytes = position.bytes;
        self.sized_columns = position.columns;
        if position.columns < at {
            self.text.push_reserved(b' ');
        }
    }

    // Stores the sizes of plain cells up to column `to`; there is room for them.
    #[inline(always)]
    fn cover(&mut self, to: usize)
        requires within { to ≤ length (shown self.old) }
        requires room { to ≤ self.old.sized_columns + sizes_left self.old }
        ensures faces { shown self.new ≡ shown self.old }
        ensures covered { to ≤ self.new.sized_columns }
        ensures bytes_left { bytes_left self.new ≡ bytes_left self.old }
        ensures sizes_left { sizes_left self.old ≤ sizes_left self.new + (to - self.old.sized_columns) }
    {
        if self.sized_columns < to {
            self.cover_more(to - self.sized_columns);
        }
    }

    // Stores the sizes of `count` more plain cells.
    fn cover_more(&mut self, count: usize)
        requires within { self.old.sized_bytes + count ≤ length self.old.text.items }
        requires room { count ≤ sizes_left self.old }
        ensures faces { shown self.new ≡ shown self.old }
        ensures columns { self.new.sized_columns ≡ self.old.sized_columns + count }
        ensures bytes_left { bytes_left self.new ≡ bytes_left self.old }
        ensures sizes_left { sizes_left self.old ≤ sizes_left self.new + count }
    {
        let len = self.sizes.len() + count;
        if self.sizes.resize(len, PLAIN).is_err() {
            return;
        }
        self.sized_bytes += count;
        self.sized_columns += count;
    }

    // Appends cells that take `columns` columns; there is room for them.
    pub(crate) fn push_cells(&mut self, text: &str, sizes: &[CellSize], columns: usize)
        requires sizes { AreSizes text.now sizes.now }
        requires columns { columns_of sizes.now ≡ columns }
        requires room { length text.now ≤ bytes_left self.old }
        requires kept { length (shown self.old) + length sizes.now ≤ self.old.sized_columns + sizes_left self.old }
        ensures faces { shown self.new ≡ shown self.old ++ faces_of text.now sizes.now }
        ensures bytes_left { bytes_left self.old ≤ bytes_left self.new + length text.now }
    {
        self.cover(self.columns());
        push_all(&mut self.text, text.as_bytes());
        push_all(&mut self.sizes, sizes);
        self.sized_bytes += text.len();
        self.sized_columns += columns;
    }

    // Replaces the cells between two positions by cells of the same number of columns; there is room for them.
    fn replace(&mut self, from: Position, to: Position, text: &str, sizes: &[CellSize])
        requires from { IsPosition self.old.sizes.items from }
        requires to { IsPosition self.old.sizes.items to }
        requires order { from.index ≤ to.index }
        requires sizes { AreSizes text.now sizes.now }
        requires columns { from.columns + columns_of sizes.now ≡ to.columns }
        requires room { length text.now ≤ bytes_left self.old }
        requires room_sizes { length sizes.now ≤ sizes_left self.old }
        ensures row { shown self.new ≡ splice (shown self.old) from.columns to.columns (faces_of text.now sizes.now) }
        ensures sizes { self.new.sizes.items ≡ splice self.old.sizes.items from.index to.index sizes.now }
        ensures columns { self.new.sized_columns ≡ self.old.sized_columns }
        ensures bytes_left { bytes_left self.old + to.bytes ≤ bytes_left self.new + (from.bytes + length text.now) }
        ensures sizes_left { sizes_left self.old + to.index ≤ sizes_left self.new + (from.index + length sizes.now) }
    {
        replace_text(&mut self.text, from.bytes, to.bytes, text);
        replace_items(&mut self.sizes, from.index, to.index, sizes, PLAIN);
        self.sized_bytes = from.bytes + text.len() + (self.sized_bytes - to.bytes);
    }

    // The wide cell at a position becomes two spaces.
    #[cold]
    #[inline(never)]
    fn split_wide_cell(&mut self, position: Position)
        requires position { IsPosition self.old.sizes.items position }
        requires wide { (d : CellSize) → IsSplit self.old.sizes.items position (position.columns + 1) d }
        requires room { 2 ≤ bytes_left self.old }
        requires room_sizes { 2 ≤ sizes_left self.old }
        ensures faces { shown self.new ≡ opened (position.columns + 1) (shown self.old) }
        ensures columns { self.new.sized_columns ≡ self.old.sized_columns }
        ensures before { KeepsPositions position.index self.old.sizes.items self.new.sizes.items }
        ensures position { HasPlainCell self.new.sizes.items position }
        ensures bytes_left { bytes_left self.old ≤ bytes_left self.new + 1 }
        ensures sizes_left { sizes_left self.old ≤ sizes_left self.new + 1 }
    {
        let next = position.after(self.sizes[position.index]);
        self.replace(position, next, "  ", &[PLAIN, PLAIN]);
    }

    // A wide cell whose second column is `at` becomes two spaces. Returns the position of `at`, searched from
    // `from` on; `from` stays a position.
    #[inline(always)]
    fn open(&mut self, from: Position, at: usize) -> Position
        requires position { IsPosition self.old.sizes.items from }
        requires order { from.columns ≤ at }
        requires within { at ≤ self.old.sized_columns }
        requires room { 2 ≤ bytes_left self.old }
        requires room_sizes { 2 ≤ sizes_left self.old }
        ensures faces { shown self.new ≡ opened at (shown self.old) }
        ensures columns { self.new.sized_columns ≡ self.old.sized_columns }
        ensures from { IsPosition self.new.sizes.items from }
        ensures position { IsPosition self.new.sizes.items result }
        ensures order { from.index ≤ result.index }
        ensures at { result.columns ≡ at }
        ensures bytes_left { bytes_left self.old ≤ bytes_left self.new + 1 }
        ensures sizes_left { sizes_left self.old ≤ sizes_left self.new + 1 }
    {
        let position = self.position(from, at);
        if position.columns == at {
            return position;
        }
        self.split_wide_cell(position);
        Position {
            index: position.index + 1,
            bytes: position.bytes + 1,
            columns: at,
        }
    }

    // Replaces the cells of the columns from `from` on and before `to`.
    pub(crate) fn splice(&mut self, from: usize, to: usize, text: &str, sizes: &[CellSize])
        requires sizes { AreSizes text.now sizes.now }
        requires columns { from + columns_of sizes.now ≡ to }
        requires within { to ≤ length (shown self.old) }
        requires room { length text.now + 3 ≤ bytes_left self.old }
        requires room_sizes { (to - self.old.sized_columns) + (length sizes.now + 3) ≤ sizes_left self.old }
        ensures { shown self.new ≡ set_faces (shown self.old) from (faces_of text.now sizes.now) }
    {
        self.cover(to);
        let start = self.open(START, from);
        let end = self.open(start, to);
        self.replace(start, end, text, sizes);
    }

    // Whether the last size is that of a plain cell.
    #[inline(always)]
    fn ends_plain(&self) -> bool
        ensures { result ≡ ends_plain self.now.sizes.items }
    {
        let len = self.sizes.len();
        if len == 0 {
            return false;
        }
        self.sizes[len - 1].is_plain()
    }

    // Drops the last size, which is a plain cell's.
    #[inline(always)]
    fn drop_plain(&mut self)
        requires { ends_plain self.old.sizes.items ≡ true }
        ensures faces { shown self.new ≡ shown self.old }
        ensures len { vec_len self.new.sizes + 1 ≡ vec_len self.old.sizes }
        ensures bytes_left { bytes_left self.new ≡ bytes_left self.old }
        ensures sizes_left { sizes_left self.old ≤ sizes_left self.new }
        ensures columns { self.new.sized_columns ≤ self.old.sized_columns }
    {
        let _size = self.sizes.take_last();
        self.sized_bytes -= 1;
        self.sized_columns -= 1;
    }

    // Drops the sizes of the plain cells at the end.
    pub(crate) fn trim(&mut self)
        ensures trimmed { ends_plain self.new.sizes.items ≡ false }
        ensures faces { shown self.new ≡ shown self.old }
        ensures bytes_left { bytes_left self.new ≡ bytes_left self.old }
        ensures sizes_left { sizes_left self.old ≤ sizes_left self.new }
        ensures columns { self.new.sized_columns ≤ self.old.sized_columns }
    {
        while self.ends_plain() {
            self.drop_plain();
        }
    }

    // A copy.
    pub(crate) fn try_clone(&self, alloc: Global) -> Result<CutText, AllocError>
        ensures faces { IfOk result (λ copy. shown copy ≡ shown self.now) }
        ensures sizes { IfOk result (λ copy. copy.sizes.items ≡ self.now.sizes.items) }
    {
        let text = Vec::from_slice(alloc, &self.text)?;
        let sizes = Vec::from_slice(alloc, &self.sizes)?;
        Ok(CutText {
            text,
            sizes,
            sized_bytes: self.sized_bytes,
            sized_columns: self.sized_columns,
        })
    }
}

//! Positions between cells.
ghost use Rattle.std.specs.Prelude.{◌≡◌, ◌+◌, ◌<◌, ◌≤◌, ◌^◌};
ghost use Rattle.clustered_row.specs.declared.cell_size.CellSize.{CellSize};
ghost use Rattle.clustered_row.specs.Position.{IsPosition, IsSplit};
ghost use Rattle.clustered_row.specs.Sizes.{bytes_of, columns_of, width_of};

use crate::cell_size::CellSize;

// After `index` cells, which have `bytes` bytes and take `columns` columns.
#[derive(Clone, Copy)]
pub(crate) struct Position {
    pub(crate) index: usize,
    pub(crate) bytes: usize,
    pub(crate) columns: usize,
}

// The position before all cells.
pub(crate) const START: Position = Position {
    index: 0,
    bytes: 0,
    columns: 0,
};

impl Position {
    // The position after the cell at this one.
    #[inline(always)]
    pub(crate) fn after(self, size: CellSize) -> Position
        requires index { self.index + 1 < 2 ^ 64 }
        requires bytes { self.bytes + size.len < 2 ^ 64 }
        requires columns { self.columns + width_of size.is_wide < 2 ^ 64 }
        ensures index { result.index ≡ self.index + 1 }
        ensures bytes { result.bytes ≡ self.bytes + size.len }
        ensures columns { result.columns ≡ self.columns + width_of size.is_wide }
    {
        Position {
            index: self.index + 1,
            bytes: self.bytes + size.len,
            columns: self.columns + size.columns(),
        }
    }

    // The position before the cell that precedes this one.
    #[inline(always)]
    pub(crate) fn before(self, size: CellSize) -> Position
        requires index { 1 ≤ self.index }
        requires bytes { size.len ≤ self.bytes }
        requires columns { width_of size.is_wide ≤ self.columns }
        ensures index { result.index + 1 ≡ self.index }
        ensures bytes { result.bytes + size.len ≡ self.bytes }
        ensures columns { result.columns + width_of size.is_wide ≡ self.columns }
    {
        Position {
            index: self.index - 1,
            bytes: self.bytes - size.len,
            columns: self.columns - size.columns(),
        }
    }
}

// The position at which the cell of column `at` begins, searched from `from` on; the position after all cells where
// none takes that column.
pub(crate) fn find(sizes: &[CellSize], from: Position, at: usize) -> Position
    requires position { IsPosition sizes.now from }
    requires order { from.columns ≤ at }
    requires within { at ≤ columns_of sizes.now }
    requires bytes { bytes_of sizes.now < 2 ^ 64 }
    requires columns { columns_of sizes.now < 2 ^ 64 }
    ensures position { IsPosition sizes.now result }
    ensures order { from.index ≤ result.index }
    ensures columns { result.columns ≤ at }
    ensures cell { (d : CellSize) → result.columns < at → IsSplit sizes.now result at d }
{
    let mut index = from.index;
    let mut bytes = from.bytes;
    let mut left = at - from.columns;
    while index < sizes.len() {
        let size = sizes[index];
        if left < size.columns() {
            break;
        }
        left -= size.columns();
        bytes += size.len;
        index += 1;
    }
    Position {
        index,
        bytes,
        columns: at - left,
    }
}

// The position at which the cell of column `at` begins, searched back from `end`, after all cells; `end` where no cell
// takes that column.
pub(crate) fn find_back(sizes: &[CellSize], end: Position, from: Position, at: usize) -> Position
    requires end { IsPosition sizes.now end }
    requires last { at ≤ end.columns }
    requires position { IsPosition sizes.now from }
    requires order { from.columns ≤ at }
    ensures position { IsPosition sizes.now result }
    ensures order { from.index ≤ result.index }
    ensures columns { result.columns ≤ at }
    ensures cell { (d : CellSize) → result.columns < at → IsSplit sizes.now result at d }
{
    let mut position = end;
    while at < position.columns {
        position = position.before(sizes[position.index - 1]);
    }
    position
}

//! Columns in which two rows are the same.
ghost use Rattle.std.specs.Prelude.{◌≡◌, ◌+◌, ◌<◌, ◌≤◌, ◌^◌, false, length, take, drop, IsTrue};
ghost use Rattle.cell_base.specs.Attributes.{Attributes};
ghost use Rattle.clustered_row.specs.Faces.{starts_right};
ghost use Rattle.clustered_row.specs.Position.{IsPosition, IsBefore};
ghost use Rattle.clustered_row.specs.Runs.{spread};
ghost use Rattle.clustered_row.specs.Sizes.{width_of};
ghost use Rattle.clustered_row.specs.TextsShown.{faces};
ghost use Rattle.clustered_row.specs.VisibleColumns.{is_split};

use crate::cell_size::CellSize;
use crate::columns::Columns;
use crate::cut_text::CutText;
use crate::position::{Position, START};
use crate::row::ClusteredRow;
use crate::run::Run;
use crate::runs::Runs;
use crate::texts::Texts;
use cell_base::CellAttributes;

// Whether bytes are the same.
fn same_bytes(bytes: &[u8], other: &[u8]) -> bool
    ensures { IsTrue result → bytes.now ≡ other.now }
{
    bytes == other
}

// Whether two sizes are the same.
#[inline(always)]
fn same_size(size: &CellSize, other: &CellSize) -> bool
    ensures { IsTrue result → size.now ≡ other.now }
{
    size.len == other.len && size.is_wide == other.is_wide
}

// Whether two runs are the same.
#[inline(always)]
pub(crate) fn same_run(run: &Run, other: &Run) -> bool
    ensures { IsTrue result → run.now ≡ other.now }
{
    run.count == other.count && run.attributes == other.attributes
}

// How many bytes at the start of both are the same.
fn equal_bytes(bytes: &[u8], other: &[u8]) -> usize
    ensures within { result ≤ length bytes.now }
    ensures other_within { result ≤ length other.now }
    ensures equal { take result bytes.now ≡ take result other.now }
{
    if same_bytes(bytes, other) {
        return bytes.len();
    }
    let most = bytes.len().min(other.len());
    for at in 0..most {
        if bytes[at] != other[at] {
            return at;
        }
    }
    most
}

// How many sizes at the start of both are the same.
fn equal_sizes(sizes: &[CellSize], other: &[CellSize]) -> usize
    ensures within { result ≤ length sizes.now }
    ensures other_within { result ≤ length other.now }
    ensures equal { take result sizes.now ≡ take result other.now }
{
    let most = sizes.len().min(other.len());
    for at in 0..most {
        if !same_size(&sizes[at], &other[at]) {
            return at;
        }
    }
    most
}

// How many columns two runs share where both begin, or both end, at the same column: those of the shorter run if their
// attributes are equal, and otherwise none.
pub(crate) fn equal_part(run: &Run, other: &Run) -> usize
    ensures within { result ≤ run.now.count }
    ensures other_within { result ≤ other.now.count }
    ensures equal { 0 < result → run.now.attributes ≡ other.now.attributes }
{
    if run.attributes == other.attributes {
        return run.count.min(other.count) as usize;
    }
    0
}

// How many columns at the start of both have the same attributes.
fn equal_runs(runs: &[Run], other_runs: &[Run]) -> usize
    requires small { length (spread runs.now) < 2 ^ 64 }
    ensures within { result ≤ length (spread runs.now) }
    ensures other_within { result ≤ length (spread other_runs.now) }
    ensures equal { take result (spread runs.now) ≡ take result (spread other_runs.now) }
{
    let mut columns = 0;
    for at in 0..runs.len().min(other_runs.len()) {
        let run = &runs[at];
        let other = &other_runs[at];
        if !same_run(run, other) {
            return columns + equal_part(run, other);
        }
        columns += run.count as usize;
    }
    columns
}

// Whether a cell has at most `bytes` bytes and `columns` columns.
#[inline(always)]
fn fits(size: CellSize, bytes: usize, columns: usize) -> bool
    ensures { IsTrue result → (size.len ≤ bytes) × (width_of size.is_wide ≤ columns) }
{
    size.len <= bytes && size.columns() <= columns
}

// The position after as many of the first `count` cells as together have at most `bytes` bytes and `columns` columns.
fn position_within(sizes: &[CellSize], count: usize, bytes: usize, columns: usize) -> Position
    requires { count ≤ length sizes.now }
    ensures position { IsPosition sizes.now result }
    ensures index { result.index ≤ count }
    ensures bytes { result.bytes ≤ bytes }
    ensures columns { result.columns ≤ columns }
{
    let mut position = START;
    while position.index < count {
        let size = sizes[position.index];
        if !fits(size, bytes - position.bytes, columns - position.columns) {
            break;
        }
        position = position.after(size);
    }
    position
}

impl Runs {
    // How many columns at the start of both have the same attributes.
    fn equal_columns(&self, other: &Runs) -> usize
        ensures within { result ≤ length self.now }
        ensures other_within { result ≤ length other.now }
        ensures equal { take result self.now ≡ take result other.now }
    {
        let _fits = self.len();
        equal_runs(&self.runs, &other.runs)
    }
}

impl CutText {
    // The position after as many of the first `count` cells as together have at most `bytes` bytes and `columns`
    // columns.
    fn position_within(&self, count: usize, bytes: usize, columns: usize) -> Position
        requires { count ≤ length self.now.sizes.items }
        ensures position { IsPosition self.now.sizes.items result }
        ensures index { result.index ≤ count }
        ensures bytes { result.bytes ≤ bytes }
        ensures columns { result.columns ≤ columns }
    {
        let all = self.position_after();
        if all.index <= count && all.bytes <= bytes && all.columns <= columns {
            return all;
        }
        position_within(&self.sizes, count, bytes, columns)
    }

    // The position after the cells at the start that are the same in both texts, in at most `most` columns.
    fn equal_position(&self, other: &CutText, most: usize) -> Position
        ensures position { IsBefore self.now.text.items self.now.sizes.items result }
        ensures other_position { IsBefore other.now.text.items other.now.sizes.items result }
        ensures text { take result.bytes self.now.text.items ≡ take result.bytes other.now.text.items }
        ensures sizes { take result.index self.now.sizes.items ≡ take result.index other.now.sizes.items }
        ensures most { result.columns ≤ most }
    {
        let bytes = equal_bytes(&self.text, &other.text);
        let count = equal_sizes(&self.sizes, &other.sizes);
        let position = self.position_within(count, bytes, most);
        if position.index < self.sizes.len().max(other.sizes.len()) {
            return position;
        }
        let plain = (bytes - position.bytes).min(most - position.columns);
        Position {
            index: position.index,
            bytes: position.bytes + plain,
            columns: position.columns + plain,
        }
    }
}

impl Texts {
    // The number of columns at the start of both that show the same texts, at most `most`; no cell is cut after them.
    fn equal_columns(&self, other: &Texts, most: usize) -> usize
        ensures most { result ≤ most }
        ensures equal { take result (faces self.now) ≡ take result (faces other.now) }
        ensures whole { starts_right (drop result (faces self.now)) ≡ false }
        ensures other_whole { starts_right (drop result (faces other.now)) ≡ false }
    {
        self.cut.equal_position(&other.cut, most).columns
    }
}

impl Columns {
    // How many columns at the start of both are the same; no cell is cut after them.
    fn equal_columns(&self, other: &Columns) -> usize
        ensures within { result ≤ length self.now }
        ensures other_within { result ≤ length other.now }
        ensures equal { take result self.now ≡ take result other.now }
        ensures whole { is_split result self.now ≡ false }
        ensures other_whole { is_split result other.now ≡ false }
    {
        let most = self.runs.equal_columns(&other.runs);
        self.texts.equal_columns(&other.texts, most)
    }
}

// Whether blanks after columns have the same attributes and end at the same column.
fn same_blanks(
    width: usize,
    rest: &CellAttributes,
    other_width: usize,
    other_rest: &CellAttributes,
) -> bool
    ensures { IsTrue result → (width ≡ other_width) × (rest.now ≡ other_rest.now) }
{
    width == other_width && *rest == *other_rest
}

impl ClusteredRow {
    ghost use Rattle.clustered_row.specs.EqualColumns.{AreEqualAround};

    /// The range of columns outside of which two rows are the same: its first column, and the column after its last. No
    /// cell is cut at either. For rows that are stored alike the range is empty; rows that are stored otherwise may be
    /// the same in some of its columns.
    pub fn unequal_columns(&self, other: &ClusteredRow) -> (usize, usize)
        ensures { AreEqualAround result.0 result.1 self.now other.now }
    {
        let start = self.columns.equal_columns(&other.columns);
        let len = self.columns.len();
        let other_len = other.columns.len();
        if !same_blanks(self.width, &self.rest, other.width, &other.rest) {
            return (start, self.width.max(other.width));
        }
        if start == len || len != other_len {
            return (start, len.max(other_len));
        }
        let after = self
            .columns
            .equal_columns_at_end(&other.columns, len - start);
        (start, len - after)
    }
}

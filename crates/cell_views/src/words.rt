//! The columns that a double click selects. A word cell is a visible cell whose text passes the test `is_word`.
ghost use Rattle.std.specs.Prelude.{◌≡◌, ℕ, Bool, List, Some, None, length, nat_le, if◌then◌else◌};
ghost use Rattle.std.specs.Option.{option_or};
ghost use Rattle.cell_edits.specs.VisibleCells.{visible_cells};
ghost use Rattle.cell_views.specs.StoredCells.{stored_row};
ghost use Rattle.cell_views.specs.Words.{Answers, word_start, word_end, word_range, goes_on, double_click_range};

use crate::query;
use crate::stored_cells::StoredCells;
use crate::visible_cells::VisibleCellIter;
use cell_base::DoubleClickRange;

// The first column of the run of word cells up to a cell at `column`, from that of the run before the cell; `None`
// where the cell is no word cell.
fn begun(start: Option<usize>, is_word: bool, column: usize) -> Option<usize>
    ensures { result ≡ (if is_word then option_or start (Some column) else None) }
{
    if is_word {
        start.or(Some(column))
    } else {
        None
    }
}

// The first column of the run of word cells that ends with the last cell at or before column `at`; `at` where there is
// no such run.
fn word_start<F: Fn(&str) -> bool>(cells: StoredCells<'_>, at: usize, is_word: &F) -> usize
    requires { F.IsAlwaysCallable is_word.now }
    ensures { (test : List ℕ → Bool) → Answers F.Fn is_word.now test
        → result ≡ word_start test at (visible_cells (stored_row cells.entry)) }
{
    let mut start = None;
    for cell in VisibleCellIter::new(cells) {
        let column = cell.cell_index();
        if column <= at {
            start = begun(start, is_word(cell.str()), column);
        }
    }
    start.unwrap_or(at)
}

// One past the first column of the last cell in the run of word cells that begins with the first cell at or after
// column `at`; `at` where there is no such run.
fn word_end<F: Fn(&str) -> bool>(cells: StoredCells<'_>, at: usize, is_word: &F) -> usize
    requires { F.IsAlwaysCallable is_word.now }
    ensures { (test : List ℕ → Bool) → Answers F.Fn is_word.now test
        → result ≡ word_end test at (visible_cells (stored_row cells.entry)) }
{
    let mut end = at;
    for cell in VisibleCellIter::new(cells) {
        let column = cell.cell_index();
        if column >= at {
            if !is_word(cell.str()) {
                return end;
            }
            end = column + 1;
        }
    }
    end
}

// Whether a column is at the end of the row or past it.
fn reaches_end(cells: StoredCells<'_>, end: usize) -> bool
    ensures { result ≡ nat_le (length (stored_row cells.entry)) end }
{
    end >= cells.len()
}

// Whether a range isn't empty and reaches the end of a row after which the line goes on.
fn goes_on(cells: StoredCells<'_>, start: usize, end: usize) -> bool
    ensures { result ≡ goes_on (stored_row cells.entry) start end }
{
    if start >= end {
        return false;
    }
    reaches_end(cells, end) && query::ends_wrapped(cells)
}

fn word_range(cells: StoredCells<'_>, start: usize, end: usize) -> DoubleClickRange
    ensures { result ≡ word_range (stored_row cells.entry) start end }
{
    if goes_on(cells, start, end) {
        DoubleClickRange::RangeWithWrap(start..end)
    } else {
        DoubleClickRange::Range(start..end)
    }
}

/// The columns of the words around a column; an empty range at and past the end of the row.
pub fn double_click_range<F: Fn(&str) -> bool>(
    cells: StoredCells<'_>,
    at: usize,
    is_word: &F,
) -> DoubleClickRange
    requires { F.IsAlwaysCallable is_word.now }
    ensures { (test : List ℕ → Bool) → Answers F.Fn is_word.now test
        → result ≡ double_click_range test at (stored_row cells.entry) }
{
    if reaches_end(cells, at) {
        return DoubleClickRange::Range(at..at);
    }
    word_range(
        cells,
        word_start(cells, at, is_word),
        word_end(cells, at, is_word),
    )
}

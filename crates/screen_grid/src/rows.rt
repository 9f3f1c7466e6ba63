//! Rows of lines that are cleared, written and moved.
ghost use Rattle.std.specs.Prelude.{◌≡◌, ◌+◌, ◌-◌, ◌^◌, ◌<◌, ◌≤◌, ◌++◌, ◌∷◌, [], length, drop, take, map};
ghost use Rattle.std.specs.Prelude.{slice_set, replicate, IfOk, OnOk};
ghost use Rattle.cell_base.specs.Cluster.{clusters};
ghost use Rattle.cell_base.specs.Row.{plain_row};
ghost use Rattle.cell_line.specs.LineCalls.{set_blanks as blanks_set, set_text as text_set};
ghost use Rattle.cell_line.specs.LineCalls.{set_cell_grapheme as grapheme_set, set_text_end, set_clusters};
ghost use Rattle.cell_line.specs.LineContent.{clustered_line_of, with_bits};
ghost use Rattle.screen_grid.specs.Grid.{line_at};
ghost use Rattle.screen_grid.specs.Rows.{blanked, cleared, rows_down, rows_up, widened};

use crate::ring::Ring;
use cell_base::{CellAttributes, LineAttribute, SEQ_ZERO, Widths};
use cell_line::Line;
use cell_line::row_writing::{self, reset, with_width_clustered};
use std::alloc::{AllocError, Global};

// The most pooled lines.
const MOST_POOLED: usize = 256;

// How many lines are pooled for `height` rows. Each time as many lines have scrolled away, the rows are moved once.
fn pooled_for(height: usize) -> usize {
    height.min(MOST_POOLED / 2) * 2
}

// Adds pooled lines up to the number for these rows (`pooled_for`).
fn add_room(alloc: Global, rows: &mut Ring<Line>) -> Result<(), AllocError>
    ensures { OnOk result (rows.new ≡ rows.old) }
{
    let most = pooled_for(rows.len());
    for _ in rows.room()..most {
        rows.add_room(Line::new(alloc, SEQ_ZERO))?;
    }
    Ok(())
}

// No line yet, with memory for `height` rows and the pooled lines.
fn with_room(alloc: Global, height: usize) -> Result<Vec<Line>, AllocError>
    ensures { IfOk result (λ lines. lines.items ≡ []) }
{
    Vec::with_capacity(alloc, height.saturating_add(pooled_for(height)))
}

// A copy.
pub(crate) fn copy(alloc: Global, rows: &Ring<Line>) -> Result<Ring<Line>, AllocError>
    ensures { IfOk result (λ copied. copied ≡ rows.now) }
{
    let mut lines = with_room(alloc, rows.len())?;
    for line in rows.as_slice() {
        lines.push(line.try_clone()?)?;
    }
    let mut copied = Ring::new(lines);
    add_room(alloc, &mut copied)?;
    Ok(copied)
}

// Rows of plain blanks.
pub(crate) fn blank_lines(
    alloc: Global,
    width: usize,
    count: usize,
) -> Result<Ring<Line>, AllocError>
    ensures { IfOk result (λ rows. rows ≡ replicate count (clustered_line_of 0 (plain_row width))) }
{
    let mut lines = with_room(alloc, count)?;
    for _ in 0..count {
        lines.push(with_width_clustered(alloc, width, SEQ_ZERO))?;
    }
    let mut rows = Ring::new(lines);
    add_room(alloc, &mut rows)?;
    Ok(rows)
}

// Drops the first line, and adds one of `width` plain blanks below.
#[inline(always)]
pub(crate) fn scroll(rows: &mut Ring<Line>, width: usize)
    requires { 0 < length rows.old }
    ensures { rows.new ≡ drop 1 rows.old ++ clustered_line_of 0 (plain_row width) ∷ [] }
{
    // the dropped line is pooled, and would keep its links
    reset(&mut rows[0], width);
    rows.turn();
    let last = rows.len() - 1;
    reset(&mut rows[last], width);
}

// Sets the clusters of a text from a column of a row on, as far as they fit; returns the column
// after them and the text that is left.
pub(crate) fn set_text<'a, W: Widths>(
    rows: &mut Ring<Line>,
    row: usize,
    at: usize,
    text: &'a str,
    attrs: &CellAttributes,
    w: &W,
) -> Result<(usize, &'a str), AllocError>
    requires row_in { row < length rows.old }
    requires within { at ≤ length (line_at rows.old row).columns }
    ensures len { length rows.new ≡ length rows.old }
    ensures lines { OnOk result
        (rows.new
        ≡ slice_set rows.old row
        (text_set (line_at rows.old row) at (length (line_at rows.old row).columns) text.now attrs.now
        (W.width_of w.now))) }
    ensures after { IfOk result
        (λ r. r.0 ≡ set_text_end at (length (line_at rows.old row).columns) text.now attrs.now (W.width_of w.now)) }
    ensures rest { IfOk result
        (λ r. clusters r.1.now
        ≡ drop (set_clusters at (length (line_at rows.old row).columns) text.now attrs.now (W.width_of w.now))
        (clusters text.now)) }
{
    let line = &mut rows[row];
    let width = line.len();
    let (column, left) = row_writing::set_text(line, at..width, text, attrs, w)?;
    Ok((column, left))
}

// Sets a cell at a column of a row.
pub(crate) fn set_cell(
    rows: &mut Ring<Line>,
    row: usize,
    at: usize,
    text: &str,
    width: usize,
    attrs: CellAttributes,
) -> Result<(), AllocError>
    requires row_in { row < length rows.old }
    requires width { (1 ≤ width) × (width ≤ 2) }
    requires fits { at + width ≤ length (line_at rows.old row).columns }
    requires small { at + width < 2 ^ 64 }
    ensures len { length rows.new ≡ length rows.old }
    ensures lines { OnOk result
        (rows.new ≡ slice_set rows.old row (grapheme_set (line_at rows.old row) at text.now width attrs 0)) }
{
    rows[row].set_cell_grapheme(at, text, width, attrs, SEQ_ZERO)?;
    Ok(())
}

// Makes the columns of a row from `at` on blanks with these attributes.
pub(crate) fn set_blanks(
    rows: &mut Ring<Line>,
    row: usize,
    at: usize,
    attrs: &CellAttributes,
) -> Result<(), AllocError>
    requires row_in { row < length rows.old }
    requires within { at ≤ length (line_at rows.old row).columns }
    ensures len { length rows.new ≡ length rows.old }
    ensures lines { OnOk result
        (rows.new
        ≡ slice_set rows.old row
        (blanks_set (line_at rows.old row) at (length (line_at rows.old row).columns) attrs.now)) }
{
    let line = &mut rows[row];
    let width = line.len();
    row_writing::set_blanks(line, at..width, attrs)?;
    Ok(())
}

// Makes all columns of the rows from `from` on blanks with these attributes.
pub(crate) fn blank_rows(
    rows: &mut Ring<Line>,
    from: usize,
    attrs: &CellAttributes,
) -> Result<(), AllocError>
    requires { from ≤ length rows.old }
    ensures { OnOk result (rows.new ≡ take from rows.old ++ map (blanked attrs.now) (drop from rows.old)) }
{
    for row in from..rows.len() {
        set_blanks(rows, row, 0, attrs)?;
    }
    Ok(())
}

// Makes all columns of the rows below `row` blanks with these attributes.
pub(crate) fn blank_rows_below(
    rows: &mut Ring<Line>,
    row: usize,
    attrs: &CellAttributes,
) -> Result<(), AllocError>
    requires { row < length rows.old }
    ensures { OnOk result (rows.new ≡ take (row + 1) rows.old ++ map (blanked attrs.now) (drop (row + 1) rows.old)) }
{
    let height = rows.len();
    prove!(row < height);
    blank_rows(rows, row + 1, attrs)?;
    Ok(())
}

// Makes the rows from `from` on and before `after` rows of plain blanks.
fn clear_rows(rows: &mut Ring<Line>, from: usize, after: usize)
    requires order { from ≤ after }
    requires within { after ≤ length rows.old }
    ensures { rows.new
        ≡ take from rows.old ++ map cleared (take (after - from) (drop from rows.old)) ++ drop after rows.old }
{
    for row in from..after {
        let line = &mut rows[row];
        let width = line.len();
        reset(line, width);
    }
}

// Moves the items of a region up by `count`; the items that leave it reappear below.
fn rotate_up<T>(items: &mut [T], first: usize, after: usize, count: usize)
    requires order { first ≤ after }
    requires within { after ≤ length items.old }
    requires fits { first + count ≤ after }
    ensures { items.new
        ≡ take first items.old
        ++ (drop count (take (after - first) (drop first items.old))
        ++ take count (take (after - first) (drop first items.old))) ++ drop after items.old }
{
    items[first..after].rotate_left(count);
}

// Moves the items of a region down by `count`; the items that leave it reappear above.
fn rotate_down<T>(items: &mut [T], first: usize, after: usize, count: usize)
    requires order { first ≤ after }
    requires within { after ≤ length items.old }
    requires fits { first + count ≤ after }
    ensures { items.new
        ≡ take first items.old
        ++ (drop (after - first - count) (take (after - first) (drop first items.old))
        ++ take (after - first - count) (take (after - first) (drop first items.old)))
        ++ drop after items.old }
{
    items[first..after].rotate_right(count);
}

// Moves the rows of a region up, and adds rows of plain blanks below.
pub(crate) fn scroll_up(rows: &mut Ring<Line>, first: usize, after: usize, count: usize)
    requires order { first ≤ after }
    requires within { after ≤ length rows.old }
    requires fits { first + count ≤ after }
    ensures { rows.new
        ≡ take first rows.old ++ rows_up count (take (after - first) (drop first rows.old))
        ++ drop after rows.old }
{
    rotate_up(rows.as_mut_slice(), first, after, count);
    clear_rows(rows, after - count, after);
}

// Moves the rows of a region down, and adds rows of plain blanks above.
pub(crate) fn scroll_down(rows: &mut Ring<Line>, first: usize, after: usize, count: usize)
    requires order { first ≤ after }
    requires within { after ≤ length rows.old }
    requires fits { first + count ≤ after }
    ensures { rows.new
        ≡ take first rows.old ++ rows_down count (take (after - first) (drop first rows.old))
        ++ drop after rows.old }
{
    rotate_down(rows.as_mut_slice(), first, after, count);
    clear_rows(rows, first, first + count);
}

// Sets the size of a line.
fn size_line(line: &mut Line, size: LineAttribute)
    ensures { line.new ≡ with_bits line.old 0 size }
{
    match size {
        LineAttribute::SingleWidthLine => line.set_single_width(SEQ_ZERO),
        LineAttribute::DoubleWidthLine => line.set_double_width(SEQ_ZERO),
        LineAttribute::DoubleHeightTopHalfLine => line.set_double_height_top(SEQ_ZERO),
        LineAttribute::DoubleHeightBottomHalfLine => line.set_double_height_bottom(SEQ_ZERO),
    }
}

// Sets the size of a row.
pub(crate) fn set_size(rows: &mut Ring<Line>, row: usize, size: LineAttribute)
    requires { row < length rows.old }
    ensures { rows.new ≡ slice_set rows.old row (with_bits (line_at rows.old row) 0 size) }
{
    size_line(&mut rows[row], size);
}

// Makes each row `width` columns wide.
fn resize_rows(rows: &mut Ring<Line>, width: usize) -> Result<(), AllocError>
    ensures { OnOk result (rows.new ≡ map (widened width) rows.old) }
{
    for row in 0..rows.len() {
        rows[row].resize(width, SEQ_ZERO)?;
    }
    Ok(())
}

// Adds rows of plain blanks below, up to `height` rows.
fn add_rows(
    alloc: Global,
    rows: &mut Ring<Line>,
    width: usize,
    height: usize,
) -> Result<(), AllocError>
    requires { length rows.old ≤ height }
    ensures { OnOk result
        (rows.new ≡ rows.old ++ replicate (height - length rows.old) (clustered_line_of 0 (plain_row width))) }
{
    for _ in rows.len()..height {
        rows.push(with_width_clustered(alloc, width, SEQ_ZERO))?;
    }
    Ok(())
}

// Sets the number of rows to `height`, and the columns of each row to `width`.
pub(crate) fn resize(
    alloc: Global,
    rows: &mut Ring<Line>,
    width: usize,
    height: usize,
) -> Result<(), AllocError>
    ensures { OnOk result
        (rows.new
        ≡ map (widened width) (take height rows.old)
        ++ replicate (height - length (map (widened width) (take height rows.old)))
        (clustered_line_of 0 (plain_row width))) }
{
    rows.truncate(height);
    resize_rows(rows, width)?;
    add_rows(alloc, rows, width, height)?;
    add_room(alloc, rows)?;
    Ok(())
}

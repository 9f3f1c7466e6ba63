//! Where texts and positions leave a cursor that doesn't scroll.
ghost use Rattle.std.specs.Prelude.{◌≡◌, ◌≤◌, ◌<◌, min, pos, [], ◌∷◌, fold, map};
ghost use Rattle.cell_base.specs.Cluster.{clusters};
ghost use Rattle.screen_effects.specs.Strokes.{Cluster, Control};
ghost use Rattle.change_sequence.specs.Sequence.{column_moved, most_signed, parts_moved, row_moved, signed_rest};
ghost use Rattle.change_sequence.specs.Sequence.{stroke_moved, text_moved};
ghost use Rattle.change_sequence.specs.Positions.{position_of};

use cell_base::{Position, Widths};
use screen_effects::{split_at_control, split_control};
use unicode_segmentation::UnicodeSegmentation;

/// A column and a row.
pub(crate) type CellPosition = (usize, isize);

// The position after a cluster.
fn after_cluster<W: Widths>(
    widths: &W,
    columns: usize,
    position: CellPosition,
    cluster: &str,
) -> CellPosition
    requires within { position.0 ≤ columns }
    requires some { 0 < columns }
    ensures moved { position_of result
        ≡ stroke_moved (W.width_of widths.now) columns (position_of position) (Cluster cluster.now) }
    ensures within { result.0 ≤ columns }
{
    let (column, row) = position;
    let taken = if 1 < columns && 2 <= widths.width(cluster) {
        2
    } else {
        1
    };
    if columns - column < taken {
        (taken, row.saturating_add(1))
    } else {
        (column + taken, row)
    }
}

// The position after the clusters of a text.
#[tactic(auto, using(cell_base::proofs::PlainClusters::clusters_are))]
fn after_run<W: Widths>(
    widths: &W,
    columns: usize,
    position: CellPosition,
    text: &str,
) -> CellPosition
    requires within { position.0 ≤ columns }
    requires some { 0 < columns }
    ensures moved { position_of result
        ≡ fold (stroke_moved (W.width_of widths.now) columns) (position_of position) (map Cluster (clusters text.now)) }
    ensures within { result.0 ≤ columns }
{
    let mut position = position;
    for cluster in text.graphemes(true) {
        position = after_cluster(widths, columns, position, cluster);
    }
    position
}

// The position after a control in a text.
fn after_control<W: Widths>(
    widths: &W,
    columns: usize,
    position: CellPosition,
    control: u8,
) -> CellPosition
    requires within { position.0 ≤ columns }
    requires some { 0 < columns }
    ensures moved { position_of result
        ≡ parts_moved (W.width_of widths.now) columns (position_of position) (Control control ∷ []) }
    ensures within { result.0 ≤ columns }
{
    let (column, row) = position;
    match control {
        b'\r' => (0, row),
        b'\n' => (column, row.saturating_add(1)),
        _ => after_cluster(widths, columns, position, " "),
    }
}

/// The position after a text, as on a screen of `columns` columns that doesn't scroll.
pub(crate) fn after_text<W: Widths>(
    widths: &W,
    columns: usize,
    position: CellPosition,
    text: &str,
) -> CellPosition
    requires within { position.0 ≤ columns }
    requires some { 0 < columns }
    ensures moved { position_of result ≡ text_moved (W.width_of widths.now) columns (position_of position) text.now }
    ensures within { result.0 ≤ columns }
{
    let (prefix, mut rest) = split_at_control(text);
    let mut position = after_run(widths, columns, position, prefix);
    while let Some((control, after)) = split_control(rest) {
        position = after_control(widths, columns, position, control);
        let (prefix, remaining) = split_at_control(after);
        position = after_run(widths, columns, position, prefix);
        rest = remaining;
    }
    position
}

/// The column that a position names.
pub(crate) fn column_of(columns: usize, from: usize, position: Position) -> usize
    requires { 0 < columns }
    ensures moved { result ≡ column_moved columns from position }
    ensures within { result ≤ columns }
{
    match position {
        Position::Absolute(at) => at % columns,
        Position::EndRelative(back) => columns.saturating_sub(back) % columns,
        Position::Relative(way) if way < 0 => from.saturating_sub(way.unsigned_abs()) % columns,
        Position::Relative(way) => from.saturating_add(way as usize) % columns,
    }
}

/// A row as an `isize`, at most `isize::MAX`.
pub(crate) fn as_row(row: usize) -> isize
    ensures { result ≡ pos (min row most_signed) }
{
    isize::try_from(row).unwrap_or(isize::MAX)
}

// The remainder of a row divided by the count of rows, with the row's sign.
fn signed_rest(row: isize, rows: usize) -> isize
    requires { 0 < rows }
    ensures { result ≡ signed_rest row rows }
{
    let rest = row.unsigned_abs() % rows;
    if row < 0 {
        0isize.saturating_sub_unsigned(rest)
    } else {
        as_row(rest)
    }
}

/// The row that a position names.
pub(crate) fn row_of(rows: usize, from: isize, position: Position) -> isize
    requires { 0 < rows }
    ensures { result ≡ row_moved rows from position }
{
    match position {
        Position::Absolute(at) => as_row(at % rows),
        Position::EndRelative(back) => as_row(rows.saturating_sub(back) % rows),
        Position::Relative(way) => signed_rest(from.saturating_add(way), rows),
    }
}

//! Columns of a row that are set at once: blanks, and the cells of a text as far as they fit.
ghost use Rattle.std.specs.Prelude.{◌≡◌, ◌+◌, ◌-◌, ◌≤◌, ◌<◌, ◌++◌, [], ◌∷◌, true, false, None, length, take, drop};
ghost use Rattle.std.specs.Prelude.{replicate, slice_set, vec_len, OnOk, IfOk, IfSome, IsTrue, MatchOption};
ghost use Rattle.std.specs.List.{list_all};
ghost use Rattle.text_clusters.specs.Plain.{is_printable};
ghost use Rattle.cell_base.specs.Attributes.{Attributes};
ghost use Rattle.cell_base.specs.CellContent.{row_of_cells, blank_cell, cell_of, shows_as_space};
ghost use Rattle.cell_base.specs.Row.{set_columns, blank};
ghost use Rattle.cell_edits.specs.CellList.{cell_columns, ends_split};
ghost use Rattle.cell_edits.specs.RowEdits.{overlaid};
ghost use Rattle.cell_edits.specs.TextRuns.{position_after, plain_cells, text_on, text_left, Leads, Stops};

use crate::row::{open, push_blanks_with};
use cell_base::for_rows::{columns_for, set_blank};
use cell_base::{Cell, CellAttributes, Widths};
use std::alloc::{AllocError, Global};
use text_clusters::split_first_cluster;

// Makes the cell at a position that of a printable character.
#[inline(always)]
fn put_ascii(
    cells: &mut Vec<Cell>,
    at: usize,
    character: u8,
    attrs: &CellAttributes,
) -> Result<(), AllocError>
    requires printable { is_printable character ≡ true }
    requires within { at < vec_len cells.old }
    ensures len { vec_len cells.new ≡ vec_len cells.old }
    ensures items { OnOk result
        (cells.new.items ≡ slice_set cells.old.items at (cell_of (character ∷ []) 1 attrs.now)) }
{
    cells[at].set_ascii(character, attrs)
}

// The cell at a position becomes a space.
#[inline(always)]
fn put_blank(cells: &mut Vec<Cell>, at: usize, attrs: &CellAttributes) -> Result<(), AllocError>
    requires { at < vec_len cells.old }
    ensures len { vec_len cells.new ≡ vec_len cells.old }
    ensures items { OnOk result (cells.new.items ≡ slice_set cells.old.items at (blank_cell attrs.now)) }
{
    set_blank(&mut cells[at], attrs)
}

// The cell at a position becomes that of a cluster.
#[inline(always)]
fn put_cluster(
    alloc: Global,
    cells: &mut Vec<Cell>,
    at: usize,
    cluster: &str,
    width: usize,
    attrs: &CellAttributes,
) -> Result<(), AllocError>
    requires most { width ≤ 2 }
    requires within { at < vec_len cells.old }
    ensures len { vec_len cells.new ≡ vec_len cells.old }
    ensures items { OnOk result (cells.new.items ≡ slice_set cells.old.items at (cell_of cluster.now width attrs.now)) }
{
    cells[at].set_grapheme_with_width(alloc, cluster, width, attrs)
}

// Sets the cells of `start..end` to blanks.
fn write_blanks(
    cells: &mut Vec<Cell>,
    start: usize,
    end: usize,
    attrs: &CellAttributes,
) -> Result<(), AllocError>
    requires order { start ≤ end }
    requires within { end ≤ vec_len cells.old }
    ensures len { vec_len cells.new ≡ vec_len cells.old }
    ensures items { OnOk result
        (cells.new.items
        ≡ take start cells.old.items ++ replicate (end - start) (blank_cell attrs.now)
        ++ drop end cells.old.items) }
{
    for at in start..end {
        put_blank(cells, at, attrs)?;
    }
    Ok(())
}

/// Sets the columns of a range to blanks.
pub fn set_blanks(
    cells: &mut Vec<Cell>,
    start: usize,
    end: usize,
    attrs: &CellAttributes,
) -> Result<(), AllocError>
    requires order { start ≤ end }
    requires within { end ≤ vec_len cells.old }
    ensures { OnOk result
        (row_of_cells cells.new.items
        ≡ set_columns (row_of_cells cells.old.items) start (replicate (end - start) (blank attrs.now))) }
{
    open(cells, start, end)?;
    write_blanks(cells, start, end, attrs)?;
    Ok(())
}

/// Replaces all cells by `width` blanks.
pub fn clear(cells: &mut Vec<Cell>, width: usize, attrs: &CellAttributes) -> Result<(), AllocError>
    ensures { OnOk result (cells.new.items ≡ replicate width (blank_cell attrs.now)) }
{
    cells.truncate(width);
    let len = cells.len();
    write_blanks(cells, 0, len, attrs)?;
    if len < width {
        push_blanks_with(cells, width - len, attrs)?;
    }
    Ok(())
}

// Sets the cells from `start` on to one printable character of `bytes` each.
#[inline(always)]
fn write_plain(
    cells: &mut Vec<Cell>,
    start: usize,
    bytes: &[u8],
    attrs: &CellAttributes,
) -> Result<(), AllocError>
    requires printable { list_all is_printable bytes.now ≡ true }
    requires within { start + length bytes.now ≤ vec_len cells.old }
    ensures len { vec_len cells.new ≡ vec_len cells.old }
    ensures items { OnOk result
        (cells.new.items
        ≡ take start cells.old.items ++ plain_cells bytes.now attrs.now
        ++ drop (start + length bytes.now) cells.old.items) }
{
    for index in 0..bytes.len() {
        put_ascii(cells, start + index, bytes[index], attrs)?;
    }
    Ok(())
}

/// Sets the columns from `at` on to the printable ASCII characters (20h to 7Eh) of a text, a column each.
#[inline(always)]
pub fn set_plain(
    cells: &mut Vec<Cell>,
    at: usize,
    text: &str,
    attrs: &CellAttributes,
) -> Result<(), AllocError>
    requires printable { list_all is_printable text.now ≡ true }
    requires within { at + length text.now ≤ vec_len cells.old }
    ensures len { vec_len cells.new ≡ vec_len cells.old }
    ensures row { OnOk result
        (row_of_cells cells.new.items ≡ overlaid (row_of_cells cells.old.items) at (plain_cells text.now attrs.now)) }
{
    if text.is_empty() {
        return Ok(());
    }
    open(cells, at, at + text.len())?;
    write_plain(cells, at, text.as_bytes(), attrs)?;
    Ok(())
}

// How many columns the cell of a cluster takes.
#[inline(always)]
fn cluster_columns(cluster: &str, width: usize) -> usize
    requires { width ≤ 2 }
    ensures { (attributes : Attributes) → result ≡ length (cell_columns (cell_of cluster.now width attributes)) }
{
    if columns_for(cluster, width) >= 2 {
        2
    } else {
        1
    }
}

// Sets the columns from `at` on to those of the cell of a cluster.
#[inline(always)]
fn write_cluster(
    alloc: Global,
    cells: &mut Vec<Cell>,
    at: usize,
    cluster: &str,
    width: usize,
    attrs: &CellAttributes,
) -> Result<(), AllocError>
    requires most { width ≤ 2 }
    requires within { at + length (cell_columns (cell_of cluster.now width attrs.now)) ≤ vec_len cells.old }
    ensures len { vec_len cells.new ≡ vec_len cells.old }
    ensures row { OnOk result
        (row_of_cells cells.new.items
        ≡ set_columns (row_of_cells cells.old.items) at (cell_columns (cell_of cluster.now width attrs.now))) }
{
    let count = cluster_columns(cluster, width);
    open(cells, at, at + count)?;
    if count == 2 {
        put_blank(cells, at + 1, attrs)?;
    }
    put_cluster(alloc, cells, at, cluster, width, attrs)?;
    Ok(())
}

// Sets the first cluster of a text if it fits before `end`; returns the next column and the rest.
fn set_first_cluster<'a, W: Widths>(
    alloc: Global,
    cells: &mut Vec<Cell>,
    at: usize,
    end: usize,
    text: &'a str,
    attrs: &CellAttributes,
    w: &W,
) -> Result<Option<(usize, &'a str)>, AllocError>
    requires order { at ≤ end }
    requires within { end ≤ vec_len cells.old }
    ensures len { vec_len cells.new ≡ vec_len cells.old }
    ensures leads { IfOk result
        (λ next. MatchOption next
        ((row_of_cells cells.new.items ≡ row_of_cells cells.old.items)
        × Stops (W.width_of w.now) end attrs.now (row_of_cells cells.old.items) at text.now)
        (λ n. (at < n.0)
        × Leads (W.width_of w.now) end attrs.now (row_of_cells cells.old.items) at text.now
        (row_of_cells cells.new.items) n.0 n.1.now)) }
{
    if at == end {
        return Ok(None);
    }
    if text.is_empty() {
        return Ok(None);
    }
    let Some((cluster, rest)) = split_first_cluster(text) else {
        return Ok(None);
    };
    let width = usize::from(w.width(cluster));
    let count = cluster_columns(cluster, width);
    if end - at < count {
        return Ok(None);
    }
    write_cluster(alloc, cells, at, cluster, width, attrs)?;
    Ok(Some((at + count, rest)))
}

/// Sets each cluster of a text side by side from `start` on, as far as they fit before `end`; returns
/// the column after them and the text that is left.
pub fn set_text<'a, W: Widths>(
    alloc: Global,
    cells: &mut Vec<Cell>,
    start: usize,
    end: usize,
    text: &'a str,
    attrs: &CellAttributes,
    w: &W,
) -> Result<(usize, &'a str), AllocError>
    requires order { start ≤ end }
    requires within { end ≤ vec_len cells.old }
    ensures row { OnOk result
        (row_of_cells cells.new.items
        ≡ text_on (W.width_of w.now) end attrs.now (row_of_cells cells.old.items) start text.now) }
    ensures after { IfOk result (λ r. r.0 ≡ position_after (W.width_of w.now) end attrs.now start text.now) }
    ensures left { IfOk result (λ r. r.1.now ≡ text_left (W.width_of w.now) end attrs.now start text.now) }
{
    let mut at = start;
    let mut left = text;
    while at < end {
        match set_first_cluster(alloc, cells, at, end, left, attrs, w)? {
            None => return Ok((at, left)),
            Some((next, rest)) => {
                at = next;
                left = rest;
            }
        }
    }
    Ok((at, left))
}

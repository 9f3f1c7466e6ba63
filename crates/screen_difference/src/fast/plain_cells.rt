//! Plain cells of equal attributes that are passed or written at once, as one text.
ghost use Rattle.std.specs.Prelude.{◌≡◌, ◌+◌, ◌-◌, ◌<◌, ◌≤◌, ◌^◌, List, ◌++◌, true, length, take, IfNone, IfOk};
ghost use Rattle.std.specs.Prelude.{IfSome, MatchOption, OnOk};
ghost use Rattle.std.specs.List.{list_all};
ghost use Rattle.text_clusters.specs.Plain.{is_printable};
ghost use Rattle.cell_edits.specs.VisibleCells.{VisibleCell, visible_each};
ghost use Rattle.cell_views.specs.CellRefView.{shown_by};
ghost use Rattle.cell_views.specs.Region.{region_left};
ghost use Rattle.screen_difference.specs.Drawing.{with_all};
ghost use Rattle.screen_difference.specs.FreshCells.{placed};
ghost use Rattle.screen_difference.specs.ShownCells.{differing, from_column, passed_fresh, shown_left, side_by_side};
ghost use Rattle.screen_difference.specs.ShownCells.{Fits, HaveRoom};

use crate::difference_writer::DifferenceWriter;
use crate::fast::plain_text::{after, part, prefix};
use crate::fresh_cells::write_cell;
use crate::shown_cells::ShownCells;
use cell_base::CellAttributes;
use cell_line::{CellRef, RegionIter};
use std::alloc::AllocError;

impl<'a> ShownCells<'a> {
    /// Passes the next plain cells, at most `most`, and returns their text and their attributes. `None`: take the
    /// general way.
    pub(crate) fn pass_plain(&mut self, most: usize) -> Option<(&'a str, &'a CellAttributes)>
        requires { Fits self.old }
        ensures left { MatchOption result (shown_left self.new ≡ shown_left self.old) (λ run.
            shown_left self.old ≡ visible_each self.old.column run.0.now run.1.now ++ shown_left self.new) }
        ensures column { MatchOption result (self.new.column ≡ self.old.column) (λ run.
            self.new.column ≡ self.old.column + length run.0.now) }
        ensures some { IfSome result (λ run. (0 < length run.0.now) × (length run.0.now ≤ most)) }
        ensures fits { Fits self.new }
    {
        let (text, attrs) = self.cells.pass_plain(most)?;
        self.column += text.len();
        Some((text, attrs))
    }

    // How many columns there are from `column` on before the remaining cells.
    fn gap(&self, column: usize) -> usize
        ensures { result ≡ self.now.column - column }
    {
        self.column.saturating_sub(column)
    }
}

// Writes the new text's characters that differ from the old ones, which are in the same columns.
fn write_differing<'a>(
    writer: &mut DifferenceWriter<'a>,
    row: usize,
    column: usize,
    old: &str,
    text: &'a str,
    attrs: &'a CellAttributes,
) -> Result<(), AllocError>
    requires same { length old.now ≡ length text.now }
    requires printable { list_all is_printable text.now ≡ true }
    requires room { column + length text.now < 2 ^ 64 }
    ensures { OnOk result
        (writer.new ≡ with_all writer.old (placed row (differing column old.now text.now attrs.now))) }
{
    let olds = old.as_bytes();
    let news = text.as_bytes();
    let mut from = 0;
    for at in 0..text.len() {
        if olds[at] == news[at] {
            writer.push_plain(row, column + from, part(text, from, at), attrs)?;
            from = at + 1;
        }
    }
    writer.push_plain(row, column + from, after(text, from), attrs)
}

// Writes the fresh cells among plain new cells, where as many plain old cells are in the same columns.
fn write_run<'a>(
    writer: &mut DifferenceWriter<'a>,
    row: usize,
    column: usize,
    old: (&str, &CellAttributes),
    text: &'a str,
    attrs: &'a CellAttributes,
) -> Result<(), AllocError>
    requires same { length old.0.now ≡ length text.now }
    requires printable { list_all is_printable text.now ≡ true }
    requires room { column + length text.now < 2 ^ 64 }
    ensures { OnOk result ((remaining : List VisibleCell) → writer.new ≡ with_all writer.old (placed row (passed_fresh
        (visible_each column old.entry.0.now old.entry.1.now ++ remaining) (visible_each column text.now attrs.now)))) }
{
    let (old_text, old_attrs) = old;
    if *old_attrs == *attrs {
        write_differing(writer, row, column, old_text, text, attrs)?;
        return Ok(());
    }
    writer.push_plain(row, column, text, attrs)?;
    Ok(())
}

// Writes the fresh cells among plain new cells at the start of a text, where no old cell begins before them. Returns
// how many cells were compared.
fn write_there<'a>(
    writer: &mut DifferenceWriter<'a>,
    row: usize,
    column: usize,
    olds: &mut ShownCells<'_>,
    text: &'a str,
    attrs: &'a CellAttributes,
) -> Result<usize, AllocError>
    requires some { 0 < length text.now }
    requires printable { list_all is_printable text.now ≡ true }
    requires room { column + length text.now < 2 ^ 64 }
    requires there { column ≡ olds.old.column }
    requires fits { Fits olds.old }
    ensures written { IfOk result (λ count. writer.new ≡ with_all writer.old (placed row (
        passed_fresh (shown_left olds.old) (visible_each column (take count text.now) attrs.now)))) }
    ensures passed { IfOk result (λ count.
        shown_left olds.new ≡ from_column (column + count) (shown_left olds.old)) }
    ensures some { IfOk result (λ count. (0 < count) × (count ≤ length text.now)) }
    ensures fits { Fits olds.new }
{
    if let Some(old) = olds.pass_plain(text.len()) {
        let count = old.0.len();
        write_run(writer, row, column, old, prefix(text, count), attrs)?;
        return Ok(count);
    }
    let cell = CellRef::ClusterRef {
        cell_index: column,
        text: prefix(text, 1),
        width: 1,
        attrs,
    };
    write_cell(writer, row, column, olds, &cell)?;
    Ok(1)
}

// Writes the fresh cells among plain new cells at the start of a text. Returns how many cells were compared.
fn write_stretch<'a>(
    writer: &mut DifferenceWriter<'a>,
    row: usize,
    column: usize,
    olds: &mut ShownCells<'_>,
    text: &'a str,
    attrs: &'a CellAttributes,
) -> Result<usize, AllocError>
    requires some { 0 < length text.now }
    requires printable { list_all is_printable text.now ≡ true }
    requires room { column + length text.now < 2 ^ 64 }
    requires fits { Fits olds.old }
    ensures written { IfOk result (λ count. writer.new ≡ with_all writer.old (placed row (
        passed_fresh (shown_left olds.old) (visible_each column (take count text.now) attrs.now)))) }
    ensures passed { IfOk result (λ count.
        shown_left olds.new ≡ from_column (column + count) (shown_left olds.old)) }
    ensures some { IfOk result (λ count. (0 < count) × (count ≤ length text.now)) }
    ensures fits { Fits olds.new }
{
    olds.pass(column);
    let count = olds.gap(column).min(text.len());
    if count > 0 {
        writer.push_plain(row, column, prefix(text, count), attrs)?;
        return Ok(count);
    }
    let compared = write_there(writer, row, column, olds, text, attrs)?;
    Ok(compared)
}

// Writes the fresh cells among plain new cells, which are side by side from a column on.
fn write_text<'a>(
    writer: &mut DifferenceWriter<'a>,
    row: usize,
    column: usize,
    olds: &mut ShownCells<'_>,
    text: &'a str,
    attrs: &'a CellAttributes,
) -> Result<(), AllocError>
    requires printable { list_all is_printable text.now ≡ true }
    requires room { column + length text.now < 2 ^ 64 }
    requires fits { Fits olds.old }
    ensures written { OnOk result (writer.new ≡ with_all writer.old (placed row (
        passed_fresh (shown_left olds.old) (visible_each column text.now attrs.now)))) }
    ensures passed { OnOk result (
        from_column (column + length text.now) (shown_left olds.new)
        ≡ from_column (column + length text.now) (shown_left olds.old)) }
    ensures fits { Fits olds.new }
{
    let mut at = 0;
    while at < text.len() {
        let count = write_stretch(writer, row, column + at, olds, after(text, at), attrs)?;
        at += count;
    }
    Ok(())
}

/// Writes the fresh cells among the next new cells, where these are plain. Returns how many columns the plain cells
/// take. `None`: take the general way.
pub(crate) fn write_plain<'a>(
    writer: &mut DifferenceWriter<'a>,
    row: usize,
    column: usize,
    olds: &mut ShownCells<'_>,
    news: &mut RegionIter<'a>,
) -> Result<Option<usize>, AllocError>
    requires room { HaveRoom column (region_left news.old) }
    requires fits { Fits olds.old }
    ensures written { IfOk result (λ next. IfSome next (λ count.
        with_all writer.new (placed row (
        passed_fresh (shown_left olds.new) (side_by_side (column + count) (region_left news.new))))
        ≡ with_all writer.old (placed row (
        passed_fresh (shown_left olds.old) (side_by_side column (region_left news.old)))))) }
    ensures room { IfOk result (λ next. IfSome next (λ count. HaveRoom (column + count) (region_left news.new))) }
    ensures small { IfOk result (λ next. IfSome next (λ count. column + count < 2 ^ 64)) }
    ensures some { IfOk result (λ next. IfSome next (λ count. 0 < count)) }
    ensures fewer { IfOk result (λ next. IfSome next (λ _.
        length (region_left news.new) < length (region_left news.old))) }
    ensures none { IfOk result (λ next. IfNone next
        ((writer.new ≡ writer.old) × (olds.new ≡ olds.old) × (region_left news.new ≡ region_left news.old))) }
    ensures fits { Fits olds.new }
{
    let Some((text, attrs)) = news.pass_plain(usize::MAX) else {
        return Ok(None);
    };
    write_text(writer, row, column, olds, text, attrs)?;
    Ok(Some(text.len()))
}

//! Texts, single cells and ranges of blanks that are set on a row.
ghost use Rattle.std.specs.Prelude.{◌≡◌, ◌+◌, ◌-◌, ◌<◌, ◌≤◌, true, length, replicate, IfOk, MatchOption, OnOk, OnErr};
ghost use Rattle.std.specs.List.{list_all};
ghost use Rattle.text_clusters.specs.Plain.{is_printable};
ghost use Rattle.cell_base.specs.CellContent.{cell_of};
ghost use Rattle.cell_base.specs.CellContent as cells;
ghost use Rattle.cell_base.specs.Row.{blank, set_columns};
ghost use Rattle.cell_edits.specs.CellList.{cell_columns};
ghost use Rattle.cell_edits.specs.RowEdits.{overlaid};
ghost use Rattle.cell_edits.specs.TextRuns.{position_after, plain_cells, text_on, text_left, Leads, Stops};

use crate::row::ClusteredRow;
use crate::text_cells::size_of;
use cell_base::for_rows::columns_for;
use cell_base::{CellAttributes, Widths};
use std::alloc::AllocError;
use text_clusters::split_first_cluster;

// As many spaces as are set at once: 64.
const SPACES: &str = "                                                                ";

// Whether a cell holds a space in place of this text.
#[inline(always)]
fn shows_as_space(text: &str) -> bool
    ensures { result ≡ cells.shows_as_space text.now }
{
    columns_for(text, 2) == 1
}

// A text of `count` spaces.
#[inline(always)]
pub(crate) fn spaces(count: usize) -> &'static str
    requires { count ≤ 64 }
    ensures { result.now ≡ replicate count 32 }
{
    let (prefix, _) = SPACES.split_at(count);
    prefix
}

impl ClusteredRow {
    /// Sets the columns from `at` on to the printable ASCII characters (20h to 7Eh) of a text, a column each. The empty
    /// text changes nothing.
    #[inline(always)]
    pub fn set_ascii_text(
        &mut self,
        at: usize,
        text: &str,
        attrs: &CellAttributes,
    ) -> Result<(), AllocError>
        requires printable { list_all is_printable text.now ≡ true }
        requires within { at + length text.now ≤ length self.old }
        ensures len { length self.new ≡ length self.old }
        ensures done { OnOk result (self.new ≡ overlaid self.old at (plain_cells text.now attrs.now)) }
    {
        if text.is_empty() {
            return Ok(());
        }
        self.set_plain(at, text, attrs)?;
        Ok(())
    }

    /// Sets the cell of a cluster of `width` columns, where 0 counts as 1, at column `at`. The empty text, a single C0
    /// control or DEL, and CR LF become a space of one column.
    pub fn set_cell(
        &mut self,
        at: usize,
        text: &str,
        width: usize,
        attrs: &CellAttributes,
    ) -> Result<(), AllocError>
        requires most { width ≤ 2 }
        requires within { at + length (cell_columns (cell_of text.now width attrs.now)) ≤ length self.old }
        ensures len { length self.new ≡ length self.old }
        ensures done { OnOk result
            (self.new ≡ set_columns self.old at (cell_columns (cell_of text.now width attrs.now))) }
    {
        if shows_as_space(text) {
            self.set_plain_elsewhere(at, " ", attrs)?;
            return Ok(());
        }
        let count = columns_for(text, width);
        let size = size_of(text.len(), count);
        if size.is_plain() {
            self.set_plain_elsewhere(at, text, attrs)?;
            return Ok(());
        }
        self.set(at, text, &[size], count, attrs)?;
        Ok(())
    }

    /// Sets the columns of a range to blanks.
    pub fn set_blanks(
        &mut self,
        start: usize,
        end: usize,
        attrs: &CellAttributes,
    ) -> Result<(), AllocError>
        requires order { start ≤ end }
        requires within { end ≤ length self.old }
        ensures len { length self.new ≡ length self.old }
        ensures done { OnOk result
            (self.new ≡ set_columns self.old start (replicate (end - start) (blank attrs.now))) }
    {
        if end == self.width {
            self.set_blanks_from(start, attrs)?;
            return Ok(());
        }
        self.set_spaces(start, end, attrs)?;
        Ok(())
    }

    // Sets the columns of a range to spaces, a chunk at a time.
    fn set_spaces(
        &mut self,
        start: usize,
        end: usize,
        attrs: &CellAttributes,
    ) -> Result<(), AllocError>
        requires order { start ≤ end }
        requires within { end ≤ length self.old }
        ensures len { length self.new ≡ length self.old }
        ensures done { OnOk result
            (self.new ≡ set_columns self.old start (replicate (end - start) (blank attrs.now))) }
    {
        let mut at = start;
        while end - at > 64 {
            self.set_plain_elsewhere(at, spaces(64), attrs)?;
            at += 64;
        }
        self.set_plain_elsewhere(at, spaces(end - at), attrs)?;
        Ok(())
    }

    /// Makes the row `width` blanks with these attributes. It keeps the memory of what it showed. A row that is refused
    /// memory stays as it was.
    pub fn clear_to(&mut self, width: usize, attrs: &CellAttributes) -> Result<(), AllocError>
        ensures done { OnOk result (self.new ≡ replicate width (blank attrs.now)) }
        ensures refused { OnErr result (self.new ≡ self.old) }
    {
        let rest = attrs.try_clone()?;
        self.columns.clear();
        self.rest = rest;
        self.width = width;
        Ok(())
    }

    // Sets the first cluster of a text if it fits before `end`; returns the next column and the rest.
    fn set_first_cluster<'a, W: Widths>(
        &mut self,
        at: usize,
        end: usize,
        text: &'a str,
        attrs: &CellAttributes,
        w: &W,
    ) -> Result<Option<(usize, &'a str)>, AllocError>
        requires order { at ≤ end }
        requires within { end ≤ length self.old }
        ensures len { length self.new ≡ length self.old }
        ensures leads { IfOk result (λ next. MatchOption next
            ((self.new ≡ self.old) × Stops (W.width_of w.now) end attrs.now self.old at text.now)
            (λ n. (at < n.0) × Leads (W.width_of w.now) end attrs.now self.old at text.now self.new n.0 n.1.now)) }
    {
        if at == end {
            return Ok(None);
        }
        if text.is_empty() {
            return Ok(None);
        }
        let Some((cluster, rest)) = split_first_cluster(text) else {
            return Ok(None);
        };
        let width = usize::from(w.width(cluster));
        let count = columns_for(cluster, width);
        if end - at < count {
            return Ok(None);
        }
        self.set_cell(at, cluster, width, attrs)?;
        Ok(Some((at + count, rest)))
    }

    // Sets one cluster or several from the start of a text, if any fits before `end`; returns the next column and the
    // rest.
    fn set_clusters<'a, W: Widths>(
        &mut self,
        at: usize,
        end: usize,
        text: &'a str,
        attrs: &CellAttributes,
        w: &W,
    ) -> Result<Option<(usize, &'a str)>, AllocError>
        requires order { at ≤ end }
        requires within { end ≤ length self.old }
        ensures len { length self.new ≡ length self.old }
        ensures leads { IfOk result (λ next. MatchOption next
            ((self.new ≡ self.old) × Stops (W.width_of w.now) end attrs.now self.old at text.now)
            (λ n. (at < n.0) × Leads (W.width_of w.now) end attrs.now self.old at text.now self.new n.0 n.1.now)) }
    {
        if let Some(next) = self.set_plain_prefix(at, end, text, attrs, w)? {
            return Ok(Some(next));
        }
        if let Some(next) = self.set_single_prefix(at, end, text, attrs, w)? {
            return Ok(Some(next));
        }
        self.set_first_cluster(at, end, text, attrs, w)
    }

    /// Sets each cluster of a text side by side from `start` on, as far as they fit before `end`; returns the column
    /// after them and the text that is left.
    pub fn set_text<'a, W: Widths>(
        &mut self,
        start: usize,
        end: usize,
        text: &'a str,
        attrs: &CellAttributes,
        w: &W,
    ) -> Result<(usize, &'a str), AllocError>
        requires order { start ≤ end }
        requires within { end ≤ length self.old }
        ensures len { length self.new ≡ length self.old }
        ensures row { OnOk result
            (self.new ≡ text_on (W.width_of w.now) end attrs.now self.old start text.now) }
        ensures after { IfOk result (λ r. r.0 ≡ position_after (W.width_of w.now) end attrs.now start text.now) }
        ensures left { IfOk result (λ r. r.1.now ≡ text_left (W.width_of w.now) end attrs.now start text.now) }
    {
        let mut at = start;
        let mut left = text;
        while at < end {
            match self.set_clusters(at, end, left, attrs, w)? {
                None => return Ok((at, left)),
                Some((next, rest)) => {
                    at = next;
                    left = rest;
                }
            }
        }
        Ok((at, left))
    }
}

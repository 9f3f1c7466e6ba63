//! Shortcuts of `set_text` for prefixes that are set at once.
ghost use Rattle.std.specs.Prelude.{◌≡◌, ◌<◌, ◌≤◌, length, IfOk, MatchOption};
ghost use Rattle.cell_edits.specs.TextRuns.{Leads};

use crate::fast::single_cells::single_cells;
use crate::row::ClusteredRow;
use cell_base::{CellAttributes, Widths};
use std::alloc::AllocError;
use std::mem;
use text_clusters::{begins_printable, split_printable};

impl ClusteredRow {
    // Sets the printable ASCII characters at the start of a text that are clusters by themselves, as far as they fit
    // before `end`; returns the next column and the rest. `None`: take the general way.
    pub(crate) fn set_plain_prefix<'a, W: Widths>(
        &mut self,
        at: usize,
        end: usize,
        text: &'a str,
        attrs: &CellAttributes,
        w: &W,
    ) -> Result<Option<(usize, &'a str)>, AllocError>
        requires order { at ≤ end }
        requires within { end ≤ length self.old }
        ensures len { length self.new ≡ length self.old }
        ensures leads { IfOk result (λ next. MatchOption next (self.new ≡ self.old)
            (λ n. (at < n.0) × Leads (W.width_of w.now) end attrs.now self.old at text.now self.new n.0 n.1.now)) }
    {
        if !begins_printable(text) {
            return Ok(None);
        }
        if !w.has_narrow_ascii() {
            return Ok(None);
        }
        let (prefix, rest) = split_printable(text, end - at);
        if prefix.is_empty() {
            return Ok(None);
        }
        self.set_ascii_text(at, prefix, attrs)?;
        Ok(Some((at + prefix.len(), rest)))
    }

    // Sets the characters at the start of a text that are clusters by themselves, as far as they fit before `end`;
    // returns the next column and the rest. `None`: take the general way.
    pub(crate) fn set_single_prefix<'a, W: Widths>(
        &mut self,
        at: usize,
        end: usize,
        text: &'a str,
        attrs: &CellAttributes,
        w: &W,
    ) -> Result<Option<(usize, &'a str)>, AllocError>
        requires order { at ≤ end }
        requires within { end ≤ length self.old }
        ensures len { length self.new ≡ length self.old }
        ensures leads { IfOk result (λ next. MatchOption next (self.new ≡ self.old)
            (λ n. (at < n.0) × Leads (W.width_of w.now) end attrs.now self.old at text.now self.new n.0 n.1.now)) }
    {
        let mut sizes = mem::try_take(&mut self.sizes)?;
        let (count, rest) = single_cells(&mut sizes, end - at, text, w)?;
        if count == 0 {
            self.sizes = sizes;
            return Ok(None);
        }
        let (prefix, _) = text.split_at(text.len() - rest.len());
        self.set(at, prefix, &sizes, count, attrs)?;
        self.sizes = sizes;
        Ok(Some((at + count, rest)))
    }
}

//! Plain cells of equal attributes that are written, counted or compared at once, as one text.
ghost use Rattle.std.specs.Prelude.{◌≡◌, ◌+◌, ◌<◌, ◌^◌, ◌==◌, true, length, IfOk, MatchOption};
ghost use Rattle.std.specs.List.{list_all, suffix_len};
ghost use Rattle.cell_views.specs.CellRefView.{cells_left};
ghost use Rattle.screen_repaint.specs.Ends.{PassesOn, PassesSpaces, blanks_at_end};
ghost use Rattle.screen_repaint.specs.PaintedRows.{WritesOn};

use crate::ends::{RowEnd, is_plain};
use cell_base::CellAttributes;
use cell_line::VisibleCellIter;
use screen_change::CellWriter;
use std::alloc::AllocError;

// Writes the next of the remaining cells, as many as `pass_plain` passes and at most `most`. Returns how many. `None`:
// take the general way.
pub(crate) fn write_plain<'a>(
    writer: &mut CellWriter<'a>,
    cells: &mut VisibleCellIter<'a>,
    most: usize,
) -> Result<Option<usize>, AllocError>
    ensures { IfOk result (λ next. MatchOption next
        ((writer.new ≡ writer.old) × (cells_left cells.new ≡ cells_left cells.old))
        (λ count. WritesOn most writer.old (cells_left cells.old) count writer.new (cells_left cells.new))) }
{
    let Some((text, attrs)) = cells.pass_plain(most) else {
        return Ok(None);
    };
    writer.push_plain(text, attrs)?;
    Ok(Some(text.len()))
}

// How many spaces there are at the end of a text.
fn spaces_at_end(text: &str) -> usize
    ensures { result ≡ suffix_len (λ byte. byte == 32) text.now }
{
    let from_end = text.as_bytes().iter().rev();
    from_end.take_while(|byte| **byte == b' ').count()
}

// How many blanks there are at the end of the cells of a text, one for each byte.
fn blanks_at_end(text: &str, attrs: &CellAttributes) -> usize
    ensures { result ≡ blanks_at_end text.now attrs.now }
{
    let spaces = spaces_at_end(text);
    if spaces == 0 || !is_plain(attrs) {
        return 0;
    }
    spaces
}

impl<'a> RowEnd<'a> {
    // Adds the next of the remaining cells, as many as `pass_plain` passes. Returns how many. `None`: take the general
    // way.
    pub(crate) fn push_plain(&mut self, cells: &mut VisibleCellIter<'a>) -> Option<usize>
        requires { self.old.cells + length (cells_left cells.old) < 2 ^ 64 }
        ensures { MatchOption result
            ((self.new ≡ self.old) × (cells_left cells.new ≡ cells_left cells.old))
            (λ _. PassesOn self.old (cells_left cells.old) self.new (cells_left cells.new) true) }
    {
        let (text, attrs) = cells.pass_plain(usize::MAX)?;
        let blanks = blanks_at_end(text, attrs);
        self.push(text.len() - blanks, blanks, attrs);
        Some(text.len())
    }
}

// Whether a text consists of spaces.
fn is_spaces(text: &str) -> bool
    ensures { result ≡ list_all (λ byte. byte == 32) text.now }
{
    text.as_bytes().iter().all(|byte| *byte == b' ')
}

// Passes the next of the remaining cells, as many as `pass_plain` passes. Returns whether they are spaces with these
// attributes. `None`: take the general way.
pub(crate) fn pass_plain_spaces(
    cells: &mut VisibleCellIter<'_>,
    attrs: &CellAttributes,
) -> Option<bool>
    ensures { MatchOption result (cells_left cells.new ≡ cells_left cells.old)
        (λ are. PassesSpaces attrs.now (cells_left cells.old) (cells_left cells.new) are) }
{
    let (text, own) = cells.pass_plain(usize::MAX)?;
    Some(is_spaces(text) && *own == *attrs)
}

//! Printable ASCII characters that fit in the cursor's row, put at once.
ghost use Rattle.std.specs.Prelude.{◌≡◌, ℕ, true, ◌+◌, ◌^◌, ◌<◌, ◌≤◌, ◌∷◌, [], length, slice_set, IsTrue, OnOk};
ghost use Rattle.std.specs.List.{list_all};
ghost use Rattle.text_clusters.specs.Plain.{is_printable};
ghost use Rattle.cell_line.specs.LineCalls.{set_plain as plain_set};
ghost use Rattle.screen_effects.specs.Strokes.{text_done};
ghost use Rattle.screen_grid.specs.Grid.{display_of, line_at, IsDrawn, Shows};

use crate::grid::Grid;
use crate::ring::Ring;
use cell_base::{CellAttributes, Widths};
use cell_line::{Line, row_writing};
use std::alloc::AllocError;
use text_clusters::are_printable;

// Sets printable ASCII characters from a column of a row on, each as a cell of one column.
#[inline(always)]
fn set_plain(
    rows: &mut Ring<Line>,
    row: usize,
    at: usize,
    text: &str,
    attrs: &CellAttributes,
) -> Result<(), AllocError>
    requires row_in { row < length rows.old }
    requires printable { list_all is_printable text.now ≡ true }
    requires within { at + length text.now ≤ length (line_at rows.old row).columns }
    requires small { at + length text.now < 2 ^ 64 }
    ensures len { length rows.new ≡ length rows.old }
    ensures lines { OnOk result
        (rows.new ≡ slice_set rows.old row (plain_set (line_at rows.old row) at text.now attrs.now)) }
{
    row_writing::set_plain(&mut rows[row], at, text, attrs)?;
    Ok(())
}

impl<W: Widths + Drop> Grid<W> {
    // Whether a text is printable ASCII characters that fit in the cursor's row, each of which is known to take one
    // column.
    #[inline(always)]
    pub(crate) fn takes_plainly(&self, text: &str) -> bool
        ensures printable { IsTrue result → list_all is_printable text.now ≡ true }
        ensures narrow { IsTrue result → (byte : ℕ) → is_printable byte ≡ true
            → W.width_of self.now.widths (byte ∷ []) ≡ 1 }
        ensures fits { IsTrue result → self.now.column + length text.now ≤ self.now.width }
    {
        if self.width < self.column {
            return false;
        }
        if !self.widths.has_narrow_ascii() {
            return false;
        }
        text.len() <= self.width - self.column && are_printable(text.as_bytes())
    }

    // Puts the characters of a printable text, each of which is a cluster by itself.
    #[inline(always)]
    pub(crate) fn put_plain(&mut self, text: &str) -> Result<(), AllocError>
        requires drawn { IsDrawn self.old }
        requires printable { list_all is_printable text.now ≡ true }
        requires narrow { (byte : ℕ) → is_printable byte ≡ true → W.width_of self.old.widths (byte ∷ []) ≡ 1 }
        requires fits { self.old.column + length text.now ≤ self.old.width }
        ensures { OnOk result
            (Shows self.old self.new (text_done (W.width_of self.old.widths) (display_of self.old) text.now)) }
    {
        set_plain(&mut self.rows, self.row, self.column, text, &self.pen)?;
        self.column += text.len();
        Ok(())
    }
}

//! Plain cells of equal attributes that are passed at once, as one text.
ghost use Rattle.std.specs.Prelude.{◌≡◌, ◌<◌, ◌≤◌, ◌++◌, true, length, IfSome, MatchOption};
ghost use Rattle.std.specs.List.{list_all};
ghost use Rattle.text_clusters.specs.Plain.{is_printable};
ghost use Rattle.cell_edits.specs.VisibleCells.{visible_each};
ghost use Rattle.clustered_row.specs.VisibleCells.{cells_left, next_column};

use crate::row_texts::spaces;
use crate::visible::ClusteredCells;
use cell_base::CellAttributes;

impl<'a> ClusteredCells<'a> {
    /// Takes the next printable ASCII characters (20h to 7Eh), at most `most`, as far as each is a cell of one column
    /// and all have the same attributes; a blank counts as a space. `None`: the next cell is no such character, `most`
    /// is 0, or no cell is left.
    pub fn pass_plain(&mut self, most: usize) -> Option<(&'a str, &'a CellAttributes)>
        ensures left { MatchOption result (cells_left self.new ≡ cells_left self.old) (λ run.
            cells_left self.old ≡ visible_each (next_column self.old) run.0.now run.1.now ++ cells_left self.new) }
        ensures some { IfSome result (λ run. (0 < length run.0.now) × (length run.0.now ≤ most)) }
        ensures printable { IfSome result (λ run. list_all is_printable run.0.now ≡ true) }
    {
        let alike = most.min(self.runs.run_len());
        let text = self.texts.pass_plain(alike);
        if text.is_empty() {
            return self.pass_blanks(most);
        }
        let attributes = self.runs.pass_columns(text.len());
        self.column += text.len();
        Some((text, attributes))
    }

    // Takes the next blanks in the same way, where no written cell is left.
    fn pass_blanks(&mut self, most: usize) -> Option<(&'a str, &'a CellAttributes)>
        ensures left { MatchOption result (cells_left self.new ≡ cells_left self.old) (λ run.
            cells_left self.old ≡ visible_each (next_column self.old) run.0.now run.1.now ++ cells_left self.new) }
        ensures some { IfSome result (λ run. (0 < length run.0.now) × (length run.0.now ≤ most)) }
        ensures printable { IfSome result (λ run. list_all is_printable run.0.now ≡ true) }
    {
        if !self.texts.is_empty() {
            return None;
        }
        let count = self.blanks.min(most).min(64);
        if count == 0 {
            return None;
        }
        self.blanks -= count;
        self.column += count;
        Some((spaces(count), self.rest))
    }
}

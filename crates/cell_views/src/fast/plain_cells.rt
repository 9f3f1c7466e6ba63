//! Plain cells of equal attributes that are passed at once, as one text.
ghost use Rattle.std.specs.Prelude.{◌≡◌, ◌<◌, ◌≤◌, ◌++◌, true, length, IfSome, MatchOption};
ghost use Rattle.std.specs.List.{list_all};
ghost use Rattle.text_clusters.specs.Plain.{is_printable};
ghost use Rattle.cell_edits.specs.VisibleCells.{first_column, visible_each};
ghost use Rattle.cell_views.specs.CellRefView.{cells_left, left_of_clustered};
ghost use Rattle.cell_views.specs.Region.{region_left};

use crate::region::RegionIter;
use crate::visible_cells::{ClusteredLeft, Left, VisibleCellIter};
use cell_base::CellAttributes;

impl<'a> ClusteredLeft<'a> {
    // Takes the next printable ASCII characters of the row, as `ClusteredCells::pass_plain` does; it leaves the half.
    fn pass_plain(&mut self, most: usize) -> Option<(&'a str, &'a CellAttributes)>
        ensures left { MatchOption result (left_of_clustered self.new ≡ left_of_clustered self.old)
            (λ run. left_of_clustered self.old
            ≡ visible_each (first_column (left_of_clustered self.old)) run.0.now run.1.now
            ++ left_of_clustered self.new) }
        ensures some { IfSome result (λ run. (0 < length run.0.now) × (length run.0.now ≤ most)) }
        ensures printable { IfSome result (λ run. list_all is_printable run.0.now ≡ true) }
    {
        self.cells.pass_plain(most)
    }
}

impl<'a> VisibleCellIter<'a> {
    /// Takes the next printable ASCII characters (20h to 7Eh), at most `most`, as far as each is a cell of one column,
    /// all have the same attributes, and they are kept side by side. `None`: the next cell is no such character,
    /// `most` is 0, or no cell is left.
    pub fn pass_plain(&mut self, most: usize) -> Option<(&'a str, &'a CellAttributes)>
        ensures left { MatchOption result (cells_left self.new ≡ cells_left self.old)
            (λ run. cells_left self.old
            ≡ visible_each (first_column (cells_left self.old)) run.0.now run.1.now ++ cells_left self.new) }
        ensures some { IfSome result (λ run. (0 < length run.0.now) × (length run.0.now ≤ most)) }
        ensures printable { IfSome result (λ run. list_all is_printable run.0.now ≡ true) }
    {
        match &mut self.left {
            Left::Cells(_) => None,
            Left::Clustered(cells) => cells.pass_plain(most),
        }
    }
}

impl<'a> RegionIter<'a> {
    /// Takes the next printable ASCII characters (20h to 7Eh), at most `most`, as far as each is a cell of one column,
    /// all have the same attributes, and they are kept side by side. `None`: the next cell is no such character,
    /// `most` is 0, or no cell is left.
    pub fn pass_plain(&mut self, most: usize) -> Option<(&'a str, &'a CellAttributes)>
        ensures left { MatchOption result (region_left self.new ≡ region_left self.old)
            (λ run. region_left self.old
            ≡ visible_each (first_column (region_left self.old)) run.0.now run.1.now ++ region_left self.new) }
        ensures some { IfSome result (λ run. (0 < length run.0.now) × (length run.0.now ≤ most)) }
        ensures printable { IfSome result (λ run. list_all is_printable run.0.now ≡ true) }
    {
        if self.half.is_some() {
            return None;
        }
        self.cells.pass_plain(most)
    }
}

//! Laws of changes: each is the contract of a function that does nothing.
ghost use Rattle.std.specs.Prelude.{◌≡◌, ◌↔◌, ℕ, List, [], ◌∷◌, ◌++◌, true, map, IsTrue};
ghost use Rattle.std.specs.List.{flat_map, concat};
ghost use Rattle.unicode_segmentation.specs.Grapheme.{graphemes};
ghost use Rattle.cell_base.specs.CellContent.{CellContent};
ghost use Rattle.screen_change.specs.CellChanges.{cells_written, last_pen};
ghost use Rattle.screen_change.specs.Texts.{texts};
ghost use Rattle.screen_change.specs.ValueOf.{value_of};
ghost use Rattle.screen_change.specs.Written.{Written, finished, with_cells};

use crate::change::Change;

/// Texts of cells that are written joined, or one by one, are the cells' texts: their bytes are the same; and where the
/// text of each cell is one cluster (UAX 29), their clusters are the cells' texts.
pub fn joined_texts_show_the_cells()
    ensures bytes { (cells : List (List ℕ)) → concat (texts cells) ≡ concat cells }
    ensures clusters { (cells : List (List ℕ)) → map (graphemes true) cells ≡ map (λ cell. cell ∷ []) cells
        → flat_map (graphemes true) (texts cells) ≡ cells }
{}

/// A writer that has no open cells turns cells pushed one after another into the changes that write
/// the cells by their runs, after the changes that it had; its pen after them is that of the last
/// cell.
pub fn pushed_cells_are_written_by_runs()
    ensures changes { (written : Written) (cells : List CellContent) → written.cells ≡ []
        → finished (with_cells written cells) ≡ written.changes ++ cells_written written.pen cells }
    ensures pen { (written : Written) (cells : List CellContent)
        → (with_cells written cells).pen ≡ last_pen written.pen cells }
{}

/// Two changes are equal where their values are, whatever pointers and capacities they have.
pub fn equality_is_by_value(a: &Change, b: &Change) -> bool
    ensures { IsTrue result ↔ (value_of a.now ≡ value_of b.now) }
{
    *a == *b
}

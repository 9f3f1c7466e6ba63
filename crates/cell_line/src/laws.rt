//! Laws of the definitions: the cut of a line into clusters, the results of some edits and queries
//! of lines, and comparisons. Each is the contract of a function that does nothing but compare.
ghost use Rattle.std.specs.Prelude.{◌≡◌, ◌↔◌, IsTrue, ℕ, ◌+◌, ◌<◌, ◌≤◌, ◌++◌, suc, nat_le, List, [], ◌∷◌, Bool, true};
ghost use Rattle.std.specs.Prelude.{false, codes, length, replicate};
ghost use Rattle.std.specs.List.{flat_map};
ghost use Rattle.cell_base.specs.AttributeValueOf.{attribute_value};
ghost use Rattle.cell_base.specs.Attributes.{plain};
ghost use Rattle.cell_base.specs.CellContent.{CellContent};
ghost use Rattle.cell_base.specs.Row.{Narrow, Row, set_columns};
ghost use Rattle.cell_base.specs.WholeRow.{IsWhole};
ghost use Rattle.cell_base.specs.declared.ranges.DoubleClickRange.TheVariants.{Range, RangeWithWrap};
ghost use Rattle.cell_line.specs.LineContent.{line_of, clustered_line_of};
ghost use Rattle.cell_edits.specs.CellList.{cell_columns};
ghost use Rattle.cell_edits.specs.RowEdits.{cut, cut_prefix, with_cell, overlaid, filled};
ghost use Rattle.cell_line.specs.LineCalls.{new, resize, wrap, split_off_kept, split_off, append_line};
ghost use Rattle.cell_line.specs.LineCalls.{compute_double_click_range, columns_as_str, columns_as_line, set_cell};
ghost use Rattle.cell_line.specs.LineCalls.{insert_cell, remove_cell, erase_cell, erase_cell_with_margin};
ghost use Rattle.cell_line.specs.LineCalls.{prune_trailing_blanks, fill_range, as_str};
ghost use Rattle.cell_views.specs.Groups.{groups_by, AreGroupsOf};
ghost use Rattle.cell_edits.specs.VisibleCells.{VisibleCell, visible_cells, visible_from, row_of_visible};
ghost use Rattle.cell_views.specs.Words.{columns_between};
ghost use Rattle.cell_line.specs.SemanticOrder.{rank};
ghost use Rattle.cell_line.specs.Samples.{letters, wide_letter, letter_cell, is_word};

use crate::line::Line;
use cell_base::{AttributeChange, SemanticType};

/// The order of semantic types: output is less than input, and input is less than prompt.
pub fn semantic_types_are_in_order(one: SemanticType, other: SemanticType) -> bool
    ensures { IsTrue result ↔ (rank one < rank other) }
{
    one < other
}

/// Changes of attributes are equal where they set one attribute to one value, links to equal ones.
pub fn attribute_changes_are_equal_by_value(one: &AttributeChange, other: &AttributeChange) -> bool
    ensures { IsTrue result ↔ (attribute_value one.now ≡ attribute_value other.now) }
{
    one == other
}

/// The columns of a line are whole: each left half has its right half after it, and there is no
/// other right half. So the columns of its visible cells are its columns.
pub fn lines_are_whole(line: &Line)
    ensures whole { IsWhole line.now.columns }
    ensures row { row_of_visible (visible_cells line.now.columns) ≡ line.now.columns }
{
    let _count = line.len();
}

/// The columns of the visible cells of a whole row are the row; and the visible cells of a row in
/// which columns were set are the cells before these columns, their cells, and the cells after them.
pub fn rows_and_their_cells()
    ensures row { (row : Row) → IsWhole row → row_of_visible (visible_cells row) ≡ row }
    ensures joined { (at : ℕ) (first : Row) (second : Row)
        → visible_from at (first ++ second) ≡ visible_from at first ++ visible_from (at + length first) second }
    ensures set { (row : Row) (at : ℕ) (columns : Row) → at ≤ length row
        → visible_cells (set_columns row at columns)
        ≡ visible_cells (cut at row) ++ visible_from at columns
        ++ visible_from (at + length columns) (cut_prefix (at + length columns) row) }
{}

/// Within a row, setting a cell sets its columns. Setting cells side by side sets their columns at
/// once, and so does setting a cell of one column at each column of a range.
pub fn cells_set_within()
    ensures one { (row : Row) (at : ℕ) (cell : CellContent) → at + length (cell_columns cell) ≤ length row
        → with_cell row at cell ≡ set_columns row at (cell_columns cell) }
    ensures next { (row : Row) (at : ℕ) (cell : CellContent) (cells : List CellContent)
        → at + length (cell_columns cell) ≤ length row
        → overlaid row at (cell ∷ cells)
        ≡ overlaid (set_columns row at (cell_columns cell)) (at + length (cell_columns cell)) cells }
    ensures side_by_side { (row : Row) (at : ℕ) (cells : List CellContent) → 0 < length cells
        → at + length (flat_map cell_columns cells) ≤ length row
        → overlaid row at cells ≡ set_columns row at (flat_map cell_columns cells) }
    ensures len { (row : Row) (at : ℕ) (cells : List CellContent)
        → at + length (flat_map cell_columns cells) ≤ length row → length (overlaid row at cells) ≡ length row }
    ensures same { (row : Row) (start : ℕ) (count : ℕ) (cell : CellContent) → nat_le 2 cell.width ≡ false
        → start + suc count ≤ length row
        → filled row start (suc count) cell
        ≡ set_columns row start (replicate (suc count) (Narrow cell.text cell.attributes)) }
{}

/// Whatever the rule, the groups of cells are a cut of them by that rule, and there is no other: so
/// for clusters, for zones and for the rows of a wrapped line.
pub fn groups_are_the_one_cut()
    ensures cut { (begins : List VisibleCell → VisibleCell → Bool) (cells : List VisibleCell)
        → AreGroupsOf begins cells (groups_by begins cells) }
    ensures one { (begins : List VisibleCell → VisibleCell → Bool) (cells : List VisibleCell)
        (groups : List (List VisibleCell)) → AreGroupsOf begins cells groups → groups ≡ groups_by begins cells }
{}

/// A law, which needs no call: a line that is cut leaves a blank for half of a wide cell, and one
/// that is too short ends in blanks.
pub fn resized_lines()
    ensures cut { resize (line_of 1 (letters (codes "a") ++ wide_letter)) 2 7 ≡ line_of 7 (letters (codes "a ")) }
    ensures padded { resize (line_of 9 (letters (codes "a"))) 3 7 ≡ line_of 9 (letters (codes "a  ")) }
{}

/// A law, which needs no call: a cell that is set on half of a wide one leaves a blank for the
/// other half.
pub fn lines_with_a_cell()
    ensures left { set_cell (line_of 1 (letters (codes "a") ++ wide_letter)) 1 (letter_cell 120) 7
        ≡ line_of 7 (letters (codes "ax ")) }
    ensures right { set_cell (line_of 1 (letters (codes "a") ++ wide_letter)) 2 (letter_cell 120) 7
        ≡ line_of 7 (letters (codes "a x")) }
    ensures after { set_cell (new 1) 2 (letter_cell 120) 7 ≡ clustered_line_of 7 (letters (codes "  x")) }
{}

/// A law, which needs no call: the lines after cells are inserted, erased, removed, filled, cut off and joined.
pub fn edited_lines()
    ensures inserted { insert_cell (line_of 1 (letters (codes "abc"))) 1 (letter_cell 120) 3 7
        ≡ line_of 7 (letters (codes "axb")) }
    ensures erased { erase_cell (line_of 1 (letters (codes "abc"))) 0 7 ≡ line_of 7 (letters (codes "bc ")) }
    ensures removed { remove_cell (line_of 1 (letters (codes "abc"))) 0 7 ≡ line_of 7 (letters (codes "bc")) }
    ensures within { erase_cell_with_margin (line_of 1 (letters (codes "abc"))) 0 2 7 plain
        ≡ line_of 7 (letters (codes "b c")) }
    ensures filled { fill_range (line_of 1 (letters (codes "abcd"))) 1 3 (letter_cell 120) 7
        ≡ line_of 7 (letters (codes "axxd")) }
    ensures pruned { prune_trailing_blanks (line_of 1 (letters (codes "a  "))) 7 ≡ line_of 7 (letters (codes "a")) }
    ensures all_blank { prune_trailing_blanks (line_of 1 (letters (codes "  "))) 7 ≡ line_of 1 (letters (codes "  ")) }
    ensures kept { split_off_kept (line_of 1 (letters (codes "abcd"))) 1 ≡ line_of 1 (letters (codes "a")) }
    ensures split { split_off (line_of 1 (letters (codes "abcd"))) 1 7 ≡ line_of 7 (letters (codes "bcd")) }
    ensures joined { append_line (line_of 1 (letters (codes "ab"))) (line_of 9 (letters (codes "c"))) 7
        ≡ line_of 7 (letters (codes "abc")) }
{}

/// A law, which needs no call: a line that is wrapped goes on after each row but the last, and a
/// line of spaces stays as it is.
pub fn wrapped_lines()
    ensures rows { wrap (line_of 1 (letters (codes "abcd"))) 2 7
        ≡ line_of 7 (letters (codes "a") ++ Narrow (codes "b") (record plain { wrapped = true }) ∷ [])
        ∷ line_of 7 (letters (codes "cd")) ∷ [] }
    ensures spaces { wrap (line_of 1 (letters (codes "   "))) 2 7 ≡ line_of 1 (letters (codes "   ")) ∷ [] }
{}

/// A law, which needs no call: the texts and the columns of a range, and all texts.
pub fn parts_of_lines()
    ensures text { columns_as_str (line_of 1 (letters (codes "abcd"))) 1 3 ≡ codes "bc" }
    ensures line { columns_as_line (line_of 1 (letters (codes "abcd"))) 1 3 ≡ line_of 1 (letters (codes "bc")) }
    ensures whole { columns_as_line (line_of 1 (letters (codes "a") ++ wide_letter)) 1 2 ≡ line_of 1 wide_letter }
    ensures all { as_str (line_of 1 (letters (codes "abcd"))) ≡ codes "abcd" }
{}

/// A law, which needs no call: a double click selects a word, and nothing on a space or past the end.
pub fn double_clicked_words()
    ensures word { compute_double_click_range (line_of 1 (letters (codes "ab cd"))) 1 is_word
        ≡ Range (columns_between 0 2) }
    ensures space { compute_double_click_range (line_of 1 (letters (codes "ab cd"))) 2 is_word
        ≡ Range (columns_between 2 2) }
    ensures past { compute_double_click_range (line_of 1 (letters (codes "ab cd"))) 5 is_word
        ≡ Range (columns_between 5 5) }
    ensures wide { compute_double_click_range (line_of 1 (letters (codes "a") ++ wide_letter ++ letters (codes "b c")))
        2 is_word ≡ Range (columns_between 0 4) }
    ensures goes_on { compute_double_click_range
        (line_of 1 (letters (codes "ab c") ++ Narrow (codes "d") (record plain { wrapped = true }) ∷ [])) 4 is_word
        ≡ RangeWithWrap (columns_between 3 5) }
{}

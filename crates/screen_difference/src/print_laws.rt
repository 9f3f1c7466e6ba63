//! Laws of what changes print, and where; a difference prints the fresh cells and no others. Each is the contract of a
//! function that does nothing.
ghost use Rattle.std.specs.Prelude.{◌≡◌, ℕ, ◌++◌, false, List, map, All};
ghost use Rattle.cell_base.specs.Row.{row_text, space};
ghost use Rattle.cell_base.specs.Screen.{Screen, cluster_columns, height, put, write_columns};
ghost use Rattle.screen_change.specs.ChangeValue.{ChangeValue};
ghost use Rattle.cell_base.specs.WholeRow.{IsWhole};
ghost use Rattle.screen_difference.specs.Difference.{difference};
ghost use Rattle.screen_difference.specs.DrawnCells.{HavePositions};
ghost use Rattle.screen_difference.specs.FreshCells.{PlacedCell, screen_fresh};
ghost use Rattle.screen_effects.specs.Display.{Display, IsDisplay};
ghost use Rattle.screen_effects.specs.Effect.{replay};
ghost use Rattle.screen_difference.specs.Prints.{changes_print, text_of, text_put, texts_scroll, wrapped_for};
ghost use Rattle.screen_effects.specs.WrittenCells.{IsSoundRow};

/// The changes that write cells print the text of each at its position, once and in turn, and nothing
/// else; and none of their texts scrolls. So does a difference of screens of one size, whose new rows are whole, with
/// sound texts: it prints the fresh cells.
pub fn differences_print_the_fresh_cells()
    ensures cells { (width_of : List ℕ → ℕ) (display : Display) (cells : List PlacedCell) → IsDisplay display
        → HavePositions width_of display.screen.width (height display.screen) cells
        → changes_print width_of display (difference cells) ≡ map text_of cells }
    ensures still { (width_of : List ℕ → ℕ) (display : Display) (cells : List PlacedCell) → IsDisplay display
        → HavePositions width_of display.screen.width (height display.screen) cells
        → texts_scroll width_of display (difference cells) ≡ false }
    ensures screens { (width_of : List ℕ → ℕ) (display : Display) (new : Screen) → width_of space ≡ 1
        → IsDisplay display → All IsWhole new.rows → All (IsSoundRow width_of) new.rows
        → changes_print width_of display (difference (screen_fresh display.screen new))
        ≡ map text_of (screen_fresh display.screen new) }
    ensures screens_still { (width_of : List ℕ → ℕ) (display : Display) (new : Screen) → width_of space ≡ 1
        → IsDisplay display → All IsWhole new.rows → All (IsSoundRow width_of) new.rows
        → texts_scroll width_of display (difference (screen_fresh display.screen new)) ≡ false }
{}

/// A printed text is where its cluster is put: at the cursor, or at the start of the next row where it doesn't
/// fit.
pub fn texts_stand_where_they_are_put()
    ensures position { (width_of : List ℕ → ℕ) (screen : Screen) (cluster : List ℕ)
        → put width_of screen cluster
        ≡ write_columns (cluster_columns width_of screen cluster) (wrapped_for width_of screen cluster) }
    ensures text { (width_of : List ℕ → ℕ) (screen : Screen) (cluster : List ℕ)
        → row_text (cluster_columns width_of screen cluster) ≡ text_put width_of screen cluster }
{}

/// Two joined lists of changes print what the first list prints, and then what the second prints after it.
pub fn prints_join()
    ensures prints { (width_of : List ℕ → ℕ) (display : Display) (first : List ChangeValue) (second : List ChangeValue)
        → changes_print width_of display (first ++ second)
        ≡ changes_print width_of display first ++ changes_print width_of (replay width_of display first) second }
    ensures still { (width_of : List ℕ → ℕ) (display : Display) (first : List ChangeValue) (second : List ChangeValue)
        → texts_scroll width_of display first ≡ false
        → texts_scroll width_of (replay width_of display first) second ≡ false
        → texts_scroll width_of display (first ++ second) ≡ false }
{}

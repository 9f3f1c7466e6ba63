//! Laws of differences: they show the new side, and print its cells. Each is the contract of a function that does
//! nothing.
ghost use Rattle.std.specs.Prelude.{◌≡◌, ℕ, List, [], ◌∷◌, true, map, All};
ghost use Rattle.unicode_segmentation.specs.Grapheme.{graphemes};
ghost use Rattle.cell_base.specs.Row.{Row, space};
ghost use Rattle.cell_base.specs.Screen.{Screen, IsScreen, height};
ghost use Rattle.cell_base.specs.WholeRow.{IsWhole};
ghost use Rattle.screen_difference.specs.Difference.{difference};
ghost use Rattle.screen_difference.specs.DrawnCells.{all_drawn, printed, HavePositions};
ghost use Rattle.screen_difference.specs.FreshCells.{PlacedCell, lines_fresh, region_fresh, screen_fresh};
ghost use Rattle.screen_difference.specs.Redrawn.{KeepsRest, ShowsLines, ShowsRegion};
ghost use Rattle.screen_effects.specs.Display.{Display, IsDisplay};
ghost use Rattle.screen_effects.specs.Effect.{on_screen, replay};
ghost use Rattle.screen_effects.specs.WrittenCells.{IsSoundRow};

/// The changes that write cells draw each of them at its position, in turn, and change only rows, the
/// cursor's position and the pen. The fresh cells of rows whose texts are sound have their positions.
pub fn differences_draw_their_cells()
    ensures drawn { (width_of : List ℕ → ℕ) (display : Display) (cells : List PlacedCell) → IsDisplay display
        → HavePositions width_of display.screen.width (height display.screen) cells
        → replay width_of display (difference cells) ≡ on_screen (all_drawn cells) display }
    ensures remaining { (width_of : List ℕ → ℕ) (display : Display) (cells : List PlacedCell) → IsDisplay display
        → HavePositions width_of display.screen.width (height display.screen) cells
        → KeepsRest display (replay width_of display (difference cells)) }
    ensures region { (width_of : List ℕ → ℕ) (screen : Screen) (x : ℕ) (y : ℕ) (width : ℕ) (rows : ℕ) (news : List Row)
        (other_x : ℕ) (other_y : ℕ) → width_of space ≡ 1 → IsScreen screen → All IsWhole news
        → All (IsSoundRow width_of) news
        → HavePositions width_of screen.width (height screen)
        (region_fresh screen.rows x y width rows news other_x other_y) }
    ensures lines { (width_of : List ℕ → ℕ) (screen : Screen) (y : ℕ) (news : List Row) → width_of space ≡ 1
        → IsScreen screen → All IsWhole news → All (IsSoundRow width_of) news
        → HavePositions width_of screen.width (height screen) (lines_fresh screen.rows y news) }
{}

/// A difference, replayed on the old side, leaves in the region what the new side shows there, where
/// a cell that the region's edge cuts counts as a blank on both sides; outside of it only halves of
/// wide cells across its edge change. For screens of one size the rows become the new ones. This needs new
/// rows that are whole, with sound texts.
pub fn differences_show_the_new_side()
    ensures region { (width_of : List ℕ → ℕ) (display : Display) (x : ℕ) (y : ℕ) (width : ℕ) (rows : ℕ)
        (news : List Row) (other_x : ℕ) (other_y : ℕ) → width_of space ≡ 1 → IsDisplay display → All IsWhole news
        → All (IsSoundRow width_of) news
        → ShowsRegion x y width rows news other_x other_y display.screen.rows
        (replay width_of display
        (difference (region_fresh display.screen.rows x y width rows news other_x other_y))).screen.rows }
    ensures lines { (width_of : List ℕ → ℕ) (display : Display) (y : ℕ) (news : List Row) → width_of space ≡ 1
        → IsDisplay display → All IsWhole news → All (IsSoundRow width_of) news
        → ShowsLines y news display.screen.rows
        (replay width_of display (difference (lines_fresh display.screen.rows y news))).screen.rows }
    ensures screens { (width_of : List ℕ → ℕ) (display : Display) (new : Screen) → width_of space ≡ 1
        → IsDisplay display → IsScreen new → new.width ≡ display.screen.width → height new ≡ height display.screen
        → All IsWhole new.rows → All (IsSoundRow width_of) new.rows
        → (replay width_of display (difference (screen_fresh display.screen new))).screen.rows ≡ new.rows }
{}

/// The clusters (UAX 29) of the texts of a difference are the texts of its cells, each once and in
/// order, where each text by itself is one cluster; so are those of a difference of screens.
pub fn differences_print_their_cells()
    ensures cells { (cells : List PlacedCell)
        → map (graphemes true) (map (λ c. c.cell.text) cells) ≡ map (λ text. text ∷ []) (map (λ c. c.cell.text) cells)
        → printed (difference cells) ≡ map (λ c. c.cell.text) cells }
    ensures screens { (width_of : List ℕ → ℕ) (old : Screen) (new : Screen) → width_of space ≡ 1 → IsScreen old
        → All IsWhole new.rows → All (IsSoundRow width_of) new.rows
        → printed (difference (screen_fresh old new)) ≡ map (λ c. c.cell.text) (screen_fresh old new) }
{}

//! Laws of the functions of the profile "xterm": the screen after each of them can follow the screen before it. Each is
//! the contract of a function that does nothing. That each cell of that screen has an encoding where those before it
//! have one is a lemma of `proofs/FollowLemmas`, for any property of columns.
ghost use Rattle.std.specs.Prelude.{◌≡◌, ◌≤◌, ℕ, List};
ghost use Rattle.cell_base.specs.Row.{space};
ghost use Rattle.cell_base.specs.Screen.{Screen};
ghost use Rattle.xterm_table.specs.Displays.{display_end_erased, display_start_erased};
ghost use Rattle.xterm_table.specs.Follows.{Follows};
ghost use Rattle.xterm_table.specs.RowEdits.{characters_deleted, characters_erased, characters_inserted};
ghost use Rattle.xterm_table.specs.RowEdits.{columns_erased, line_end_erased, line_start_erased};
ghost use Rattle.xterm_table.specs.RowMoves.{line_fed, lines_deleted, lines_inserted, next_line, reverse_line_fed};
ghost use Rattle.xterm_table.specs.RowMoves.{rows_down, rows_up};

/// ECH, EL and any erasure of columns keep a screen lawful, with whole rows and sound cells.
pub fn erasures_follow()
    ensures columns { (width_of : List ℕ → ℕ) (before : Screen) (screen : Screen) (start : ℕ) (finish : ℕ)
        → width_of space ≡ 1 → start ≤ finish → finish ≤ screen.width → Follows width_of before screen
        → Follows width_of before (columns_erased start finish screen) }
    ensures characters { (width_of : List ℕ → ℕ) (before : Screen) (screen : Screen) (count : ℕ)
        → width_of space ≡ 1 → Follows width_of before screen
        → Follows width_of before (characters_erased count screen) }
    ensures line_end { (width_of : List ℕ → ℕ) (before : Screen) (screen : Screen) → width_of space ≡ 1
        → Follows width_of before screen → Follows width_of before (line_end_erased screen) }
    ensures line_start { (width_of : List ℕ → ℕ) (before : Screen) (screen : Screen) → width_of space ≡ 1
        → Follows width_of before screen → Follows width_of before (line_start_erased screen) }
{}

/// ICH and DCH do.
pub fn column_moves_follow()
    ensures inserted { (width_of : List ℕ → ℕ) (before : Screen) (screen : Screen) (count : ℕ)
        → width_of space ≡ 1 → Follows width_of before screen
        → Follows width_of before (characters_inserted count screen) }
    ensures deleted { (width_of : List ℕ → ℕ) (before : Screen) (screen : Screen) (count : ℕ)
        → width_of space ≡ 1 → Follows width_of before screen
        → Follows width_of before (characters_deleted count screen) }
{}

/// Moves of rows do: SU and SD between margins, IL and DL, and LF, IND, NEL and RI.
pub fn row_moves_follow()
    ensures up { (width_of : List ℕ → ℕ) (before : Screen) (screen : Screen) (first : ℕ) (size : ℕ) (count : ℕ)
        → width_of space ≡ 1 → Follows width_of before screen
        → Follows width_of before (rows_up first size count screen) }
    ensures down { (width_of : List ℕ → ℕ) (before : Screen) (screen : Screen) (first : ℕ) (size : ℕ) (count : ℕ)
        → width_of space ≡ 1 → Follows width_of before screen
        → Follows width_of before (rows_down first size count screen) }
    ensures inserted { (width_of : List ℕ → ℕ) (before : Screen) (screen : Screen) (bottom : ℕ) (count : ℕ)
        → width_of space ≡ 1 → Follows width_of before screen
        → Follows width_of before (lines_inserted bottom count screen) }
    ensures deleted { (width_of : List ℕ → ℕ) (before : Screen) (screen : Screen) (bottom : ℕ) (count : ℕ)
        → width_of space ≡ 1 → Follows width_of before screen
        → Follows width_of before (lines_deleted bottom count screen) }
    ensures line_feed { (width_of : List ℕ → ℕ) (before : Screen) (screen : Screen) (top : ℕ) (bottom : ℕ)
        → width_of space ≡ 1 → Follows width_of before screen
        → Follows width_of before (line_fed top bottom screen) }
    ensures reverse { (width_of : List ℕ → ℕ) (before : Screen) (screen : Screen) (top : ℕ) (bottom : ℕ)
        → width_of space ≡ 1 → Follows width_of before screen
        → Follows width_of before (reverse_line_fed top bottom screen) }
    ensures next_line { (width_of : List ℕ → ℕ) (before : Screen) (screen : Screen) (top : ℕ) (bottom : ℕ)
        → width_of space ≡ 1 → Follows width_of before screen
        → Follows width_of before (next_line top bottom screen) }
{}

/// ED does.
pub fn display_erasures_follow()
    ensures display_end { (width_of : List ℕ → ℕ) (before : Screen) (screen : Screen) → width_of space ≡ 1
        → Follows width_of before screen → Follows width_of before (display_end_erased screen) }
    ensures display_start { (width_of : List ℕ → ℕ) (before : Screen) (screen : Screen) → width_of space ≡ 1
        → Follows width_of before screen → Follows width_of before (display_start_erased screen) }
{}

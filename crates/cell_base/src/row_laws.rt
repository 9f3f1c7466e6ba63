//! Laws of rows and screens: halves come in pairs, also after columns are set. Each is the contract of a function that
//! does nothing.
ghost use Rattle.std.specs.Prelude.{◌≡◌, ℕ, ◌+◌, ◌<◌, ◌≤◌, ◌++◌, List, length};
ghost use Rattle.cell_base.specs.Row.{Row, set_columns};
ghost use Rattle.cell_base.specs.Screen.{Screen, IsScreen, new_screen, scrolled, line_feed, carriage_return};
ghost use Rattle.cell_base.specs.Screen.{write_columns, put};
ghost use Rattle.cell_base.specs.WholeRow.{IsWhole};

/// Columns set within a row keep its length; whole columns set in a whole row keep it whole; and
/// columns set right after whole columns are set together with these.
pub fn columns_set_within()
    ensures len { (row : Row) (at : ℕ) (columns : Row) → at + length columns ≤ length row
        → length (set_columns row at columns) ≡ length row }
    ensures whole { (row : Row) (at : ℕ) (columns : Row) → IsWhole row → IsWhole columns
        → IsWhole (set_columns row at columns) }
    ensures again { (row : Row) (at : ℕ) (first : Row) (second : Row) → at + length first ≤ length row → IsWhole first
        → set_columns (set_columns row at first) (at + length first) second ≡ set_columns row at (first ++ second) }
{}

/// A new screen is lawful, and each operation on a lawful screen keeps it lawful.
pub fn screens_stay_lawful()
    ensures new { (width : ℕ) (height : ℕ) → 0 < width → 0 < height → IsScreen (new_screen width height) }
    ensures scrolled { (screen : Screen) → IsScreen screen → IsScreen (scrolled screen) }
    ensures line_feed { (screen : Screen) → IsScreen screen → IsScreen (line_feed screen) }
    ensures carriage_return { (screen : Screen) → IsScreen screen → IsScreen (carriage_return screen) }
    ensures written { (screen : Screen) (columns : Row) → IsScreen screen
        → screen.column + length columns ≤ screen.width → IsScreen (write_columns columns screen) }
    ensures put { (width_of : List ℕ → ℕ) (screen : Screen) (cluster : List ℕ) → IsScreen screen
        → IsScreen (put width_of screen cluster) }
{}

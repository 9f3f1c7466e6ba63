//! Laws of what is logged as the difference of two screens: it leads from the one to the other. Each is the contract of
//! a function that does nothing.
ghost use Rattle.std.specs.Prelude.{◌≡◌, ℕ, List};
ghost use Rattle.cell_base.specs.Row.{space};
ghost use Rattle.cell_base.specs.Screen.{Screen};
ghost use Rattle.screen_effects.specs.Display.{Display, IsDisplay};
ghost use Rattle.screen_effects.specs.Effect.{replay};
ghost use Rattle.terminal_table.specs.Functions.{ControlFunction};
ghost use Rattle.terminal_table.specs.Led.{led, led_behind, led_with_title};
ghost use Rattle.terminal_table.specs.State.{State, IsState};
ghost use Rattle.terminal_table.specs.Steps.{step};
ghost use Rattle.terminal_table.specs.Turns.{Turns};
ghost use Rattle.xterm_table.specs.Follows.{Follows};

use screen_difference::laws::{differences_draw_their_cells, differences_show_the_new_side};

/// What is logged for two screens, replayed on any display of the first, leaves that display with the second: its
/// rows, its cursor with a wrap that may be pending, the cursor's visibility, its pen and its title. The sizes of rows
/// and the cursor's shape stay. A space takes one column, and each cell of the second screen has a text that is by
/// itself one cluster (UAX 29) without C0 controls and DEL, and the columns that this text takes.
pub fn logged_differences_lead_to_the_screen()
    ensures led { (width_of : List ℕ → ℕ) (display : Display) (after : Screen) → width_of space ≡ 1
        → IsDisplay display → Follows width_of display.screen after → after.title ≡ display.screen.title
        → replay width_of display (led display.screen after) ≡ record display { screen = after } }
    ensures titled { (width_of : List ℕ → ℕ) (display : Display) (after : Screen) → width_of space ≡ 1
        → IsDisplay display → Follows width_of display.screen after
        → replay width_of display (led_with_title display.screen after) ≡ record display { screen = after } }
{
    differences_draw_their_cells();
    differences_show_the_new_side();
}

/// The changes of a control function, as a scroll of all rows, and then those that lead on from the screen that it
/// leaves, turn a display that shows the state's screen into one that shows the last screen.
pub fn functions_and_differences_lead_to_the_screen()
    ensures { (width_of : List ℕ → ℕ) (function : ControlFunction) (state : State) (display : Display)
        (after : Screen) → IsState width_of state → IsDisplay display → display.screen ≡ state.screen
        → Follows width_of (step function state).screen after → after.title ≡ (step function state).screen.title
        → Turns display (replay width_of display (led_behind function state.saved state.screen after)) after }
{
    differences_draw_their_cells();
    differences_show_the_new_side();
}

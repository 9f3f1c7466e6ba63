//! A screen test: a program's output is fed to a terminal, and the screen is compared with what it should be.
use cell_surface::Surface;
use std::alloc::{AllocError, Global};
use std::fmt::Write;
use terminal::{ProgramWidth, Terminal, TerminalError};

/// What a dialog writes: its rows, with the title in bold and the first button reversed, and the cursor's position.
const OUTPUT: &[u8] = b"\x1b[2J\
    \x1b[1;1H+------\x1b[1m Quit? \x1b[0m------+\
    \x1b[2;1H| Save your text?   |\
    \x1b[3;1H|  \x1b[7m< Yes >\x1b[0m   < No > |\
    \x1b[4;1H+-------------------+\
    \x1b[3;6H";

/// The rows that it should leave.
const ROWS: &str = "\
+------ Quit? ------+
| Save your text?   |
|  < Yes >   < No > |
+-------------------+
";

/// Where it should leave the cursor: its column and its row, counted from 0.
const CURSOR: (usize, usize) = (5, 2);

// Whether a cell is shown in reverse video.
fn is_reversed(surface: &Surface<ProgramWidth>, column: usize, row: usize) -> bool {
    let Some(line) = surface.screen_lines().get(row) else {
        return false;
    };
    match line.get_cell(column) {
        Some(cell) => cell.attrs().reverse(),
        None => false,
    }
}

// What is wrong with the dialog's screen, if anything is.
fn fault_of(surface: &Surface<ProgramWidth>, rows: &str) -> Option<&'static str> {
    if rows != ROWS {
        return Some("the rows differ");
    }
    let (column, row) = surface.cursor_position();
    if (column, row) != CURSOR {
        return Some("the cursor is elsewhere");
    }
    if !is_reversed(surface, column, row) {
        return Some("the button under the cursor isn't reversed");
    }
    None
}

// Writes the rows of the dialog's screen, and what is wrong with it.
fn report(surface: &Surface<ProgramWidth>, page: &mut String) -> Result<(), AllocError> {
    let rows = surface.screen_chars_to_string()?;
    let outcome = fault_of(surface, &rows).unwrap_or("ok");
    writeln!(page, "{rows}{outcome}")
}

/// Tests the dialog's screen.
pub fn example(alloc: Global, page: &mut String) -> Result<(), TerminalError> {
    page.push_str("A screen test\n\n")?;
    let mut terminal = Terminal::new(alloc, 21, 4, ProgramWidth)?;
    terminal.feed(OUTPUT)?;
    terminal.settle()?;
    report(terminal.surface(), page)?;
    Ok(())
}

//! A terminal that is resized repeatedly.
ghost use Rattle.cell_base.specs.ScreenSize.{IsScreenSize};

use std::alloc::Global;
use terminal::{ProgramWidth, Terminal};

// The sizes in turn: columns and rows.
fn size(number: u32) -> (usize, usize)
    ensures { IsScreenSize result.0 result.1 }
{
    match number % 4 {
        0 => (132, 50),
        1 => (1, 4096),
        2 => (4096, 1),
        _ => (80, 24),
    }
}

/// Feeds the input to a terminal and then resizes it, `count` times, and returns the length of the rows at the end.
pub fn resizes(alloc: Global, input: &[u8], count: u32) -> Option<u64> {
    let mut terminal = Terminal::new(alloc, 80, 24, ProgramWidth).ok()?;
    for number in 0..count {
        terminal.feed(input).ok()?;
        let (width, height) = size(number);
        terminal.resize(width, height).ok()?;
    }
    let rows = terminal.surface().screen_chars_to_string().ok()?;
    Some(rows.len() as u64)
}

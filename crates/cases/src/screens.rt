//! Screens of a terminal that has read some bytes.
use crate::escapes;
use crate::fault::Fault;
use crate::row::Row;
use crate::sheet::Sheet;
use crate::terminals::{Seen, say_torn, terminal_of};
use terminal::{ProgramWidth, Terminal};

type Plain = Terminal<ProgramWidth>;

// The rows of a terminal, its cursor's column and row, and its number.
fn say_screen(terminal: &Plain, sheet: &mut Sheet) -> Result<(), Fault> {
    let text = terminal.surface().screen_chars_to_string()?;
    let (column, row) = terminal.surface().cursor_position();
    sheet.word(text.as_str());
    sheet.column();
    sheet.show(&column);
    sheet.show(&row);
    sheet.column();
    sheet.show(&terminal.current_number());
    Ok(())
}

/// `WIDTH HEIGHT | BYTES => ROWS | COLUMN ROW | NUMBER`: what a terminal shows after some bytes, each row with `\n`
/// after it, its cursor and its number; whole, byte by byte, and cut in two at each position.
pub fn screen(row: &Row<'_>, sheet: &mut Sheet) -> Result<(), Fault> {
    let bytes = row.bytes(1)?;
    let whole = Seen::in_two(row.alloc(), row.column(0), &bytes, 0)?;
    say_screen(&whole.terminal, sheet)?;
    say_torn(row.alloc(), row.column(0), &bytes, &whole, sheet)?;
    Ok(())
}

// Feeds a chunk, or settles.
fn feed_chunk(terminal: &mut Plain, row: &Row<'_>, chunk: &str) -> Result<(), Fault> {
    if chunk == "<settle>" {
        terminal.settle()?;
    } else {
        let bytes = escapes::read(row.alloc(), chunk)?;
        terminal.feed(&bytes)?;
    }
    Ok(())
}

/// `WIDTH HEIGHT | PIECES => ROWS | COLUMN ROW | NUMBER`: what a terminal shows after chunks with ` + ` between them,
/// where `<settle>` calls `settle`; what is held at the end is not shown.
pub fn settled(row: &Row<'_>, sheet: &mut Sheet) -> Result<(), Fault> {
    let mut terminal = terminal_of(row.alloc(), row.column(0))?;
    for chunk in row.column(1).split(" + ") {
        feed_chunk(&mut terminal, row, chunk.trim())?;
    }
    say_screen(&terminal, sheet)
}

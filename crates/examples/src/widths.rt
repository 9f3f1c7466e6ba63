//! Custom widths: in an East Asian font many characters take two columns that take one in other fonts.
use std::alloc::Global;
use std::fmt::Write;
use terminal::{ProgramWidth, Terminal, TerminalError, Widths};
use unicode_width::UnicodeWidthStr;

/// The columns of a cluster where ambiguous characters (UAX 11) are wide.
#[derive(Clone, Copy, Debug, PartialEq, Eq)]
struct EastAsianWidth;

impl Widths for EastAsianWidth {
    ghost use Rattle.examples.specs.EastAsian.{east_asian_width, east_asian_width-at_most_two, east_asian_width-space};

    ghost width_of = { λ _ text. east_asian_width text };

    ghost at_most_two = { λ _ text. east_asian_width-at_most_two text };

    ghost space_is_one = { λ _. east_asian_width-space };

    fn width(&self, cluster: &str) -> u8 {
        cluster.width_cjk().min(2) as u8
    }
}

/// The Greek letters, the sign between them and the section sign are ambiguous.
const TEXT: &str = "α + β ≠ γ, see § 7";

// The rows of a terminal with these widths that was fed the text.
fn rows_of<W: Widths + Drop>(alloc: Global, widths: W) -> Result<String, TerminalError> {
    let mut terminal = Terminal::new(alloc, 14, 2, widths)?;
    terminal.feed(TEXT.as_bytes())?;
    terminal.settle()?;
    Ok(terminal.surface().screen_chars_to_string()?)
}

/// Shows the text in the standard widths, and beside it in East Asian widths.
pub fn example(alloc: Global, page: &mut String) -> Result<(), TerminalError> {
    page.push_str("\nWidths of one's own\n\n")?;
    let standard = rows_of(alloc, ProgramWidth)?;
    let own = rows_of(alloc, EastAsianWidth)?;
    for (row, own_row) in standard.lines().zip(own.lines()) {
        writeln!(page, "{row} | {own_row}")?;
    }
    Ok(())
}

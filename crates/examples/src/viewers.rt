//! A chain of two viewers: the first reads a terminal's updates, and the second reads patches from the first.
use std::alloc::{AllocError, Global};
use std::fmt::Write;
use terminal::{ProgramWidth, SequenceNo, Terminal, TerminalError};

/// What an application writes, a chunk at a time.
const CHUNKS: [&[u8]; 3] = [
    b"\x1b[1;31mred\x1b[0m and plain",
    b"\r\na second row",
    b"\x1b[1;1H\x1b[Kno more red",
];

type Screen = Terminal<ProgramWidth>;

/// A terminal, and two viewers of its size.
#[derive(Drop)]
struct Chain {
    terminal: Screen,
    near: Screen,
    far: Screen,
    /// The number of the terminal's changes that the first viewer has seen.
    seen: SequenceNo,
}

impl Chain {
    fn new(alloc: Global) -> Result<Chain, AllocError> {
        Ok(Chain {
            terminal: Terminal::new(alloc, 16, 2, ProgramWidth)?,
            near: Terminal::new(alloc, 16, 2, ProgramWidth)?,
            far: Terminal::new(alloc, 16, 2, ProgramWidth)?,
            seen: 0,
        })
    }

    // Sends the first viewer the terminal's changes that it hasn't seen; returns how many bytes that took.
    fn encode_update(&mut self) -> Result<usize, TerminalError> {
        let (number, bytes) = self.terminal.update(self.seen)?;
        self.near.feed(&bytes)?;
        self.seen = number;
        Ok(bytes.len())
    }

    // Sends the second viewer what it doesn't show yet of the first; returns how many bytes that took. A patch needs a
    // viewer of the same size that hasn't failed; any other viewer is sent the whole screen.
    fn send_patch(&mut self) -> Result<usize, TerminalError> {
        let is_same_size = self.far.surface().dimensions() == self.near.surface().dimensions();
        let (_, bytes) = if is_same_size && !self.far.is_failed() {
            self.near.patch(&self.far)?
        } else {
            self.near.update(0)?
        };
        self.far.feed(&bytes)?;
        Ok(bytes.len())
    }

    // Feeds the terminal a chunk, sends it along the chain, and writes whether both viewers show it.
    fn pass_on(&mut self, chunk: &[u8], page: &mut String) -> Result<(), TerminalError> {
        self.terminal.feed(chunk)?;
        let update = self.encode_update()?;
        let patch = self.send_patch()?;
        let is_shown = is_alike(&self.terminal, &self.near)?
            && is_alike(&self.terminal, &self.far)?;
        writeln!(
            page,
            "an update of {update} bytes and a patch of {patch}; shown by both: {is_shown}"
        )?;
        Ok(())
    }
}

// Whether two terminals show the same rows, with the cursor at the same position.
fn is_alike(terminal: &Screen, viewer: &Screen) -> Result<bool, AllocError> {
    let rows = terminal.surface().screen_chars_to_string()?;
    let shown = viewer.surface().screen_chars_to_string()?;
    Ok(shown == rows && viewer.surface().cursor_position() == terminal.surface().cursor_position())
}

/// Passes an application's output along the chain.
pub fn example(alloc: Global, page: &mut String) -> Result<(), TerminalError> {
    page.push_str("\nA chain of viewers\n\n")?;
    let mut chain = Chain::new(alloc)?;
    for chunk in CHUNKS {
        chain.pass_on(chunk, page)?;
    }
    Ok(())
}

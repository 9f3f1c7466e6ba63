//! A recorder: after each chunk of a program's output it keeps the bytes that bring a viewer up to date, where the
//! viewer has read all bytes kept before.
use std::alloc::{AllocError, Global};
use std::fmt::Write;
use terminal::{ProgramWidth, SequenceNo, Terminal, TerminalError};

/// A program's output, in the chunks in which it came: a counter in a row, colored at the end.
const CHUNKS: [&[u8]; 4] = [
    b"\x1b]2;Download\x07\x1b[2J\x1b[1;1Hfile.zip   0%",
    b"\x1b[1;12H40",
    b"\x1b[1;12H99",
    b"\x1b[1;11H\x1b[32m100%\x1b[0m\r\ndone",
];

/// What a viewer reads next.
#[derive(Drop)]
struct Frame {
    /// How many changes the viewer has seen once it has read the bytes.
    number: SequenceNo,
    bytes: Vec<u8>,
}

// Feeds a chunk, and returns the frame for a viewer that has seen the changes before the number `seen`.
fn next_frame(
    terminal: &mut Terminal<ProgramWidth>,
    chunk: &[u8],
    seen: SequenceNo,
) -> Result<Frame, TerminalError> {
    terminal.feed(chunk)?;
    let (number, bytes) = terminal.update(seen)?;
    // No later frame needs these changes.
    terminal.forget_before(number);
    Ok(Frame { number, bytes })
}

// The frames of all chunks.
fn record(alloc: Global) -> Result<Vec<Frame>, TerminalError> {
    let mut terminal = Terminal::new(alloc, 16, 2, ProgramWidth)?;
    let mut frames = Vec::new(alloc);
    let mut seen = 0;
    for chunk in CHUNKS {
        let frame = next_frame(&mut terminal, chunk, seen)?;
        seen = frame.number;
        frames.push(frame).map_err(AllocError::from)?;
    }
    Ok(frames)
}

// The rows that a viewer shows after it has read the frames.
fn play(alloc: Global, frames: &[Frame]) -> Result<String, TerminalError> {
    let mut viewer = Terminal::new(alloc, 16, 2, ProgramWidth)?;
    for frame in frames {
        viewer.feed(&frame.bytes)?;
    }
    Ok(viewer.surface().screen_chars_to_string()?)
}

// Writes bytes in printable ASCII, the escape character as `\e` and others by their code.
fn push_escaped(page: &mut String, bytes: &[u8]) -> Result<(), AllocError> {
    for byte in bytes {
        match *byte {
            0x1b => page.push_str("\\e")?,
            b' '..=b'~' => page.push(char::from(*byte))?,
            other => write!(page, "\\x{other:02x}")?,
        }
    }
    Ok(())
}

// Writes a line of a frame.
fn push_frame(page: &mut String, frame: &Frame) -> Result<(), AllocError> {
    write!(page, "{:>3} ", frame.number)?;
    push_escaped(page, &frame.bytes)?;
    page.push('\n')
}

/// Records the chunks, and plays what was recorded.
pub fn example(alloc: Global, page: &mut String) -> Result<(), TerminalError> {
    page.push_str("\nA recorder\n\n")?;
    let frames = record(alloc)?;
    for frame in &frames {
        push_frame(page, frame)?;
    }
    page.push_str(&play(alloc, &frames)?)?;
    Ok(())
}

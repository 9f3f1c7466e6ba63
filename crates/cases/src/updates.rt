//! Updates and patches: of a terminal, which a viewer reads, and of an input that is run; and the encodings of changes.
ghost use Rattle.std.specs.Prelude.{◌<◌, ◌≤◌};

use crate::call::Call;
use crate::fault::Fault;
use crate::row::{Row, number_up_to};
use crate::sheet::Sheet;
use crate::steps;
use crate::terminals::{feed_each, terminal_of, terminal_with};
use escape_stream::encode;
use std::alloc::Global;
use std::io;
use std::io::{Read, Write};
use terminal::{Profile, ProgramWidth, RenderError, Terminal, Watched, render, run};

type Plain = Terminal<ProgramWidth>;

/// Whether both show the same cells, cursor, pen and title.
pub fn shows_same(one: &Plain, two: &Plain) -> Result<bool, Fault> {
    let (one, two) = (one.surface(), two.surface());
    let changes = one.diff_screens(two)?;
    Ok(
        changes.is_empty()
            && one.dimensions() == two.dimensions()
            && one.cursor_position() == two.cursor_position()
            && one.cursor_visibility() == two.cursor_visibility()
            && one.pen() == two.pen()
            && one.title() == two.title(),
    )
}

/// The number and the bytes of the patch from what another terminal of the same size shows.
pub fn patched(terminal: &mut Plain, shown: &Plain) -> Result<(usize, Vec<u8>), Fault> {
    let (width, height) = terminal.surface().dimensions();
    let (other_width, other_height) = shown.surface().dimensions();
    if shown.is_failed() || other_width != width || other_height != height {
        return Err(Fault::Number);
    }
    Ok(terminal.patch(shown)?)
}

/// A terminal, and a viewer of its size.
#[derive(Drop)]
pub struct Pair {
    pub terminal: Plain,
    viewer: Plain,
}

impl Pair {
    /// A new terminal of a profile, and a plain one, of the width and height that two words give.
    pub fn new(alloc: Global, size: &str, profile: Profile) -> Result<Pair, Fault> {
        let terminal = terminal_with(alloc, size, profile)?;
        let viewer = terminal_of(alloc, size)?;
        Ok(Pair { terminal, viewer })
    }

    /// Resizes both to `width` columns and `height` rows.
    pub fn resize(&mut self, width: usize, height: usize) -> Result<(), Fault>
        requires columns { 0 < width }
        requires width { width ≤ 4096 }
        requires rows { 0 < height }
        requires height { height ≤ 4096 }
    {
        self.terminal.resize(width, height)?;
        self.viewer.resize(width, height)?;
        Ok(())
    }

    /// The viewer is fed bytes, and settles.
    pub fn view(&mut self, bytes: &[u8]) -> Result<(), Fault> {
        self.viewer.feed(bytes)?;
        self.viewer.settle()?;
        Ok(())
    }

    // The viewer reads bytes one by one; it is written to the sheet where the viewer then shows another screen.
    fn say_read(&mut self, bytes: &[u8], sheet: &mut Sheet) -> Result<(), Fault> {
        feed_each(&mut self.viewer, bytes)?;
        let is_same = shows_same(&self.terminal, &self.viewer)?;
        sheet.word_if(!is_same, "but the viewer shows another screen");
        Ok(())
    }

    /// Writes the number and the bytes of the patch from what the viewer shows. The viewer reads the bytes one by one;
    /// it is written to the sheet where the viewer then shows another screen.
    pub fn say_patch(&mut self, sheet: &mut Sheet) -> Result<(), Fault> {
        let (number, bytes) = patched(&mut self.terminal, &self.viewer)?;
        sheet.show(&number);
        sheet.quoted_bytes(&bytes);
        self.say_read(&bytes, sheet)
    }

    // Writes the number and the bytes of the update for a number; returns the bytes.
    fn take_update(&mut self, number: usize, sheet: &mut Sheet) -> Result<Vec<u8>, Fault> {
        let (number, bytes) = self.terminal.update(number)?;
        sheet.show(&number);
        sheet.quoted_bytes(&bytes);
        Ok(bytes)
    }

    /// Writes the number and the bytes of the update for a number.
    pub fn say_update(&mut self, number: usize, sheet: &mut Sheet) -> Result<(), Fault> {
        let _bytes = self.take_update(number, sheet)?;
        Ok(())
    }

    /// Writes the number and the bytes of an update, which the viewer reads one by one; it is written to the sheet
    /// where the viewer then shows another screen.
    pub fn say_read_update(&mut self, number: usize, sheet: &mut Sheet) -> Result<(), Fault> {
        let bytes = self.take_update(number, sheet)?;
        self.say_read(&bytes, sheet)
    }
}

// A reader of these bytes, at most `most` at a time.
#[derive(Drop)]
struct Chunks<'a> {
    bytes: &'a [u8],
    most: usize,
}

impl Read for Chunks<'_> {
    fn read(&mut self, buf: &mut [u8]) -> io::Result<usize> {
        let wanted = buf.len().min(self.most);
        self.bytes.read(&mut buf[..wanted])
    }
}

// A writer that takes at most `most` bytes at a time.
#[derive(Drop)]
struct Sink {
    text: Vec<u8>,
    most: usize,
}

impl Write for Sink {
    fn write(&mut self, buf: &[u8]) -> io::Result<usize> {
        let count = buf.len().min(self.most);
        self.text.extend_from_slice(&buf[..count])?;
        Ok(count)
    }

    fn flush(&mut self) -> io::Result<()> {
        Ok(())
    }
}

// What `run` writes for the row's input, where it reads and writes at most `most` bytes at a time.
fn written(row: &Row<'_>, most: usize) -> Result<Vec<u8>, Fault> {
    let (width, height) = row.column(0).split_once(' ').ok_or(Fault::Number)?;
    let width = number_up_to(4096, width)?;
    let height = number_up_to(4096, height)?;
    let every = number_up_to(4096, row.column(1))?;
    let bytes = row.bytes(2)?;
    let text = Vec::new(row.alloc());
    let mut reader = Watched::new(Chunks {
        bytes: &bytes,
        most,
    });
    let mut writer = Watched::new(Sink { text, most });
    run(
        row.alloc(),
        &mut reader,
        &mut writer,
        width,
        height,
        every,
        ProgramWidth,
    )?;
    let Sink { text, .. } = writer.into_inner();
    Ok(text)
}

/// `WIDTH HEIGHT | EVERY | INPUT => UPDATES`: what `run` writes for an input with a look after each `EVERY` bytes;
/// also where one byte is read and written at a time.
pub fn run_input(row: &Row<'_>, sheet: &mut Sheet) -> Result<(), Fault> {
    let whole = written(row, usize::MAX)?;
    sheet.quoted_bytes(&whole);
    let each = written(row, 1)?;
    sheet.word_if(
        each.as_slice() != whole.as_slice(),
        "but another byte by byte",
    );
    Ok(())
}

/// `WIDTH HEIGHT | CHANGE => BYTES`: the encoding of a change for a terminal of this size, or that it has none.
pub fn rendered(row: &Row<'_>, sheet: &mut Sheet) -> Result<(), Fault> {
    let (width, height) = row.column(0).split_once(' ').ok_or(Fault::Number)?;
    let width = number_up_to(4096, width)?;
    let height = number_up_to(4096, height)?;
    let call = Call::read(row.alloc(), row.column(1))?;
    let change = steps::change_of(&call, sheet)?;
    match render(row.alloc(), &change, width, height) {
        Ok(actions) => sheet.quoted_bytes(&encode(row.alloc(), &actions)?),
        Err(RenderError::NoSpelling) => sheet.word("none"),
        Err(RenderError::Memory) => sheet.fail(Fault::Memory),
    }
    Ok(())
}

//! Sessions: a terminal sends updates and patches to a viewer, and that viewer to a second one.
ghost use Rattle.std.specs.Prelude.{◌<◌, ◌≤◌};

use crate::call::Call;
use crate::escapes;
use crate::fault::Fault;
use crate::row::{Row, number_up_to};
use crate::sheet::Sheet;
use crate::terminals::{feed_each, terminal_of};
use crate::updates::{patched, shows_same};
use std::alloc::Global;
use terminal::{ProgramWidth, Terminal};

type Plain = Terminal<ProgramWidth>;

/// Columns and rows, from 1 to 4,096 of each.
#[derive(Clone, Copy)]
struct Size {
    width: usize,
    height: usize,
    ghost columns: { 0 < width },
    ghost width_fits: { width ≤ 4096 },
    ghost rows: { 0 < height },
    ghost height_fits: { height ≤ 4096 },
}

/// A viewer: its terminal, the number of the last answer that it read, and the sizes that it has not taken on yet.
#[derive(Drop)]
struct Viewer {
    terminal: Plain,
    number: usize,
    sizes: Vec<Size>,
}

impl Viewer {
    // A new viewer.
    fn new(alloc: Global, size: &str) -> Result<Viewer, Fault> {
        Ok(Viewer {
            terminal: terminal_of(alloc, size)?,
            number: 0,
            sizes: Vec::new(alloc),
        })
    }

    // Takes on the sizes in turn.
    fn catch_up(&mut self) -> Result<(), Fault> {
        for size in self.sizes.as_slice() {
            self.terminal.resize(size.width, size.height)?;
        }
        self.sizes.clear();
        Ok(())
    }

    // Reads an update or a patch of `one` byte by byte; returns whether the viewer then shows the same screen.
    fn read(&mut self, word: &str, one: &mut Plain) -> Result<bool, Fault> {
        let (number, bytes) = match word {
            "update" => one.update(self.number)?,
            "patch" => patched(one, &self.terminal)?,
            _ => return Err(Fault::Word),
        };
        feed_each(&mut self.terminal, &bytes)?;
        self.number = number;
        shows_same(one, &self.terminal)
    }
}

/// A terminal, its viewer, and the viewer of that viewer; and how many updates and patches they read.
#[derive(Drop)]
struct Chain {
    terminal: Plain,
    first: Viewer,
    second: Viewer,
    answers: usize,
}

impl Chain {
    // A new chain of terminals of the width and height that two words give.
    fn new(alloc: Global, size: &str) -> Result<Chain, Fault> {
        let terminal = terminal_of(alloc, size)?;
        let first = Viewer::new(alloc, size)?;
        let second = Viewer::new(alloc, size)?;
        Ok(Chain {
            terminal,
            first,
            second,
            answers: 0,
        })
    }

    // Makes a call of the terminal; returns whether the word names one.
    fn goes_on(&mut self, call: &Call<'_>, sheet: &mut Sheet) -> Result<bool, Fault> {
        match call.word(0) {
            "settle" => self.terminal.settle()?,
            "forget" => self.terminal.forget_before(call.number(1, sheet)),
            "resize" => {
                let width = number_up_to(4096, call.word(1))?;
                let height = number_up_to(4096, call.word(2))?;
                self.terminal.resize(width, height)?;
                self.first.sizes.push(Size { width, height })?;
            }
            _ => return Ok(false),
        }
        Ok(true)
    }

    // The first or the second viewer reads an update or a patch; returns whether it then shows the same screen. The
    // second viewer later takes on the sizes that the first takes on.
    fn answer(&mut self, call: &Call<'_>) -> Result<bool, Fault> {
        match call.word(1) {
            "1" => {
                for size in self.first.sizes.as_slice() {
                    self.second.sizes.push(*size)?;
                }
                self.first.catch_up()?;
                self.first.read(call.word(0), &mut self.terminal)
            }
            "2" => {
                self.second.catch_up()?;
                self.second.read(call.word(0), &mut self.first.terminal)
            }
            _ => Err(Fault::Number),
        }
    }

    // Makes a call; writes after which answer a viewer shows another screen.
    fn call(&mut self, call: &Call<'_>, sheet: &mut Sheet) -> Result<(), Fault> {
        if self.goes_on(call, sheet)? {
            return Ok(());
        }
        self.answers = self.answers.saturating_add(1);
        if !self.answer(call)? {
            sheet.word("but another screen after");
            sheet.show(&self.answers);
        }
        Ok(())
    }

    // Bytes that are fed to the terminal, or a call in `<>`.
    fn take_step(&mut self, alloc: Global, step: &str, sheet: &mut Sheet) -> Result<(), Fault> {
        match inner(step) {
            Some(words) => {
                let call = Call::read(alloc, words)?;
                self.call(&call, sheet)
            }
            None => {
                let bytes = escapes::read(alloc, step)?;
                self.terminal.feed(&bytes)?;
                Ok(())
            }
        }
    }
}

// The words of a call, if it is one.
fn inner(step: &str) -> Option<&str> {
    step.strip_prefix('<')?.strip_suffix('>')
}

/// `WIDTH HEIGHT | STEPS => COUNT`: how many updates and patches the viewers read, and after which of them a viewer
/// shows another screen.
pub fn session(row: &Row<'_>, sheet: &mut Sheet) -> Result<(), Fault> {
    let mut chain = Chain::new(row.alloc(), row.column(0))?;
    for step in row.column(1).split(" + ") {
        chain.take_step(row.alloc(), step.trim(), sheet)?;
    }
    sheet.show(&chain.answers);
    Ok(())
}

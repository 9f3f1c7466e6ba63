//! How a line is kept while calls are made of it.
use crate::fault::Fault;
use cell_line::Line;

/// How a line is kept before each call.
#[derive(Clone, Copy)]
pub enum Keeping {
    /// As the calls before left it.
    AsMade,
    /// Clustered.
    Clustered,
    /// As cells that were made of a clustered line.
    Opened,
}

impl Keeping {
    // Brings the line into this form.
    fn turn(self, line: &mut Line) -> Result<(), Fault> {
        line.compress_for_scrollback()?;
        if matches!(self, Keeping::Opened) {
            line.cells_mut()?;
        }
        Ok(())
    }

    /// Brings the line into this form, and replaces it with a copy.
    pub fn keep(self, line: &mut Line) -> Result<(), Fault> {
        if matches!(self, Keeping::AsMade) {
            return Ok(());
        }
        self.turn(line)?;
        *line = line.try_clone()?;
        Ok(())
    }
}

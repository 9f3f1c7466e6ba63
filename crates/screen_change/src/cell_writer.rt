//! Changes that write cells.
ghost use Rattle.std.specs.Prelude.{◌≡◌, true, [], OnOk, IfOk, map};
ghost use Rattle.std.specs.List.{list_all};
ghost use Rattle.text_clusters.specs.Plain.{is_printable};
ghost use Rattle.screen_change.specs.ChangeValue.{AllAttributes};
ghost use Rattle.screen_change.specs.ValueOf.{value_of};
ghost use Rattle.screen_change.specs.Written.{begun, finished, with_change, with_attributes, with_cell, with_each};

use crate::change::Change;
use crate::cut_cells::CutCells;
use cell_base::CellAttributes;
use std::alloc::{AllocError, Global};
use std::marker::Model;

/// Makes a list of changes that writes cells side by side, each with its attributes, and other
/// changes between them. The texts of neighbours of equal attributes are joined where the clusters
/// (UAX 29) of the joined text are the cells' texts.
#[derive(Drop)]
pub struct CellWriter<'a> {
    alloc: Global,
    changes: Vec<Change>,
    pen: &'a CellAttributes,
    cells: CutCells,
}

impl<'a> Model for CellWriter<'a> {
    ghost use Rattle.screen_change.specs.Written.{Written};

    ghost Value = { Written };

    ghost use Rattle.screen_change.specs.WriterView.{written_of};

    ghost view = { written_of };
}

impl<'a> CellWriter<'a> {
    /// No changes yet, for a screen whose pen has these attributes.
    pub fn new(alloc: Global, pen: &'a CellAttributes) -> CellWriter<'a>
        ensures { result ≡ begun pen.now }
    {
        CellWriter {
            alloc,
            changes: Vec::new(alloc),
            pen,
            cells: CutCells::new(alloc),
        }
    }

    /// Ends the texts of the cells so far: cells written next aren't joined to them.
    pub fn end_texts(&mut self) -> Result<(), AllocError>
        ensures { OnOk result (self.new ≡ record self.old { changes = finished self.old; cells = [] }) }
    {
        self.cells.push_texts(self.alloc, &mut self.changes)?;
        Ok(())
    }

    /// Gives the pen these attributes, unless it has them.
    pub fn set_attributes(&mut self, attrs: &'a CellAttributes) -> Result<(), AllocError>
        ensures { OnOk result (self.new ≡ with_attributes attrs.now self.old) }
    {
        if *attrs == *self.pen {
            return Ok(());
        }
        self.end_texts()?;
        self.changes
            .push(Change::AllAttributes(attrs.try_clone()?))?;
        self.pen = attrs;
        Ok(())
    }

    /// Writes a cell: its attributes, unless the pen has them, and its text.
    pub fn push_cell(&mut self, text: &str, attrs: &'a CellAttributes) -> Result<(), AllocError>
        ensures { OnOk result (self.new ≡ with_cell text.now attrs.now self.old) }
    {
        self.set_attributes(attrs)?;
        self.cells.push(text)?;
        Ok(())
    }

    /// Writes a cell for each character of a text in printable ASCII (20h to 7Eh), all with the same attributes: the
    /// attributes, unless the pen has them, and the text.
    pub fn push_plain(&mut self, text: &str, attrs: &'a CellAttributes) -> Result<(), AllocError>
        requires { list_all is_printable text.now ≡ true }
        ensures { OnOk result (self.new ≡ with_each text.now attrs.now self.old) }
    {
        if text.is_empty() {
            return Ok(());
        }
        self.set_attributes(attrs)?;
        self.cells.push_bytes(text)?;
        Ok(())
    }

    /// Adds another change after the cells that were written. Text after it is not joined to theirs.
    pub fn push_change(&mut self, change: Change) -> Result<(), AllocError>
        ensures { OnOk result (self.new ≡ with_change (value_of change) self.old) }
    {
        self.end_texts()?;
        self.changes.push(change)?;
        Ok(())
    }

    /// Adds a change that gives the pen these attributes, as a clear does, after the cells that were
    /// written.
    pub fn push_clear(&mut self, change: Change, pen: &'a CellAttributes) -> Result<(), AllocError>
        ensures { OnOk result (self.new ≡ record (with_change (value_of change) self.old) { pen = pen.now }) }
    {
        self.push_change(change)?;
        self.pen = pen;
        Ok(())
    }

    /// The changes.
    pub fn finish(mut self) -> Result<Vec<Change>, AllocError>
        ensures { IfOk result (λ changes. map value_of changes.items ≡ finished self.entry) }
    {
        self.end_texts()?;
        let CellWriter { changes, .. } = self;
        Ok(changes)
    }
}

//! The texts of cells side by side, joined.
ghost use Rattle.std.specs.Prelude.{◌≡◌, ◌↔◌, true, [], ◌∷◌, ◌++◌, ◌≤◌, map, IsTrue, OnOk};
ghost use Rattle.std.specs.List.{concat, list_all};
ghost use Rattle.std.specs.Str.{is_utf8};
ghost use Rattle.std.specs.String.{string_bytes, string_len};
ghost use Rattle.text_clusters.specs.Plain.{each};
ghost use Rattle.screen_change.specs.Cuts.{cut_at, bytes_of};
ghost use Rattle.screen_change.specs.ChangeValue.{Text};
ghost use Rattle.screen_change.specs.Texts.{texts, stay_independent};
ghost use Rattle.screen_change.specs.ValueOf.{value_of};

use crate::change::Change;
use crate::texts::{has_clusters, push_each};
use std::alloc::{AllocError, Global};
use std::mem;

// The joined text of cells, and the lengths of the first ones; after these each byte is a cell.
#[derive(Drop)]
pub(crate) struct CutCells {
    text: String,
    lens: Vec<usize>,
    sized_bytes: usize,
    ghost bytes: { sized_bytes ≡ bytes_of lens.items },
    ghost within: { sized_bytes ≤ string_len text },
    ghost parts: { list_all is_utf8 (cut_at lens.items (string_bytes text)) ≡ true },
}

impl CutCells {
    ghost use Rattle.screen_change.specs.CutView.{cells_of};

    // No cell.
    pub(crate) fn new(alloc: Global) -> CutCells
        ensures { cells_of result ≡ [] }
    {
        CutCells {
            text: String::new(alloc),
            lens: Vec::new(alloc),
            sized_bytes: 0,
        }
    }

    // Whether there is no cell.
    pub(crate) fn is_empty(&self) -> bool
        ensures { IsTrue result ↔ (cells_of self.now ≡ []) }
    {
        self.text.is_empty() && self.lens.is_empty()
    }

    // Appends a cell for each byte of a text.
    #[inline(always)]
    pub(crate) fn push_bytes(&mut self, text: &str) -> Result<(), AllocError>
        requires { list_all is_utf8 (each text.now) ≡ true }
        ensures { OnOk result (cells_of self.new ≡ cells_of self.old ++ each text.now) }
    {
        self.text.push_str(text)?;
        Ok(())
    }

    // Stores the lengths of all cells.
    fn keep_lengths(&mut self) -> Result<(), AllocError>
        ensures cells { cells_of self.new ≡ cells_of self.old }
        ensures text { self.new.text ≡ self.old.text }
        ensures kept { OnOk result (self.new.sized_bytes ≡ string_len self.new.text) }
    {
        let count = self.text.len() - self.sized_bytes;
        self.lens.resize(self.lens.len() + count, 1)?;
        self.sized_bytes += count;
        Ok(())
    }

    // Appends a cell, and stores its length.
    fn push_sized(&mut self, text: &str) -> Result<(), AllocError>
        ensures { OnOk result (cells_of self.new ≡ cells_of self.old ++ text.now ∷ []) }
    {
        self.keep_lengths()?;
        self.lens.reserve(1)?;
        self.text.push_str(text)?;
        self.lens.push_reserved(text.len());
        self.sized_bytes += text.len();
        Ok(())
    }

    // Appends a cell.
    #[inline(always)]
    pub(crate) fn push(&mut self, text: &str) -> Result<(), AllocError>
        ensures { OnOk result (cells_of self.new ≡ cells_of self.old ++ text.now ∷ []) }
    {
        if text.len() == 1 {
            self.push_bytes(text)
        } else {
            self.push_sized(text)
        }
    }

    // Whether the clusters (UAX 29) of the joined text are the cells' texts.
    pub(crate) fn stay_independent(&self) -> bool
        ensures { result ≡ stay_independent (cells_of self.now) }
    {
        has_clusters(&self.text, &self.lens)
    }

    // Takes out the joined text; no cell is left.
    pub(crate) fn take_text(&mut self, alloc: Global) -> String
        ensures text { string_bytes result ≡ concat (cells_of self.old) }
        ensures cells { cells_of self.new ≡ [] }
    {
        self.lens.clear();
        self.sized_bytes = 0;
        mem::replace(&mut self.text, String::new(alloc))
    }

    // Removes all cells, and keeps the memory.
    pub(crate) fn clear(&mut self)
        ensures { cells_of self.new ≡ [] }
    {
        self.text.clear();
        self.lens.clear();
        self.sized_bytes = 0;
    }

    // Appends a `Change::Text` for each cell.
    fn push_each(&mut self, alloc: Global, changes: &mut Vec<Change>) -> Result<(), AllocError>
        ensures { OnOk result (map value_of changes.new.items
            ≡ map value_of changes.old.items ++ map Text (cells_of self.old)) }
    {
        self.keep_lengths()?;
        push_each(alloc, changes, &self.text, &self.lens)?;
        Ok(())
    }

    // Appends the texts that write the cells, and removes the cells.
    pub(crate) fn push_texts(
        &mut self,
        alloc: Global,
        changes: &mut Vec<Change>,
    ) -> Result<(), AllocError>
        ensures changes { OnOk result (map value_of changes.new.items
            ≡ map value_of changes.old.items ++ map Text (texts (cells_of self.old))) }
        ensures cells { OnOk result (cells_of self.new ≡ []) }
    {
        if self.is_empty() {
            return Ok(());
        }
        if self.stay_independent() {
            changes.push(Change::Text(self.take_text(alloc)))?;
            return Ok(());
        }
        self.push_each(alloc, changes)?;
        self.clear();
        Ok(())
    }
}

//! The calls that are made of a line, as a row writes them.
ghost use Rattle.std.specs.Prelude.{◌≤◌};

use crate::escapes;
use crate::fault::Fault;
use crate::sheet::Sheet;
use cell_base::{Cell, CellAttributes, ProgramWidth};
use std::alloc::Global;

/// A call: its name, and its arguments with spaces between them. `""` is the empty text.
#[derive(Drop)]
pub struct Call<'a> {
    alloc: Global,
    words: Vec<&'a str>,
}

impl<'a> Call<'a> {
    /// The words of a call.
    pub fn read(alloc: Global, text: &'a str) -> Result<Call<'a>, Fault> {
        let words = text.split_ascii_whitespace().collect(alloc)?;
        Ok(Call { alloc, words })
    }

    /// Where memory comes from.
    pub fn alloc(&self) -> Global {
        self.alloc
    }

    /// A word, the name at 0; one that isn't there is empty.
    pub fn word(&self, index: usize) -> &'a str {
        self.words.get(index).copied().unwrap_or("")
    }

    /// The words from a position on.
    pub fn words_from(&self, index: usize) -> &[&'a str] {
        let (_, words) = self.words.split_at(index.min(self.words.len()));
        words
    }

    /// An argument that is a number; where it isn't, the sheet fails.
    pub fn number(&self, index: usize, sheet: &mut Sheet) -> usize {
        match self.word(index).parse::<usize>() {
            Ok(value) => value,
            Err(_) => {
                sheet.fail(Fault::Number);
                0
            }
        }
    }

    /// The last argument, which is a number.
    pub fn last_number(&self, sheet: &mut Sheet) -> usize {
        self.number(self.words_from(1).len(), sheet)
    }

    /// An argument that is a number from 1 up; where it isn't, the sheet fails.
    pub fn number_from_one(&self, index: usize, sheet: &mut Sheet) -> usize
        ensures { 1 ≤ result }
    {
        let value = self.number(index, sheet);
        if value < 1 {
            sheet.fail(Fault::Number);
        }
        value.max(1)
    }

    /// An argument that is a text.
    pub fn text(&self, index: usize) -> Result<String, Fault> {
        text_of(self.alloc, self.word(index))
    }

    /// An argument that is the text of a cell with these attributes.
    pub fn cell(&self, index: usize, attrs: &CellAttributes) -> Result<Cell, Fault> {
        cell_of(self.alloc, self.word(index), attrs)
    }
}

// The text of a word: empty for `""`, else the word with its escapes read.
fn text_of(alloc: Global, word: &str) -> Result<String, Fault> {
    escapes::read_text(alloc, if word == "\"\"" { "" } else { word })
}

/// The cell of a word with these attributes.
pub fn cell_of(alloc: Global, word: &str, attrs: &CellAttributes) -> Result<Cell, Fault> {
    let text = text_of(alloc, word)?;
    let attrs = attrs.try_clone()?;
    Ok(Cell::new_grapheme(alloc, text.as_str(), attrs, &ProgramWidth)?)
}

//! The arguments of a case, as a line has them between bars.
ghost use Rattle.std.specs.Prelude.{◌≤◌, IfOk};

use crate::escapes;
use crate::fault::Fault;
use std::alloc::Global;

/// The arguments of a case, each as it is written.
#[derive(Drop)]
pub struct Row<'a> {
    alloc: Global,
    columns: Vec<&'a str>,
}

impl<'a> Row<'a> {
    /// The columns between `|`, without the spaces round them.
    pub fn read(alloc: Global, text: &'a str) -> Result<Row<'a>, Fault> {
        let mut columns = Vec::new(alloc);
        for column in text.split('|') {
            columns.push(column.trim())?;
        }
        Ok(Row { alloc, columns })
    }

    /// Where memory comes from.
    pub fn alloc(&self) -> Global {
        self.alloc
    }

    /// How many columns there are.
    pub fn count(&self) -> usize {
        self.columns.len()
    }

    /// A column as it is written, counted from 0; one that isn't there is empty.
    pub fn column(&self, index: usize) -> &'a str {
        self.columns.get(index).copied().unwrap_or("")
    }

    /// The bytes of a column, with its escapes read.
    pub fn bytes(&self, index: usize) -> Result<Vec<u8>, Fault> {
        escapes::read(self.alloc, self.column(index))
    }

    /// The text of a column, with its escapes read.
    pub fn text(&self, index: usize) -> Result<String, Fault> {
        escapes::read_text(self.alloc, self.column(index))
    }

    /// The first character of a column, with its escapes read.
    pub fn character(&self, index: usize) -> Result<char, Fault> {
        let text = self.text(index)?;
        text.as_str().chars().next().ok_or(Fault::Columns)
    }
}

/// A number from 1 up to a greatest one.
pub fn number_up_to(most: usize, text: &str) -> Result<usize, Fault>
    ensures from { IfOk result (λ n. 1 ≤ n) }
    ensures to { IfOk result (λ n. n ≤ most) }
{
    match text.trim().parse::<usize>() {
        Ok(value) if 1 <= value && value <= most => Ok(value),
        _ => Err(Fault::Number),
    }
}

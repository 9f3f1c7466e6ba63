//! The cells of a line as they are stored, read from the left.
ghost use Rattle.std.specs.Prelude.{◌≡◌, ◌+◌, ◌<◌, ◌^◌, length};

use cell_base::Cell;

/// The cells that are read, each with its first column, in order.
#[derive(Drop)]
pub struct ReadCells<'a> {
    cells: &'a [Cell],
    cell_index: usize,
    ghost within: { cell_index + length cells.now < 2 ^ 64 },
}

impl<'a> ReadCells<'a> {
    /// Begins with the first cell.
    pub fn new(cells: &'a [Cell]) -> ReadCells<'a>
        ensures cells { result.cells.now ≡ cells.now }
        ensures index { result.cell_index ≡ 0 }
    {
        ReadCells {
            cells,
            cell_index: 0,
        }
    }
}

impl<'a> Iterator for ReadCells<'a> {
    type Item = (usize, &'a Cell);

    ghost use Rattle.std.specs.Iterator.{YieldsFirstBy, item_count};
    ghost use Rattle.cell_views.specs.ReadCells.{read_left};

    ghost next_gives = { YieldsFirstBy (λ item. record { column = item.0; cell = item.1.now }) read_left };

    ghost remaining = { item_count read_left };

    #[tactic(auto, using(crate::proofs::ReadLemmas::read_narrow, crate::proofs::ReadLemmas::read_wide))]
    fn next(&mut self) -> Option<(usize, &'a Cell)> {
        let (cell, rest) = self.cells.split_first()?;
        let cell_index = self.cell_index;
        if cell.width() < 2 {
            self.cells = rest;
            self.cell_index = cell_index + 1;
            return Some((cell_index, cell));
        }
        match rest.split_first() {
            None => {
                self.cells = rest;
                Some((cell_index, cell))
            }
            Some((_, after)) => {
                self.cells = after;
                self.cell_index = cell_index + 2;
                Some((cell_index, cell))
            }
        }
    }
}

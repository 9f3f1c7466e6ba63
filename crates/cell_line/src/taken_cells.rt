//! The cells of a line that is taken apart, read from the left.
ghost use Rattle.std.specs.Prelude.{◌≡◌, ◌+◌, ◌-◌, ◌<◌, ◌^◌, drop};
ghost use Rattle.std.specs.Vec.Iter.{into_iter_items, into_iter_len};

use cell_base::Cell;
use std::alloc::Global;
use std::vec::IntoIter;

// The cells that are read, each with its first column, in order.
#[derive(Drop)]
pub(crate) struct TakenCells {
    cells: IntoIter<Cell, Global>,
    cell_index: usize,
    ghost within: { 0 < into_iter_len cells → cell_index + into_iter_len cells < 2 ^ 63 },
}

impl TakenCells {
    pub(crate) fn new(cells: Vec<Cell>) -> TakenCells
        ensures cells { into_iter_items result.cells ≡ cells.items }
        ensures index { result.cell_index ≡ 0 }
    {
        TakenCells {
            cells: cells.into_iter(),
            cell_index: 0,
        }
    }
}

impl Iterator for TakenCells {
    type Item = (usize, Cell);

    ghost use Rattle.std.specs.Iterator.{YieldsFirstBy, item_count};
    ghost use Rattle.cell_line.specs.TakenCells.{taken_left};

    ghost next_gives = { YieldsFirstBy (λ item. record { column = item.0; cell = item.1 }) taken_left };

    ghost remaining = { item_count taken_left };

    #[tactic(auto, using(cell_views::proofs::ReadLemmas::read_narrow, cell_views::proofs::ReadLemmas::read_wide_any))]
    fn next(&mut self) -> Option<(usize, Cell)> {
        let cell = self.cells.next()?;
        let cell_index = self.cell_index;
        if cell.width() < 2 {
            self.cell_index = cell_index + 1;
            return Some((cell_index, cell));
        }
        drop_hidden(&mut self.cells);
        self.cell_index = cell_index + 2;
        Some((cell_index, cell))
    }
}

// Drops the cell stored after a wide one, if there is one.
fn drop_hidden(cells: &mut IntoIter<Cell, Global>)
    ensures items { into_iter_items cells.new ≡ drop 1 (into_iter_items cells.old) }
    ensures len { into_iter_len cells.new ≡ into_iter_len cells.old - 1 }
{
    let _hidden = cells.next();
}

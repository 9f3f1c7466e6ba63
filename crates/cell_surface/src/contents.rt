//! Texts and cells of a surface.
ghost use Rattle.std.specs.Prelude.{◌≡◌, ◌++◌, [], ◌∷◌, map, IfOk, OnOk};
ghost use Rattle.std.specs.String.{string_bytes};
ghost use Rattle.std.specs.List.{flat_map};
ghost use Rattle.cell_base.specs.Row.{row_text};
ghost use Rattle.cell_base.specs.Screen.{screen_text};
ghost use Rattle.cell_views.specs.CellRefView.{shown_by as cell_shown};
ghost use Rattle.cell_surface.specs.Surface.{shown_by};
ghost use Rattle.cell_surface.specs.Cells.{cells_of, column_cells};

use crate::surface::Surface;
use cell_base::{Cell, Widths};
use cell_line::{CellRef, Line};
use std::alloc::{AllocError, Global};

// Appends the text of a line and a line feed.
fn push_line(text: &mut String, line: &Line) -> Result<(), AllocError>
    ensures { OnOk result (string_bytes text.new ≡ string_bytes text.old ++ row_text line.now.columns ++ 10 ∷ []) }
{
    for cell in line.visible_cells() {
        text.push_str(cell.str())?;
    }
    text.push('\n')?;
    Ok(())
}

// Appends a copy of a cell, and after a wide cell a blank with its attributes.
fn push_cell(alloc: Global, cells: &mut Vec<Cell>, cell: &CellRef<'_>) -> Result<(), AllocError>
    ensures { OnOk result (cells.new.items ≡ cells.old.items ++ cells_of (cell_shown cell.now).cell) }
{
    cells.push(cell.as_cell(alloc)?)?;
    if cell.width() == 2 {
        cells.push(Cell::blank_with_attrs(cell.attrs().try_clone()?))?;
    }
    Ok(())
}

// The cells of a line, one for each column.
fn line_cells(alloc: Global, line: &Line) -> Result<Vec<Cell>, AllocError>
    ensures { IfOk result (λ cells. cells.items ≡ column_cells line.now.columns) }
{
    let mut cells = Vec::new(alloc);
    for cell in line.visible_cells() {
        push_cell(alloc, &mut cells, &cell)?;
    }
    Ok(cells)
}

// How many bytes the text of a line has, with its line feed.
fn line_len(line: &Line) -> usize {
    let mut len = 1_usize;
    for cell in line.visible_cells() {
        len = len.saturating_add(cell.str().len());
    }
    len
}

// How many bytes the texts of lines have: room for them is asked for once, so that a large text is never in memory
// twice.
fn text_len(lines: &[Line]) -> usize {
    let mut len = 0_usize;
    for line in lines {
        len = len.saturating_add(line_len(line));
    }
    len
}

// The texts of lines, each with a line feed after it.
fn lines_text(alloc: Global, lines: &[Line]) -> Result<String, AllocError>
    ensures { IfOk result
        (λ text. string_bytes text ≡ flat_map (λ row. row_text row ++ 10 ∷ []) (map (λ line. line.columns) lines.now)) }
{
    let mut text = String::with_capacity(alloc, text_len(lines))?;
    for line in lines {
        push_line(&mut text, line)?;
    }
    Ok(text)
}

// The cells of lines.
fn lines_cells(alloc: Global, lines: &[Line]) -> Result<Vec<Vec<Cell>>, AllocError>
    ensures { IfOk result
        (λ rows. map (λ row. row.items) rows.items ≡ map column_cells (map (λ line. line.columns) lines.now)) }
{
    let mut rows = Vec::new(alloc);
    for line in lines {
        rows.push(line_cells(alloc, line)?)?;
    }
    Ok(rows)
}

impl<W: Widths + Drop> Surface<W> {
    /// The rows as a text, each with a line feed after it.
    pub fn screen_chars_to_string(&self) -> Result<String, AllocError>
        ensures { IfOk result (λ text. string_bytes text ≡ screen_text (shown_by self.now).screen) }
    {
        lines_text(self.alloc, self.grid.lines())
    }

    /// Copies of the cells of each row, one for each column: after a wide cell comes a blank with its
    /// attributes.
    pub fn screen_cells(&self) -> Result<Vec<Vec<Cell>>, AllocError>
        ensures { IfOk result
            (λ rows. map (λ row. row.items) rows.items ≡ map column_cells (shown_by self.now).screen.rows) }
    {
        lines_cells(self.alloc, self.grid.lines())
    }
}

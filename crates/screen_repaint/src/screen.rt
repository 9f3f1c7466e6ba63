//! `repaint`: the changes that paint a screen anew.
ghost use Rattle.std.specs.Prelude.{◌≡◌, ◌&&◌, ◌==◌, [], ◌∷◌, IfOk, OnOk, map};
ghost use Rattle.cell_base.specs.declared.attributes.CursorVisibility.TheVariants.{Hidden};
ghost use Rattle.cell_base.specs.declared.color.ColorAttribute.TheVariants.{Default};
ghost use Rattle.cell_base.specs.Attributes.{plain};
ghost use Rattle.screen_change.specs.CellChanges.{attributes_due};
ghost use Rattle.screen_change.specs.ChangeValue.{ClearScreen, CursorVisibility as Visibility, Title};
ghost use Rattle.screen_change.specs.ValueOf.{value_of};
ghost use Rattle.screen_grid.specs.Grid.{IsDrawn, display_of};
ghost use Rattle.screen_effects.specs.Effect.{is_visible};
ghost use Rattle.screen_repaint.specs.PaintedRows.{with_changes};
ghost use Rattle.screen_repaint.specs.Repaint.{cursor_placed, cursor_shown, pen_after, repaint, repaint_with};
ghost use Rattle.screen_repaint.specs.Repaint.{shape_due, titles};

use crate::rows::paint_rows;
use cell_base::{CellAttributes, ColorAttribute, CursorShape, CursorVisibility, Position, Widths};
use screen_change::{CellWriter, Change};
use screen_grid::Grid;
use std::alloc::{AllocError, Global};

// Writes a change that leaves the pen as it is.
fn write(writer: &mut CellWriter<'_>, change: Change) -> Result<(), AllocError>
    requires ended { writer.old.cells ≡ [] }
    requires pen { pen_after writer.old.pen (value_of change) ≡ writer.old.pen }
    ensures { OnOk result (writer.new ≡ with_changes (value_of change ∷ []) writer.old) }
{
    writer.push_change(change)?;
    Ok(())
}

// Hides the cursor, and clears the screen.
fn write_clear(writer: &mut CellWriter<'_>) -> Result<(), AllocError>
    requires ended { writer.old.cells ≡ [] }
    requires plain { writer.old.pen ≡ plain }
    ensures { OnOk result (writer.new ≡ with_changes (Visibility Hidden ∷ ClearScreen Default ∷ []) writer.old) }
{
    write(writer, Change::CursorVisibility(CursorVisibility::Hidden))?;
    write(writer, Change::ClearScreen(ColorAttribute::Default))?;
    Ok(())
}

// Writes the change that sets a title.
fn write_title(alloc: Global, writer: &mut CellWriter<'_>, title: &str) -> Result<(), AllocError>
    requires { writer.old.cells ≡ [] }
    ensures { OnOk result (writer.new ≡ with_changes (Title title.now ∷ []) writer.old) }
{
    let text = String::from_str(alloc, title)?;
    write(writer, Change::Title(text))?;
    Ok(())
}

// Writes the title; an empty one only with `also_empty`.
fn write_titles(
    alloc: Global,
    writer: &mut CellWriter<'_>,
    title: &str,
    also_empty: bool,
) -> Result<(), AllocError>
    requires { writer.old.cells ≡ [] }
    ensures { OnOk result (writer.new ≡ with_changes (titles also_empty title.now) writer.old) }
{
    if !also_empty && title.is_empty() {
        return Ok(());
    }
    write_title(alloc, writer, title)?;
    Ok(())
}

// Whether the position is the first column of the first row.
fn is_home(position: (usize, usize)) -> bool
    ensures { result ≡ (position.0 == 0 && position.1 == 0) }
{
    position.0 == 0 && position.1 == 0
}

// Writes the cursor's position, unless nothing was painted and it is home.
fn write_position(
    writer: &mut CellWriter<'_>,
    position: (usize, usize),
    painted: bool,
) -> Result<(), AllocError>
    requires { writer.old.cells ≡ [] }
    ensures { OnOk result (writer.new ≡ with_changes (cursor_placed painted position.0 position.1) writer.old) }
{
    if !painted && is_home(position) {
        return Ok(());
    }
    let (column, row) = position;
    write(
        writer,
        Change::CursorPosition {
            x: Position::Absolute(column),
            y: Position::Absolute(row),
        },
    )?;
    Ok(())
}

// Writes the pen's attributes, unless the writer's pen has them.
fn write_pen<'a>(writer: &mut CellWriter<'a>, pen: &'a CellAttributes) -> Result<(), AllocError>
    requires { writer.old.cells ≡ [] }
    ensures { OnOk result (writer.new ≡ with_changes (attributes_due writer.old.pen pen.now) writer.old) }
{
    writer.set_attributes(pen)?;
    Ok(())
}

// Writes the cursor's shape, if one was set.
fn write_shape(writer: &mut CellWriter<'_>, shape: Option<CursorShape>) -> Result<(), AllocError>
    requires { writer.old.cells ≡ [] }
    ensures { OnOk result (writer.new ≡ with_changes (shape_due shape) writer.old) }
{
    if let Some(shape) = shape {
        write(writer, Change::CursorShape(shape))?;
    }
    Ok(())
}

// Shows the cursor with its shape, unless it is hidden.
fn write_cursor(
    writer: &mut CellWriter<'_>,
    visibility: CursorVisibility,
    shape: Option<CursorShape>,
) -> Result<(), AllocError>
    requires { writer.old.cells ≡ [] }
    ensures { OnOk result (writer.new ≡ with_changes (cursor_shown (is_visible visibility) shape) writer.old) }
{
    if visibility == CursorVisibility::Hidden {
        return Ok(());
    }
    write(writer, Change::CursorVisibility(CursorVisibility::Visible))?;
    write_shape(writer, shape)?;
    Ok(())
}

// The changes of a repaint. `attrs` are plain attributes. An empty title is written only with `also_empty`.
fn repaint_from<'a, W: Widths + Drop>(
    alloc: Global,
    grid: &'a Grid<W>,
    attrs: &'a CellAttributes,
    also_empty: bool,
) -> Result<Vec<Change>, AllocError>
    requires drawn { IsDrawn grid.now }
    requires plain { attrs.now ≡ plain }
    ensures { IfOk result (λ changes. map value_of changes.items
        ≡ repaint_with (titles also_empty (display_of grid.now).screen.title) (display_of grid.now)) }
{
    let pen = grid.pen();
    let mut writer = CellWriter::new(alloc, attrs);
    write_clear(&mut writer)?;
    write_titles(alloc, &mut writer, grid.title(), also_empty)?;
    let painted = paint_rows(&mut writer, grid.lines())?;
    write_position(&mut writer, grid.cursor_position(), painted)?;
    write_pen(&mut writer, pen)?;
    write_cursor(&mut writer, grid.cursor_visibility(), grid.cursor_shape())?;
    let changes = writer.finish()?;
    Ok(changes)
}

/// The changes that paint a grid on any screen of its size, from a clear on: the title, unless it is
/// empty; row by row the cells, each run of neighbours of equal attributes after these attributes,
/// unless the pen has them, and a clear to the end of the row for the blanks of one background there,
/// unless that is the default one; where all rows below are blanks of that background too, one clear
/// to the end of the screen replaces these clears. Then the cursor's position, the pen, and the cursor
/// with its shape, if it is shown.
pub fn repaint<W: Widths + Drop>(alloc: Global, grid: &Grid<W>) -> Result<Vec<Change>, AllocError>
    requires { IsDrawn grid.now }
    ensures { IfOk result (λ changes. map value_of changes.items ≡ repaint (display_of grid.now)) }
{
    let plain = CellAttributes::blank();
    let changes = repaint_from(alloc, grid, &plain, false)?;
    Ok(changes)
}

/// The changes of `repaint`, with the title also where it is empty.
pub fn repaint_with_title<W: Widths + Drop>(
    alloc: Global,
    grid: &Grid<W>,
) -> Result<Vec<Change>, AllocError>
    requires { IsDrawn grid.now }
    ensures { IfOk result (λ changes. map value_of changes.items
        ≡ repaint_with (Title (display_of grid.now).screen.title ∷ []) (display_of grid.now)) }
{
    let plain = CellAttributes::blank();
    let changes = repaint_from(alloc, grid, &plain, true)?;
    Ok(changes)
}

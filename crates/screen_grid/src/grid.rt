//! `Grid`: a display kept as lines, and what each change does to it.
ghost use Rattle.std.specs.Prelude.{◌≡◌, ℕ, true, false, nat_le, ◌+◌, ◌-◌, ◌<◌, ◌≤◌, ◌++◌, ◌∷◌, [], length, map};
ghost use Rattle.std.specs.Prelude.{replicate, IfOk, OnOk};
ghost use Rattle.cell_base.specs.Cluster.{clusters};
ghost use Rattle.cell_base.specs.CellContent.{shows_as_space};
ghost use Rattle.cell_base.specs.Row.{columns_of};
ghost use Rattle.cell_base.specs.AttributeValueOf.{attribute_value};
ghost use Rattle.cell_base.specs.Attributes.{blank_of};
ghost use Rattle.screen_change.specs.ChangeValue.{AllAttributes, Attribute, ClearScreen, ClearToEndOfLine};
ghost use Rattle.screen_change.specs.ChangeValue.{ClearToEndOfScreen, CursorPosition, LineAttribute as LineSize};
ghost use Rattle.screen_change.specs.ChangeValue.{ScrollRegionDown, ScrollRegionUp};
ghost use Rattle.screen_change.specs.ValueOf.{value_of};
ghost use Rattle.screen_grid.specs.Grid.{grid_with, clusters_done, display_of, LeadsOn, Puts, IsDrawn, Shows};
ghost use Rattle.screen_effects.specs.Parts.{stand};
ghost use Rattle.screen_grid.specs.Parts.{parts_done};
ghost use Rattle.screen_effects.specs.Display.{new_display};
ghost use Rattle.screen_effects.specs.Effect.{effect, is_visible};
ghost use Rattle.screen_effects.specs.Resize.{resized};
ghost use Rattle.screen_effects.specs.Strokes.{CarriageReturn, Cluster, Control, LineFeed, stroke_done, text_done};

use crate::fast::controls::single_control;
use crate::positions::{resolved, resolved_column};
use crate::ring::Ring;
use crate::rows::{
    blank_lines, blank_rows, blank_rows_below, copy, resize, scroll, scroll_down, scroll_up,
    set_blanks, set_cell, set_size, set_text,
};
use crate::text::next_cluster;
use cell_base::{
    AttributeChange, CellAttributes, ColorAttribute, CursorShape, CursorVisibility, LineAttribute,
    Position, Widths,
};
use cell_line::Line;
use screen_change::Change;
use screen_effects::{split_at_control, split_control};
use std::alloc::{AllocError, Global};
use std::marker::Model;

/// Lines with a cursor, a pen and a title. Columns and rows count from 0; while a wrap is pending, the
/// cursor's column is the width.
#[derive(Drop)]
pub struct Grid<W> {
    alloc: Global,
    pub(crate) widths: W,
    pub(crate) width: usize,
    pub(crate) rows: Ring<Line>,
    pub(crate) column: usize,
    pub(crate) row: usize,
    visibility: CursorVisibility,
    shape: Option<CursorShape>,
    pub(crate) pen: CellAttributes,
    title: String,
}

impl<W> Model for Grid<W> {
    ghost use Rattle.screen_grid.specs.Grid.{Grid as Value_of};

    ghost Value = { Value_of W };

    ghost use Rattle.screen_grid.specs.GridView.{grid_of};

    ghost view = { grid_of };
}

impl<W: Widths + Drop> Grid<W> {
    /// Plain blanks, with the cursor at home.
    pub fn new(alloc: Global, width: usize, height: usize, widths: W) -> Result<Self, AllocError>
        requires wide_enough { 0 < width }
        requires high_enough { 0 < height }
        ensures display { IfOk result (λ grid. display_of grid ≡ new_display width height) }
        ensures widths { IfOk result (λ grid. grid.widths ≡ widths) }
        ensures drawn { IfOk result (λ grid. IsDrawn grid) }
    {
        Ok(Grid {
            alloc,
            widths,
            width,
            rows: blank_lines(alloc, width, height)?,
            column: 0,
            row: 0,
            visibility: CursorVisibility::Visible,
            shape: None,
            pen: CellAttributes::blank(),
            title: String::new(alloc),
        })
    }

    /// How many columns and rows there are.
    pub fn dimensions(&self) -> (usize, usize)
        ensures width { result.0 ≡ self.now.width }
        ensures height { result.1 ≡ length self.now.lines }
    {
        (self.width, self.rows.len())
    }

    /// The cursor's column and row. The column is the width while a wrap is pending.
    pub fn cursor_position(&self) -> (usize, usize)
        ensures column { result.0 ≡ self.now.column }
        ensures row { result.1 ≡ self.now.row }
    {
        (self.column, self.row)
    }

    /// Whether the cursor is shown.
    pub fn cursor_visibility(&self) -> CursorVisibility
        ensures { is_visible result ≡ self.now.visible }
    {
        self.visibility
    }

    /// The cursor's shape, if one was set.
    pub fn cursor_shape(&self) -> Option<CursorShape>
        ensures { result ≡ self.now.shape }
    {
        self.shape
    }

    /// How many columns texts take.
    pub fn widths(&self) -> &W
        ensures { result.now ≡ self.now.widths }
    {
        &self.widths
    }

    /// The attributes that the next text gets.
    pub fn pen(&self) -> &CellAttributes
        ensures { result.now ≡ self.now.pen }
    {
        &self.pen
    }

    /// The title.
    pub fn title(&self) -> &str
        ensures { result.now ≡ self.now.title }
    {
        self.title.as_str()
    }

    /// The rows as lines, from the top.
    pub fn lines(&self) -> &[Line]
        ensures { result.now ≡ self.now.lines }
    {
        self.rows.as_slice()
    }

    /// Becomes `width` columns wide and `height` rows high. The top left stays, and plain blanks come
    /// at the right and below; a wide cell that the edge cuts becomes a blank with its attributes. The
    /// cursor stays within the last column and row, so that no wrap is pending.
    pub fn resize(&mut self, width: usize, height: usize) -> Result<(), AllocError>
        requires drawn { IsDrawn self.old }
        requires wide_enough { 0 < width }
        requires high_enough { 0 < height }
        ensures { OnOk result (Shows self.old self.new (resized width height (display_of self.old))) }
    {
        resize(self.alloc, &mut self.rows, width, height)?;
        self.width = width;
        self.column = self.column.min(width - 1);
        self.row = self.row.min(height - 1);
        Ok(())
    }

    // Goes to column 0 of the same row.
    fn carriage_return(&mut self)
        requires { IsDrawn self.old }
        ensures { Shows self.old self.new
            (stroke_done (W.width_of self.old.widths) (display_of self.old) CarriageReturn) }
    {
        self.column = 0;
    }

    // Goes to the next row, and scrolls at the last. The column is kept.
    fn line_feed(&mut self)
        requires { IsDrawn self.old }
        ensures { Shows self.old self.new (stroke_done (W.width_of self.old.widths) (display_of self.old) LineFeed) }
    {
        let height = self.rows.len();
        if self.row + 1 < height {
            self.row += 1;
            return;
        }
        scroll(&mut self.rows, self.width);
    }

    // Writes a text of `width` columns at the cursor, and moves the cursor after it.
    fn write(&mut self, text: &str, width: usize) -> Result<(), AllocError>
        requires drawn { IsDrawn self.old }
        requires stands { shows_as_space text.now ≡ false }
        requires width { (1 ≤ width) × (width ≤ 2) }
        requires fits { self.old.column + width ≤ self.old.width }
        ensures { OnOk result
            (self.new ≡ grid_with self.old (columns_of text.now (nat_le 2 width) self.old.pen) width) }
    {
        let pen = self.pen.try_clone()?;
        set_cell(&mut self.rows, self.row, self.column, text, width, pen)?;
        self.column += width;
        Ok(())
    }

    // Puts a text of `width` columns at the cursor, or at the start of the next row where it
    // doesn't fit.
    fn put_text(&mut self, text: &str, width: usize) -> Result<(), AllocError>
        requires drawn { IsDrawn self.old }
        requires stands { shows_as_space text.now ≡ false }
        requires width { (1 ≤ width) × (width ≤ 2) }
        requires fits { width ≤ self.old.width }
        ensures { OnOk result
            (Puts (W.width_of self.old.widths) self.old self.new (columns_of text.now (nat_le 2 width) self.old.pen)) }
    {
        if width <= self.width - self.column {
            self.write(text, width)?;
            return Ok(());
        }
        self.line_feed();
        self.carriage_return();
        self.write(text, width)?;
        Ok(())
    }

    // Puts a cluster at the cursor.
    fn put(&mut self, cluster: &str) -> Result<(), AllocError>
        requires drawn { IsDrawn self.old }
        requires stands { shows_as_space cluster.now ≡ false }
        ensures { OnOk result
            (Shows self.old self.new
            (stroke_done (W.width_of self.old.widths) (display_of self.old) (Cluster cluster.now))) }
    {
        if self.widths.width(cluster) < 2 {
            self.put_text(cluster, 1)?;
            return Ok(());
        }
        if self.width == 1 {
            self.put_text(" ", 1)?;
            return Ok(());
        }
        self.put_text(cluster, 2)?;
        Ok(())
    }

    // Puts the clusters of a text one after another as far as they fit in the cursor's row; returns
    // the text that is left.
    fn put_in_row<'a>(&mut self, text: &'a str) -> Result<&'a str, AllocError>
        requires drawn { IsDrawn self.old }
        requires stands { stand (clusters text.now) ≡ true }
        ensures { IfOk result
            (λ left. LeadsOn (W.width_of self.old.widths) self.old self.new (clusters text.now) (clusters left.now)) }
    {
        let (column, left) = set_text(
            &mut self.rows,
            self.row,
            self.column,
            text,
            &self.pen,
            &self.widths,
        )?;
        self.column = column;
        Ok(left)
    }

    // Puts the clusters of a text.
    fn put_run(&mut self, text: &str) -> Result<(), AllocError>
        requires drawn { IsDrawn self.old }
        requires stands { stand (clusters text.now) ≡ true }
        ensures { OnOk result
            (Shows self.old self.new
            (clusters_done (W.width_of self.old.widths) (display_of self.old) (clusters text.now))) }
    {
        if text.is_empty() {
            return Ok(());
        }
        if self.takes_plainly(text) {
            self.put_plain(text)?;
            return Ok(());
        }
        let mut left = self.put_in_row(text)?;
        while let Some((cluster, after)) = next_cluster(left) {
            self.put(cluster)?;
            left = self.put_in_row(after)?;
        }
        Ok(())
    }

    // Applies a control of a text.
    #[inline(always)]
    fn control(&mut self, control: u8) -> Result<(), AllocError>
        requires { IsDrawn self.old }
        ensures { OnOk result
            (Shows self.old self.new
            (parts_done (W.width_of self.old.widths) (display_of self.old) (Control control ∷ []))) }
    {
        match control {
            b'\r' => self.carriage_return(),
            b'\n' => self.line_feed(),
            _ => self.put(" ")?,
        }
        Ok(())
    }

    // Draws a text with the pen.
    #[inline(always)]
    fn draw_text(&mut self, text: &str) -> Result<(), AllocError>
        requires { IsDrawn self.old }
        ensures { OnOk result
            (Shows self.old self.new (text_done (W.width_of self.old.widths) (display_of self.old) text.now)) }
    {
        if self.takes_plainly(text) {
            self.put_plain(text)?;
            return Ok(());
        }
        if let Some(control) = single_control(text) {
            self.control(control)?;
            return Ok(());
        }
        self.draw_parts(text)?;
        Ok(())
    }

    // Draws any text with the pen, part by part.
    #[inline(never)]
    fn draw_parts(&mut self, text: &str) -> Result<(), AllocError>
        requires { IsDrawn self.old }
        ensures { OnOk result
            (Shows self.old self.new (text_done (W.width_of self.old.widths) (display_of self.old) text.now)) }
    {
        let (prefix, mut rest) = split_at_control(text);
        self.put_run(prefix)?;
        while let Some((control, after)) = split_control(rest) {
            self.control(control)?;
            let (prefix, remaining) = split_at_control(after);
            self.put_run(prefix)?;
            rest = remaining;
        }
        Ok(())
    }

    // Sets one attribute of the pen. Those that programs set most are set without a copy of the change.
    #[inline(always)]
    fn set_attribute(&mut self, change: &AttributeChange) -> Result<(), AllocError>
        requires { IsDrawn self.old }
        ensures { OnOk result
            (Shows self.old self.new
            (effect (W.width_of self.old.widths) (display_of self.old) (Attribute (attribute_value change.now)))) }
    {
        match change {
            AttributeChange::Intensity(value) => {
                self.pen.set_intensity(*value);
            }
            AttributeChange::Foreground(color) => {
                self.pen.set_foreground(*color);
            }
            AttributeChange::Background(color) => {
                self.pen.set_background(*color);
            }
            _ => self.set_any_attribute(change)?,
        }
        Ok(())
    }

    // Sets one attribute of the pen by a copy of the change.
    #[inline(never)]
    fn set_any_attribute(&mut self, change: &AttributeChange) -> Result<(), AllocError>
        requires { IsDrawn self.old }
        ensures { OnOk result
            (Shows self.old self.new
            (effect (W.width_of self.old.widths) (display_of self.old) (Attribute (attribute_value change.now)))) }
    {
        let change = change.try_clone()?;
        self.pen.apply_change(change);
        Ok(())
    }

    // Sets all attributes of the pen.
    fn set_pen(&mut self, pen: &CellAttributes) -> Result<(), AllocError>
        requires { IsDrawn self.old }
        ensures { OnOk result
            (Shows self.old self.new
            (effect (W.width_of self.old.widths) (display_of self.old) (AllAttributes pen.now))) }
    {
        self.pen = pen.try_clone()?;
        Ok(())
    }

    // Makes all columns blanks of a colour, and moves the cursor home.
    fn clear_screen(&mut self, color: ColorAttribute) -> Result<(), AllocError>
        requires { IsDrawn self.old }
        ensures { OnOk result
            (Shows self.old self.new (effect (W.width_of self.old.widths) (display_of self.old) (ClearScreen color))) }
    {
        let pen = blank_of(color);
        blank_rows(&mut self.rows, 0, &pen)?;
        self.pen = pen;
        self.column = 0;
        self.row = 0;
        Ok(())
    }

    // Makes the columns of the cursor's row from the cursor on blanks of a colour.
    fn clear_to_end_of_line(&mut self, color: ColorAttribute) -> Result<(), AllocError>
        requires { IsDrawn self.old }
        ensures { OnOk result
            (Shows self.old self.new
            (effect (W.width_of self.old.widths) (display_of self.old) (ClearToEndOfLine color))) }
    {
        let pen = blank_of(color);
        set_blanks(&mut self.rows, self.row, self.column, &pen)?;
        self.pen = pen;
        Ok(())
    }

    // Makes the columns of the cursor's row from the cursor on, and all rows below, blanks of a colour.
    fn clear_to_end_of_screen(&mut self, color: ColorAttribute) -> Result<(), AllocError>
        requires { IsDrawn self.old }
        ensures { OnOk result
            (Shows self.old self.new
            (effect (W.width_of self.old.widths) (display_of self.old) (ClearToEndOfScreen color))) }
    {
        let pen = blank_of(color);
        set_blanks(&mut self.rows, self.row, self.column, &pen)?;
        blank_rows_below(&mut self.rows, self.row, &pen)?;
        self.pen = pen;
        Ok(())
    }

    // Moves the cursor to a position.
    fn move_cursor(&mut self, x: Position, y: Position)
        requires { IsDrawn self.old }
        ensures { Shows self.old self.new
            (effect (W.width_of self.old.widths) (display_of self.old) (CursorPosition x y)) }
    {
        self.column = resolved_column(self.width, self.column, x);
        self.row = resolved(self.rows.len(), self.row, y);
    }

    // Sets the size of the cursor's row.
    fn set_line_attribute(&mut self, size: LineAttribute)
        requires { IsDrawn self.old }
        ensures { Shows self.old self.new (effect (W.width_of self.old.widths) (display_of self.old) (LineSize size)) }
    {
        let row = self.row;
        set_size(&mut self.rows, row, size);
    }

    // Moves the rows of a region up, and adds plain rows below.
    fn scroll_region_up(&mut self, first: usize, size: usize, count: usize)
        requires { IsDrawn self.old }
        ensures { Shows self.old self.new
            (effect (W.width_of self.old.widths) (display_of self.old) (ScrollRegionUp first size count)) }
    {
        let height = self.rows.len();
        let first = first.min(height);
        let after = first + size.min(height - first);
        scroll_up(&mut self.rows, first, after, count.min(after - first));
    }

    // Moves the rows of a region down, and adds plain rows above.
    fn scroll_region_down(&mut self, first: usize, size: usize, count: usize)
        requires { IsDrawn self.old }
        ensures { Shows self.old self.new
            (effect (W.width_of self.old.widths) (display_of self.old) (ScrollRegionDown first size count)) }
    {
        let height = self.rows.len();
        let first = first.min(height);
        let after = first + size.min(height - first);
        scroll_down(&mut self.rows, first, after, count.min(after - first));
    }

    /// Applies a change.
    #[inline(always)]
    pub fn apply(&mut self, change: &Change) -> Result<(), AllocError>
        requires { IsDrawn self.old }
        ensures { OnOk result
            (Shows self.old self.new
            (effect (W.width_of self.old.widths) (display_of self.old) (value_of change.now))) }
    {
        match change {
            Change::Attribute(change) => self.set_attribute(change)?,
            Change::AllAttributes(pen) => self.set_pen(pen)?,
            Change::Text(text) => self.draw_text(text)?,
            Change::ClearScreen(color) => self.clear_screen(*color)?,
            Change::ClearToEndOfLine(color) => self.clear_to_end_of_line(*color)?,
            Change::ClearToEndOfScreen(color) => self.clear_to_end_of_screen(*color)?,
            Change::CursorPosition { x, y } => self.move_cursor(*x, *y),
            Change::CursorColor(_) => {}
            Change::CursorShape(shape) => self.shape = Some(*shape),
            Change::CursorVisibility(visibility) => self.visibility = *visibility,
            Change::LineAttribute(size) => self.set_line_attribute(*size),
            Change::ScrollRegionUp {
                first_row,
                region_size,
                scroll_count,
            } => self.scroll_region_up(*first_row, *region_size, *scroll_count),
            Change::ScrollRegionDown {
                first_row,
                region_size,
                scroll_count,
            } => self.scroll_region_down(*first_row, *region_size, *scroll_count),
            Change::Title(title) => self.title = title.clone()?,
        }
        Ok(())
    }
}

impl<W: Widths + Copy + Drop> Grid<W> {
    /// A copy.
    pub fn try_clone(&self) -> Result<Grid<W>, AllocError>
        ensures { IfOk result (λ grid. grid ≡ self.now) }
    {
        Ok(Grid {
            alloc: self.alloc,
            widths: self.widths,
            width: self.width,
            rows: copy(self.alloc, &self.rows)?,
            column: self.column,
            row: self.row,
            visibility: self.visibility,
            shape: self.shape,
            pen: self.pen.try_clone()?,
            title: self.title.clone()?,
        })
    }
}

/// Plain attributes with a background colour.
pub fn blank_of(color: ColorAttribute) -> CellAttributes
    ensures { result ≡ blank_of color }
{
    let mut attributes = CellAttributes::blank();
    attributes.set_background(color);
    attributes
}

//! Changes that are added to a surface, one after another. `add_one`, `add_one_attribute` and `add_whole_pen` are not
//! inlined: this keeps the large stack slot of a change out of callers that add nothing.
ghost use Rattle.std.specs.Prelude.{◌≡◌, [], ◌∷◌, ◌++◌, OnOk};
ghost use Rattle.std.specs.String.{string_bytes};
ghost use Rattle.cell_base.specs.AttributeValueOf.{attribute_value};
ghost use Rattle.cell_base.specs.declared.attribute_change.AttributeChange.TheVariants as AttributeChange;
ghost use Rattle.screen_change.specs.ChangeValue.{Attribute, Text};
ghost use Rattle.screen_change.specs.ValueOf.{value_of};
ghost use Rattle.xterm_steps.specs.Additions.{Adds, CopiesAndAdds};
ghost use Rattle.terminal_steps.specs.Cursor.{line_end_change, pen_change, position_change};

use crate::cursor::{CellPosition, LineEnd, Pen};
use cell_base::{AttributeChange, ColorAttribute, Intensity, Widths};
use cell_surface::{Surface, SurfaceError};
use screen_change::Change;
use std::alloc::AllocError;

// One change.
#[inline(never)]
fn add_one<W: Widths + Drop>(surface: &mut Surface<W>, change: Change) -> Result<(), SurfaceError>
    ensures { Adds (λ w. W.width_of w) surface.old (value_of change ∷ []) result surface.new }
{
    surface.add_change(change)?;
    Ok(())
}

// One change, inlined.
#[inline(always)]
pub(crate) fn add<W: Widths + Drop>(
    surface: &mut Surface<W>,
    change: Change,
) -> Result<(), SurfaceError>
    ensures { Adds (λ w. W.width_of w) surface.old (value_of change ∷ []) result surface.new }
{
    add_one(surface, change)
}

// A text.
pub(crate) fn add_run<W: Widths + Drop>(
    surface: &mut Surface<W>,
    text: String,
) -> Result<(), SurfaceError>
    ensures { Adds (λ w. W.width_of w) surface.old (Text (string_bytes text) ∷ []) result surface.new }
{
    surface.add_change(text)?;
    Ok(())
}

// One attribute of the pen.
#[inline(never)]
fn add_one_attribute<W: Widths + Drop>(
    surface: &mut Surface<W>,
    change: AttributeChange,
) -> Result<(), SurfaceError>
    ensures { Adds (λ w. W.width_of w) surface.old (Attribute (attribute_value change) ∷ []) result surface.new }
{
    surface.add_change(change)?;
    Ok(())
}

// The intensity of the pen.
#[inline(never)]
pub(crate) fn add_intensity<W: Widths + Drop>(
    surface: &mut Surface<W>,
    intensity: Intensity,
) -> Result<(), SurfaceError>
    ensures { Adds (λ w. W.width_of w) surface.old
        (Attribute (attribute_value (AttributeChange.Intensity intensity)) ∷ []) result surface.new }
{
    surface.add_change(AttributeChange::Intensity(intensity))?;
    Ok(())
}

// The foreground of the pen.
#[inline(never)]
pub(crate) fn add_foreground<W: Widths + Drop>(
    surface: &mut Surface<W>,
    color: ColorAttribute,
) -> Result<(), SurfaceError>
    ensures { Adds (λ w. W.width_of w) surface.old
        (Attribute (attribute_value (AttributeChange.Foreground color)) ∷ []) result surface.new }
{
    surface.add_change(AttributeChange::Foreground(color))?;
    Ok(())
}

// The background of the pen.
#[inline(never)]
pub(crate) fn add_background<W: Widths + Drop>(
    surface: &mut Surface<W>,
    color: ColorAttribute,
) -> Result<(), SurfaceError>
    ensures { Adds (λ w. W.width_of w) surface.old
        (Attribute (attribute_value (AttributeChange.Background color)) ∷ []) result surface.new }
{
    surface.add_change(AttributeChange::Background(color))?;
    Ok(())
}

// One attribute of the pen, inlined.
#[inline(always)]
pub(crate) fn add_attribute<W: Widths + Drop>(
    surface: &mut Surface<W>,
    change: AttributeChange,
) -> Result<(), SurfaceError>
    ensures { Adds (λ w. W.width_of w) surface.old (Attribute (attribute_value change) ∷ []) result surface.new }
{
    add_one_attribute(surface, change)
}

// All attributes of the pen.
#[inline(never)]
fn add_whole_pen<W: Widths + Drop>(surface: &mut Surface<W>, pen: Pen) -> Result<(), SurfaceError>
    ensures { Adds (λ w. W.width_of w) surface.old (pen_change pen ∷ []) result surface.new }
{
    surface.add_change(pen)?;
    Ok(())
}

// All attributes of the pen, inlined.
#[inline(always)]
pub(crate) fn add_pen<W: Widths + Drop>(
    surface: &mut Surface<W>,
    pen: Pen,
) -> Result<(), SurfaceError>
    ensures { Adds (λ w. W.width_of w) surface.old (pen_change pen ∷ []) result surface.new }
{
    add_whole_pen(surface, pen)
}

// A position for the cursor.
pub(crate) fn add_position<W: Widths + Drop>(
    surface: &mut Surface<W>,
    destination: CellPosition,
) -> Result<(), SurfaceError>
    ensures { Adds (λ w. W.width_of w) surface.old (position_change destination ∷ []) result surface.new }
{
    surface.add_change(destination)?;
    Ok(())
}

// Blanks from the cursor to the end of its row.
pub(crate) fn add_line_end<W: Widths + Drop>(
    surface: &mut Surface<W>,
    end: LineEnd,
) -> Result<(), SurfaceError>
    ensures { Adds (λ w. W.width_of w) surface.old (line_end_change «end» ∷ []) result surface.new }
{
    surface.add_change(end)?;
    Ok(())
}

// A position for the cursor, and all attributes of the pen.
pub(crate) fn add_cursor<W: Widths + Drop>(
    surface: &mut Surface<W>,
    destination: CellPosition,
    pen: Pen,
) -> Result<(), SurfaceError>
    ensures { Adds (λ w. W.width_of w) surface.old (position_change destination ∷ pen_change pen ∷ []) result
        surface.new }
{
    add_position(surface, destination)?;
    add_pen(surface, pen)?;
    Ok(())
}

// Appends a text. A single byte is stored, in place of a block copy.
#[inline(always)]
fn append(copy: &mut String, text: &str) -> Result<(), AllocError>
    ensures { OnOk result (string_bytes copy.new ≡ string_bytes copy.old ++ text.now) }
{
    match text.as_bytes() {
        [byte] if byte.is_ascii() => copy.push(*byte as char),
        _ => copy.push_str(text),
    }
}

// A copy of a text.
#[inline(always)]
pub(crate) fn add_text<W: Widths + Drop>(
    surface: &mut Surface<W>,
    text: &str,
) -> Result<(), SurfaceError>
    ensures { CopiesAndAdds (λ w. W.width_of w) surface.old (Text text.now ∷ []) result surface.new }
{
    let mut copy = surface.pooled_text();
    append(&mut copy, text)?;
    add_run(surface, copy)
}

// No change.
pub(crate) fn add_nothing<W: Widths + Drop>(surface: &mut Surface<W>) -> Result<(), SurfaceError>
    ensures { Adds (λ w. W.width_of w) surface.old [] result surface.new }
{
    if surface.is_failed() {
        return Err(SurfaceError::Failed);
    }
    Ok(())
}

//! SGR, and its effect on the pen.
ghost use Rattle.std.specs.Prelude.{◌≡◌, None, IfOk};
ghost use Rattle.cell_surface.specs.Surface.{shown_by};
ghost use Rattle.csi_codec.specs.declared.rendition.Sgr.TheVariants as sgr;
ghost use Rattle.terminal_table.specs.Changes.{changes};
ghost use Rattle.terminal_table.specs.Functions as table;
ghost use Rattle.terminal_table.specs.Steps.{with_rendition};
ghost use Rattle.xterm_steps.specs.Additions.{AddsWith};
ghost use Rattle.terminal_steps.specs.Memory.{copies_pen};

use crate::changes::{
    add_attribute, add_background, add_foreground, add_intensity, add_nothing, add_pen,
};
use crate::cursor::Pen;
use cell_base::{
    AttributeChange, CellAttributes, ColorAttribute, ColorSpec, VerticalAlign, Widths,
};
use cell_surface::{Surface, SurfaceError};
use csi_codec::Sgr;
use std::alloc::AllocError;

// SGR 0: a plain pen with the link of this one.
fn reset(pen: &CellAttributes) -> Result<Pen, AllocError>
    ensures { IfOk result (λ new. new.attributes ≡ with_rendition sgr.Reset pen.now) }
{
    let link = match pen.hyperlink() {
        Some(link) => Some(link.clone()?),
        None => None,
    };
    let mut new = CellAttributes::blank();
    new.set_hyperlink(link);
    Ok(Pen { attributes: new })
}

fn with_underline_color(color: ColorSpec, pen: &CellAttributes) -> Result<Pen, AllocError>
    ensures { IfOk result (λ new. new.attributes ≡ with_rendition (sgr.UnderlineColor color) pen.now) }
{
    let mut new = pen.try_clone()?;
    new.set_underline_color(ColorAttribute::from(color));
    Ok(Pen { attributes: new })
}

fn with_overline(on: bool, pen: &CellAttributes) -> Result<Pen, AllocError>
    ensures { IfOk result (λ new. new.attributes ≡ with_rendition (sgr.Overline on) pen.now) }
{
    let mut new = pen.try_clone()?;
    new.set_overline(on);
    Ok(Pen { attributes: new })
}

fn with_vertical_align(align: VerticalAlign, pen: &CellAttributes) -> Result<Pen, AllocError>
    ensures { IfOk result (λ new. new.attributes ≡ with_rendition (sgr.VerticalAlign align) pen.now) }
{
    let mut new = pen.try_clone()?;
    new.set_vertical_align(align);
    Ok(Pen { attributes: new })
}

/// SGR (CSI m): sets the pen.
pub(crate) fn render<W: Widths + Drop>(
    surface: &mut Surface<W>,
    value: Sgr,
) -> Result<(), SurfaceError>
    ensures { AddsWith (copies_pen value) (λ w. W.width_of w) surface.old
        (changes (table.Rendition value) None (shown_by surface.old).screen) result surface.new }
{
    let change = match value {
        Sgr::Intensity(value) => return add_intensity(surface, value),
        Sgr::Underline(value) => AttributeChange::Underline(value),
        Sgr::Blink(value) => AttributeChange::Blink(value),
        Sgr::Italic(value) => AttributeChange::Italic(value),
        Sgr::Inverse(value) => AttributeChange::Reverse(value),
        Sgr::Invisible(value) => AttributeChange::Invisible(value),
        Sgr::StrikeThrough(value) => AttributeChange::StrikeThrough(value),
        Sgr::Foreground(value) => return add_foreground(surface, ColorAttribute::from(value)),
        Sgr::Background(value) => return add_background(surface, ColorAttribute::from(value)),
        Sgr::Reset => {
            let pen = reset(surface.pen())?;
            return add_pen(surface, pen);
        }
        Sgr::UnderlineColor(color) => {
            let pen = with_underline_color(color, surface.pen())?;
            return add_pen(surface, pen);
        }
        Sgr::Overline(on) => {
            let pen = with_overline(on, surface.pen())?;
            return add_pen(surface, pen);
        }
        Sgr::VerticalAlign(align) => {
            let pen = with_vertical_align(align, surface.pen())?;
            return add_pen(surface, pen);
        }
        Sgr::Font(_) => return add_nothing(surface),
    };
    add_attribute(surface, change)
}

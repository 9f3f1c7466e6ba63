//! Attributes, pens and clears.
ghost use Rattle.std.specs.Prelude.{◌≡◌, ◌≢◌, ◌++◌, ◌∷◌, [], OnOk, None, Some, if◌then◌else◌, is_some, option_map};
ghost use Rattle.std.specs.Prelude.{IsTrue};
ghost use Rattle.cell_base.specs.AttributeValueOf.{attribute_value};
ghost use Rattle.csi_codec.specs.declared.cursors.Cursor.TheVariants as cursor;
ghost use Rattle.csi_codec.specs.declared.edits.Edit.TheVariants as edit;
ghost use Rattle.csi_codec.specs.declared.edits.EraseInDisplay.TheVariants as display;
ghost use Rattle.csi_codec.specs.declared.rendition.Sgr.TheVariants as sgr;
ghost use Rattle.terminal_render.specs.Carried.{HasColor, HaveColors, IsColor};
ghost use Rattle.terminal_render.specs.Pen.{attribute_action, clear_rendering, colour_setting, lacks_encoding};
ghost use Rattle.terminal_render.specs.Pen.{pen_actions, pen_rendering, pen_settings, plain_pen, settings};
ghost use Rattle.terminal_render.specs.Pen.{unless_base_line, unless_default, unless_none, unless_normal};
ghost use Rattle.terminal_render.specs.Pen.{unless_steady};
ghost use Rattle.terminal_render.specs.Rendering.{appended, edited, moved};

use crate::actions::Actions;
use crate::coordinate::Coordinate;
use crate::links::is_carried;
use crate::moves::Move;
use cell_base::{
    AttributeChange, Blink, CellAttributes, ColorAttribute, ColorSpec, Hyperlink, Intensity,
    SemanticType, SrgbaTuple, Underline, VerticalAlign,
};
use csi_codec::{Edit, EraseInDisplay, Sgr};
use std::alloc::AllocError;
use std::rc::Rc;

/// Whether SGR sets a colour: any except a true colour with a palette fallback.
pub(crate) fn color_has_encoding(color: ColorAttribute) -> bool
    ensures encoding { result ≡ is_some (colour_setting color) }
    ensures bytes { IsTrue result → IsColor color }
{
    match color {
        ColorAttribute::TrueColorWithPaletteFallback(_, _) => false,
        ColorAttribute::TrueColorWithDefaultFallback(SrgbaTuple(_red, _green, _blue, _alpha)) =>
            true,
        ColorAttribute::PaletteIndex(_index) => true,
        ColorAttribute::Default => true,
    }
}

// The SGR parameter of a colour that SGR can set.
fn color_setting(color: ColorAttribute) -> ColorSpec
    requires { colour_setting color ≢ None }
    ensures { colour_setting color ≡ Some result }
{
    match color {
        ColorAttribute::TrueColorWithPaletteFallback(color, _)
        | ColorAttribute::TrueColorWithDefaultFallback(color) => ColorSpec::TrueColor(color),
        ColorAttribute::PaletteIndex(index) => ColorSpec::PaletteIndex(index),
        ColorAttribute::Default => ColorSpec::Default,
    }
}

// This and the following functions return `None` where the attribute is plain.
fn unless_normal(value: Intensity) -> Option<Sgr>
    ensures { result ≡ unless_normal value }
{
    match value {
        Intensity::Normal => None,
        _ => Some(Sgr::Intensity(value)),
    }
}

fn unless_none(value: Underline) -> Option<Sgr>
    ensures { result ≡ unless_none value }
{
    match value {
        Underline::None => None,
        _ => Some(Sgr::Underline(value)),
    }
}

fn unless_steady(value: Blink) -> Option<Sgr>
    ensures { result ≡ unless_steady value }
{
    match value {
        Blink::None => None,
        _ => Some(Sgr::Blink(value)),
    }
}

fn unless_base_line(value: VerticalAlign) -> Option<Sgr>
    ensures { result ≡ unless_base_line value }
{
    match value {
        VerticalAlign::BaseLine => None,
        _ => Some(Sgr::VerticalAlign(value)),
    }
}

// The foreground, unless it is the default colour.
fn foreground_setting(color: ColorSpec) -> Option<Sgr>
    ensures { result ≡ unless_default sgr.Foreground color }
{
    match color {
        ColorSpec::Default => None,
        _ => Some(Sgr::Foreground(color)),
    }
}

// The background, unless it is the default colour.
fn background_setting(color: ColorSpec) -> Option<Sgr>
    ensures { result ≡ unless_default sgr.Background color }
{
    match color {
        ColorSpec::Default => None,
        _ => Some(Sgr::Background(color)),
    }
}

// The underline colour, unless it is the default colour.
fn underline_setting(color: ColorSpec) -> Option<Sgr>
    ensures { result ≡ unless_default sgr.UnderlineColor color }
{
    match color {
        ColorSpec::Default => None,
        _ => Some(Sgr::UnderlineColor(color)),
    }
}

// The setting, where it is on.
fn when(on: bool, setting: Sgr) -> Option<Sgr>
    ensures { result ≡ (if on then Some setting else None) }
{
    if on { Some(setting) } else { None }
}

// The settings after a reset, with these colours; `None` for each attribute that is plain.
fn settings(
    a: &CellAttributes,
    foreground: ColorSpec,
    background: ColorSpec,
    underline: ColorSpec,
) -> [Option<Sgr>; 12]
    ensures { result ≡ settings a.now foreground background underline }
{
    [
        unless_normal(a.intensity()),
        unless_none(a.underline()),
        unless_steady(a.blink()),
        when(a.italic(), Sgr::Italic(true)),
        when(a.reverse(), Sgr::Inverse(true)),
        when(a.strikethrough(), Sgr::StrikeThrough(true)),
        when(a.invisible(), Sgr::Invisible(true)),
        when(a.overline(), Sgr::Overline(true)),
        unless_base_line(a.vertical_align()),
        foreground_setting(foreground),
        background_setting(background),
        underline_setting(underline),
    ]
}

/// Whether SGR and OSC 8 set the attributes.
#[tactic(auto, unfolding(crate::specs::Pen::pen_rendering))]
pub(crate) fn pen_has_encoding(a: &CellAttributes) -> bool
    ensures encoding { result ≡ is_some (pen_rendering a.now) }
    ensures bytes { IsTrue result → HaveColors a.now }
{
    !lacks_encoding(a) && colors_have_encodings(a)
}

// Whether the attributes have a value that no action sets.
fn lacks_encoding(a: &CellAttributes) -> bool
    ensures { result ≡ lacks_encoding a.now }
{
    if a.wrapped() {
        return true;
    }
    a.semantic_type() != SemanticType::Output || !is_carried(a.hyperlink())
}

// Whether SGR sets each colour of the attributes.
fn colors_have_encodings(a: &CellAttributes) -> bool
    ensures encoding { result ≡ is_some (pen_settings a.now) }
    ensures bytes { IsTrue result → HaveColors a.now }
{
    if !color_has_encoding(a.foreground()) {
        return false;
    }
    color_has_encoding(a.background()) && color_has_encoding(a.underline_color())
}

// The settings after a reset of attributes whose colours SGR can set, colours included.
fn pen_settings(a: &CellAttributes) -> [Option<Sgr>; 12]
    requires { pen_settings a.now ≢ None }
    ensures { pen_settings a.now ≡ Some result }
{
    let foreground = color_setting(a.foreground());
    let background = color_setting(a.background());
    let underline = color_setting(a.underline_color());
    settings(a, foreground, background, underline)
}

/// Appends attributes that have an encoding: a reset, the settings after it, and the link or its end.
#[tactic(auto, unfolding(crate::specs::Pen::pen_rendering))]
pub(crate) fn push_pen<'a>(
    actions: &mut Actions<'a>,
    pen: &'a CellAttributes,
) -> Result<(), AllocError>
    requires { pen_rendering pen.now ≢ None }
    ensures { OnOk result (appended actions.old (pen_rendering pen.now) ≡ Some actions.new) }
{
    push_settings(actions, pen_settings(pen), pen.hyperlink())
}

// Appends a reset, the settings, and the link or its end.
fn push_settings<'a>(
    actions: &mut Actions<'a>,
    values: [Option<Sgr>; 12],
    link: Option<&'a Rc<Hyperlink>>,
) -> Result<(), AllocError>
    ensures { OnOk result (actions.new ≡ actions.old ++ pen_actions values (option_map (λ l. l.now.value) link.entry)) }
{
    actions.push_sgr(Sgr::Reset)?;
    for value in values {
        actions.push_setting(value)?;
    }
    actions.push_link(link)?;
    Ok(())
}

/// Whether SGR or OSC 8 sets an attribute.
#[tactic(auto, unfolding(crate::specs::Pen::attribute_action))]
pub(crate) fn attribute_has_encoding(change: &AttributeChange) -> bool
    ensures encoding { result ≡ is_some (attribute_action (attribute_value change.now)) }
    ensures bytes { IsTrue result → HasColor (attribute_value change.now) }
{
    match change {
        AttributeChange::Foreground(color) | AttributeChange::Background(color) => {
            color_has_encoding(*color)
        }
        AttributeChange::Hyperlink(link) => is_carried(link.as_ref()),
        AttributeChange::Intensity(_)
        | AttributeChange::Underline(_)
        | AttributeChange::Italic(_)
        | AttributeChange::Blink(_)
        | AttributeChange::Reverse(_)
        | AttributeChange::StrikeThrough(_)
        | AttributeChange::Invisible(_) => true,
    }
}

/// Appends an attribute that has an encoding: its SGR, or OSC 8.
#[tactic(auto, unfolding(crate::specs::Pen::attribute_action))]
pub(crate) fn push_attribute<'a>(
    actions: &mut Actions<'a>,
    change: &'a AttributeChange,
) -> Result<(), AllocError>
    requires { attribute_action (attribute_value change.now) ≢ None }
    ensures { OnOk result (appended actions.old (option_map (λ action. action ∷ [])
        (attribute_action (attribute_value change.now))) ≡ Some actions.new) }
{
    match change {
        AttributeChange::Intensity(value) => actions.push_sgr(Sgr::Intensity(*value)),
        AttributeChange::Underline(value) => actions.push_sgr(Sgr::Underline(*value)),
        AttributeChange::Italic(value) => actions.push_sgr(Sgr::Italic(*value)),
        AttributeChange::Blink(value) => actions.push_sgr(Sgr::Blink(*value)),
        AttributeChange::Reverse(value) => actions.push_sgr(Sgr::Inverse(*value)),
        AttributeChange::StrikeThrough(value) => actions.push_sgr(Sgr::StrikeThrough(*value)),
        AttributeChange::Invisible(value) => actions.push_sgr(Sgr::Invisible(*value)),
        AttributeChange::Foreground(color) => {
            actions.push_sgr(Sgr::Foreground(color_setting(*color)))
        }
        AttributeChange::Background(color) => {
            actions.push_sgr(Sgr::Background(color_setting(*color)))
        }
        AttributeChange::Hyperlink(link) => actions.push_link(link.as_ref()),
    }
}

// Appends a plain pen with a background, which is set before an erasure.
fn push_plain_pen(actions: &mut Actions<'_>, color: ColorSpec) -> Result<(), AllocError>
    ensures { OnOk result (actions.new ≡ actions.old ++ plain_pen color) }
{
    actions.push_sgr(Sgr::Reset)?;
    actions.push_link(None)?;
    actions.push_setting(background_setting(color))?;
    Ok(())
}

/// Appends an erasure that leaves blanks of a colour that SGR sets.
#[tactic(auto, unfolding(crate::specs::Pen::clear_rendering))]
pub(crate) fn push_clear(
    actions: &mut Actions<'_>,
    color: ColorAttribute,
    erasure: Edit,
) -> Result<(), AllocError>
    requires { clear_rendering color (edited erasure ∷ []) ≢ None }
    ensures { OnOk result (appended actions.old (clear_rendering color (edited erasure ∷ [])) ≡ Some actions.new) }
{
    push_plain_pen(actions, color_setting(color))?;
    actions.push_edit(erasure)
}

/// Appends an erasure of the whole screen, after which the cursor goes home.
#[tactic(auto, unfolding(crate::specs::Pen::clear_rendering))]
pub(crate) fn push_clear_screen(
    actions: &mut Actions<'_>,
    color: ColorAttribute,
) -> Result<(), AllocError>
    requires { clear_rendering color (edited (edit.EraseInDisplay display.EraseDisplay)
        ∷ moved (cursor.Position 1 1) ∷ []) ≢ None }
    ensures { OnOk result
        (appended actions.old (clear_rendering color (edited (edit.EraseInDisplay display.EraseDisplay)
        ∷ moved (cursor.Position 1 1) ∷ [])) ≡ Some actions.new) }
{
    push_plain_pen(actions, color_setting(color))?;
    actions.push_edit(Edit::EraseInDisplay(EraseInDisplay::EraseDisplay))?;
    actions.push_move(Move::To(Coordinate::new(1), Coordinate::new(1)))
}

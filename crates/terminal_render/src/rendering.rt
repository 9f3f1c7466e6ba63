//! `render`: the encoding of a change, if it has one.
ghost use Rattle.std.specs.Prelude.{◌≡◌, ◌↔◌, ◌<◌, ◌^◌, ◌&&◌, map, is_some, None, Some, IfOk, IsErrOf, IsTrue};
ghost use Rattle.screen_change.specs.ValueOf.{value_of as change_value};
ghost use Rattle.escape_stream.specs.StreamActionView.{value_of};
ghost use Rattle.escape_stream.specs.StreamWritable.{IsWritable};
ghost use Rattle.terminal_render.specs.Carried.{IsChange};
ghost use Rattle.terminal_render.specs.Rendering.{is_whole, rendering};
ghost use Rattle.terminal_render.specs.Texts.{text_rendering, title_rendering};
ghost use Rattle.cell_base.specs.ScreenSize.{IsScreenSize};

use crate::actions::Actions;
use crate::encoding::push_change;
use crate::error::RenderError;
use crate::links::is_plain_text;
use crate::pen::{attribute_has_encoding, color_has_encoding, pen_has_encoding};
use crate::positions::position_has_encoding;
use escape_stream::Action;
use screen_change::Change;
use std::alloc::Global;
use text_clusters::holds_c1;

// Whether a text has an encoding: it holds no C1 control.
#[tactic(auto, unfolding(crate::specs::Texts::text_rendering))]
fn text_has_encoding(text: &str) -> bool
    ensures { result ≡ is_some (text_rendering text.now) }
{
    !holds_c1(text.as_bytes())
}

// Whether a title has an encoding: it holds no control.
#[tactic(auto, unfolding(crate::specs::Texts::title_rendering))]
fn title_has_encoding(title: &str) -> bool
    ensures { result ≡ is_some (title_rendering title.now) }
{
    is_plain_text(title)
}

// Whether a region has all rows; a region that goes past the last row ends there.
fn is_whole(height: usize, first_row: usize, region_size: usize) -> bool
    ensures { result ≡ is_whole height first_row region_size }
{
    first_row == 0 && height <= region_size
}

/// Whether a change has an encoding: actions that do to the screen of a terminal of `width` columns and `height`
/// rows what the change does.
#[tactic(auto, unfolding(crate::specs::Pen::clear_rendering, crate::specs::Rendering::scroll_rendering))]
pub fn has_encoding(change: &Change, width: usize, height: usize) -> bool
    ensures encoding { result ≡ is_some (rendering (change_value change.now) width height) }
    // (the components of colours are bytes, and texts are UTF-8)
    ensures change { IsTrue result → IsChange (change_value change.now) }
{
    match change {
        Change::Text(text) => text_has_encoding(text.as_str()),
        Change::Title(title) => title_has_encoding(title.as_str()),
        Change::Attribute(change) => attribute_has_encoding(change),
        Change::AllAttributes(pen) => pen_has_encoding(pen),
        Change::ClearScreen(color)
        | Change::ClearToEndOfLine(color)
        | Change::ClearToEndOfScreen(color) => color_has_encoding(*color),
        Change::CursorPosition { x, y } => position_has_encoding(width, height, *x, *y),
        Change::CursorVisibility(_) => true,
        Change::ScrollRegionUp {
            first_row,
            region_size,
            ..
        }
        | Change::ScrollRegionDown {
            first_row,
            region_size,
            ..
        } => is_whole(height, *first_row, *region_size),
        Change::CursorColor(_) | Change::CursorShape(_) | Change::LineAttribute(_) => false,
    }
}

/// The actions that encode a change for a terminal of `width` columns and `height` rows, 1 to 2^32 - 1
/// each, by ECMA-48 and xterm's control sequences: they do to the terminal's screen what the change
/// does. A text is cut at its C0 controls and DEL, and each part that is printed ends in NUL, so that
/// no run is held. The actions read back from the bytes that `encode` writes of them.
///
/// `NoSpelling` where no actions do so, also where memory is short: a column at or past the
/// width, a relative move to the left, a position that moves nothing; scrolls of a part of the rows; a
/// true colour with a palette fallback, `wrapped`, a semantic type other than output; a link that is
/// implicit, doesn't read back from its text or holds a control; U+0080 to U+009F in a text, and any
/// control in a title; the cursor's colour and shape, and the size of a row.
#[tactic(auto, using(crate::proofs::EncodedLemmas::first_rendered))]
pub fn render(
    alloc: Global,
    change: &Change,
    width: usize,
    height: usize,
) -> Result<Vec<Action>, RenderError>
    requires size { IsScreenSize width height }
    ensures some { IfOk result
        (λ actions. rendering (change_value change.now) width height ≡ Some (map value_of actions.items)) }
    ensures none { IsErrOf result RenderError.NoSpelling ↔ (rendering (change_value change.now) width height ≡ None) }
    ensures writable { IfOk result (λ actions. IsWritable (map value_of actions.items)) }
{
    if !has_encoding(change, width, height) {
        return Err(RenderError::NoSpelling);
    }
    let mut actions = Actions::new(alloc);
    push_change(&mut actions, change, width, height)?;
    Ok(actions.to_vec(alloc)?)
}

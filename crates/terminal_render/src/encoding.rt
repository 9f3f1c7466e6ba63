//! The encoding of a change that has one: its actions, or their bytes. Nothing here asks whether it has one.
ghost use Rattle.std.specs.Prelude.{◌≡◌, ◌≢◌, ◌==◌, ◌<◌, ◌^◌, ◌++◌, ◌∷◌, [], length};
ghost use Rattle.std.specs.Prelude.{map, min, take, if◌then◌else◌, OnErr, OnOk, None, Some, option_map};
ghost use Rattle.screen_change.specs.ValueOf.{value_of as change_value};
ghost use Rattle.escape_stream.specs.StreamText.{stream_text};
ghost use Rattle.terminal_render.specs.Lists.{all_rendered};
ghost use Rattle.terminal_render.specs.Rendering.{appended, edited, rendering, visibility_mode};
ghost use Rattle.cell_base.specs.ScreenSize.{IsScreenSize};

use crate::actions::Actions;
use crate::pen::{push_attribute, push_clear, push_clear_screen, push_pen};
use crate::positions::push_position;
use crate::texts::{push_text, push_title};
use cell_base::CursorVisibility;
use csi_codec::{DecPrivateMode, DecPrivateModeCode, Edit, EraseInDisplay, EraseInLine, Mode};
use screen_change::Change;
use std::alloc::{AllocError, Global};

// A count of rows, at most the height.
fn row_count(height: usize, count: usize) -> u32
    requires { height < 2 ^ 32 }
    ensures { result ≡ min count height }
{
    count.min(height) as u32
}

// Appends a scroll of all rows; nothing where the count is 0.
fn push_scroll(actions: &mut Actions<'_>, count: usize, scroll: Edit) -> Result<(), AllocError>
    ensures { OnOk result (actions.new ≡ actions.old ++ (if count == 0 then [] else edited scroll ∷ [])) }
{
    if count == 0 {
        return Ok(());
    }
    actions.push_edit(scroll)
}

// DECTCEM: set for a visible cursor, reset for a hidden one.
fn visibility_mode(visibility: CursorVisibility) -> Mode
    ensures { result ≡ visibility_mode visibility }
{
    match visibility {
        CursorVisibility::Visible => {
            Mode::SetDecPrivateMode(DecPrivateMode::Code(DecPrivateModeCode::ShowCursor))
        }
        CursorVisibility::Hidden => {
            Mode::ResetDecPrivateMode(DecPrivateMode::Code(DecPrivateModeCode::ShowCursor))
        }
    }
}

/// Appends the encoding of a change that has one.
#[tactic(auto, unfolding(crate::specs::Rendering::scroll_rendering, crate::specs::Texts::text_rendering))]
pub(crate) fn push_change<'a>(
    actions: &mut Actions<'a>,
    change: &'a Change,
    width: usize,
    height: usize,
) -> Result<(), AllocError>
    requires size { IsScreenSize width height }
    requires encoded { rendering (change_value change.now) width height ≢ None }
    ensures { OnOk result (appended actions.old (rendering (change_value change.now) width height) ≡ Some actions.new) }
{
    match change {
        Change::Text(text) => push_text(actions, text.as_str()),
        Change::Title(title) => push_title(actions, title.as_str()),
        Change::Attribute(change) => push_attribute(actions, change),
        Change::AllAttributes(pen) => push_pen(actions, pen),
        Change::ClearScreen(color) => push_clear_screen(actions, *color),
        Change::ClearToEndOfLine(color) => push_clear(
            actions,
            *color,
            Edit::EraseInLine(EraseInLine::EraseToEndOfLine),
        ),
        Change::ClearToEndOfScreen(color) => push_clear(
            actions,
            *color,
            Edit::EraseInDisplay(EraseInDisplay::EraseToEndOfDisplay),
        ),
        Change::CursorPosition { x, y } => push_position(actions, width, height, *x, *y),
        Change::CursorVisibility(visibility) => actions.push_mode(visibility_mode(*visibility)),
        Change::ScrollRegionUp { scroll_count, .. } => {
            let scroll = Edit::ScrollUp(row_count(height, *scroll_count));
            push_scroll(actions, *scroll_count, scroll)
        }
        Change::ScrollRegionDown { scroll_count, .. } => {
            let scroll = Edit::ScrollDown(row_count(height, *scroll_count));
            push_scroll(actions, *scroll_count, scroll)
        }
        Change::CursorColor(_) | Change::CursorShape(_) | Change::LineAttribute(_) => Ok(()),
    }
}

/// Appends the encodings of changes in turn, each of which has one: the bytes that `encode` writes of the actions
/// that `render` answers for each. No list of all actions is made. Want of memory is the only refusal; then
/// `bytes` stay as they were.
pub fn append_encodings(
    alloc: Global,
    changes: &[Change],
    width: usize,
    height: usize,
    bytes: &mut Vec<u8>,
) -> Result<(), AllocError>
    requires size { IsScreenSize width height }
    requires encoded { all_rendered (map change_value changes.now) width height ≢ None }
    ensures ok { OnOk result (option_map (λ actions. bytes.old.items ++ stream_text actions)
        (all_rendered (map change_value changes.now) width height) ≡ Some bytes.new.items) }
    ensures refused { OnErr result (bytes.new.items ≡ bytes.old.items) }
{
    let len = bytes.len();
    let result = append_each(alloc, changes, width, height, bytes);
    if result.is_err() {
        bytes.truncate(len);
    }
    result
}

// Appends each encoding in turn; what was appended before a refusal stays.
fn append_each(
    alloc: Global,
    changes: &[Change],
    width: usize,
    height: usize,
    bytes: &mut Vec<u8>,
) -> Result<(), AllocError>
    requires size { IsScreenSize width height }
    requires encoded { all_rendered (map change_value changes.now) width height ≢ None }
    ensures ok { OnOk result (option_map (λ actions. bytes.old.items ++ stream_text actions)
        (all_rendered (map change_value changes.now) width height) ≡ Some bytes.new.items) }
    ensures prefix { take (length bytes.old.items) bytes.new.items ≡ bytes.old.items }
{
    let mut actions = Actions::new(alloc);
    for change in changes {
        push_change(&mut actions, change, width, height)?;
        actions.append_to(bytes)?;
        actions.clear();
    }
    Ok(())
}

//! Texts, cut at their controls.
ghost use Rattle.std.specs.Prelude.{◌≡◌, ◌≢◌, ◌++◌, None, OnOk, Some};
ghost use Rattle.std.specs.List.{flat_map};
ghost use Rattle.screen_effects.specs.Parts.{plain_part};
ghost use Rattle.screen_effects.specs.Strokes.{Control, text_parts};
ghost use Rattle.terminal_render.specs.Rendering.{appended};
ghost use Rattle.terminal_render.specs.Texts.{part_actions, title_rendering};

use crate::actions::Actions;
use escape_stream::ControlCode;
use screen_effects::{split_at_control, split_control};
use std::alloc::AllocError;

// Appends a text without controls, unless it is empty.
fn push_plain<'a>(actions: &mut Actions<'a>, text: &'a str) -> Result<(), AllocError>
    ensures { OnOk result (actions.new ≡ actions.old ++ flat_map part_actions (plain_part text.now)) }
{
    if text.is_empty() {
        return Ok(());
    }
    actions.push_run(text)
}

// Appends a control: CR and LF themselves, any other one as a space.
fn push_control(actions: &mut Actions<'_>, control: u8) -> Result<(), AllocError>
    ensures { OnOk result (actions.new ≡ actions.old ++ part_actions (Control control)) }
{
    match control {
        b'\r' => actions.push_control(ControlCode::CarriageReturn),
        b'\n' => actions.push_control(ControlCode::LineFeed),
        _ => actions.push_run(" "),
    }
}

/// Appends a text, cut at its controls.
pub(crate) fn push_text<'a>(actions: &mut Actions<'a>, text: &'a str) -> Result<(), AllocError>
    ensures { OnOk result (actions.new ≡ actions.old ++ flat_map part_actions (text_parts text.now)) }
{
    let (prefix, mut rest) = split_at_control(text);
    push_plain(actions, prefix)?;
    while let Some((control, after)) = split_control(rest) {
        push_control(actions, control)?;
        let (prefix, remaining) = split_at_control(after);
        push_plain(actions, prefix)?;
        rest = remaining;
    }
    Ok(())
}

/// Appends a title that has an encoding.
#[tactic(auto, unfolding(crate::specs::Texts::title_rendering))]
pub(crate) fn push_title<'a>(actions: &mut Actions<'a>, title: &'a str) -> Result<(), AllocError>
    requires { title_rendering title.now ≢ None }
    ensures { OnOk result (appended actions.old (title_rendering title.now) ≡ Some actions.new) }
{
    actions.push_title(title)
}

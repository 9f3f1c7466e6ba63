//! The patch: the bytes that make a viewer of the same size show a screen. Only `terminal` calls it: it requires a
//! surface each change of which has an encoding, and only the surface of a terminal is known to have this.
ghost use Rattle.std.specs.Prelude.{◌≡◌, ◌++◌, false, length, map, IfOk, OnOk};
ghost use Rattle.screen_change.specs.ChangeValue.{CursorVisibility};
ghost use Rattle.screen_change.specs.ValueOf.{value_of};
ghost use Rattle.cell_surface.specs.Surface.{shown_by};
ghost use Rattle.screen_difference.specs.Difference.{difference};
ghost use Rattle.screen_difference.specs.FreshCells.{screen_fresh};
ghost use Rattle.screen_effects.specs.Display.{IsDisplay};
ghost use Rattle.terminal_table.specs.Led.{position_and_pen};
ghost use Rattle.terminal_viewers.specs.Patch.{patch_of};
ghost use Rattle.terminal_render.specs.Spelling.{HasEncoding, HaveEncodings};
ghost use Rattle.terminal_table.specs.Changes.{visibility};
ghost use Rattle.terminal_viewers.specs.Encodable.{CanBeEncoded};
ghost use Rattle.terminal_viewers.specs.Encoding.{encoded_text, encoded_texts};

use crate::update::ViewerEncoder;
use cell_base::Widths;
use cell_surface::Surface;
use screen_change::Change;
use std::alloc::{AllocError, Global};

// The changes that write the cells of `surface` that `shown` doesn't show.
fn fresh_cells<W: Widths + Drop>(
    shown: &Surface<W>,
    surface: &Surface<W>,
) -> Result<Vec<Change>, AllocError>
    ensures changes { IfOk result
        (λ changes. map value_of changes.items
        ≡ difference (screen_fresh (shown_by shown.now).screen (shown_by surface.now).screen)) }
    ensures lawful { shown.now.is_failed ≡ false → IsDisplay (shown_by shown.now) }
{
    match shown.diff_screens(surface) {
        Ok(changes) => Ok(changes),
        Err(_) => Err(AllocError),
    }
}

// Encodes the cursor's position and the pen.
fn encode_position_and_pen<W: Widths + Drop>(
    encoder: &ViewerEncoder,
    bytes: &mut Vec<u8>,
    surface: &Surface<W>,
) -> Result<(), AllocError>
    requires stays { surface.now.is_failed ≡ false }
    requires width { encoder.now.width ≡ (shown_by surface.now).screen.width }
    requires spelled { HaveEncodings encoder.now.width encoder.now.height
        (position_and_pen (shown_by surface.now).screen) }
    ensures { OnOk result
        (bytes.new.items
        ≡ bytes.old.items
        ++ encoded_texts encoder.now.width encoder.now.height (position_and_pen (shown_by surface.now).screen)) }
{
    let (column, row) = surface.cursor_position();
    if column == encoder.width {
        encoder.encode_again(bytes, surface)?;
        return Ok(());
    }
    encoder.encode_position(bytes, column, row)?;
    encoder.encode_pen(bytes, surface.pen())?;
    Ok(())
}

// Encodes whether the cursor is visible.
fn encode_visibility<W: Widths + Drop>(
    encoder: &ViewerEncoder,
    bytes: &mut Vec<u8>,
    surface: &Surface<W>,
) -> Result<(), AllocError>
    requires { HasEncoding encoder.now.width encoder.now.height
        (CursorVisibility (visibility (shown_by surface.now).screen.visible)) }
    ensures { OnOk result
        (bytes.new.items
        ≡ bytes.old.items
        ++ encoded_text encoder.now.width encoder.now.height
        (CursorVisibility (visibility (shown_by surface.now).screen.visible))) }
{
    let visibility = surface.cursor_visibility();
    encoder.encode(bytes, &Change::CursorVisibility(visibility))
}

/// The bytes that turn a terminal with the screen of `shown` into one with the screen of `surface`, which has the same
/// size: the title, also an empty one; the cells that `shown` doesn't show, each once, row by row; the cursor's
/// position, where a wrap is pending by the last cell of its row, which is written once more; the pen; and whether
/// the cursor is visible.
///
/// Want of memory is the only refusal.
pub fn patch<W: Widths + Drop>(
    alloc: Global,
    surface: &Surface<W>,
    shown: &Surface<W>,
) -> Result<Vec<u8>, AllocError>
    requires sendable { CanBeEncoded surface.now }
    requires shown { shown.now.is_failed ≡ false }
    requires width { shown.now.grid.width ≡ surface.now.grid.width }
    requires height { length shown.now.grid.lines ≡ length surface.now.grid.lines }
    ensures { IfOk result (λ bytes. bytes.items ≡ patch_of (shown_by shown.now).screen (shown_by surface.now).screen) }
{
    let changes = fresh_cells(shown, surface)?;
    let encoder = ViewerEncoder::of(alloc, surface);
    let mut bytes = Vec::new(alloc);
    encoder.encode_title(&mut bytes, surface.title())?;
    encoder.encode_all(&mut bytes, &changes)?;
    encode_position_and_pen(&encoder, &mut bytes, surface)?;
    encode_visibility(&encoder, &mut bytes, surface)?;
    Ok(bytes)
}

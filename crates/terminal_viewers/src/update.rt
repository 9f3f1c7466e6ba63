//! The update: the bytes of the changes that are due, or of the whole screen. Only `terminal` and `patch` call this
//! module: it requires a surface each change of which has an encoding, and only the surface of a terminal is known to
//! have this.
ghost use Rattle.std.specs.Prelude.{◌≡◌, ◌++◌, false, length, map, take, IfOk, OnErr, OnOk};
ghost use Rattle.std.specs.List.{flat_map};
ghost use Rattle.std.specs.Option.{option_map};
ghost use Rattle.cell_base.specs.declared.attributes.Position.TheVariants as position;
ghost use Rattle.cell_base.specs.Screen.{height};
ghost use Rattle.cell_base.specs.ScreenSize.{IsScreenSize};
ghost use Rattle.screen_change.specs.ChangeValue.{AllAttributes, CursorPosition, Text, Title};
ghost use Rattle.screen_change.specs.ValueOf.{value_of};
ghost use Rattle.cell_views.specs.CellRefView.{shown_by as cell_shown};
ghost use Rattle.cell_surface.specs.Surface.{shown_by};
ghost use Rattle.screen_effects.specs.Display.{IsDisplay};
ghost use Rattle.screen_effects.specs.Effect.{cursor_row};
ghost use Rattle.terminal_render.specs.Spelling.{HasEncoding, HaveEncodings};
ghost use Rattle.terminal_viewers.specs.Encodable.{CanBeEncoded};
ghost use Rattle.terminal_viewers.specs.Encoding.{is_pending, encoded_text, encoded_texts};
ghost use Rattle.terminal_table.specs.Led.{last_cell, written_again};
ghost use Rattle.terminal_viewers.specs.Update.{as_encoded, update_changes, update_of};

use cell_base::{CellAttributes, Position, SequenceNo, Widths};
use cell_line::{CellRef, Line};
use cell_surface::Surface;
use cell_surface::for_viewers::{due_changes, repaint_with_title};
use screen_change::Change;
use std::alloc::{AllocError, Global};
use std::slice;
use terminal_render::append_encodings;

// The last visible cell of a line, if there is one.
fn last_cell(line: &Line) -> Option<CellRef<'_>>
    ensures { option_map cell_shown result ≡ last_cell line.now.columns }
{
    let mut last = None;
    for cell in line.visible_cells() {
        last = Some(cell);
    }
    last
}

// The cursor's line.
fn cursor_line<W: Widths + Drop>(surface: &Surface<W>) -> &Line
    requires { surface.now.is_failed ≡ false }
    ensures { result.now.columns ≡ cursor_row (shown_by surface.now).screen }
{
    let (_, row) = surface.cursor_position();
    &surface.screen_lines()[row]
}

// Whether a change puts the cursor past the last column, where a wrap is pending.
fn is_pending(change: &Change, width: usize) -> bool
    ensures { result ≡ is_pending width (value_of change.now) }
{
    match change {
        Change::CursorPosition {
            x: Position::Absolute(column),
            ..
        } => *column == width,
        _ => false,
    }
}

/// Encodes changes for a viewer of `width` columns and `height` rows: appends their bytes, by ECMA-48 and
/// xterm's control sequences. Want of memory is the only refusal; then the bytes stay as they were.
#[derive(Clone, Copy)]
pub struct ViewerEncoder {
    alloc: Global,
    /// The columns, from 1 to 2^32 - 1.
    pub width: usize,
    /// The rows, from 1 to 2^32 - 1.
    pub height: usize,
    ghost size: { IsScreenSize width height },
}

impl ViewerEncoder {
    /// An encoder for viewers of a surface's size. The contract also states that the surface shows a lawful display.
    pub fn of<W: Widths + Drop>(alloc: Global, surface: &Surface<W>) -> ViewerEncoder
        requires { CanBeEncoded surface.now }
        ensures width { result.width ≡ (shown_by surface.now).screen.width }
        ensures height { result.height ≡ height (shown_by surface.now).screen }
        ensures lawful { IsDisplay (shown_by surface.now) }
    {
        let (width, height) = surface.dimensions();
        ViewerEncoder {
            alloc,
            width,
            height,
        }
    }

    /// Encodes changes in turn, each of which has an encoding.
    pub fn encode_all(&self, bytes: &mut Vec<u8>, changes: &[Change]) -> Result<(), AllocError>
        requires { HaveEncodings self.now.width self.now.height (map value_of changes.now) }
        ensures ok { OnOk result
            (bytes.new.items
            ≡ bytes.old.items ++ encoded_texts self.now.width self.now.height (map value_of changes.now)) }
        ensures refused { OnErr result (bytes.new.items ≡ bytes.old.items) }
    {
        append_encodings(self.alloc, changes, self.width, self.height, bytes)
    }

    /// Encodes a change.
    pub fn encode(&self, bytes: &mut Vec<u8>, change: &Change) -> Result<(), AllocError>
        requires { HasEncoding self.now.width self.now.height (value_of change.now) }
        ensures ok { OnOk result
            (bytes.new.items ≡ bytes.old.items ++ encoded_text self.now.width self.now.height (value_of change.now)) }
        ensures refused { OnErr result (bytes.new.items ≡ bytes.old.items) }
    {
        self.encode_all(bytes, slice::from_ref(change))
    }

    /// Encodes a title.
    pub fn encode_title(&self, bytes: &mut Vec<u8>, title: &str) -> Result<(), AllocError>
        requires { HasEncoding self.now.width self.now.height (Title title.now) }
        ensures ok { OnOk result
            (bytes.new.items ≡ bytes.old.items ++ encoded_text self.now.width self.now.height (Title title.now)) }
        ensures refused { OnErr result (bytes.new.items ≡ bytes.old.items) }
    {
        let title = String::from_str(self.alloc, title)?;
        self.encode(bytes, &Change::Title(title))
    }

    // Encodes a text.
    fn encode_text(&self, bytes: &mut Vec<u8>, text: &str) -> Result<(), AllocError>
        requires { HasEncoding self.now.width self.now.height (Text text.now) }
        ensures ok { OnOk result
            (bytes.new.items ≡ bytes.old.items ++ encoded_text self.now.width self.now.height (Text text.now)) }
        ensures refused { OnErr result (bytes.new.items ≡ bytes.old.items) }
    {
        let text = String::from_str(self.alloc, text)?;
        self.encode(bytes, &Change::Text(text))
    }

    /// Encodes attributes.
    pub fn encode_pen(&self, bytes: &mut Vec<u8>, pen: &CellAttributes) -> Result<(), AllocError>
        requires { HasEncoding self.now.width self.now.height (AllAttributes pen.now) }
        ensures ok { OnOk result
            (bytes.new.items ≡ bytes.old.items ++ encoded_text self.now.width self.now.height (AllAttributes pen.now)) }
        ensures refused { OnErr result (bytes.new.items ≡ bytes.old.items) }
    {
        let pen = pen.try_clone()?;
        self.encode(bytes, &Change::AllAttributes(pen))
    }

    /// Encodes a position, whose column and row count from 0.
    pub fn encode_position(
        &self,
        bytes: &mut Vec<u8>,
        column: usize,
        row: usize,
    ) -> Result<(), AllocError>
        requires { HasEncoding self.now.width self.now.height
            (CursorPosition (position.Absolute column) (position.Absolute row)) }
        ensures ok { OnOk result
            (bytes.new.items
            ≡ bytes.old.items
            ++ encoded_text self.now.width self.now.height
            (CursorPosition (position.Absolute column) (position.Absolute row))) }
        ensures refused { OnErr result (bytes.new.items ≡ bytes.old.items) }
    {
        let position = Change::CursorPosition {
            x: Position::Absolute(column),
            y: Position::Absolute(row),
        };
        self.encode(bytes, &position)
    }

    /// Encodes the last cell of the cursor's row once more, at its position, and then the pen: so a wrap is pending
    /// where that cell ends in the last column.
    pub fn encode_again<W: Widths + Drop>(
        &self,
        bytes: &mut Vec<u8>,
        surface: &Surface<W>,
    ) -> Result<(), AllocError>
        requires stays { surface.now.is_failed ≡ false }
        requires spelled { HaveEncodings self.now.width self.now.height
            (written_again (shown_by surface.now).screen (last_cell (cursor_row (shown_by surface.now).screen))) }
        ensures ok { OnOk result
            (bytes.new.items
            ≡ bytes.old.items
            ++ encoded_texts self.now.width self.now.height
            (written_again (shown_by surface.now).screen
            (last_cell (cursor_row (shown_by surface.now).screen)))) }
        ensures refused { OnErr result (bytes.new.items ≡ bytes.old.items) }
    {
        let len = bytes.len();
        let result = self.append_again(bytes, surface);
        if result.is_err() {
            bytes.truncate(len);
        }
        result
    }

    // Appends the bytes of `encode_again`; those that were appended before a refusal stay.
    fn append_again<W: Widths + Drop>(
        &self,
        bytes: &mut Vec<u8>,
        surface: &Surface<W>,
    ) -> Result<(), AllocError>
        requires stays { surface.now.is_failed ≡ false }
        requires spelled { HaveEncodings self.now.width self.now.height
            (written_again (shown_by surface.now).screen (last_cell (cursor_row (shown_by surface.now).screen))) }
        ensures ok { OnOk result
            (bytes.new.items
            ≡ bytes.old.items
            ++ encoded_texts self.now.width self.now.height
            (written_again (shown_by surface.now).screen
            (last_cell (cursor_row (shown_by surface.now).screen)))) }
        ensures prefix { take (length bytes.old.items) bytes.new.items ≡ bytes.old.items }
    {
        let Some(cell) = last_cell(cursor_line(surface)) else {
            return Ok(());
        };
        let (_, row) = surface.cursor_position();
        self.encode_position(bytes, cell.cell_index(), row)?;
        self.encode_pen(bytes, cell.attrs())?;
        self.encode_text(bytes, cell.str())?;
        self.encode_pen(bytes, surface.pen())?;
        Ok(())
    }

    // Encodes a change of a repaint; the position of a pending wrap by `encode_again`.
    fn encode_painted<W: Widths + Drop>(
        &self,
        bytes: &mut Vec<u8>,
        surface: &Surface<W>,
        change: &Change,
    ) -> Result<(), AllocError>
        requires stays { surface.now.is_failed ≡ false }
        requires width { self.now.width ≡ (shown_by surface.now).screen.width }
        requires spelled { HaveEncodings self.now.width self.now.height
            (as_encoded (shown_by surface.now).screen (value_of change.now)) }
        ensures { OnOk result
            (bytes.new.items
            ≡ bytes.old.items
            ++ encoded_texts self.now.width self.now.height
            (as_encoded (shown_by surface.now).screen (value_of change.now))) }
    {
        if is_pending(change, self.width) {
            return self.encode_again(bytes, surface);
        }
        self.encode(bytes, change)
    }

    // Encodes the changes of a repaint in turn.
    fn encode_repaint<W: Widths + Drop>(
        &self,
        bytes: &mut Vec<u8>,
        surface: &Surface<W>,
        changes: &[Change],
    ) -> Result<(), AllocError>
        requires stays { surface.now.is_failed ≡ false }
        requires width { self.now.width ≡ (shown_by surface.now).screen.width }
        requires spelled { HaveEncodings self.now.width self.now.height
            (flat_map (as_encoded (shown_by surface.now).screen) (map value_of changes.now)) }
        ensures { OnOk result
            (bytes.new.items
            ≡ bytes.old.items
            ++ encoded_texts self.now.width self.now.height
            (flat_map (as_encoded (shown_by surface.now).screen) (map value_of changes.now))) }
    {
        for change in changes {
            self.encode_painted(bytes, surface, change)?;
        }
        Ok(())
    }

    // Encodes an update.
    fn encode_update<W: Widths + Drop>(
        &self,
        bytes: &mut Vec<u8>,
        surface: &Surface<W>,
        number: SequenceNo,
    ) -> Result<(), AllocError>
        requires lawful { IsDisplay (shown_by surface.now) }
        requires sendable { CanBeEncoded surface.now }
        requires width { self.now.width ≡ (shown_by surface.now).screen.width }
        requires height { self.now.height ≡ height (shown_by surface.now).screen }
        ensures { OnOk result
            (bytes.new.items
            ≡ bytes.old.items
            ++ encoded_texts self.now.width self.now.height
            (update_changes (shown_by surface.now).screen surface.now.log number)) }
    {
        if let Some(changes) = due_changes(surface, number) {
            return self.encode_all(bytes, changes);
        }
        let changes = repaint_with_title(surface)?;
        self.encode_repaint(bytes, surface, changes.as_slice())
    }
}

/// The bytes by which a terminal of the surface's size, with the screen that the surface had at a number of
/// changes, shows the surface's screen: those of the changes that are due from that number on; or, where the
/// log doesn't have these, of the changes that paint the screen anew on any terminal of its size, from a clear
/// on, with the title, also an empty one. A pending wrap is encoded by the last cell of the cursor's row, which
/// is written once more.
///
/// Want of memory is the only refusal. The changes that are due are borrowed from the log, and the bytes of each
/// are appended as it is rendered.
pub fn update<W: Widths + Drop>(
    alloc: Global,
    surface: &Surface<W>,
    number: SequenceNo,
) -> Result<Vec<u8>, AllocError>
    requires { CanBeEncoded surface.now }
    ensures { IfOk result (λ bytes. bytes.items ≡ update_of (shown_by surface.now).screen surface.now.log number) }
{
    let encoder = ViewerEncoder::of(alloc, surface);
    let mut bytes = Vec::new(alloc);
    encoder.encode_update(&mut bytes, surface, number)?;
    Ok(bytes)
}

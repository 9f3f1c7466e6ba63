//! What a handle leads to, and what each call does with it.
ghost use Rattle.std.specs.Prelude.{◌≡◌, ◌↔◌, ◌<◌, ◌≤◌, length, IfSome, IsTrue, MatchOption};
ghost use Rattle.cell_base.specs.ScreenSize.{IsScreenSize};
ghost use Rattle.cell_base.specs.Screen.{height, screen_text};
ghost use Rattle.cell_edits.specs.VisibleCells.{texts_joined, visible_cells};
ghost use Rattle.cell_surface.specs.Surface.{shown_by};
ghost use Rattle.terminal_c.specs.Calls.{Feeds, Forgets, Opens, Patches, Reads, ReadsPart, Resizes, Settles};
ghost use Rattle.terminal_c.specs.Calls.{TakesReplies, Updates};
ghost use Rattle.terminal_c.specs.Codes.{DONE};
ghost use Rattle.terminal_c.specs.Formats.{format_count, screen_in};
ghost use Rattle.terminal_c.specs.States.{profile_of, row_at, screen_of, shape_number, state_of};
ghost use Rattle.terminal_c.specs.ToldModes.{is_alternate, TellsModes};
ghost use Rattle.terminal_c.specs.ToldView.{IsTold};
ghost use Rattle.terminal_steps.specs.ProfileView.{modes_of};

use crate::codes::{DONE, FAILED, MEMORY, NUMBER, OTHER_FAILED, RANGE, SIZE};
use crate::formats::{FORMAT_COUNT, screen_in};
use crate::modes::{ToldModes, modes_told};
use crate::told::{Row, row_of};
use cell_base::{CursorShape, CursorVisibility};
use cell_line::Line;
use std::alloc::Global;
use std::mem;
use terminal::{Profile, ProgramWidth, SequenceNo, Surface, Terminal, TerminalError};

/// What a terminal tells of itself in one call.
#[repr(C)]
#[derive(Clone, Copy)]
pub struct State {
    /// How many changes there have been.
    pub number: usize,
    /// How many columns the screen has.
    pub width: usize,
    /// How many rows the screen has.
    pub height: usize,
    /// The cursor's column, counted from 0; the width while a wrap is pending.
    pub cursor_column: usize,
    /// The cursor's row, counted from 0.
    pub cursor_row: usize,
    /// The number of the cursor's shape for DECSCUSR; 0 is the default one, also where none was set.
    pub cursor_shape: u32,
    /// Whether the cursor is shown.
    pub cursor_is_visible: bool,
    /// Whether the terminal has failed.
    pub is_failed: bool,
}

/// What an open handle leads to: a terminal, and what the last calls answered.
#[derive(Drop)]
pub struct Kept {
    pub(crate) terminal: Terminal<ProgramWidth>,
    pub(crate) bytes: Vec<u8>,
    pub(crate) row: Row,
}

// The number of a cursor's shape for DECSCUSR.
fn shape_number(shape: Option<CursorShape>) -> u32
    ensures { result ≡ shape_number shape }
{
    match shape {
        None | Some(CursorShape::Default) => 0,
        Some(CursorShape::BlinkingBlock) => 1,
        Some(CursorShape::SteadyBlock) => 2,
        Some(CursorShape::BlinkingUnderline) => 3,
        Some(CursorShape::SteadyUnderline) => 4,
        Some(CursorShape::BlinkingBar) => 5,
        Some(CursorShape::SteadyBar) => 6,
    }
}

/// The profile of a number: 0 the plain one, 1 xterm.
pub(crate) fn profile_of(number: u32) -> Option<Profile>
    ensures { result ≡ profile_of number }
{
    match number {
        0 => Some(Profile::Plain),
        1 => Some(Profile::Xterm),
        _ => None,
    }
}

/// Whether this is a size of a screen.
pub(crate) fn is_size(width: usize, height: usize) -> bool
    ensures { IsTrue result ↔ IsScreenSize width height }
{
    const MOST: usize = 4_294_967_295;
    if width == 0 || height == 0 {
        return false;
    }
    if width > MOST || height > MOST {
        return false;
    }
    true
}

// Whether two screens have the same columns and rows.
fn are_even(one: &Surface<ProgramWidth>, other: &Surface<ProgramWidth>) -> bool
    ensures { IsTrue result
        ↔ ((one.now.grid.width ≡ other.now.grid.width)
        × (length one.now.grid.lines ≡ length other.now.grid.lines)) }
{
    let (width, height) = one.dimensions();
    let (other_width, other_height) = other.dimensions();
    if width != other_width {
        return false;
    }
    height == other_height
}

// The line of a row, if there is one.
fn line_at(surface: &Surface<ProgramWidth>, row: usize) -> Option<&Line>
    ensures { MatchOption result (length (shown_by surface.now).screen.rows ≤ row)
        (λ line. (row < length (shown_by surface.now).screen.rows)
        × (line.now.columns ≡ row_at row (shown_by surface.now).screen)) }
{
    let lines = surface.screen_lines();
    if row >= lines.len() {
        return None;
    }
    Some(&lines[row])
}

impl Kept {
    /// A new terminal of this size and profile.
    pub(crate) fn new(
        alloc: Global,
        width: usize,
        height: usize,
        profile: Profile,
    ) -> Option<Box<Kept>>
        requires size { IsScreenSize width height }
        ensures { IfSome result (λ kept. Opens (modes_of profile) width height kept.value.terminal) }
    {
        let terminal = Terminal::with_profile(alloc, width, height, ProgramWidth, profile).ok()?;
        Box::new(
            alloc,
            Kept {
                terminal,
                bytes: Vec::new(alloc),
                row: Row::new(alloc),
            },
        )
        .ok()
    }

    /// Feeds bytes.
    pub(crate) fn feed(&mut self, bytes: &[u8]) -> u32
        ensures { Feeds bytes.now self.old.terminal self.new.terminal result }
    {
        match self.terminal.feed(bytes) {
            Ok(()) => DONE,
            Err(TerminalError::Memory) => MEMORY,
            Err(TerminalError::Number) => NUMBER,
            Err(TerminalError::Failed) => FAILED,
        }
    }

    /// Ends the held run.
    pub(crate) fn settle(&mut self) -> u32
        ensures { Settles self.old.terminal self.new.terminal result }
    {
        match self.terminal.settle() {
            Ok(()) => DONE,
            Err(TerminalError::Memory) => MEMORY,
            Err(TerminalError::Number) => NUMBER,
            Err(TerminalError::Failed) => FAILED,
        }
    }

    /// Gives the screen a size.
    pub(crate) fn resize(&mut self, width: usize, height: usize) -> u32
        ensures { Resizes width height self.old.terminal self.new.terminal result }
    {
        if !is_size(width, height) {
            return SIZE;
        }
        match self.terminal.resize(width, height) {
            Ok(()) => DONE,
            Err(TerminalError::Memory) => MEMORY,
            Err(TerminalError::Number) => NUMBER,
            Err(TerminalError::Failed) => FAILED,
        }
    }

    /// Keeps the bytes for a viewer that has seen the changes before the number `since`.
    pub(crate) fn update(&mut self, since: SequenceNo, now: &mut usize) -> u32
        ensures updated { Updates since self.old.terminal self.new.terminal now.new self.new.bytes.items result }
        ensures stays { (result ≡ DONE → ⊥) → now.new ≡ now.old }
    {
        match self.terminal.update(since) {
            Ok((current, bytes)) => {
                *now = current;
                self.bytes = bytes;
                DONE
            }
            Err(TerminalError::Memory) => MEMORY,
            Err(TerminalError::Number) => NUMBER,
            Err(TerminalError::Failed) => FAILED,
        }
    }

    /// Keeps the bytes for a viewer that shows the screen of another terminal.
    pub(crate) fn patch(&mut self, shown: &Kept, now: &mut usize) -> u32
        ensures patched { Patches shown.now.terminal self.old.terminal self.new.terminal
            now.new self.new.bytes.items result }
        ensures stays { (result ≡ DONE → ⊥) → now.new ≡ now.old }
    {
        if self.terminal.is_failed() {
            return FAILED;
        }
        if shown.terminal.is_failed() {
            return OTHER_FAILED;
        }
        if !are_even(shown.terminal.surface(), self.terminal.surface()) {
            return SIZE;
        }
        match self.terminal.patch(&shown.terminal) {
            Ok((current, bytes)) => {
                *now = current;
                self.bytes = bytes;
                DONE
            }
            Err(TerminalError::Memory) => MEMORY,
            Err(TerminalError::Number) => NUMBER,
            Err(TerminalError::Failed) => FAILED,
        }
    }

    /// Keeps the replies that were not yet taken.
    pub(crate) fn take_replies(&mut self) -> u32
        ensures { TakesReplies self.old.terminal self.new.terminal self.new.bytes.items result }
    {
        self.bytes = self.terminal.take_replies();
        DONE
    }

    /// Drops the changes before a number from the log.
    pub(crate) fn forget_before(&mut self, number: SequenceNo) -> u32
        ensures { Forgets number self.old.terminal self.new.terminal result }
    {
        if self.terminal.is_failed() {
            return FAILED;
        }
        self.terminal.forget_before(number);
        DONE
    }

    /// What the terminal tells of itself.
    pub(crate) fn state(&self) -> State
        ensures { result ≡ state_of self.now.terminal }
    {
        let surface = self.terminal.surface();
        let (width, height) = surface.dimensions();
        let (cursor_column, cursor_row) = surface.cursor_position();
        State {
            number: self.terminal.current_number(),
            width,
            height,
            cursor_column,
            cursor_row,
            cursor_shape: shape_number(surface.cursor_shape()),
            cursor_is_visible: surface.cursor_visibility() == CursorVisibility::Visible,
            is_failed: self.terminal.is_failed(),
        }
    }

    /// Tells the modes of the profile xterm.
    pub(crate) fn modes(&self, out: &mut ToldModes) -> u32
        ensures told { TellsModes self.now.terminal.modes out.new result }
        ensures stays { (result ≡ DONE → ⊥) → out.new ≡ out.old }
    {
        match self.terminal.modes() {
            Some(modes) => {
                *out = modes_told(modes);
                DONE
            }
            None => RANGE,
        }
    }

    /// Whether the alternate screen is shown.
    pub(crate) fn is_alternate(&self) -> bool
        ensures { result ≡ is_alternate self.now.terminal.modes }
    {
        match self.terminal.modes() {
            Some(modes) => modes.alternate_screen(),
            None => false,
        }
    }

    /// Keeps the title.
    pub(crate) fn title(&mut self) -> u32
        ensures { Reads (screen_of self.old.terminal).title
            self.old.terminal self.new.terminal self.new.bytes.items result }
    {
        if self.terminal.is_failed() {
            return FAILED;
        }
        self.bytes.clear();
        match self
            .bytes
            .extend_from_slice(self.terminal.surface().title().as_bytes())
        {
            Ok(()) => DONE,
            Err(_) => MEMORY,
        }
    }

    /// Keeps the rows as a text.
    pub(crate) fn screen_text(&mut self) -> u32
        ensures { Reads (screen_text (screen_of self.old.terminal))
            self.old.terminal self.new.terminal self.new.bytes.items result }
    {
        if self.terminal.is_failed() {
            return FAILED;
        }
        match self.terminal.surface().screen_chars_to_string() {
            Ok(text) => {
                self.bytes = text.into_bytes();
                DONE
            }
            Err(_) => MEMORY,
        }
    }

    /// Keeps the screen in the format of a number, as `screen_in` has them.
    pub(crate) fn screen(&mut self, alloc: Global, format: u32) -> u32
        ensures part { ReadsPart format format_count self.old.terminal self.new.terminal result }
        ensures screen { result ≡ DONE → self.new.bytes.items ≡ screen_in format (screen_of self.old.terminal) }
    {
        if self.terminal.is_failed() {
            return FAILED;
        }
        if format >= FORMAT_COUNT {
            return RANGE;
        }
        match screen_in(alloc, self.terminal.surface(), format) {
            Ok(text) => {
                self.bytes = text.into_bytes();
                DONE
            }
            Err(_) => MEMORY,
        }
    }

    /// Keeps the text of a row. What was kept of its cells is told anew with it.
    pub(crate) fn row_text(&mut self, alloc: Global, row: usize) -> u32
        ensures part { ReadsPart row (height (screen_of self.old.terminal))
            self.old.terminal self.new.terminal result }
        ensures text { result ≡ DONE
            → self.new.bytes.items ≡ texts_joined (visible_cells (row_at row (screen_of self.old.terminal))) }
    {
        if self.terminal.is_failed() {
            return FAILED;
        }
        let Some(line) = line_at(self.terminal.surface(), row) else {
            return RANGE;
        };
        let memory = mem::replace(&mut self.row, Row::new(alloc));
        match row_of(memory, line) {
            Ok(mut told) => {
                mem::swap(&mut self.bytes, &mut told.text);
                self.row = told;
                DONE
            }
            Err(_) => MEMORY,
        }
    }

    /// Keeps the cells of a row.
    pub(crate) fn row(&mut self, alloc: Global, row: usize) -> u32
        ensures part { ReadsPart row (height (screen_of self.old.terminal))
            self.old.terminal self.new.terminal result }
        ensures told { result ≡ DONE
            → IsTold (visible_cells (row_at row (screen_of self.old.terminal))) self.new.row }
    {
        if self.terminal.is_failed() {
            return FAILED;
        }
        let Some(line) = line_at(self.terminal.surface(), row) else {
            return RANGE;
        };
        let memory = mem::replace(&mut self.row, Row::new(alloc));
        match row_of(memory, line) {
            Ok(told) => {
                self.row = told;
                DONE
            }
            Err(_) => MEMORY,
        }
    }
}

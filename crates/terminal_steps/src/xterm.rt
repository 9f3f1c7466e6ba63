//! The functions that only the profile xterm has, and what each does.
ghost use Rattle.std.specs.Prelude.{◌≡◌, ◌+◌, ◌<◌, ◌≤◌, ◌^◌, false, IsErrOf};
ghost use Rattle.cell_base.specs.Screen.{height};
ghost use Rattle.cell_surface.specs.Surface.{number_of, shown_by};
ghost use Rattle.terminal_steps.specs.FunctionView.{own_function};
ghost use Rattle.terminal_table.specs.Led.{led};
ghost use Rattle.terminal_table.specs.Xterm.{xterm_screen};
ghost use Rattle.xterm_steps.specs.Additions.{CopiesAndAdds};

use crate::profile::Region;
use cell_base::Widths;
use cell_surface::laws::surfaces_stay_lawful;
use cell_surface::{Surface, SurfaceError};
use std::alloc::Global;
use xterm_steps::{
    delete_characters, delete_lines, erase_characters, erase_display_end, erase_display_start,
    erase_line_end, erase_line_start, insert_characters, insert_lines, line_feed, next_line,
    reverse_index, scroll_down, scroll_up,
};

/// A function that only xterm has, with its counts.
#[derive(Clone, Copy)]
pub(crate) enum XtermFunction {
    /// ECH (CSI X): erases this many characters from the cursor on.
    EraseCharacters(u32),
    /// ICH (CSI @): inserts this many blanks at the cursor.
    InsertCharacters(u32),
    /// DCH (CSI P): deletes this many characters from the cursor on.
    DeleteCharacters(u32),
    /// EL 0 (CSI K): erases from the cursor to the end of its row.
    EraseToEndOfLine,
    /// EL 1 (CSI 1 K): erases from the start of the cursor's row to the cursor.
    EraseToStartOfLine,
    /// ED 0 (CSI J): erases from the cursor to the end of its row, and the rows below.
    EraseToEndOfDisplay,
    /// ED 1 (CSI 1 J): erases the rows above, and from the start of the cursor's row to the cursor.
    EraseToStartOfDisplay,
    /// LF, VT, FF and IND (ESC D): goes to the next row, or scrolls the region up.
    LineFeed,
    /// NEL (ESC E): goes to the first column of the next row, or scrolls the region up.
    NextLine,
    /// RI (ESC M): goes to the row before, or scrolls the region down.
    ReverseIndex,
    /// SU (CSI S): scrolls the region up by this many rows.
    ScrollUp(u32),
    /// SD (CSI T): scrolls the region down by this many rows.
    ScrollDown(u32),
    /// IL (CSI L): inserts this many blank rows at the cursor's.
    InsertLines(u32),
    /// DL (CSI M): deletes this many rows from the cursor's on.
    DeleteLines(u32),
}

// Does a function on a surface that hasn't failed.
fn perform<W: Widths + Drop>(
    alloc: Global,
    surface: &mut Surface<W>,
    region: Region,
    function: XtermFunction,
) -> Result<(), SurfaceError>
    requires order { region.top ≤ region.bottom }
    requires within { region.bottom < height (shown_by surface.old).screen }
    ensures { CopiesAndAdds (λ w. W.width_of w) surface.old
        (led (shown_by surface.old).screen (xterm_screen (own_function region function) (shown_by surface.old).screen))
        result surface.new }
{
    let Region { top, bottom } = region;
    match function {
        XtermFunction::EraseCharacters(count) => erase_characters(surface, count as usize),
        XtermFunction::InsertCharacters(count) => insert_characters(surface, count as usize),
        XtermFunction::DeleteCharacters(count) => delete_characters(surface, count as usize),
        XtermFunction::EraseToEndOfLine => erase_line_end(surface),
        XtermFunction::EraseToStartOfLine => erase_line_start(surface),
        XtermFunction::EraseToEndOfDisplay => erase_display_end(alloc, surface),
        XtermFunction::EraseToStartOfDisplay => erase_display_start(alloc, surface),
        XtermFunction::LineFeed => line_feed(alloc, surface, top, bottom),
        XtermFunction::NextLine => next_line(alloc, surface, top, bottom),
        XtermFunction::ReverseIndex => reverse_index(alloc, surface, top, bottom),
        XtermFunction::ScrollUp(count) => scroll_up(alloc, surface, top, bottom, count as usize),
        XtermFunction::ScrollDown(count) => scroll_down(
            alloc,
            surface,
            top,
            bottom,
            count as usize,
        ),
        XtermFunction::InsertLines(count) => insert_lines(alloc, surface, bottom, count as usize),
        XtermFunction::DeleteLines(count) => delete_lines(alloc, surface, bottom, count as usize),
    }
}

/// Does a function on a surface that hasn't failed, where a region scrolls. Refuses as the surface does, and for want
/// of memory for a copy of a row; it refuses a change that has no number before it copies a row.
pub(crate) fn perform_xterm<W: Widths + Drop>(
    alloc: Global,
    surface: &mut Surface<W>,
    region: Region,
    function: XtermFunction,
) -> Result<(), SurfaceError>
    requires stays { surface.old.is_failed ≡ false }
    requires order { region.top ≤ region.bottom }
    requires within { region.bottom < height (shown_by surface.old).screen }
    ensures added { CopiesAndAdds (λ w. W.width_of w) surface.old
        (led (shown_by surface.old).screen (xterm_screen (own_function region function) (shown_by surface.old).screen))
        result surface.new }
    ensures memory { IsErrOf result SurfaceError.Memory → number_of surface.old + 1 < 2 ^ 64 }
{
    surfaces_stay_lawful(surface);
    if surface.current_seqno() == usize::MAX {
        return Err(SurfaceError::Number);
    }
    perform(alloc, surface, region, function)
}

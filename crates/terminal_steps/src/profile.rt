//! The profiles of a terminal, and what a terminal keeps for its profile.
ghost use Rattle.std.specs.Prelude.{◌≡◌, ◌<◌, ◌≤◌, ◌-◌, ◌++◌, false, length, map, option_map, replicate, All, IfOk};
ghost use Rattle.std.specs.Prelude.{OnOk};
ghost use Rattle.cell_base.specs.Row.{plain_row};
ghost use Rattle.cell_base.specs.Screen.{height};
ghost use Rattle.cell_base.specs.WholeRow.{IsWhole};
ghost use Rattle.cell_line.specs.LineCalls.{resize};
ghost use Rattle.cell_surface.specs.Surface.{shown_by};
ghost use Rattle.screen_difference.specs.FreshCells.{rows_of};
ghost use Rattle.terminal_table.specs.Modes.{initial_modes, region_on, resized_modes, resized_rows, unsaved_modes};
ghost use Rattle.terminal_steps.specs.ProfileView.{HaveWholeRows, kept_modes, modes_in, modes_of, saved_modes_in};

use crate::charsets::{Charsets, initial_charsets};
use crate::flags::initial_flags;
use crate::saved::SavedCursor;
use cell_base::{SEQ_ZERO, Widths};
use cell_line::Line;
use cell_line::row_writing::with_width_clustered;
use cell_surface::Surface;
use std::alloc::{AllocError, Global};
use std::marker::Model;
use terminal_table::flags::Flags;

/// Which control functions a terminal has, and what they do.
#[derive(Clone, Copy, Debug, PartialEq, Eq)]
pub enum Profile {
    /// The functions of the terminal's table. A program must run under the project's own terminal description.
    Plain,
    /// The functions of xterm, for programs that run under `xterm-256color`: those of the table; ECH, ICH, DCH, EL 1,
    /// ED 1, IL, DL and REP; margins (DECSTBM), at which LF, IND, NEL, RI, SU, SD and the moves of the cursor by rows
    /// stop or scroll, and so do runs of text; DECOM; insertion (IRM), autowrap (DECAWM) and new lines by LF (LNM); tab
    /// stops (HTS, TBC, CHT, CBT); character sets (G0 and G1, SO and SI); the alternate screen (DEC modes 47, 1047 and
    /// 1049); a saved cursor for each screen (also mode 1048); DECALN and DECSTR; titles that are pushed; device
    /// attributes and reports of modes; and the modes that are kept for the program around the terminal.
    Xterm,
}

/// The first and the last row of a region that scrolls, counted from 0.
#[derive(Clone, Copy, Debug, PartialEq, Eq)]
pub(crate) struct Region {
    pub(crate) top: usize,
    pub(crate) bottom: usize,
}

impl Model for Region {
    ghost use Rattle.terminal_table.specs.Modes.{Region as Value_of};

    ghost Value = { Value_of };

    ghost use Rattle.terminal_steps.specs.ProfileView.{region_in};

    ghost view = { region_in };

    ghost inverse = { λ region. record { top = region.top; bottom = region.bottom } };
}

/// What the profile xterm saves with a cursor.
#[derive(Clone, Copy, Debug)]
pub(crate) struct SavedModes {
    /// Whether a wrap was pending.
    pub(crate) pending: bool,
    /// Whether lines counted from the region's top.
    pub(crate) origin: bool,
    pub(crate) charsets: Charsets,
}

/// The screen that is not shown.
#[derive(Drop)]
pub(crate) struct OtherScreen {
    /// Its rows; none as long as they are plain blanks.
    pub(crate) lines: Vec<Line>,
    /// The cursor that was saved on it.
    pub(crate) cursor: Option<SavedCursor>,
    pub(crate) with_cursor: SavedModes,
}

/// What the profile xterm keeps beside the screen that is shown.
#[derive(Drop)]
pub struct Modes {
    /// The region that DECSTBM has set; none where all rows scroll.
    pub(crate) region: Option<Region>,
    /// Whether lines count from the region's top (DECOM).
    pub(crate) origin: bool,
    /// Whether a character is inserted (IRM).
    pub(crate) insert: bool,
    /// Whether a character past the last column goes to the next row (DECAWM).
    pub(crate) autowrap: bool,
    /// Whether LF goes to the first column, too (LNM).
    pub(crate) newline: bool,
    /// Of each of the first columns, whether it is a tab stop; of the others each that 8 divides is one.
    pub(crate) stops: Vec<bool>,
    pub(crate) charsets: Charsets,
    /// The run before, as it was put; empty behind any other action.
    pub(crate) last: String,
    /// Whether the alternate screen is shown.
    pub(crate) alternate: bool,
    /// What was saved with the cursor that was saved on the screen shown.
    pub(crate) with_cursor: SavedModes,
    pub(crate) other: OtherScreen,
    /// Titles that were pushed, the last one first.
    pub(crate) titles: Vec<String>,
    pub(crate) flags: Flags,
}

/// Where nothing was saved.
pub(crate) fn unsaved_modes() -> SavedModes
    ensures { saved_modes_in result ≡ unsaved_modes }
{
    SavedModes {
        pending: false,
        origin: false,
        charsets: initial_charsets(),
    }
}

/// The modes of a new terminal.
pub(crate) fn initial_modes(alloc: Global) -> Modes
    ensures { modes_in result ≡ initial_modes }
{
    Modes {
        region: None,
        origin: false,
        insert: false,
        autowrap: true,
        newline: false,
        stops: Vec::new(alloc),
        charsets: initial_charsets(),
        last: String::new(alloc),
        alternate: false,
        with_cursor: unsaved_modes(),
        other: OtherScreen {
            lines: Vec::new(alloc),
            cursor: None,
            with_cursor: unsaved_modes(),
        },
        titles: Vec::new(alloc),
        flags: initial_flags(),
    }
}

/// The modes of a new terminal of a profile; none on a plain one.
pub(crate) fn modes_of(alloc: Global, profile: Profile) -> Option<Modes>
    ensures { kept_modes result ≡ modes_of profile }
{
    match profile {
        Profile::Plain => None,
        Profile::Xterm => Some(initial_modes(alloc)),
    }
}

// Copies of lines, of another width.
fn widened_lines(alloc: Global, lines: &[Line], width: usize) -> Result<Vec<Line>, AllocError>
    ensures { IfOk result (λ copies. copies.items ≡ map (λ line. resize line width 0) lines.now) }
{
    let mut copies = Vec::new(alloc);
    for line in lines {
        let mut copy = line.try_clone()?;
        copy.resize(width, SEQ_ZERO)?;
        copies.push(copy)?;
    }
    Ok(copies)
}

/// Lines of plain blanks are appended, up to a count of lines.
pub(crate) fn add_lines(
    alloc: Global,
    lines: &mut Vec<Line>,
    width: usize,
    count: usize,
) -> Result<(), AllocError>
    requires { length lines.old.items ≤ count }
    ensures { OnOk result
        (rows_of lines.new.items
        ≡ rows_of lines.old.items ++ replicate (count - length lines.old.items) (plain_row width)) }
{
    for _ in lines.len()..count {
        lines.push(with_width_clustered(alloc, width, SEQ_ZERO))?;
    }
    Ok(())
}

// Lines of another size, as those of a screen that gets it; none stay none.
fn resize_lines(
    alloc: Global,
    lines: &mut Vec<Line>,
    width: usize,
    height: usize,
) -> Result<(), AllocError>
    ensures { OnOk result
        (All IsWhole (rows_of lines.old.items)
        → rows_of lines.new.items ≡ resized_rows width height (rows_of lines.old.items)) }
{
    if lines.is_empty() {
        return Ok(());
    }
    lines.truncate(height);
    let mut resized = widened_lines(alloc, lines, width)?;
    add_lines(alloc, &mut resized, width, height)?;
    *lines = resized;
    Ok(())
}

/// The modes, if there are any, of a screen that has got another size: all its rows scroll, and new columns have the
/// tab stops of a new one. A refusal may leave the other screen with fewer rows.
pub(crate) fn resize_modes(
    alloc: Global,
    modes: &mut Option<Modes>,
    width: usize,
    height: usize,
) -> Result<(), AllocError>
    ensures { OnOk result
        (HaveWholeRows (kept_modes modes.old)
        → kept_modes modes.new ≡ option_map (resized_modes width height) (kept_modes modes.old)) }
{
    match modes {
        None => Ok(()),
        Some(modes) => {
            modes.region = None;
            modes.stops.truncate(width);
            resize_lines(alloc, &mut modes.other.lines, width, height)
        }
    }
}

/// The region that scrolls on a surface.
pub(crate) fn region_on<W: Widths + Drop>(modes: &Modes, surface: &Surface<W>) -> Region
    requires stays { surface.now.is_failed ≡ false }
    ensures region { result ≡ region_on (modes_in modes.now) (shown_by surface.now).screen }
    ensures order { result.top ≤ result.bottom }
    ensures within { result.bottom < height (shown_by surface.now).screen }
{
    let (_, height) = surface.dimensions();
    let (_, _row) = surface.cursor_position();
    let last = height - 1;
    match modes.region {
        None => Region {
            top: 0,
            bottom: last,
        },
        Some(region) => {
            let bottom = region.bottom.min(last);
            Region {
                top: region.top.min(bottom),
                bottom,
            }
        }
    }
}

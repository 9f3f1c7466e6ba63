//! Runs of printed characters under xterm, where something may be asked for before a cluster is put.
ghost use Rattle.std.specs.Prelude.{◌≡◌, ◌≢◌, ◌≤◌, ◌<◌, ◌+◌, ◌++◌, ◌^◌, ℕ, List, [], true, false, nat_le, OnOk};
ghost use Rattle.std.specs.Prelude.{IsErrOf, Some};
ghost use Rattle.std.specs.String.{string_bytes};
ghost use Rattle.cell_base.specs.Screen.{IsScreen, Screen, height, put};
ghost use Rattle.cell_surface.specs.Surface.{Surface as Kept, number_of, shown_by};
ghost use Rattle.terminal_table.specs.Modes.{Modes as TableModes, with_last};
ghost use Rattle.terminal_table.specs.Runs.{Running, changes_asked, changes_repeated, columns_for, insert_request};
ghost use Rattle.terminal_table.specs.Runs.{is_put_plainly, last_cluster, prepared, put_next, text_as, text_changes};
ghost use Rattle.terminal_table.specs.Runs.{text_put, wrap_request};
ghost use Rattle.terminal_table.specs.State.{HasLast};
ghost use Rattle.terminal_table.specs.RunText.{IsRunText};
ghost use Rattle.terminal_steps.specs.ProfileView.{modes_in};
ghost use Rattle.terminal_steps.specs.RunView.{GoesOn, IsAt, IsFrame, PutsRun, PutsText, RunsOn};
ghost use Rattle.xterm_steps.specs.Additions.{Adds, CopiesAndAdds};

use crate::changes::{add_nothing, add_run, add_text};
use crate::charsets::{charset_in_use, text_in};
use crate::cursor_moves::move_cursor;
use crate::fast::whole_runs::is_put_as_one;
use crate::function::Move;
use crate::profile::{Modes, Region, region_on};
use crate::requests::{feeds_plainly, scrolls_plainly};
use crate::xterm::{XtermFunction, perform_xterm};
use cell_base::Widths;
use cell_surface::laws::surfaces_stay_lawful;
use cell_surface::{Surface, SurfaceError};
use std::alloc::{AllocError, Global};
use std::mem;
use text_clusters::split_first_cluster;

/// What stays as it is while a run is put: what the modes say of runs, the region, and the screen's size.
#[derive(Clone, Copy)]
pub(crate) struct Frame {
    pub(crate) insert: bool,
    pub(crate) autowrap: bool,
    pub(crate) region: Region,
    pub(crate) scrolls_plainly: bool,
    pub(crate) width: usize,
    pub(crate) height: usize,
}

/// A run on its way: the clusters that are put plainly and not yet added, joined, and the cursor's place with them.
#[derive(Drop)]
pub(crate) struct Run {
    pub(crate) text: String,
    pub(crate) column: usize,
    pub(crate) row: usize,
}

// How many columns a cluster takes on a screen of this width: one or two.
fn columns_for<W: Widths>(widths: &W, width: usize, cluster: &str) -> usize
    ensures value { (screen : Screen) → screen.width ≡ width
        → result ≡ columns_for (W.width_of widths.now) screen cluster.now }
    ensures some { 1 ≤ result }
    ensures most { result ≤ 2 }
{
    if 1 < width && 2 <= widths.width(cluster) {
        2
    } else {
        1
    }
}

// Whether so many columns fit in a row from a column on.
fn fits(columns: usize, column: usize, width: usize) -> bool
    requires { 1 ≤ columns }
    ensures { result ≡ nat_le (column + columns) width }
{
    columns <= width.saturating_sub(column)
}

impl Frame {
    fn on<W: Widths + Drop>(modes: &Modes, surface: &Surface<W>) -> Frame
        requires { surface.now.is_failed ≡ false }
        ensures { IsFrame (modes_in modes.now) (shown_by surface.now).screen result }
    {
        let region = region_on(modes, surface);
        let (width, height) = surface.dimensions();
        Frame {
            insert: modes.insert,
            autowrap: modes.autowrap,
            region,
            scrolls_plainly: scrolls_plainly(region, surface),
            width,
            height,
        }
    }

    // Whether nothing is asked for before a cluster of so many columns.
    fn is_put_plainly(&self, run: &Run, columns: usize) -> bool
        requires { 1 ≤ columns }
        ensures { (modes : TableModes) (screen : Screen) → IsFrame modes screen self.now
            → screen.column ≡ run.now.column → screen.row ≡ run.now.row → result ≡ is_put_plainly modes columns screen }
    {
        if self.insert {
            return false;
        }
        if fits(columns, run.column, self.width) {
            return true;
        }
        if !self.autowrap {
            return false;
        }
        if run.row == self.region.bottom {
            self.scrolls_plainly
        } else {
            run.row < self.height.saturating_sub(1)
        }
    }
}

impl Run {
    // The clusters so far become a change.
    fn end<W: Widths + Drop>(&mut self, surface: &mut Surface<W>) -> Result<(), SurfaceError>
        ensures added { Adds (λ w. W.width_of w) surface.old (text_changes (string_bytes self.old.text)) result
            surface.new }
        ensures empty { OnOk result (string_bytes self.new.text ≡ []) }
    {
        if self.text.is_empty() {
            return add_nothing(surface);
        }
        let next = surface.pooled_text();
        let text = mem::replace(&mut self.text, next);
        add_run(surface, text)
    }

    // A cluster of so many columns joins those that are put plainly.
    fn push(&mut self, frame: &Frame, cluster: &str, columns: usize) -> Result<(), AllocError>
        requires { 1 ≤ columns }
        ensures text { OnOk result (string_bytes self.new.text ≡ string_bytes self.old.text ++ cluster.now) }
        ensures place { OnOk result
            ((width_of : List ℕ → ℕ) (screen : Screen) → IsScreen screen → frame.now.width ≡ screen.width
            → frame.now.height ≡ height screen → columns ≡ columns_for width_of screen cluster.now
            → IsAt self.old screen → IsAt self.new (put width_of screen cluster.now)) }
    {
        self.text.push_str(cluster)?;
        if fits(columns, self.column, frame.width) {
            self.column += columns;
            return Ok(());
        }
        self.column = columns;
        if self.row < frame.height.saturating_sub(1) {
            self.row += 1;
        }
        Ok(())
    }
}

// Where columns don't fit in the cursor's row: NEL; without autowrap no wrap is pending.
fn wrap<W: Widths + Drop>(
    alloc: Global,
    surface: &mut Surface<W>,
    modes: &Modes,
    columns: usize,
) -> Result<(), SurfaceError>
    requires stays { surface.old.is_failed ≡ false }
    requires some { 1 ≤ columns }
    ensures { CopiesAndAdds (λ w. W.width_of w) surface.old
        (changes_asked (wrap_request (modes_in modes.now) columns (shown_by surface.old).screen)
        (shown_by surface.old).screen) result surface.new }
{
    let (column, _) = surface.cursor_position();
    let (width, _) = surface.dimensions();
    if fits(columns, column, width) {
        return add_nothing(surface);
    }
    if !modes.autowrap {
        return move_cursor(surface, Move::Right(0));
    }
    let region = region_on(modes, surface);
    if feeds_plainly(region, surface) {
        return add_text(surface, "\r\n");
    }
    perform_xterm(alloc, surface, region, XtermFunction::NextLine)
}

// In insert mode columns are inserted at the cursor, if they fit in its row.
fn insert<W: Widths + Drop>(
    alloc: Global,
    surface: &mut Surface<W>,
    modes: &Modes,
    columns: usize,
) -> Result<(), SurfaceError>
    requires stays { surface.old.is_failed ≡ false }
    requires some { 1 ≤ columns }
    requires most { columns ≤ 2 }
    ensures { CopiesAndAdds (λ w. W.width_of w) surface.old
        (changes_asked (insert_request (modes_in modes.now) columns (shown_by surface.old).screen)
        (shown_by surface.old).screen) result surface.new }
{
    let (column, _) = surface.cursor_position();
    let (width, _) = surface.dimensions();
    if modes.insert && fits(columns, column, width) {
        let function = XtermFunction::InsertCharacters(columns as u32);
        return perform_xterm(alloc, surface, region_on(modes, surface), function);
    }
    add_nothing(surface)
}

// The clusters so far become a change, and then what is asked for before a cluster of so many columns is done.
fn prepare<W: Widths + Drop>(
    alloc: Global,
    surface: &mut Surface<W>,
    modes: &Modes,
    run: &mut Run,
    columns: usize,
) -> Result<(), SurfaceError>
    requires some { 1 ≤ columns }
    requires most { columns ≤ 2 }
    ensures { (before : Kept W) (running : Running) → RunsOn (λ w. W.width_of w) before surface.old run.old running
        → GoesOn (λ w. W.width_of w) before result surface.new run.new
        (prepared (modes_in modes.now) columns (text_put (W.width_of before.grid.widths) running)) }
{
    run.end(surface)?;
    wrap(alloc, surface, modes, columns)?;
    insert(alloc, surface, modes, columns)?;
    let (column, row) = surface.cursor_position();
    run.column = column;
    run.row = row;
    Ok(())
}

// Puts the next cluster of a run; one that doesn't fit in its row then, which is wide and in the last column, isn't
// shown.
fn put_next<W: Widths + Drop>(
    alloc: Global,
    surface: &mut Surface<W>,
    modes: &Modes,
    frame: &Frame,
    run: &mut Run,
    cluster: &str,
) -> Result<(), SurfaceError>
    ensures { (before : Kept W) (running : Running)
        → IsFrame (modes_in modes.now) (shown_by before).screen frame.now → IsRunText cluster.now
        → RunsOn (λ w. W.width_of w) before surface.old run.old running
        → GoesOn (λ w. W.width_of w) before result surface.new run.new
        (put_next (modes_in modes.now) (W.width_of before.grid.widths) running cluster.now) }
{
    let columns = columns_for(surface.widths(), frame.width, cluster);
    if frame.is_put_plainly(run, columns) {
        run.push(frame, cluster, columns)?;
        return Ok(());
    }
    prepare(alloc, surface, modes, run, columns)?;
    if fits(columns, run.column, frame.width) {
        run.push(frame, cluster, columns)?;
    }
    Ok(())
}

// Puts a run cluster by cluster.
fn put_clusters<W: Widths + Drop>(
    alloc: Global,
    surface: &mut Surface<W>,
    modes: &Modes,
    frame: &Frame,
    text: &str,
) -> Result<(), SurfaceError>
    requires stays { surface.old.is_failed ≡ false }
    requires some { text.now ≢ [] }
    ensures { IsFrame (modes_in modes.now) (shown_by surface.old).screen frame.now
        → PutsText (λ w. W.width_of w) (modes_in modes.now) surface.old text.now result surface.new }
{
    let (column, row) = surface.cursor_position();
    let mut run = Run {
        text: surface.pooled_text(),
        column,
        row,
    };
    let mut left = text;
    while let Some((cluster, after)) = split_first_cluster(left) {
        put_next(alloc, surface, modes, frame, &mut run, cluster)?;
        left = after;
    }
    run.end(surface)
}

// How many bytes of memory are kept for the run before, at most, once it is forgotten.
const MOST_KEPT: usize = 4096;

/// The run before is forgotten. The memory of a long one is given back.
pub(crate) fn forget_last(alloc: Global, last: &mut String)
    ensures { string_bytes last.new ≡ [] }
{
    if last.capacity() <= MOST_KEPT {
        last.clear();
    } else {
        *last = String::new(alloc);
    }
}

// A text is kept as the run before.
fn keep_last(modes: &mut Modes, text: &str) -> Result<(), AllocError>
    ensures { OnOk result (modes_in modes.new ≡ with_last text.now (modes_in modes.old)) }
{
    modes.last.clear();
    modes.last.push_str(text)
}

// Puts a run on a surface that hasn't failed, and keeps it as the one before.
fn put_run<W: Widths + Drop>(
    alloc: Global,
    surface: &mut Surface<W>,
    modes: &mut Modes,
    text: String,
) -> Result<(), SurfaceError>
    requires stays { surface.old.is_failed ≡ false }
    requires some { string_bytes text ≢ [] }
    ensures puts { PutsRun (λ w. W.width_of w) (modes_in modes.old) surface.old (string_bytes text) result surface.new }
    ensures last { OnOk result
        (modes_in modes.new ≡ with_last (text_as (modes_in modes.old) (string_bytes text)) (modes_in modes.old)) }
{
    let text = text_in(alloc, charset_in_use(modes.charsets), text)?;
    let frame = Frame::on(modes, surface);
    if is_put_as_one(&frame, surface, &text) {
        keep_last(modes, &text)?;
        return add_run(surface, text);
    }
    let put = put_clusters(alloc, surface, modes, &frame, &text);
    keep_last(modes, &text)?;
    put
}

// The last cluster of a text; none, where the text is empty.
fn last_cluster(text: &str) -> &str
    ensures { result.now ≡ last_cluster text.now }
{
    let mut last = "";
    let mut left = text;
    while let Some((cluster, after)) = split_first_cluster(left) {
        last = cluster;
        left = after;
    }
    last
}

// Puts a cluster as a run of its own.
fn put_cluster<W: Widths + Drop>(
    alloc: Global,
    surface: &mut Surface<W>,
    modes: &Modes,
    cluster: &str,
) -> Result<(), SurfaceError>
    requires { cluster.now ≢ [] }
    ensures { PutsText (λ w. W.width_of w) (modes_in modes.now) surface.old cluster.now result surface.new }
{
    if surface.is_failed() {
        return Err(SurfaceError::Failed);
    }
    let frame = Frame::on(modes, surface);
    put_clusters(alloc, surface, modes, &frame, cluster)
}

/// REP: puts the last cluster of the run before so many times, each time as a run of its own. Refuses as the surface
/// does, and for want of memory for a copy; it refuses a change that has no number before it copies anything.
pub(crate) fn repeat_last<W: Widths + Drop>(
    alloc: Global,
    surface: &mut Surface<W>,
    modes: &Modes,
    count: usize,
) -> Result<(), SurfaceError>
    requires stays { surface.old.is_failed ≡ false }
    ensures added { HasLast (Some (modes_in modes.now))
        → CopiesAndAdds (λ w. W.width_of w) surface.old
        (changes_repeated (modes_in modes.now) (W.width_of surface.old.grid.widths) count
        (shown_by surface.old).screen) result surface.new }
    ensures memory { IsErrOf result SurfaceError.Memory → number_of surface.old + 1 < 2 ^ 64 }
{
    surfaces_stay_lawful(surface);
    let cluster = last_cluster(&modes.last);
    if cluster.is_empty() || count == 0 {
        return add_nothing(surface);
    }
    if surface.current_seqno() == usize::MAX {
        return Err(SurfaceError::Number);
    }
    for _ in 0..count {
        put_cluster(alloc, surface, modes, cluster)?;
    }
    Ok(())
}

/// Puts a run under xterm, apart from what a plain terminal shares, and keeps it as the one before. Refuses as the
/// surface does; where a copy is refused memory the surface has failed, too.
#[inline(never)]
pub(crate) fn print_xterm<W: Widths + Drop>(
    alloc: Global,
    surface: &mut Surface<W>,
    modes: &mut Modes,
    text: String,
) -> Result<(), SurfaceError>
    requires some { string_bytes text ≢ [] }
    ensures puts { PutsRun (λ w. W.width_of w) (modes_in modes.old) surface.old (string_bytes text) result surface.new }
    ensures last { OnOk result
        (modes_in modes.new ≡ with_last (text_as (modes_in modes.old) (string_bytes text)) (modes_in modes.old)) }
    ensures memory { IsErrOf result SurfaceError.Memory → surface.new.is_failed ≡ true }
    ensures numbered { IsErrOf result SurfaceError.Memory → number_of surface.old + 1 < 2 ^ 64 }
{
    if surface.is_failed() {
        return Err(SurfaceError::Failed);
    }
    if surface.current_seqno() == usize::MAX {
        return Err(SurfaceError::Number);
    }
    match put_run(alloc, surface, modes, text) {
        Err(SurfaceError::Memory) => {
            surface.fail();
            Err(SurfaceError::Memory)
        }
        result => result,
    }
}

//! The updates of an input, one after each chunk of `every` bytes and one at the end, or one after each read.
ghost use Rattle.std.specs.Prelude.{◌≡◌, ◌↔◌, ◌<◌, ◌≤◌, ◌^◌, false, IsTrue, IsErr, IfOk, IfSome, OnOk, OnErr, IsErrOf};
ghost use Rattle.std.specs.Prelude.{[], ◌∷◌};
ghost use Rattle.std.specs.Io.KnownBytes.{Appends, IsAtEnd};
ghost use Rattle.cell_base.specs.ScreenSize.{IsScreenSize};
ghost use Rattle.terminal.specs.Fed.{Reads};
ghost use Rattle.terminal.specs.Live.{IsCountedAt, LastPieceTakesMemory, PiecesNeedNumber, ReadsEach, SendsEach};
ghost use Rattle.terminal.specs.Live.{SendsPartOfLast, SendsPrefix};
ghost use Rattle.terminal.specs.Written.{LooksNeedNumber, Sends, SendsAll, SendsChunks, SendsChunksOf, SendsFirst};
ghost use Rattle.terminal.specs.Written.{SendsPart, SendsSome, due_from, number_after, update_count};
ghost use Rattle.terminal.specs.Refusals.{HasNumbersToLook, IsRefusedMemory, NeedsNumber, ReadingIsRefusedMemory};
ghost use Rattle.terminal.specs.Refusals.{all_looks};
ghost use Rattle.terminal.specs.Watched.{IsUnread, counted, counted_by};
ghost use Rattle.terminal_table.specs.History.{Look};
ghost use Rattle.terminal_viewers.specs.Updates.{new_standing, updates};

use crate::driver::{READS, forget, write_and_flush};
use crate::error::RunError;
use crate::terminal::Terminal;
use crate::watched::Watched;
use cell_base::{SequenceNo, Widths};
use std::alloc::Global;
use std::io::{Read, Write};
use terminal_steps::TerminalError;

// Writes the update for a viewer that has seen the changes before a number, forgets the changes and drops the
// replies that nobody needs any more; returns the number that the viewer then holds.
fn write_update<T: Write, W: Widths + Drop>(
    terminal: &mut Terminal<W>,
    writer: &mut Watched<T>,
    number: SequenceNo,
) -> Result<SequenceNo, RunError>
    requires sound { terminal.old.is_failed ≡ false }
    requires not_failed { writer.old.has_failed ≡ false }
    ensures ok { IfOk result
        (λ next. Sends (λ w. W.width_of w) terminal.old terminal.new number next (T.contents writer.old.inner)
        (T.contents writer.new.inner)) }
    ensures sound { OnOk result (terminal.new.is_failed ≡ false) }
    ensures widths { OnOk result (terminal.new.surface.grid.widths ≡ terminal.old.surface.grid.widths) }
    ensures err { OnErr result
        (SendsSome (λ w. W.width_of w) terminal.old number (T.contents writer.old.inner)
        (T.contents writer.new.inner)) }
    ensures write { IsErrOf result RunError.Write ↔ IsTrue writer.new.has_failed }
    ensures ends { writer.new.has_gone_on ≡ writer.old.has_gone_on }
    ensures flushes { OnOk result (writer.new.flushes ≡ counted writer.old.flushes) }
    ensures flushed { OnOk result (IsTrue writer.new.is_flushed) }
    ensures read { IsErrOf result RunError.Read → ⊥ }
    ensures too_long { IsErrOf result RunError.TooLong → ⊥ }
    ensures failed { IsErrOf result (RunError.Terminal TerminalError.Failed) → ⊥ }
    ensures number { IsErrOf result (RunError.Terminal TerminalError.Number)
        → NeedsNumber (λ w. W.width_of w) terminal.old (Look ∷ []) }
    ensures memory { IsErrOf result (RunError.Terminal TerminalError.Memory)
        → HasNumbersToLook (λ w. W.width_of w) terminal.old terminal.new.is_failed }
{
    let (next, bytes) = terminal.update(number)?;
    write_and_flush(writer, &bytes)?;
    forget(terminal, next);
    Ok(next)
}

// The number from which on the log must keep changes for a viewer that has seen those before a number. A viewer at
// number 0 has seen nothing and gets the whole screen: it needs none.
fn due_from<W: Widths + Drop>(terminal: &Terminal<W>, number: SequenceNo) -> SequenceNo
    ensures { result ≡ due_from terminal.now number }
{
    if number == 0 {
        terminal.current_number()
    } else {
        number
    }
}

/// Feeds the input to a terminal that hasn't failed. After each `every` bytes, at least 1, and once more at the end it
/// writes the update for the number of the update before it, at first 0, and flushes. After each read the changes that
/// no update needs any more are forgotten, and the replies dropped. At the end of the input the terminal has read it,
/// with a look after each update's bytes, and answers viewers from its current number on.
///
/// A read asks for at most 4,096 bytes, and at most for those up to the next look. `run_on` ends at the first fault,
/// also one of a read that was interrupted, with `Read` or `Write`; with `Terminal` where the terminal refuses; and
/// with `TooLong` where the input hasn't ended after 2^48 reads. The bytes that it wrote are then a prefix of the
/// updates of the bytes that were read; what the terminal has read of them isn't determined.
pub fn run_on<R: Read, T: Write, W: Widths + Drop>(
    terminal: &mut Terminal<W>,
    reader: &mut Watched<R>,
    writer: &mut Watched<T>,
    every: usize,
) -> Result<(), RunError>
    requires every { 0 < every }
    requires reader { IsUnread reader.old }
    requires writer { writer.old.has_failed ≡ false }
    requires sound { terminal.old.is_failed ≡ false }
    ensures ok { OnOk result
        (SendsAll (λ w. W.width_of w) every terminal.old (R.remaining reader.old.inner) (T.contents writer.old.inner)
        (T.contents writer.new.inner)) }
    ensures stands { OnOk result
        (Reads (λ w. W.width_of w) (all_looks every) terminal.old (R.remaining reader.old.inner) terminal.new) }
    ensures widths { OnOk result (terminal.new.surface.grid.widths ≡ terminal.old.surface.grid.widths) }
    ensures sound { OnOk result (terminal.new.is_failed ≡ false) }
    ensures err { OnErr result
        (SendsFirst (λ w. W.width_of w) every terminal.old (R.remaining reader.old.inner) (R.remaining reader.new.inner)
        (T.contents writer.old.inner) (T.contents writer.new.inner)) }
    ensures chunks { IsErrOf result RunError.Read
        → SendsChunksOf (λ w. W.width_of w) every terminal.old (R.remaining reader.old.inner)
        (R.remaining reader.new.inner) (T.contents writer.old.inner) (T.contents writer.new.inner) }
    ensures read { IsErrOf result RunError.Read ↔ IsTrue reader.new.has_failed }
    ensures write { IsErrOf result RunError.Write ↔ IsTrue writer.new.has_failed }
    ensures too_long { IsErrOf result RunError.TooLong → reader.new.reads ≡ 2 ^ 48 }
    ensures failed { IsErrOf result (RunError.Terminal TerminalError.Failed) → ⊥ }
    ensures number { IsErrOf result (RunError.Terminal TerminalError.Number)
        → LooksNeedNumber (λ w. W.width_of w) every terminal.old (R.remaining reader.old.inner) }
    ensures memory { IsErrOf result (RunError.Terminal TerminalError.Memory)
        → ReadingIsRefusedMemory (λ w. W.width_of w) (all_looks every) terminal.old (R.remaining reader.old.inner)
        (R.remaining reader.new.inner) }
    ensures flushes { OnOk result (IfSome (R.remaining reader.old.inner) (λ input.
        writer.new.flushes ≡ counted_by (update_count every input) writer.old.flushes)) }
    ensures flushed { OnOk result (IsTrue writer.new.is_flushed) }
    ensures ends_reads { reader.new.has_gone_on ≡ reader.old.has_gone_on }
    ensures ends_writes { writer.new.has_gone_on ≡ writer.old.has_gone_on }
{
    let mut buffer = [0u8; 4096];
    let mut number = 0;
    let mut left = every;
    for _ in 0..READS {
        let most = left.min(4096);
        let count = match reader.read(&mut buffer[..most]) {
            Ok(count) => count,
            Err(_) => return Err(RunError::Read),
        };
        if count == 0 {
            write_update(terminal, writer, number)?;
            return Ok(());
        }
        terminal.feed(&buffer[..count])?;
        left -= count;
        if left == 0 {
            number = write_update(terminal, writer, number)?;
            left = every;
        } else {
            let from = due_from(terminal, number);
            forget(terminal, from);
        }
    }
    Err(RunError::TooLong)
}

/// Feeds the input to a new terminal and writes its updates, as `run_on` does. Width and height are from 1 to
/// 2^32 - 1.
///
/// A read asks for at most 4,096 bytes, and at most for those up to the next look. `run` ends at the first
/// fault, also one of a read that was interrupted, with `Read` or `Write`; with `Terminal` where the
/// terminal refuses; and with `TooLong` where the input hasn't ended after 2^48 reads. The bytes that it wrote
/// are then a prefix of the updates of the bytes that were read.
pub fn run<R: Read, T: Write, W: Widths + Drop>(
    alloc: Global,
    reader: &mut Watched<R>,
    writer: &mut Watched<T>,
    width: usize,
    height: usize,
    every: usize,
    widths: W,
) -> Result<(), RunError>
    requires size { IsScreenSize width height }
    requires every { 0 < every }
    requires reader { IsUnread reader.old }
    requires writer { writer.old.has_failed ≡ false }
    ensures ok { OnOk result
        (IfSome (R.remaining reader.old.inner)
        (λ input. Appends (T.contents writer.old.inner) (T.contents writer.new.inner)
        (updates (W.width_of widths) width height every input))) }
    ensures err { OnErr result
        (IfSome (R.remaining reader.old.inner)
        (λ input. SendsPart (W.width_of widths) every (new_standing width height) input
        (R.remaining reader.new.inner) (T.contents writer.old.inner) (T.contents writer.new.inner))) }
    // Where a read fails, the updates of the full chunks that were read are written, and no more.
    ensures chunks { IsErrOf result RunError.Read → IfSome (R.remaining reader.old.inner)
        (λ input. SendsChunks (W.width_of widths) every (new_standing width height) input
        (R.remaining reader.new.inner) (T.contents writer.old.inner) (T.contents writer.new.inner)) }
    ensures read { IsErrOf result RunError.Read ↔ IsTrue reader.new.has_failed }
    ensures write { IsErrOf result RunError.Write ↔ IsTrue writer.new.has_failed }
    ensures too_long { IsErrOf result RunError.TooLong → reader.new.reads ≡ 2 ^ 48 }
    ensures failed { IsErrOf result (RunError.Terminal TerminalError.Failed) → ⊥ }
    ensures number { IsErrOf result (RunError.Terminal TerminalError.Number)
        → IfSome (R.remaining reader.old.inner)
        (λ input. 2 ^ 64 ≤ number_after (W.width_of widths) every (new_standing width height) input) }
    // Where memory is refused, feeding the last read is refused it, or the number after all that was read, with its
    // looks, fits in 64 bits.
    ensures memory { IsErrOf result (RunError.Terminal TerminalError.Memory) → IfSome (R.remaining reader.old.inner)
        (λ input. IsRefusedMemory (W.width_of widths) (new_standing width height) (all_looks every) input
        (R.remaining reader.new.inner)) }
    // `run` flushes once after each update, and nothing is written after the last flush.
    ensures flushes { OnOk result (IfSome (R.remaining reader.old.inner) (λ input.
        writer.new.flushes ≡ counted_by (update_count every input) writer.old.flushes)) }
    ensures flushed { OnOk result (IsTrue writer.new.is_flushed) }
    // After a fault of the reader or the writer the one that failed isn't called again.
    ensures ends_reads { reader.new.has_gone_on ≡ reader.old.has_gone_on }
    ensures ends_writes { writer.new.has_gone_on ≡ writer.old.has_gone_on }
{
    let mut terminal = Terminal::new(alloc, width, height, widths)?;
    run_on(&mut terminal, reader, writer, every)
}

/// Feeds the input to a terminal that hasn't failed. After each read that brought bytes it writes the update for the
/// number of the update before it, at first 0, and flushes, before it reads on; then the changes that no update needs
/// any more are forgotten, and the replies dropped. Nothing is written at the end of the input.
///
/// A read asks for at most 4,096 bytes. `run_live_on` ends at the first fault, also one of a read that was interrupted,
/// with `Read` or `Write`; with `Terminal` where the terminal refuses; and with `TooLong` where the input hasn't ended
/// after 2^48 reads. Where a read fails, the updates of all bytes that were read are written and flushed. Where a write
/// or a flush fails, or the terminal refuses, this holds of all but the last read, and a part of its update may be
/// written; nothing was read after it.
pub fn run_live_on<R: Read, T: Write, W: Widths + Drop>(
    terminal: &mut Terminal<W>,
    reader: &mut Watched<R>,
    writer: &mut Watched<T>,
) -> Result<(), RunError>
    requires reader { IsUnread reader.old }
    requires writer { writer.old.has_failed ≡ false }
    requires sound { terminal.old.is_failed ≡ false }
    ensures ok { OnOk result
        (ReadsEach (W.width_of terminal.old.surface.grid.widths) (IsCountedAt terminal.old) (λ r. R.remaining r)
        (λ t. T.contents t) 1 reader.old reader.new writer.old writer.new terminal.new) }
    ensures end { OnOk result (IsAtEnd (R.remaining reader.new.inner)) }
    ensures widths { OnOk result (terminal.new.surface.grid.widths ≡ terminal.old.surface.grid.widths) }
    ensures sound { OnOk result (terminal.new.is_failed ≡ false) }
    ensures err { OnErr result
        (SendsPrefix (W.width_of terminal.old.surface.grid.widths) (IsCountedAt terminal.old) (λ r. R.remaining r)
        (λ t. T.contents t) reader.old reader.new writer.old writer.new) }
    ensures each { IsErrOf result RunError.Read
        → SendsEach (W.width_of terminal.old.surface.grid.widths) (IsCountedAt terminal.old) (λ r. R.remaining r)
        (λ t. T.contents t) 1 reader.old reader.new writer.old writer.new }
    ensures unsent { IsErrOf result RunError.Write
        → SendsPartOfLast (W.width_of terminal.old.surface.grid.widths) (IsCountedAt terminal.old) (λ r. R.remaining r)
        (λ t. T.contents t) reader.old reader.new writer.old writer.new }
    ensures refused { (error : TerminalError) → IsErrOf result (RunError.Terminal error)
        → SendsPartOfLast (W.width_of terminal.old.surface.grid.widths) (IsCountedAt terminal.old) (λ r. R.remaining r)
        (λ t. T.contents t) reader.old reader.new writer.old writer.new }
    ensures read { IsErrOf result RunError.Read ↔ IsTrue reader.new.has_failed }
    ensures write { IsErrOf result RunError.Write ↔ IsTrue writer.new.has_failed }
    ensures too_long { IsErrOf result RunError.TooLong → reader.new.reads ≡ 2 ^ 48 }
    ensures failed { IsErrOf result (RunError.Terminal TerminalError.Failed) → ⊥ }
    ensures number { IsErrOf result (RunError.Terminal TerminalError.Number)
        → PiecesNeedNumber (W.width_of terminal.old.surface.grid.widths) (IsCountedAt terminal.old)
        (λ r. R.remaining r) reader.old reader.new }
    ensures memory { IsErrOf result (RunError.Terminal TerminalError.Memory)
        → LastPieceTakesMemory (W.width_of terminal.old.surface.grid.widths) (IsCountedAt terminal.old)
        (λ r. R.remaining r) reader.old reader.new }
    ensures ends_reads { reader.new.has_gone_on ≡ reader.old.has_gone_on }
    ensures ends_writes { writer.new.has_gone_on ≡ writer.old.has_gone_on }
{
    let mut buffer = [0u8; 4096];
    let mut number = 0;
    for _ in 0..READS {
        let count = match reader.read(&mut buffer) {
            Ok(count) => count,
            Err(_) => return Err(RunError::Read),
        };
        if count == 0 {
            return Ok(());
        }
        terminal.feed(&buffer[..count])?;
        number = write_update(terminal, writer, number)?;
    }
    Err(RunError::TooLong)
}

/// Feeds the input to a new terminal and writes the update after each read, as `run_live_on` does. Width and height are
/// from 1 to 2^32 - 1.
///
/// A read asks for at most 4,096 bytes. `run_live` ends at the first fault, also one of a read that was interrupted,
/// with `Read` or `Write`; with `Terminal` where the terminal refuses; and with `TooLong` where the input hasn't ended
/// after 2^48 reads. What is written then `run_live_on` says.
pub fn run_live<R: Read, T: Write, W: Widths + Drop>(
    alloc: Global,
    reader: &mut Watched<R>,
    writer: &mut Watched<T>,
    width: usize,
    height: usize,
    widths: W,
) -> Result<(), RunError>
    requires size { IsScreenSize width height }
    requires reader { IsUnread reader.old }
    requires writer { writer.old.has_failed ≡ false }
    ensures ok { OnOk result
        (SendsEach (W.width_of widths) (λ s. s ≡ new_standing width height) (λ r. R.remaining r) (λ t. T.contents t) 1
        reader.old reader.new writer.old writer.new) }
    ensures end { OnOk result (IsAtEnd (R.remaining reader.new.inner)) }
    ensures err { OnErr result
        (SendsPrefix (W.width_of widths) (λ s. s ≡ new_standing width height) (λ r. R.remaining r) (λ t. T.contents t)
        reader.old reader.new writer.old writer.new) }
    ensures each { IsErrOf result RunError.Read
        → SendsEach (W.width_of widths) (λ s. s ≡ new_standing width height) (λ r. R.remaining r) (λ t. T.contents t) 1
        reader.old reader.new writer.old writer.new }
    ensures unsent { IsErrOf result RunError.Write
        → SendsPartOfLast (W.width_of widths) (λ s. s ≡ new_standing width height) (λ r. R.remaining r)
        (λ t. T.contents t) reader.old reader.new writer.old writer.new }
    ensures read { IsErrOf result RunError.Read ↔ IsTrue reader.new.has_failed }
    ensures write { IsErrOf result RunError.Write ↔ IsTrue writer.new.has_failed }
    ensures too_long { IsErrOf result RunError.TooLong → reader.new.reads ≡ 2 ^ 48 }
    ensures failed { IsErrOf result (RunError.Terminal TerminalError.Failed) → ⊥ }
    ensures number { IsErrOf result (RunError.Terminal TerminalError.Number)
        → PiecesNeedNumber (W.width_of widths) (λ s. s ≡ new_standing width height) (λ r. R.remaining r) reader.old
        reader.new }
    ensures ends_reads { reader.new.has_gone_on ≡ reader.old.has_gone_on }
    ensures ends_writes { writer.new.has_gone_on ≡ writer.old.has_gone_on }
{
    let mut terminal = Terminal::new(alloc, width, height, widths)?;
    run_live_on(&mut terminal, reader, writer)
}

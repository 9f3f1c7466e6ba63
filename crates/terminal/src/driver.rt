//! Runs a reader's bytes through a terminal.
ghost use Rattle.std.specs.Prelude.{◌≡◌, ◌↔◌, ℕ, ◌+◌, ◌≤◌, ◌^◌, false, List, [], ◌∷◌, IsTrue, IsErr, IfOk, IfSome};
ghost use Rattle.std.specs.Prelude.{OnOk, OnErr, IsErrOf, Some};
ghost use Rattle.std.specs.Io.KnownBytes.{Appends, IsAtEnd, Keeps};
ghost use Rattle.std.specs.String.{string_bytes};
ghost use Rattle.cell_base.specs.Screen.{screen_text};
ghost use Rattle.cell_base.specs.ScreenSize.{IsScreenSize};
ghost use Rattle.terminal.specs.Fed.{Feeds, FeedingNeedsNumber, Reads, ShowsRows, ShowsSomeRows};
ghost use Rattle.terminal.specs.Refusals.{IsRefusedMemory, ReadingIsRefusedMemory, ReadingNeedsNumber, one_look};
ghost use Rattle.terminal.specs.Written.{Lightens};
ghost use Rattle.terminal.specs.Shown.{AppendsPrefix, rows_shown};
ghost use Rattle.terminal.specs.Terminal.{state_in};
ghost use Rattle.terminal.specs.Watched.{IsUnread, counted};
ghost use Rattle.terminal_table.specs.History.{Piece, Look};
ghost use Rattle.terminal_table.specs.Logged.{log_of};
ghost use Rattle.terminal_viewers.specs.Updates.{new_standing};

use crate::error::RunError;
use crate::terminal::Terminal;
use crate::watched::Watched;
use cell_base::{SequenceNo, Widths};
use std::alloc::{AllocError, Global};
use std::io::{Read, Write};
use terminal_steps::TerminalError;

// Writes the bytes, and flushes the writer.
pub(crate) fn write_and_flush<T: Write>(
    writer: &mut Watched<T>,
    bytes: &[u8],
) -> Result<(), RunError>
    requires { writer.old.has_failed ≡ false }
    ensures ok { OnOk result (Appends (T.contents writer.old.inner) (T.contents writer.new.inner) bytes.now) }
    ensures err { OnErr result (AppendsPrefix (T.contents writer.old.inner) (T.contents writer.new.inner) bytes.now) }
    ensures fault { IsErrOf result RunError.Write ↔ IsTrue writer.new.has_failed }
    ensures only { IsErr result → IsErrOf result RunError.Write }
    ensures ends { writer.new.has_gone_on ≡ writer.old.has_gone_on }
    ensures flushes { OnOk result (writer.new.flushes ≡ counted writer.old.flushes) }
    ensures flushed { OnOk result (IsTrue writer.new.is_flushed) }
{
    writer.write_all(bytes)?;
    match writer.flush() {
        Ok(()) => Ok(()),
        Err(_) => Err(RunError::Write),
    }
}

/// How many reads an input may take.
pub(crate) const READS: u64 = 1 << 48;

// Forgets the changes before a number, and drops the replies: nobody reads them any more.
pub(crate) fn forget<W: Widths + Drop>(terminal: &mut Terminal<W>, number: SequenceNo)
    requires sound { terminal.old.is_failed ≡ false }
    ensures lighter { Lightens (λ w. W.width_of w) terminal.old terminal.new number }
{
    terminal.forget_before(number);
    let _replies = terminal.take_replies();
}

// Feeds the whole input; forgets the changes and drops the replies, which nobody reads.
fn feed_all<R: Read, W: Widths + Drop>(
    reader: &mut Watched<R>,
    terminal: &mut Terminal<W>,
) -> Result<(), RunError>
    requires reader { IsUnread reader.old }
    requires sound { terminal.old.is_failed ≡ false }
    ensures ok { OnOk result (Feeds (λ w. W.width_of w) (R.remaining reader.old.inner) terminal.old terminal.new) }
    ensures sound { OnOk result (terminal.new.is_failed ≡ false) }
    ensures end { OnOk result (IsAtEnd (R.remaining reader.new.inner)) }
    ensures none_left { OnOk result (IfSome (R.remaining reader.old.inner)
        (λ input. R.remaining reader.new.inner ≡ Some [])) }
    ensures read { IsErrOf result RunError.Read ↔ IsTrue reader.new.has_failed }
    ensures ends { reader.new.has_gone_on ≡ reader.old.has_gone_on }
    ensures too_long { IsErrOf result RunError.TooLong → reader.new.reads ≡ 2 ^ 48 }
    ensures write { IsErrOf result RunError.Write → ⊥ }
    ensures failed { IsErrOf result (RunError.Terminal TerminalError.Failed) → ⊥ }
    ensures number { IsErrOf result (RunError.Terminal TerminalError.Number)
        → FeedingNeedsNumber (λ w. W.width_of w) (R.remaining reader.old.inner) terminal.old }
    ensures memory { IsErrOf result (RunError.Terminal TerminalError.Memory)
        → ReadingIsRefusedMemory (λ w. W.width_of w) one_look terminal.old (R.remaining reader.old.inner)
        (R.remaining reader.new.inner) }
{
    let mut buffer = [0u8; 4096];
    for _ in 0..READS {
        let count = match reader.read(&mut buffer) {
            Ok(count) => count,
            Err(_) => return Err(RunError::Read),
        };
        if count == 0 {
            return Ok(());
        }
        terminal.feed(&buffer[..count])?;
        let number = terminal.current_number();
        forget(terminal, number);
    }
    Err(RunError::TooLong)
}

// Feeds the whole input to a terminal, and settles it. Its log keeps nothing then, so that no text is held twice while
// the rows are made.
fn read_all<R: Read, W: Widths + Drop>(
    terminal: &mut Terminal<W>,
    reader: &mut Watched<R>,
) -> Result<(), RunError>
    requires reader { IsUnread reader.old }
    requires sound { terminal.old.is_failed ≡ false }
    ensures ok { OnOk result
        (Reads (λ w. W.width_of w) one_look terminal.old (R.remaining reader.old.inner) terminal.new) }
    ensures sound { OnOk result (terminal.new.is_failed ≡ false) }
    ensures end { OnOk result (IsAtEnd (R.remaining reader.new.inner)) }
    ensures read { IsErrOf result RunError.Read ↔ IsTrue reader.new.has_failed }
    ensures ends { reader.new.has_gone_on ≡ reader.old.has_gone_on }
    ensures too_long { IsErrOf result RunError.TooLong → reader.new.reads ≡ 2 ^ 48 }
    ensures write { IsErrOf result RunError.Write → ⊥ }
    ensures failed { IsErrOf result (RunError.Terminal TerminalError.Failed) → ⊥ }
    ensures number { IsErrOf result (RunError.Terminal TerminalError.Number)
        → ReadingNeedsNumber (λ w. W.width_of w) one_look terminal.old (R.remaining reader.old.inner) }
    ensures memory { IsErrOf result (RunError.Terminal TerminalError.Memory)
        → ReadingIsRefusedMemory (λ w. W.width_of w) one_look terminal.old (R.remaining reader.old.inner)
        (R.remaining reader.new.inner) }
    // `show_on` needs this if memory for the rows is refused afterwards.
    ensures rows { OnOk result
        (ReadingIsRefusedMemory (λ w. W.width_of w) one_look terminal.old (R.remaining reader.old.inner)
        (R.remaining reader.new.inner)) }
{
    feed_all(reader, terminal)?;
    terminal.settle()?;
    let number = terminal.current_number();
    forget(terminal, number);
    Ok(())
}

// The rows of a terminal.
fn rows_of<W: Widths + Drop>(terminal: &Terminal<W>) -> Result<String, AllocError>
    ensures { IfOk result (λ text. string_bytes text ≡ screen_text (state_in terminal.now).screen) }
{
    terminal.surface().screen_chars_to_string()
}

/// Feeds the whole input to a terminal that hasn't failed, takes one look at the end of the input, writes the rows,
/// each with a line feed after it, and flushes. The changes and the replies, which nobody reads, are dropped. The
/// terminal has then read the input, and answers viewers from its current number on.
///
/// A read asks for at most 4,096 bytes. `show_on` ends at the first fault, also one of a read that was interrupted,
/// with `Read` or `Write`; with `Terminal` where the terminal refuses; and with `TooLong` where the input hasn't ended
/// after 2^48 reads. The bytes that it wrote are then a prefix of the rows; what the terminal has read isn't
/// determined.
pub fn show_on<R: Read, T: Write, W: Widths + Drop>(
    terminal: &mut Terminal<W>,
    reader: &mut Watched<R>,
    writer: &mut Watched<T>,
) -> Result<(), RunError>
    requires sound { terminal.old.is_failed ≡ false }
    requires reader { IsUnread reader.old }
    requires writer { writer.old.has_failed ≡ false }
    ensures ok { OnOk result
        (ShowsRows (λ w. W.width_of w) terminal.old (R.remaining reader.old.inner) (T.contents writer.old.inner)
        (T.contents writer.new.inner)) }
    ensures stands { OnOk result
        (Reads (λ w. W.width_of w) one_look terminal.old (R.remaining reader.old.inner) terminal.new) }
    ensures sound { OnOk result (terminal.new.is_failed ≡ false) }
    ensures err { OnErr result
        (ShowsSomeRows (λ w. W.width_of w) terminal.old (R.remaining reader.old.inner) (T.contents writer.old.inner)
        (T.contents writer.new.inner)) }
    ensures read { IsErrOf result RunError.Read ↔ IsTrue reader.new.has_failed }
    ensures write { IsErrOf result RunError.Write ↔ IsTrue writer.new.has_failed }
    ensures too_long { IsErrOf result RunError.TooLong → reader.new.reads ≡ 2 ^ 48 }
    // Nothing is written before the whole input was read.
    ensures end { OnOk result (IsAtEnd (R.remaining reader.new.inner)) }
    ensures end_first { IsErrOf result RunError.Write → IsAtEnd (R.remaining reader.new.inner) }
    ensures remaining { IsErr result → (IsErrOf result RunError.Write → ⊥)
        → Keeps (T.contents writer.old.inner) (T.contents writer.new.inner) }
    // It flushes once, after the last write.
    ensures flushes { OnOk result (writer.new.flushes ≡ counted writer.old.flushes) }
    ensures flushed { OnOk result (IsTrue writer.new.is_flushed) }
    ensures unflushed { IsErr result → (IsErrOf result RunError.Write → ⊥) → writer.new.flushes ≡ writer.old.flushes }
    // After a fault of the reader or the writer the one that failed isn't called again.
    ensures ends_reads { reader.new.has_gone_on ≡ reader.old.has_gone_on }
    ensures ends_writes { writer.new.has_gone_on ≡ writer.old.has_gone_on }
    ensures failed { IsErrOf result (RunError.Terminal TerminalError.Failed) → ⊥ }
    ensures number { IsErrOf result (RunError.Terminal TerminalError.Number)
        → ReadingNeedsNumber (λ w. W.width_of w) one_look terminal.old (R.remaining reader.old.inner) }
    // Where memory is refused, feeding the last read is refused it; or on a terminal that isn't plain the look after it
    // is; or the number after all that was read, with the look, fits in 64 bits.
    ensures memory { IsErrOf result (RunError.Terminal TerminalError.Memory)
        → ReadingIsRefusedMemory (λ w. W.width_of w) one_look terminal.old (R.remaining reader.old.inner)
        (R.remaining reader.new.inner) }
{
    read_all(terminal, reader)?;
    let rows = rows_of(terminal)?;
    write_and_flush(writer, rows.as_bytes())
}

/// Feeds the whole input to a new terminal and writes its rows, as `show_on` does. Width and height are from 1 to
/// 2^32 - 1.
pub fn show<R: Read, T: Write, W: Widths + Drop>(
    alloc: Global,
    reader: &mut Watched<R>,
    writer: &mut Watched<T>,
    width: usize,
    height: usize,
    widths: W,
) -> Result<(), RunError>
    requires size { IsScreenSize width height }
    requires reader { IsUnread reader.old }
    requires writer { writer.old.has_failed ≡ false }
    ensures ok { OnOk result
        (IfSome (R.remaining reader.old.inner)
        (λ input. Appends (T.contents writer.old.inner) (T.contents writer.new.inner)
        (rows_shown (W.width_of widths) width height input))) }
    ensures err { OnErr result
        (IfSome (R.remaining reader.old.inner)
        (λ input. AppendsPrefix (T.contents writer.old.inner) (T.contents writer.new.inner)
        (rows_shown (W.width_of widths) width height input))) }
    ensures read { IsErrOf result RunError.Read ↔ IsTrue reader.new.has_failed }
    ensures write { IsErrOf result RunError.Write ↔ IsTrue writer.new.has_failed }
    ensures too_long { IsErrOf result RunError.TooLong → reader.new.reads ≡ 2 ^ 48 }
    // Nothing is written before the whole input was read.
    ensures end { OnOk result (IsAtEnd (R.remaining reader.new.inner)) }
    ensures end_first { IsErrOf result RunError.Write → IsAtEnd (R.remaining reader.new.inner) }
    ensures remaining { IsErr result → (IsErrOf result RunError.Write → ⊥)
        → Keeps (T.contents writer.old.inner) (T.contents writer.new.inner) }
    // `show` flushes once, after the last write.
    ensures flushes { OnOk result (writer.new.flushes ≡ counted writer.old.flushes) }
    ensures flushed { OnOk result (IsTrue writer.new.is_flushed) }
    ensures unflushed { IsErr result → (IsErrOf result RunError.Write → ⊥) → writer.new.flushes ≡ writer.old.flushes }
    // After a fault of the reader or the writer the one that failed isn't called again.
    ensures ends_reads { reader.new.has_gone_on ≡ reader.old.has_gone_on }
    ensures ends_writes { writer.new.has_gone_on ≡ writer.old.has_gone_on }
    ensures failed { IsErrOf result (RunError.Terminal TerminalError.Failed) → ⊥ }
    ensures number { IsErrOf result (RunError.Terminal TerminalError.Number)
        → IfSome (R.remaining reader.old.inner)
        (λ input. 2 ^ 64 ≤ (log_of (W.width_of widths) width height (Piece input ∷ Look ∷ [])).log.number) }
    // Where memory is refused, feeding the last read is refused it, or the number after all that was read, with the
    // look, fits in 64 bits.
    ensures memory { IsErrOf result (RunError.Terminal TerminalError.Memory) → IfSome (R.remaining reader.old.inner)
        (λ input. IsRefusedMemory (W.width_of widths) (new_standing width height) one_look input
        (R.remaining reader.new.inner)) }
{
    let mut terminal = Terminal::new(alloc, width, height, widths)?;
    show_on(&mut terminal, reader, writer)
}

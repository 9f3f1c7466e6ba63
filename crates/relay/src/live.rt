//! The program with `--live`: when it reads, writes and flushes, and how it ends.
use crate::service::serve;
use std::alloc::Global;
use std::cell::Cell;
use std::io;
use std::io::{ErrorKind, Read, Write};
use std::process::Abort;

/// What the program has done last: it has nothing to write, it has read a piece, or it has written of its update.
#[derive(Clone, Copy, PartialEq, Eq)]
enum Stage {
    Sent,
    Read,
    Written,
}

/// Gives a piece at each read, and fails at a read before the update of the last piece was flushed.
#[derive(Drop)]
struct Pieces<'a> {
    pieces: &'a [&'static [u8]],
    next: usize,
    stage: &'a Cell<Stage>,
}

impl Read for Pieces<'_> {
    fn read(&mut self, buf: &mut [u8]) -> io::Result<usize> {
        if self.stage.get() != Stage::Sent {
            return Err(io::Error::from(ErrorKind::Other));
        }
        let Some(piece) = self.pieces.get(self.next) else {
            return Ok(0);
        };
        self.next += 1;
        let mut bytes = *piece;
        if !bytes.is_empty() {
            self.stage.set(Stage::Read);
        }
        bytes.read(buf)
    }
}

/// Takes all bytes, and fails at a write or a flush that isn't due.
#[derive(Drop)]
struct Sent<'a> {
    text: Vec<u8>,
    flushes: usize,
    stage: &'a Cell<Stage>,
}

impl Write for Sent<'_> {
    fn write(&mut self, buf: &[u8]) -> io::Result<usize> {
        if self.stage.get() == Stage::Sent {
            return Err(io::Error::from(ErrorKind::Other));
        }
        self.stage.set(Stage::Written);
        self.text.extend_from_slice(buf)?;
        Ok(buf.len())
    }

    fn flush(&mut self) -> io::Result<()> {
        if self.stage.get() != Stage::Written {
            return Err(io::Error::from(ErrorKind::Other));
        }
        self.stage.set(Stage::Sent);
        self.flushes = self.flushes.wrapping_add(1);
        Ok(())
    }
}

const LIVE: [&str; 6] = ["relay", "--width", "4", "--height", "1", "--live"];

// The updates of one letter after another, and of two letters and then the last one.
const EACH: &[u8] =
    b"\x1b[?25l\x1b[0m\x1b]8;;\x1b\\\x1b[2J\x1b[1;1H\x1b]2;\x1b\\a\0\x1b[1;2H\x1b[?25hb\0c\0";

const BOTH: &[u8] =
    b"\x1b[?25l\x1b[0m\x1b]8;;\x1b\\\x1b[2J\x1b[1;1H\x1b]2;\x1b\\ab\0\x1b[1;3H\x1b[?25hc\0";

const FIRST: usize = BOTH.len() - 2;

/// The pieces are sent one by one: `expected` is written, and flushed as often as there are pieces.
fn assert_sent<R: Abort + AllocGlobal>(rt: &R, pieces: &[&'static [u8]], expected: &[u8]) {
    let stage = Cell::new(Stage::Sent);
    let mut input = Pieces {
        pieces,
        next: 0,
        stage: &stage,
    };
    let mut output = Sent {
        text: Vec::new(rt.alloc()),
        flushes: 0,
        stage: &stage,
    };
    let mut faults = Vec::new(rt.alloc());
    let status = serve(rt.alloc(), &LIVE, &mut input, &mut output, &mut faults);
    assert_eq!(rt; status, 0);
    assert!(rt; faults.is_empty());
    assert_eq!(rt; output.flushes, pieces.len());
    assert!(rt; output.text.as_slice() == expected);
}

#[test]
fn updates_are_flushed_before_the_next_read(rt: HostRuntime) {
    assert_sent(&rt, &[b"a", b"b", b"c"], EACH);
    assert_sent(&rt, &[b"ab", b"c"], BOTH);
}

#[test]
fn nothing_is_written_of_no_input(rt: HostRuntime) {
    assert_sent(&rt, &[], b"");
}

/// Gives its bytes a few at a time, and fails after some reads with a kind of error.
#[derive(Drop)]
struct Input<'a> {
    bytes: &'a [u8],
    most: usize,
    reads_left: usize,
    kind: ErrorKind,
}

impl Read for Input<'_> {
    fn read(&mut self, buf: &mut [u8]) -> io::Result<usize> {
        if self.reads_left == 0 {
            return Err(io::Error::from(self.kind));
        }
        self.reads_left -= 1;
        let wanted = buf.len().min(self.most);
        self.bytes.read(&mut buf[..wanted])
    }
}

/// Takes a byte at a time, and fails after some writes or some flushes with a kind of error, or takes nothing at a
/// write. After that no call is due.
#[derive(Drop)]
struct Output {
    text: Vec<u8>,
    writes_left: usize,
    flushes_left: usize,
    fault: Option<ErrorKind>,
    has_failed: bool,
    has_gone_on: bool,
}

fn output_of(
    alloc: Global,
    writes_left: usize,
    flushes_left: usize,
    fault: Option<ErrorKind>,
) -> Output {
    Output {
        text: Vec::new(alloc),
        writes_left,
        flushes_left,
        fault,
        has_failed: false,
        has_gone_on: false,
    }
}

impl Write for Output {
    fn write(&mut self, buf: &[u8]) -> io::Result<usize> {
        self.has_gone_on = self.has_gone_on || self.has_failed;
        if self.writes_left == 0 {
            self.has_failed = true;
            return match self.fault {
                Some(kind) => Err(io::Error::from(kind)),
                None => Ok(0),
            };
        }
        self.writes_left -= 1;
        let count = buf.len().min(1);
        self.text.extend_from_slice(&buf[..count])?;
        Ok(count)
    }

    fn flush(&mut self) -> io::Result<()> {
        self.has_gone_on = self.has_gone_on || self.has_failed;
        if self.flushes_left == 0 {
            self.has_failed = true;
            return Err(io::Error::from(self.fault.unwrap_or(ErrorKind::Other)));
        }
        self.flushes_left -= 1;
        Ok(())
    }
}

/// The words on the letters, two at a read, and on an output that fails: the status is `expected.0`, the message
/// `expected.1`, and the first `count` bytes of the updates are written. What has failed isn't called again.
fn assert_ends<R: Abort + AllocGlobal>(
    rt: &R,
    words: &[&str],
    mut output: Output,
    count: usize,
    expected: (u8, &[u8]),
) {
    let mut input = Input {
        bytes: b"abc",
        most: 2,
        reads_left: 9,
        kind: ErrorKind::Other,
    };
    let mut faults = Vec::new(rt.alloc());
    let status = serve(rt.alloc(), words, &mut input, &mut output, &mut faults);
    assert_eq!(rt; status, expected.0);
    assert!(rt; faults.as_slice() == expected.1);
    assert_eq!(rt; output.text.len(), count);
    assert!(rt; BOTH.starts_with(&output.text));
    assert!(rt; !output.has_gone_on);
}

const QUIET: (u8, &[u8]) = (0, b"");

const CANNOT_WRITE: (u8, &[u8]) = (1, b"relay: cannot write\n");

#[test]
fn broken_pipes_end_it_quietly(rt: HostRuntime) {
    let broken = Some(ErrorKind::BrokenPipe);
    for writes in 0..BOTH.len() {
        let output = output_of(rt.alloc(), writes, 9, broken);
        assert_ends(&rt, &LIVE, output, writes, QUIET);
    }
    for (flushes, count) in [(0, FIRST), (1, BOTH.len())] {
        let output = output_of(rt.alloc(), 99, flushes, broken);
        assert_ends(&rt, &LIVE, output, count, QUIET);
    }
}

#[test]
fn other_faults_of_the_writer_are_reported(rt: HostRuntime) {
    let faults = [
        None,
        Some(ErrorKind::Other),
        Some(ErrorKind::StorageFull),
        Some(ErrorKind::WriteZero),
        Some(ErrorKind::Interrupted),
        Some(ErrorKind::ConnectionReset),
    ];
    for fault in faults {
        let output = output_of(rt.alloc(), 5, 9, fault);
        assert_ends(&rt, &LIVE, output, 5, CANNOT_WRITE);
        let output = output_of(rt.alloc(), 99, 1, fault);
        assert_ends(&rt, &LIVE, output, BOTH.len(), CANNOT_WRITE);
    }
}

#[test]
fn broken_pipes_are_reported_without_it(rt: HostRuntime) {
    let words = ["relay", "--width", "4", "--height", "1", "--every", "2"];
    let broken = Some(ErrorKind::BrokenPipe);
    let output = output_of(rt.alloc(), 5, 9, broken);
    assert_ends(&rt, &words, output, 5, CANNOT_WRITE);
    let output = output_of(rt.alloc(), 99, 0, broken);
    assert_ends(&rt, &words, output, FIRST, CANNOT_WRITE);
    let output = output_of(rt.alloc(), 0, 9, broken);
    assert_ends(&rt, &["relay", "--show"], output, 0, CANNOT_WRITE);
    let output = output_of(rt.alloc(), 0, 9, broken);
    assert_ends(&rt, &["relay", "--live", "--help"], output, 0, CANNOT_WRITE);
}

#[test]
fn statuses_stay_where_a_fault_is_not_written(rt: HostRuntime) {
    let mut input = b"abc".as_slice();
    let mut output = output_of(rt.alloc(), 0, 9, Some(ErrorKind::Other));
    let mut faults = output_of(rt.alloc(), 0, 9, Some(ErrorKind::BrokenPipe));
    let status = serve(rt.alloc(), &LIVE, &mut input, &mut output, &mut faults);
    assert_eq!(rt; status, 1);
    assert!(rt; faults.text.is_empty());
}

#[test]
fn faults_of_the_reader_come_after_the_updates(rt: HostRuntime) {
    for kind in [ErrorKind::Other, ErrorKind::BrokenPipe] {
        for (reads, count) in [(0, 0), (1, FIRST), (2, BOTH.len())] {
            let mut input = Input {
                bytes: b"abc",
                most: 2,
                reads_left: reads,
                kind,
            };
            let mut output = output_of(rt.alloc(), 99, 9, None);
            let mut faults = Vec::new(rt.alloc());
            let status = serve(rt.alloc(), &LIVE, &mut input, &mut output, &mut faults);
            assert_eq!(rt; status, 1);
            assert!(rt; faults.as_slice() == b"relay: cannot read\n".as_slice());
            assert_eq!(rt; output.text.len(), count);
            assert!(rt; BOTH.starts_with(&output.text));
        }
    }
}

/// The output of the words for an input that is read `most` bytes at a time.
fn output_for<R: Abort + AllocGlobal>(
    rt: &R,
    words: &[&str],
    bytes: &[u8],
    most: usize,
) -> Vec<u8> {
    let mut input = Input {
        bytes,
        most,
        reads_left: usize::MAX,
        kind: ErrorKind::Other,
    };
    let mut output = Vec::new(rt.alloc());
    let mut faults = Vec::new(rt.alloc());
    let status = serve(rt.alloc(), words, &mut input, &mut output, &mut faults);
    assert_eq!(rt; status, 0);
    assert!(rt; faults.is_empty());
    output
}

// However its reads cut a large input, a viewer of the updates shows the rows of the input.
#[test]
fn viewers_show_the_input_in_any_pieces(rt: HostRuntime) {
    let mut bytes = Vec::new(rt.alloc());
    for at in 0..4_000u32 {
        let letter = b'a' + (at % 26) as u8;
        bytes
            .extend_from_slice(&[
                letter, b'\r', b'\n', letter, b'\x1b', b'[', b'3', b'1', b'm',
            ])
            .expect(&rt, "memory");
    }
    let show = ["relay", "--width", "4", "--height", "3", "--show"];
    let live = ["relay", "--width", "4", "--height", "3", "--live"];
    let rows = output_for(&rt, &show, bytes.as_slice(), 4096);
    for most in [7, 1_000, 4_096, 100_000] {
        let updates = output_for(&rt, &live, bytes.as_slice(), most);
        let seen = output_for(&rt, &show, updates.as_slice(), 4096);
        assert!(rt; seen.as_slice() == rows.as_slice());
    }
}

//! The program on writers whose flush fails, and on words that are not UTF-8.
use crate::service::{refuse_ill_formed, serve};
use std::alloc::Global;
use std::io;
use std::io::{ErrorKind, Write};
use std::process::Abort;
use terminal::Watched;

/// Takes all bytes, and fails after `flushes_left` flushes.
#[derive(Drop)]
struct Flushed {
    text: Vec<u8>,
    flushes_left: usize,
}

impl Write for Flushed {
    fn write(&mut self, buf: &[u8]) -> io::Result<usize> {
        self.text.extend_from_slice(buf)?;
        Ok(buf.len())
    }

    fn flush(&mut self) -> io::Result<()> {
        if self.flushes_left == 0 {
            return Err(io::Error::from(ErrorKind::Other));
        }
        self.flushes_left -= 1;
        Ok(())
    }
}

fn writer_of(alloc: Global, flushes_left: usize) -> Flushed {
    Flushed {
        text: Vec::new(alloc),
        flushes_left,
    }
}

const SEND: [&str; 7] = ["relay", "--width", "4", "--height", "1", "--every", "2"];

const SHOW: [&str; 6] = ["relay", "--width", "4", "--height", "3", "--show"];

const FIRST: &[u8] =
    b"\x1b[?25l\x1b[0m\x1b]8;;\x1b\\\x1b[2J\x1b[1;1H\x1b]2;\x1b\\ab\0\x1b[1;3H\x1b[?25h";

const BOTH: &[u8] =
    b"\x1b[?25l\x1b[0m\x1b]8;;\x1b\\\x1b[2J\x1b[1;1H\x1b]2;\x1b\\ab\0\x1b[1;3H\x1b[?25hc\0";

const ROWS: &[u8] = b"foob\naarb\naz  \n";

/// On `input` and a writer that fails after `flushes` flushes the words have the `expected` status and output. With
/// status 1 `faults` says that writing failed.
fn assert_run<R: Abort + AllocGlobal>(
    rt: &R,
    words: &[&str],
    mut input: &[u8],
    flushes: usize,
    expected: (u8, &[u8]),
) {
    let mut output = writer_of(rt.alloc(), flushes);
    let mut faults = writer_of(rt.alloc(), 9);
    let status = serve(rt.alloc(), words, &mut input, &mut output, &mut faults);
    assert_eq!(rt; status, expected.0);
    assert!(rt; output.text.as_slice() == expected.1);
    let is_message = faults.text.as_slice() == b"relay: cannot write\n".as_slice();
    assert_eq!(rt; is_message, status == 1);
}

#[test]
fn updates_are_flushed_one_by_one(rt: HostRuntime) {
    assert_run(&rt, &SEND, b"abc", 0, (1, FIRST));
    assert_run(&rt, &SEND, b"abc", 1, (1, BOTH));
    assert_run(&rt, &SEND, b"abc", 2, (0, BOTH));
}

#[test]
fn rows_are_flushed_once(rt: HostRuntime) {
    assert_run(&rt, &SHOW, b"w00tfoobaarbaz", 0, (1, ROWS));
    assert_run(&rt, &SHOW, b"w00tfoobaarbaz", 1, (0, ROWS));
}

#[test]
fn texts_on_demand_are_flushed_once(rt: HostRuntime) {
    let version = b"relay 0.1.0\n".as_slice();
    assert_run(&rt, &["relay", "--version"], b"", 0, (1, version));
    assert_run(&rt, &["relay", "--version"], b"", 1, (0, version));
}

// `--help` on a writer whose first flush fails, and on one whose first flush doesn't.
#[test]
fn help_is_flushed_once(rt: HostRuntime) {
    for (flushes, expected) in [(0, 1), (1, 0)] {
        let mut output = writer_of(rt.alloc(), flushes);
        let mut faults = writer_of(rt.alloc(), 9);
        let mut input = b"".as_slice();
        let words = ["relay", "--help"];
        let status = serve(rt.alloc(), &words, &mut input, &mut output, &mut faults);
        assert_eq!(rt; status, expected);
        assert!(rt; output.text.as_slice() == crate::tests::HELP.as_bytes());
        assert_eq!(rt; faults.text.is_empty(), expected == 0);
    }
}

// The words have the `expected` status where the message can't be flushed.
fn assert_unreported<R: Abort + AllocGlobal>(rt: &R, words: &[&str], flushes: usize, expected: u8) {
    let mut output = writer_of(rt.alloc(), flushes);
    let mut faults = writer_of(rt.alloc(), 0);
    let mut input = b"abc".as_slice();
    let status = serve(rt.alloc(), words, &mut input, &mut output, &mut faults);
    assert_eq!(rt; status, expected);
}

#[test]
fn statuses_stay_where_faults_are_not_flushed(rt: HostRuntime) {
    assert_unreported(&rt, &["relay", "--width", "0"], 9, 2);
    assert_unreported(&rt, &SHOW, 0, 1);
    assert_unreported(&rt, &["relay", "--help"], 0, 1);
}

const ILL_FORMED: &str = "\
error: invalid UTF-8 was detected in one or more arguments

Usage: relay [OPTIONS]

For more information, try '--help'.
";

#[test]
fn words_that_are_not_text(rt: HostRuntime) {
    for flushes in [0, 1] {
        let mut faults = Watched::new(writer_of(rt.alloc(), flushes));
        assert_eq!(rt; refuse_ill_formed(&mut faults), 2);
        assert!(rt; faults.into_inner().text.as_slice() == ILL_FORMED.as_bytes());
    }
}

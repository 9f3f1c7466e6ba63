//! The program on readers and writers that give and take a few bytes at a time, and fail.
use crate::service::serve;
use std::alloc::Global;
use std::io;
use std::io::{ErrorKind, Read, Write};
use std::process::Abort;

/// Gives its bytes a few at a time, and fails at a read.
#[derive(Drop)]
struct Input {
    bytes: &'static [u8],
    most: usize,
    reads_left: usize,
}

const INPUT: &[u8] = b"w00tfoobaarbaz";

const LETTERS: &[u8] = b"abc";

const ROWS: &[u8] = b"foob\naarb\naz  \n";

impl Read for Input {
    fn read(&mut self, buf: &mut [u8]) -> io::Result<usize> {
        if self.reads_left == 0 {
            return Err(io::Error::from(ErrorKind::Other));
        }
        self.reads_left -= 1;
        let wanted = buf.len().min(self.most);
        self.bytes.read(&mut buf[..wanted])
    }
}

/// Takes a few bytes at a time, and fails at a write.
#[derive(Drop)]
struct Output {
    text: Vec<u8>,
    most: usize,
    writes_left: usize,
}

impl Write for Output {
    fn write(&mut self, buf: &[u8]) -> io::Result<usize> {
        if self.writes_left == 0 {
            return Err(io::Error::from(ErrorKind::Other));
        }
        self.writes_left -= 1;
        let count = buf.len().min(self.most);
        self.text.extend_from_slice(&buf[..count])?;
        Ok(count)
    }

    fn flush(&mut self) -> io::Result<()> {
        Ok(())
    }
}

fn input_in(bytes: &'static [u8], most: usize, reads_left: usize) -> Input {
    Input {
        bytes,
        most,
        reads_left,
    }
}

fn output_of(alloc: Global, most: usize, writes_left: usize) -> Output {
    Output {
        text: Vec::new(alloc),
        most,
        writes_left,
    }
}

const SHOW: [&str; 6] = ["relay", "--width", "4", "--height", "3", "--show"];

const SEND: [&str; 7] = ["relay", "--width", "4", "--height", "1", "--every", "2"];

// The updates of three letters with a look after two of them.
const UPDATES: &[u8] =
    b"\x1b[?25l\x1b[0m\x1b]8;;\x1b\\\x1b[2J\x1b[1;1H\x1b]2;\x1b\\ab\0\x1b[1;3H\x1b[?25hc\0";

// How many bytes the first update has.
const FIRST: usize = UPDATES.len() - 2;

// The update of a blank screen.
const BLANK: &[u8] = b"\x1b[?25l\x1b[0m\x1b]8;;\x1b\\\x1b[2J\x1b[1;1H\x1b]2;\x1b\\\x1b[?25h";

const NOTHING: &[u8] = b"";

/// The status of a run, its output and its message on `faults`.
#[derive(Drop)]
struct Run {
    status: u8,
    text: Vec<u8>,
    message: Vec<u8>,
}

/// A run of the words on an input and on a writer that takes `writes.0` bytes at a time and fails after `writes.1`
/// writes.
fn run_of<R: AllocGlobal>(rt: &R, words: &[&str], mut input: Input, writes: (usize, usize)) -> Run {
    let mut output = output_of(rt.alloc(), writes.0, writes.1);
    let mut faults = output_of(rt.alloc(), 100, 100);
    let status = serve(rt.alloc(), words, &mut input, &mut output, &mut faults);
    let Output { text, .. } = output;
    let Output { text: message, .. } = faults;
    Run {
        status,
        text,
        message,
    }
}

/// The run of the words has the `expected` status, output and message.
fn assert_run<R: Abort + AllocGlobal>(
    rt: &R,
    words: &[&str],
    input: Input,
    writes: (usize, usize),
    expected: (u8, &[u8], &[u8]),
) {
    let run = run_of(rt, words, input, writes);
    assert_eq!(rt; run.status, expected.0);
    assert_eq!(rt; run.text.as_slice(), expected.1);
    assert_eq!(rt; run.message.as_slice(), expected.2);
}

#[test]
fn shows_the_rows(rt: HostRuntime) {
    for most in [1, 5, 100] {
        let input = input_in(INPUT, most, 100);
        assert_run(&rt, &SHOW, input, (most, 100), (0, ROWS, NOTHING));
    }
}

/// The words write the rows.
fn assert_shown<R: Abort + AllocGlobal>(rt: &R, words: &[&str]) {
    let run = run_of(rt, words, input_in(INPUT, 100, 100), (100, 100));
    assert_eq!(rt; run.status, 0);
    assert_eq!(rt; run.text.as_slice(), ROWS);
}

#[test]
fn takes_each_option_of_a_command_line(rt: HostRuntime) {
    assert_shown(
        &rt,
        &[
            "relay",
            "--show",
            "--height",
            "0003",
            "--every",
            "4294967295",
            "--width",
            "4",
        ],
    );
    assert_shown(
        &rt,
        &[
            "relay",
            "--width=4",
            "--height=3",
            "--terminal=plain",
            "--show",
        ],
    );
    assert_shown(
        &rt,
        &[
            "relay", "--every", "1", "--width", "4", "--show", "--height", "3",
        ],
    );
}

// Margins are a function of xterm alone: a line feed at the bottom one scrolls what is between them.
const MARGINS: &[u8] = b"a\r\nb\r\nc\x1b[1;2r\x1b[2;1H\nd";

#[test]
fn shows_the_functions_of_the_terminal(rt: HostRuntime) {
    let words = ["relay", "--width", "1", "--height", "3", "--show"];
    let plain = (0, b"a\nb\nd\n".as_slice(), NOTHING);
    let input = input_in(MARGINS, 100, 100);
    assert_run(&rt, &words, input, (100, 100), plain);
    let words = [
        "relay",
        "--width",
        "1",
        "--height",
        "3",
        "--show",
        "--terminal",
        "xterm",
    ];
    let xterm = (0, b"b\nd\nc\n".as_slice(), NOTHING);
    let input = input_in(MARGINS, 100, 100);
    assert_run(&rt, &words, input, (100, 100), xterm);
}

#[test]
fn reports_a_read_that_fails(rt: HostRuntime) {
    for reads in 0..4 {
        let expected = (1, NOTHING, b"relay: cannot read\n".as_slice());
        assert_run(&rt, &SHOW, input_in(INPUT, 5, reads), (100, 100), expected);
    }
}

/// A write fails after these bytes of the rows.
fn assert_cut<R: Abort + AllocGlobal>(rt: &R, writes: (usize, usize), text: &[u8]) {
    let message = b"relay: cannot write\n".as_slice();
    assert_run(
        rt,
        &SHOW,
        input_in(INPUT, 100, 100),
        writes,
        (1, text, message),
    );
}

#[test]
fn reports_a_write_that_fails(rt: HostRuntime) {
    assert_cut(&rt, (3, 0), NOTHING);
    assert_cut(&rt, (3, 1), b"foo");
    assert_cut(&rt, (3, 4), b"foob\naarb\naz");
    assert_cut(&rt, (0, 100), NOTHING);
}

#[test]
fn sends_the_updates(rt: HostRuntime) {
    for most in [1, 5, 100] {
        let letters = input_in(LETTERS, most, 100);
        assert_run(&rt, &SEND, letters, (most, 100), (0, UPDATES, NOTHING));
    }
    let nothing = input_in(NOTHING, 100, 100);
    assert_run(&rt, &SHOW[..5], nothing, (100, 100), (0, BLANK, NOTHING));
}

/// A run that ends early with status 1 writes the first `count` bytes of the updates, and the message to `faults`.
fn assert_ends_early<R: Abort + AllocGlobal>(
    rt: &R,
    reads_left: usize,
    writes: (usize, usize),
    count: usize,
    message: &[u8],
) {
    let run = run_of(rt, &SEND, input_in(LETTERS, 100, reads_left), writes);
    assert_eq!(rt; run.status, 1);
    assert_eq!(rt; run.message.as_slice(), message);
    assert_eq!(rt; run.text.len(), count);
    assert!(rt; UPDATES.starts_with(run.text.as_slice()));
}

#[test]
fn sends_the_updates_of_what_was_read(rt: HostRuntime) {
    let message = b"relay: cannot read\n".as_slice();
    assert_ends_early(&rt, 0, (100, 100), 0, message);
    assert_ends_early(&rt, 1, (100, 100), FIRST, message);
    assert_ends_early(&rt, 2, (100, 100), FIRST, message);
}

#[test]
fn sends_updates_up_to_a_write_that_fails(rt: HostRuntime) {
    let message = b"relay: cannot write\n".as_slice();
    for writes in 0..UPDATES.len() {
        assert_ends_early(&rt, 100, (1, writes), writes, message);
    }
    assert_ends_early(&rt, 100, (0, 100), 0, message);
    assert_ends_early(&rt, 100, (100, 1), FIRST, message);
}

#[test]
fn drops_a_fault_while_faults_are_written(rt: HostRuntime) {
    let mut input = input_in(INPUT, 5, 0);
    let mut output = output_of(rt.alloc(), 100, 100);
    let mut faults = output_of(rt.alloc(), 100, 0);
    let status = serve(rt.alloc(), &SHOW, &mut input, &mut output, &mut faults);
    assert_eq!(rt; status, 1);
    assert!(rt; faults.text.is_empty());
}

/// The words are refused with this text, and no output is written.
fn assert_refused<R: Abort + AllocGlobal>(rt: &R, words: &[&str], text: &str) {
    let input = input_in(INPUT, 100, 100);
    assert_run(rt, words, input, (100, 100), (2, NOTHING, text.as_bytes()));
}

const NO_WIDTH: &str = "\
error: invalid value '0' for '--width <N>': 0 is not in 1..=4096

For more information, try '--help'.
";

const TOO_WIDE: &str = "\
error: invalid value '4097' for '--width <N>': 4097 is not in 1..=4096

For more information, try '--help'.
";

const NO_HEIGHT: &str = "\
error: invalid value '0' for '--height <N>': 0 is not in 1..=4096

For more information, try '--help'.
";

const NO_NUMBER: &str = "\
error: invalid value 'x' for '--height <N>': invalid digit found in string

For more information, try '--help'.
";

const TOO_SELDOM: &str = "\
error: invalid value '4294967296' for '--every <N>': 4294967296 is not in 1..=4294967295

For more information, try '--help'.
";

const UNKNOWN: &str = "\
error: unexpected argument '--depth' found

Usage: relay [OPTIONS]

For more information, try '--help'.
";

const NO_PROFILE: &str = "\
error: invalid value 'vt100' for '--terminal <NAME>'
  [possible values: plain, xterm]

For more information, try '--help'.
";

const TWICE: &str = "\
error: the argument '--show' cannot be used multiple times

Usage: relay [OPTIONS]

For more information, try '--help'.
";

const LIVE_CONFLICT: &str = "\
error: the argument '--live' cannot be used with '--every <N>' or '--show'

Usage: relay [OPTIONS]

For more information, try '--help'.
";

#[test]
fn refuses_bad_command_lines(rt: HostRuntime) {
    assert_refused(&rt, &["relay", "--width", "0"], NO_WIDTH);
    assert_refused(&rt, &["relay", "--width", "4097"], TOO_WIDE);
    assert_refused(&rt, &["relay", "--height", "0"], NO_HEIGHT);
    assert_refused(&rt, &["relay", "--height", "x"], NO_NUMBER);
    assert_refused(&rt, &["relay", "--every", "4294967296"], TOO_SELDOM);
    assert_refused(&rt, &["relay", "--depth", "3"], UNKNOWN);
    assert_refused(&rt, &["relay", "--show", "--show"], TWICE);
    assert_refused(&rt, &["relay", "--terminal", "vt100"], NO_PROFILE);
    assert_refused(&rt, &["relay", "--live", "--every", "4096"], LIVE_CONFLICT);
    assert_refused(&rt, &["relay", "--show", "--live"], LIVE_CONFLICT);
    let words = ["relay", "--live", "--show", "--terminal", "vt100"];
    assert_refused(&rt, &words, NO_PROFILE);
}

pub(crate) const HELP: &str = "\
Keeps the screen of an application, and writes what a viewer needs to show it

Usage: relay [OPTIONS]

Options:
      --width <N>        Columns of the screen, 1 to 4096 [default: 80]
      --height <N>       Rows of the screen, 1 to 4096 [default: 24]
      --terminal <NAME>  The terminal of the application [possible values: plain, xterm] [default: plain]
      --every <N>        Bytes of input between two updates, 1 to 4294967295 [default: 4096]
      --show             Write the rows of the screen once, at the end of the input
      --live             Write an update after each read, before the next one; not with --every or --show
  -h, --help             Print help
  -V, --version          Print version

Standard input: the bytes that an application writes to its terminal.
Standard output: updates, each the bytes that bring a viewer's terminal of the
same size up to date; or, with --show, the rows of the last screen as UTF-8
text, a line each.

Example:
  printf 'w00tfoobaarbaz' | relay --width 4 --height 3 --show
";

#[test]
fn help_and_version_go_to_the_writer(rt: HostRuntime) {
    let expected = (0, HELP.as_bytes(), NOTHING);
    assert_run(
        &rt,
        &["bin/relay", "--help"],
        input_in(INPUT, 100, 100),
        (7, 1000),
        expected,
    );
    let expected = (0, b"relay 0.1.0\n".as_slice(), NOTHING);
    assert_run(
        &rt,
        &["relay", "--version"],
        input_in(INPUT, 100, 100),
        (7, 1000),
        expected,
    );
}

#[test]
fn help_that_cannot_be_written(rt: HostRuntime) {
    let expected = (1, NOTHING, b"relay: cannot write\n".as_slice());
    assert_run(
        &rt,
        &["relay", "--help"],
        input_in(INPUT, 100, 100),
        (7, 0),
        expected,
    );
}

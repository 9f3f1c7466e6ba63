//! `run` on readers and writers that give and take a few bytes at a time, and fail.
use crate::partial::{Chunks, Sink, sink_of};
use std::alloc::Global;
use std::process::Abort;
use terminal::{ProgramWidth, RunError, Watched, run};

const INPUT: &[u8] = b"abc";

// The update after `ab`, and the update at the end.
const UPDATES: &[u8] =
    b"\x1b[?25l\x1b[0m\x1b]8;;\x1b\\\x1b[2J\x1b[1;1H\x1b]2;\x1b\\ab\0\x1b[1;3H\x1b[?25hc\0";

// How many bytes the first update has.
const FIRST: usize = UPDATES.len() - 2;

fn input_in(most: usize, reads_left: usize) -> Chunks {
    Chunks {
        bytes: INPUT,
        most,
        reads_left,
    }
}

/// The result of `run` on 4 columns and 1 row with an update after every two bytes, and the bytes that it writes.
fn ran(alloc: Global, mut chunks: Chunks, mut sink: Sink) -> (Result<(), RunError>, Vec<u8>) {
    let result = {
        let mut reader = Watched::new(&mut chunks);
        let mut writer = Watched::new(&mut sink);
        run(alloc, &mut reader, &mut writer, 4, 1, 2, ProgramWidth)
    };
    let Sink { text, .. } = sink;
    (result, text)
}

#[test]
fn writes_the_updates_whatever_the_chunks(rt: HostRuntime) {
    let alloc = rt.alloc();
    for most in [1, 2, 4096] {
        for part in [1, 3, 100] {
            let (result, text) = ran(alloc, input_in(most, 100), sink_of(alloc, part, 100, 2));
            assert_eq!(rt; result, Ok(()), "reads of {most}, writes of {part}");
            assert_eq!(rt; text.as_slice(), UPDATES);
        }
    }
}

/// Whether a text is the first `count` bytes of the updates.
fn is_part(text: &[u8], count: usize) -> bool {
    text.len() == count && UPDATES.starts_with(text)
}

/// Where a read fails, the first `count` bytes of the updates are written: those of the full chunks that were read.
fn assert_unread<R: Abort + AllocGlobal>(rt: &R, chunks: Chunks, count: usize) {
    let (result, text) = ran(rt.alloc(), chunks, sink_of(rt.alloc(), 100, 100, 2));
    assert_eq!(rt; result, Err(RunError::Read));
    assert!(rt; is_part(&text, count));
}

#[test]
fn run_ends_at_a_read_that_fails(rt: HostRuntime) {
    for reads in 0..4 {
        assert_unread(&rt, input_in(1, reads), if reads < 2 { 0 } else { FIRST });
    }
    for reads in 0..3 {
        assert_unread(
            &rt,
            input_in(4096, reads),
            if reads < 1 { 0 } else { FIRST },
        );
    }
}

/// A write or a flush fails after the first `count` bytes of the updates.
fn assert_unwritten<R: Abort + AllocGlobal>(rt: &R, sink: Sink, count: usize) {
    let (result, text) = ran(rt.alloc(), input_in(100, 100), sink);
    assert_eq!(rt; result, Err(RunError::Write));
    assert!(rt; is_part(&text, count));
}

#[test]
fn run_ends_at_a_write_that_fails(rt: HostRuntime) {
    let alloc = rt.alloc();
    for writes in 0..UPDATES.len() {
        assert_unwritten(&rt, sink_of(alloc, 1, writes, 2), writes);
    }
    assert_unwritten(&rt, sink_of(alloc, 100, 0, 2), 0);
    assert_unwritten(&rt, sink_of(alloc, 100, 1, 2), FIRST);
    assert_unwritten(&rt, sink_of(alloc, 0, 100, 2), 0);
    assert_unwritten(&rt, sink_of(alloc, 100, 100, 0), FIRST);
    assert_unwritten(&rt, sink_of(alloc, 100, 100, 1), UPDATES.len());
}

//! `show` on readers and writers that give and take a few bytes at a time, and fail.
use crate::partial::{Chunks, Sink, sink_of};
use std::alloc::Global;
use std::io;
use std::io::{ErrorKind, Read, Write};
use terminal::{ProgramWidth, RunError, Watched, show};

const INPUT: &[u8] = b"w00tfoobaarbaz";

const ROWS: &[u8] = b"foob\naarb\naz  \n";

fn input_in(most: usize, reads_left: usize) -> Chunks {
    Chunks {
        bytes: INPUT,
        most,
        reads_left,
    }
}

/// The result of `show` on 4 columns and 3 rows, and the bytes that it writes.
fn shown(alloc: Global, mut chunks: Chunks, mut sink: Sink) -> (Result<(), RunError>, Vec<u8>) {
    let result = {
        let mut reader = Watched::new(&mut chunks);
        let mut writer = Watched::new(&mut sink);
        show(alloc, &mut reader, &mut writer, 4, 3, ProgramWidth)
    };
    let Sink { text, .. } = sink;
    (result, text)
}

#[test]
fn shows_the_rows_whatever_the_chunks(rt: HostRuntime) {
    let alloc = rt.alloc();
    for most in [1, 2, 5, 4096] {
        for part in [1, 3, 100] {
            let (result, text) = shown(alloc, input_in(most, 100), sink_of(alloc, part, 100, 1));
            assert_eq!(rt; result, Ok(()), "reads of {most}, writes of {part}");
            assert_eq!(rt; text.as_slice(), ROWS);
        }
    }
}

#[test]
fn ends_at_a_read_that_fails(rt: HostRuntime) {
    let alloc = rt.alloc();
    for reads in 0..4 {
        let (result, text) = shown(alloc, input_in(5, reads), sink_of(alloc, 100, 100, 1));
        assert_eq!(rt; result, Err(RunError::Read), "after {reads} reads");
        assert!(rt; text.is_empty());
    }
}

#[test]
fn ends_at_a_write_that_fails(rt: HostRuntime) {
    let alloc = rt.alloc();
    for writes in 0..5 {
        let (result, text) = shown(alloc, input_in(100, 100), sink_of(alloc, 3, writes, 1));
        assert_eq!(rt; result, Err(RunError::Write), "after {writes} writes");
        assert_eq!(rt; text.as_slice(), &ROWS[..3 * writes]);
    }
    let (result, text) = shown(alloc, input_in(100, 100), sink_of(alloc, 0, 100, 1));
    assert_eq!(rt; result, Err(RunError::Write), "a write that takes nothing");
    assert!(rt; text.is_empty());
    let (result, text) = shown(alloc, input_in(100, 100), sink_of(alloc, 100, 100, 0));
    assert_eq!(rt; result, Err(RunError::Write), "a flush");
    assert_eq!(rt; text.as_slice(), ROWS);
}

#[test]
fn watched_counts_reads_and_keeps_faults(rt: HostRuntime) {
    let mut reader = Watched::new(input_in(5, 1));
    let mut buffer = [0u8; 8];
    assert!(rt; reader.read(&mut buffer).is_ok() && !reader.failed());
    assert!(rt; reader.read(&mut buffer).is_err() && reader.failed());
    assert_eq!(rt; reader.reads(), 2);
    let mut writer = Watched::new(sink_of(rt.alloc(), 0, 100, 1));
    assert!(rt; writer.write(b"").is_ok() && !writer.failed());
    assert!(rt; writer.flush().is_ok() && !writer.failed());
    assert!(rt; writer.write(b"a").is_ok() && writer.failed());
    assert_eq!(rt; writer.reads(), 0);
}

#[test]
fn watched_counts_flushes_and_calls_after_a_fault(rt: HostRuntime) {
    let mut writer = Watched::new(sink_of(rt.alloc(), 100, 100, 1));
    assert!(rt; !writer.is_flushed() && !writer.has_gone_on());
    assert!(rt; writer.write(b"a").is_ok() && !writer.is_flushed());
    assert!(rt; writer.flush().is_ok() && writer.is_flushed());
    assert_eq!(rt; writer.flushes(), 1);
    assert!(rt; writer.flush().is_err() && !writer.is_flushed() && !writer.has_gone_on());
    assert!(rt; writer.write(b"b").is_ok() && writer.has_gone_on());
    assert_eq!(rt; writer.flushes(), 2);
}

#[test]
fn watched_writes_all_or_ends_at_the_first_fault(rt: HostRuntime) {
    let mut writer = Watched::new(sink_of(rt.alloc(), 2, 3, 0));
    assert_eq!(rt; writer.write_all(b"abcde"), Ok(()));
    assert_eq!(rt; writer.write_all(b"f"), Err(RunError::Write));
    assert!(rt; writer.failed() && !writer.has_gone_on());
    assert_eq!(rt; writer.into_inner().text.as_slice(), b"abcde".as_slice());
    let mut writer = Watched::new(sink_of(rt.alloc(), 0, 100, 0));
    assert_eq!(rt; writer.write_all(b""), Ok(()));
    assert_eq!(rt; writer.write_all(b"a"), Err(RunError::Write));
}

// The kind of the error, if there is one.
fn kind_of<T: Drop>(answer: io::Result<T>) -> Option<ErrorKind> {
    match answer {
        Ok(_) => None,
        Err(error) => Some(error.kind()),
    }
}

#[test]
fn watched_returns_the_errors_of_reader_and_writer(rt: HostRuntime) {
    let mut reader = Watched::new(input_in(5, 0));
    let mut buffer = [0u8; 8];
    assert!(rt; kind_of(reader.read(&mut buffer)) == Some(ErrorKind::UnexpectedEof));
    let mut writer = Watched::new(sink_of(rt.alloc(), 1, 0, 0));
    assert!(rt; kind_of(writer.write(b"a")) == Some(ErrorKind::BrokenPipe));
    assert!(rt; kind_of(writer.flush()) == Some(ErrorKind::TimedOut));
}

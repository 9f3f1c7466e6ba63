//! Small recordings of each version, whole, torn and wrong; and a large one; and times.
use recordings::{Act, Event, Recording, Size, read_recording, time_of};
use std::alloc::{AllocError, Global};
use std::process::Abort;

const SMALL: Size = Size {
    width: 9,
    height: 2,
};

fn push_event(alloc: Global, out: &mut String, event: &Event) -> Result<(), AllocError> {
    let time = event.time;
    match &event.act {
        Act::Output(bytes) => {
            let text = String::from_utf8_lossy(alloc, bytes)?;
            write!(out, "{time} writes {text}\n")?;
        }
        Act::Resize(size) => {
            let (width, height) = (size.width, size.height);
            write!(out, "{time} is {width}x{height}\n")?;
        }
    }
    Ok(())
}

// What a recording holds, a line each.
fn description(alloc: Global, recording: &Recording) -> Result<String, AllocError> {
    let (width, height) = (recording.size.width, recording.size.height);
    let mut out = format!(in alloc; "{width}x{height}\n")?;
    for event in &recording.events {
        push_event(alloc, &mut out, event)?;
    }
    if let Some(bad) = recording.fault {
        let (line, fault) = (bad.line, bad.fault);
        write!(&mut out, "{line}: {fault}\n")?;
    }
    Ok(out)
}

fn read<R: Abort + AllocGlobal>(rt: &R, input: &[u8]) -> Recording {
    read_recording(rt.alloc(), SMALL, input).expect(rt, "memory")
}

fn assert_reads<R: Abort + AllocGlobal>(rt: &R, input: &str, wanted: &str) {
    let recording = read(rt, input.as_bytes());
    let text = description(rt.alloc(), &recording).expect(rt, "memory");
    assert_eq!(rt; text.as_str(), wanted);
}

const SECOND: &str = r#"{"version": 2, "width": 80, "height": 24, "timestamp": 1}
[0.25, "o", "a<\u001b[1m"]
[0.2, "i", "key"]

[1.0000019, "r", "100x30"]
[1.5e0, "o", "é\n"]
"#;

const THIRD: &str = r##"{"version": 3, "term": {"cols": 80, "rows": 24, "type": "xterm"}}
# a comment
[0.1, "o", "a"]
[0.2, "m", "here"]
[0.0000019, "r", "1x4096"]
[2, "x", "0"]
[1e-05, "o", "b"]
"##;

const FIRST: &str = r#"{
  "version": 1, "width": 80, "height": 24, "duration": 1.5, "title": null, "env": {"TERM": "rilqamyn"},
  "stdout": [
    [0.25, "a\u001b[1m"],
    [1.2500019, "é\n"]
  ]
}
"#;

#[test]
fn reads_each_version(rt: HostRuntime) {
    assert_reads(
        &rt,
        FIRST,
        "80x24\n250000 writes a\u{1b}[1m\n1500001 writes é\n\n",
    );
    assert!(rt; read(&rt, FIRST.as_bytes()).has_own_term);
    assert_reads(
        &rt,
        SECOND,
        "80x24\n250000 writes a<\u{1b}[1m\n1000001 is 100x30\n1500000 writes é\n\n",
    );
    assert_reads(
        &rt,
        THIRD,
        "80x24\n100000 writes a\n300001 is 1x4096\n2300011 writes b\n",
    );
    assert_reads(&rt, "a\r\n{\n", "9x2\n0 writes a\r\n{\n\n");
}

// This line, in a recording of version 2, has this fault.
fn assert_wrong<R: Abort + AllocGlobal>(rt: &R, line: &str, fault: &str) {
    let alloc = rt.alloc();
    let header = r#"{"version":2,"width":1,"height":2}"#;
    let input = format!(in alloc; "{header}\n[1,\"o\",\"\"]\n{line}\n[0]\n").expect(rt, "memory");
    let wanted = format!(in alloc; "1x2\n1000000 writes \n3: {fault}\n").expect(rt, "memory");
    assert_reads(rt, &input, &wanted);
}

#[test]
fn tells_what_is_wrong(rt: HostRuntime) {
    assert_wrong(&rt, "[2,", "not a line of JSON");
    assert_reads(
        &rt,
        "{\"version\":2,\"width\":1,\"height\":2}\n[1,\"o\",\"\"]\n[2,",
        "1x2\n1000000 writes \n3: cut off\n",
    );
    assert_wrong(
        &rt,
        "[-2,\"o\",\"\"]",
        "not an event: a list that begins with a number of seconds from 0 on",
    );
    assert_wrong(&rt, "[2,3]", "an event without a code");
    assert_wrong(&rt, "[2,\"o\",3]", "an output without a text");
    assert_wrong(
        &rt,
        "[2,\"r\",\"0x5\"]",
        "a resize without a size such as 80x24, from 1 to 4096 columns and rows",
    );
    assert_wrong(&rt, "[0.5,\"o\",\"\"]", "earlier than the event before it");
}

#[test]
fn tells_what_is_wrong_with_a_header(rt: HostRuntime) {
    let size = "a header without a size from 1 to 4096 columns and rows";
    for header in [
        r#"{"version":2,"width":4097,"height":2}"#,
        r#"{"version":3,"width":1,"height":2}"#,
        r#"{"version":1,"height":2,"stdout":[]}"#,
    ] {
        let wanted = format!(in rt.alloc(); "9x2\n1: {size}\n").expect(&rt, "memory");
        assert_reads(&rt, header, &wanted);
    }
    let version = "9x2\n1: a version of asciicast that is not 1, 2 or 3\n";
    assert_reads(&rt, r#"{"version":4}"#, version);
}

// The events of a recording of version 1 have this fault, which has what was read before it.
fn assert_wrong_first<R: Abort + AllocGlobal>(rt: &R, events: &str, read: &str) {
    let header = r#"{"version":1,"width":1,"height":2"#;
    let input = format!(in rt.alloc(); "{header}{events}}}").expect(rt, "memory");
    let wanted = format!(in rt.alloc(); "1x2\n{read}\n").expect(rt, "memory");
    assert_reads(rt, &input, &wanted);
}

#[test]
fn tells_what_is_wrong_with_version_one(rt: HostRuntime) {
    let list = "1: a recording of version 1 without a list of outputs";
    assert_wrong_first(&rt, "", list);
    assert_wrong_first(&rt, ",\"stdout\":{}", list);
    assert_wrong_first(
        &rt,
        ",\"stdout\":[[1,\"a\"],[2]]",
        "1000000 writes a\n1: an output without a text",
    );
    assert_wrong_first(
        &rt,
        ",\"stdout\":[[\"a\"]]",
        "1: not an event: a list that begins with a number of seconds from 0 on",
    );
    assert_reads(
        &rt,
        "{\"version\":1,\"width\":1,\"height\":2,\"stdout\":[]}\n[]",
        "9x2\n1: a recording of version 1, but not one object alone\n",
    );
}

// How many lines of a text are whole, and whether it ends in one that isn't.
fn lines_in(text: &[u8]) -> (usize, bool) {
    let mut count = 0;
    let mut is_torn = false;
    for byte in text {
        is_torn = *byte != b'\n';
        if !is_torn && count < text.len() {
            count += 1;
        }
    }
    (count, is_torn)
}

#[test]
fn torn_recordings_are_read_up_to_the_line_that_is_torn(rt: HostRuntime) {
    let text = r##"{"version":3,"term":{"cols":3,"rows":4}}
[0.5,"o","é"]
[0.5,"o","b"]
[0.5,"r","5x6"]
"##
        .as_bytes();
    for len in 41..text.len() {
        let recording = read(&rt, &text[..len]);
        let (whole, is_torn) = lines_in(&text[..len]);
        let is_last_whole = recording.fault.is_none() && is_torn;
        let events = recording.events.len().saturating_add(1);
        assert_eq!(rt; events, whole.saturating_add(usize::from(is_last_whole)));
        assert!(rt; !is_last_whole || text[len - 1] == b']');
    }
}

#[test]
fn a_large_recording_is_read_whole(rt: HostRuntime) {
    let mut input = Vec::new(rt.alloc());
    let header = b"{\"version\":3,\"term\":{\"cols\":3,\"rows\":4}}\n".as_slice();
    input.extend_from_slice(header).expect(&rt, "memory");
    for _ in 0..20_000 {
        let line = b"[0.001, \"o\", \"a line of some forty characters\\r\\n\"]\n".as_slice();
        input.extend_from_slice(line).expect(&rt, "memory");
    }
    let recording = read(&rt, &input);
    assert_eq!(rt; recording.events.len(), 20_000);
    assert_eq!(rt; recording.events[19_999].time, 20_000_000);
    assert!(rt; recording.fault.is_none());
}

#[test]
fn times_are_cut_to_microseconds(rt: HostRuntime) {
    assert_eq!(rt; time_of("0.9999999"), Some(999_999));
    assert_eq!(rt; time_of("123456789.000001"), Some(123_456_789_000_001));
    assert_eq!(rt; time_of("25e-1"), Some(2_500_000));
    assert_eq!(rt; time_of("1.25e+2"), Some(125_000_000));
    assert_eq!(rt; time_of("1e-7"), Some(0));
    assert_eq!(rt; time_of("9223372036854.775807"), Some(i64::MAX as u64));
    for text in ["9223372036854.775808", "1e400", "-1", "1s", "", "."] {
        assert!(rt; time_of(text).is_none());
    }
}

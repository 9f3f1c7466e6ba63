//! Texts of errors, and links that are made and not read.
use cell_base::{Hyperlink, LinkError};
use cell_surface::SurfaceError;
use csi_codec::CrackError;
use escape_stream::ParseError;
use std::alloc::AllocError;
use std::collections::BTreeMap;
use std::fmt::Display;
use std::process::Abort;
use terminal::{RenderError, RunError, TerminalError};

// A value prints as this text.
fn assert_prints<R: Abort + AllocGlobal, T: Display>(rt: &R, value: &T, want: &str) {
    let text = value.to_string(rt.alloc()).expect(rt, "memory");
    assert_eq!(rt; text.as_str(), want);
}

#[test]
fn texts_of_errors(rt: HostRuntime) {
    assert_prints(
        &rt,
        &LinkError::PartCount,
        "a link has at least three parts",
    );
    assert_prints(&rt, &LinkError::Utf8, "a part of the link is not UTF-8");
    assert_prints(
        &rt,
        &LinkError::Params,
        "a parameter of the link has no `=`",
    );
    assert_prints(&rt, &LinkError::Memory, "out of memory");
    assert_prints(&rt, &CrackError::NotASpelling, "not a spelling");
    assert_prints(&rt, &CrackError::Memory, "out of memory");
    assert_prints(&rt, &ParseError::Failed, "the parser has failed");
    assert_prints(&rt, &ParseError::Memory, "out of memory");
}

#[test]
fn texts_of_refused_changes(rt: HostRuntime) {
    assert_prints(&rt, &SurfaceError::Failed, "the surface has failed");
    assert_prints(&rt, &SurfaceError::Number, "the numbers are used up");
    assert_prints(&rt, &SurfaceError::Memory, "out of memory");
    assert_prints(&rt, &RenderError::NoSpelling, "the change has no spelling");
    assert_prints(&rt, &RenderError::Memory, "out of memory");
}

#[test]
fn texts_of_refused_calls_of_terminals(rt: HostRuntime) {
    assert_prints(&rt, &TerminalError::Failed, "the terminal has failed");
    assert_prints(&rt, &TerminalError::Number, "the numbers are used up");
    assert_prints(&rt, &TerminalError::Memory, "out of memory");
    assert_prints(&rt, &RunError::Read, "cannot read");
    assert_prints(&rt, &RunError::Write, "cannot write");
    let refused = RunError::Terminal(TerminalError::Failed);
    assert_prints(&rt, &refused, "the terminal has failed");
    assert_prints(&rt, &RunError::TooLong, "the input is too long");
}

#[test]
fn refusals_of_memory(rt: HostRuntime) {
    let refused = ParseError::from(AllocError);
    assert_eq!(rt; refused, ParseError::Memory);
    assert!(rt; ParseError::Failed != refused);
}

fn text_of<R: Abort + AllocGlobal>(rt: &R, text: &str) -> String {
    String::from_str(rt.alloc(), text).expect(rt, "memory")
}

// A link with two parameters that were put in the other order.
fn link_with_params<R: Abort + AllocGlobal>(rt: &R) -> Hyperlink {
    let mut params = BTreeMap::new(rt.alloc());
    assert!(rt; params.insert(text_of(rt, "b"), text_of(rt, "2")).is_ok());
    assert!(rt; params.insert(text_of(rt, "a"), text_of(rt, "1")).is_ok());
    Hyperlink::new_with_params(rt.alloc(), "u", params).expect(rt, "memory")
}

#[test]
fn made_links(rt: HostRuntime) {
    let link = link_with_params(&rt);
    assert_prints(&rt, &link, "8;a=1:b=2;u");
    assert!(rt; link.try_clone().expect(&rt, "memory") == link);
    assert_eq!(rt; link.params().len(), 2);
    let plain = Hyperlink::new(rt.alloc(), "u").expect(&rt, "memory");
    assert_prints(&rt, &plain, "8;;u");
    let with_id = Hyperlink::new_with_id(rt.alloc(), "u", "1").expect(&rt, "memory");
    assert_prints(&rt, &with_id, "8;id=1;u");
}

#[test]
fn found_links(rt: HostRuntime) {
    let plain = Hyperlink::new(rt.alloc(), "u").expect(&rt, "memory");
    let found = Hyperlink::new_implicit(rt.alloc(), "u").expect(&rt, "memory");
    assert!(rt; found.is_implicit());
    assert!(rt; !plain.is_implicit());
    assert!(rt; plain != found);
    assert_eq!(rt; plain.uri(), "u");
}

// Whether the link of one parameter reads back from its text.
fn reads_back<R: Abort + AllocGlobal>(rt: &R, uri: &str, key: &str, value: &str) -> bool {
    let mut params = BTreeMap::new(rt.alloc());
    assert!(rt; params.insert(text_of(rt, key), text_of(rt, value)).is_ok());
    let link = Hyperlink::new_with_params(rt.alloc(), uri, params).expect(rt, "memory");
    link.reads_back()
}

#[test]
fn links_that_read_back(rt: HostRuntime) {
    assert!(rt; reads_back(&rt, "u", "a", "1"));
    assert!(rt; reads_back(&rt, "", "a", "1"));
    assert!(rt; reads_back(&rt, "u;v=w:x", "", ""));
    assert!(rt; reads_back(&rt, "u", "a", "b=c"));
    assert!(rt; !reads_back(&rt, "u", "a=b", "1"));
    assert!(rt; !reads_back(&rt, "u", "a:b", "1"));
    assert!(rt; !reads_back(&rt, "u", "a", "1:2"));
    assert!(rt; !reads_back(&rt, "u", "a;b", "1"));
    assert!(rt; !reads_back(&rt, "u", "a", "1;2"));
}

#[test]
fn links_without_params_that_read_back(rt: HostRuntime) {
    let given = Hyperlink::new(rt.alloc(), "u").expect(&rt, "memory");
    let found = Hyperlink::new_implicit(rt.alloc(), "u").expect(&rt, "memory");
    let empty = Hyperlink::new(rt.alloc(), "").expect(&rt, "memory");
    assert!(rt; given.reads_back());
    assert!(rt; !found.reads_back());
    assert!(rt; !empty.reads_back());
}

//! The pieces of a stream: texts, which are lent from the bytes of the call, and actions.
ghost use Rattle.std.specs.Prelude.{◌≡◌, ◌+◌, ◌≤◌, length, drop, take};
ghost use Rattle.escape_framing.specs.Framed.{IsText};
ghost use Rattle.escape_stream.specs.PiecesView.{IsGoing, lender_of, parser_of, PiecesGo};

use crate::action::Action;
use crate::parser::Parser;
use crate::sequence::Sequence;
use escape_framing::ParseError;
use std::str;

/// A piece of a stream: a text, or a single action.
#[derive(Debug, PartialEq, Eq, Drop)]
pub enum Piece<'a> {
    /// Characters to print, lent from the bytes of the call: U+0020 to U+007E and from U+00A0, except U+FFFD. It is
    /// never empty.
    Text(&'a str),
    /// An action: also a print of U+FFFD, or of a character that was begun in an earlier call.
    Action(Action),
}

/// The stage of a call's pieces: not open since the parser had failed, open, or at their end.
#[derive(Clone, Copy)]
pub(crate) enum Stage {
    /// The parser had failed before the call, and `next` has not returned this yet.
    Failed,
    Open,
    Over,
}

/// The pieces of the bytes of one call, in order. After an error, and after the last piece, `next` returns `None`. A
/// parser counts as failed unless the caller takes its pieces to their first `None`.
pub type Pieces<'a> = Reading<'a, 'a>;

/// A call's pieces, whose bytes may live longer than the parser is borrowed.
#[derive(Drop)]
pub struct Reading<'p, 'a> {
    pub(crate) parser: &'p mut Parser,
    pub(crate) bytes: &'a [u8],
    pub(crate) count: usize,
    pub(crate) sequence: Option<Sequence>,
    pub(crate) stage: Stage,
}

// Bytes that are a text, as a `str`.
#[inline(always)]
fn text_of(bytes: &[u8]) -> &str
    requires { IsText bytes.now }
    ensures { result.now ≡ bytes.now }
{
    // SAFETY: a text is UTF-8.
    unsafe { str::from_utf8_unchecked(bytes) }
}

/// The `count` bytes from offset `from` on.
#[inline(always)]
pub(crate) fn part(bytes: &[u8], from: usize, count: usize) -> &[u8]
    requires { from + count ≤ length bytes.now }
    ensures { result.now ≡ take count (drop from bytes.now) }
{
    &bytes[from..from + count]
}

impl<'p, 'a> Reading<'p, 'a> {
    /// The parser that reads the pieces, also where some of them were not taken.
    pub fn into_parser(self) -> &'p mut Parser
        ensures same { result.ghost_name ≡ lender_of self.entry }
        ensures parser { result.now ≡ parser_of self.entry }
    {
        let Reading { parser, .. } = self;
        parser
    }

    // The bytes that weren't read yet.
    #[inline(always)]
    pub(crate) fn rest(&self) -> &'a [u8]
        requires { self.now.count ≤ length self.now.bytes.now }
        ensures { result.now ≡ drop self.now.count self.now.bytes.now }
    {
        let bytes = self.bytes;
        &bytes[self.count..]
    }

    // The text of `len` bytes at offset `count`.
    #[inline(always)]
    pub(crate) fn text_at(&self, count: usize, len: usize) -> &'a str
        requires fits { count + len ≤ length self.now.bytes.now }
        requires text { IsText (take len (drop count self.now.bytes.now)) }
        ensures { result.now ≡ take len (drop count self.now.bytes.now) }
    {
        let bytes = self.bytes;
        text_of(part(bytes, count, len))
    }

    // The next item, where the stage is open.
    #[inline(always)]
    fn next_open(&mut self) -> Option<Result<Piece<'a>, ParseError>>
        requires { IsGoing self.old }
        ensures { PiecesGo self.old result self.new }
    {
        match self.find() {
            Ok(Some(piece)) => Some(Ok(piece)),
            Ok(None) => {
                self.parser.go_on();
                self.stage = Stage::Over;
                None
            }
            Err(_) => {
                self.stage = Stage::Over;
                Some(Err(ParseError::Memory))
            }
        }
    }
}

impl<'p, 'a> Iterator for Reading<'p, 'a> {
    ghost use Rattle.std.specs.Iterator.{at_most};
    ghost use Rattle.escape_stream.specs.PiecesView.{IsReady, PiecesGo, items_left};

    type Item = Result<Piece<'a>, ParseError>;

    ghost can_next = { IsReady };

    ghost next_gives = { PiecesGo };

    ghost remaining = { λ it. at_most (items_left it) };

    #[inline(always)]
    fn next(&mut self) -> Option<Result<Piece<'a>, ParseError>> {
        match self.stage {
            Stage::Open => self.next_open(),
            Stage::Over => None,
            Stage::Failed => {
                self.stage = Stage::Over;
                Some(Err(ParseError::Failed))
            }
        }
    }
}

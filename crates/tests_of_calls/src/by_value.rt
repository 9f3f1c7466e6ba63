//! Values of each family of actions, which are written, and read back as they are.
use bitflags::Flags;
use cell_base::{Blink, ColorSpec, Hyperlink, Intensity, SrgbaTuple, Underline, VerticalAlign};
use csi_codec::{
    CSI, Cursor, CursorStyle, CursorTabulationControl, DecPrivateMode, DecPrivateModeCode, Device,
    Edit, EraseInDisplay, EraseInLine, Esc, EscCode, Font, Mode, OneBased, Sgr, TabulationClear,
    TerminalMode, TerminalModeCode,
};
use escape_stream::{Action, OperatingSystemCommand, Parser, Selection, encode};
use std::process::Abort;
use std::rc::Rc;
use std::slice;

// An action's own bytes read as `count` actions, the first of which is that action.
fn assert_first<R: Abort + AllocGlobal>(rt: &R, action: &Action, count: usize) {
    let bytes = encode(rt.alloc(), slice::from_ref(action)).expect(rt, "memory");
    let mut parser = Parser::new(rt.alloc());
    let read = parser.parse_as_vec(&bytes).expect(rt, "memory");
    assert_eq!(rt; read.len(), count);
    assert!(rt; read.first() == Some(action));
}

// The bytes of a control sequence are read as that sequence and nothing else.
fn assert_csi<R: Abort + AllocGlobal>(rt: &R, sequence: CSI) {
    assert_first(rt, &Action::CSI(sequence), 1);
}

#[test]
fn cursors(rt: HostRuntime) {
    let position = OneBased::new(4_294_967_295);
    let first = OneBased::new(1);
    for cursor in &[
        Cursor::Up(1),
        Cursor::Down(4_294_967_295),
        Cursor::Right(2),
        Cursor::Left(255),
        Cursor::NextLine(256),
        Cursor::PrecedingLine(1),
        Cursor::CharacterAbsolute(position),
        Cursor::CharacterPositionAbsolute(first),
        Cursor::LinePositionAbsolute(65_536),
        Cursor::Position {
            line: position,
            col: first,
        },
        Cursor::CharacterAndLinePosition {
            line: first,
            col: position,
        },
        Cursor::ForwardTabulation(3),
        Cursor::BackwardTabulation(4),
        Cursor::TabulationClear(TabulationClear::ClearAllTabStops),
        Cursor::TabulationControl(CursorTabulationControl::ClearAllLineTabStops),
        Cursor::SetTopAndBottomMargins {
            top: first,
            bottom: OneBased::new(24),
        },
        Cursor::SetLeftAndRightMargins {
            left: OneBased::new(2),
            right: position,
        },
        Cursor::SaveCursor,
        Cursor::RestoreCursor,
        Cursor::RequestActivePositionReport,
        Cursor::CursorStyle(CursorStyle::SteadyBar),
    ] {
        assert_csi(&rt, CSI::Cursor(*cursor));
    }
}

#[test]
fn edits(rt: HostRuntime) {
    for edit in &[
        Edit::InsertCharacter(1),
        Edit::DeleteCharacter(4_294_967_295),
        Edit::InsertLine(65_536),
        Edit::DeleteLine(255),
        Edit::EraseCharacter(256),
        Edit::ScrollUp(2),
        Edit::ScrollDown(3),
        Edit::Repeat(4),
        Edit::EraseInDisplay(EraseInDisplay::EraseScrollback),
        Edit::EraseInLine(EraseInLine::EraseToStartOfLine),
    ] {
        assert_csi(&rt, CSI::Edit(*edit));
    }
}

#[test]
fn modes(rt: HostRuntime) {
    let named = DecPrivateMode::Code(DecPrivateModeCode::BracketedPaste);
    let standard = TerminalMode::Code(TerminalModeCode::AutomaticNewline);
    for mode in &[
        Mode::SetDecPrivateMode(named),
        Mode::ResetDecPrivateMode(DecPrivateMode::Unspecified(65_535)),
        Mode::SaveDecPrivateMode(named),
        Mode::RestoreDecPrivateMode(named),
        Mode::SetMode(standard),
        Mode::ResetMode(TerminalMode::Unspecified(3)),
    ] {
        assert_csi(&rt, CSI::Mode(*mode));
    }
}

#[test]
fn renditions(rt: HostRuntime) {
    let color = ColorSpec::TrueColor(SrgbaTuple(255, 0, 128, 254));
    for setting in &[
        Sgr::Reset,
        Sgr::Intensity(Intensity::Half),
        Sgr::Underline(Underline::Dashed),
        Sgr::UnderlineColor(color),
        Sgr::Blink(Blink::Rapid),
        Sgr::Italic(false),
        Sgr::Inverse(true),
        Sgr::Invisible(false),
        Sgr::StrikeThrough(true),
        Sgr::Font(Font::Alternate(9)),
        Sgr::Foreground(color),
        Sgr::Background(ColorSpec::PaletteIndex(255)),
        Sgr::Overline(true),
        Sgr::VerticalAlign(VerticalAlign::SubScript),
    ] {
        assert_csi(&rt, CSI::Sgr(*setting));
    }
}

#[test]
fn requests_and_pairs(rt: HostRuntime) {
    for device in &[
        Device::SoftReset,
        Device::RequestPrimaryDeviceAttributes,
        Device::StatusReport,
    ] {
        let request = Box::new(rt.alloc(), *device).expect(&rt, "memory");
        assert_csi(&rt, CSI::Device(request));
    }
    for pair in &[
        Esc::Code(EscCode::DecLineDrawingG0),
        Esc::Unspecified {
            intermediate: None,
            control: b'~',
        },
        Esc::Unspecified {
            intermediate: Some(b'/'),
            control: b'0',
        },
    ] {
        assert_first(&rt, &Action::Esc(*pair), 1);
    }
}

// The bytes of a command are read as that command and the ESC pair that ends it (ST), and nothing else.
fn assert_command<R: Abort + AllocGlobal>(rt: &R, command: OperatingSystemCommand) {
    let command = Box::new(rt.alloc(), command).expect(rt, "memory");
    assert_first(rt, &Action::OperatingSystemCommand(command), 2);
}

#[test]
fn titles_and_links(rt: HostRuntime) {
    let title = String::from_str(rt.alloc(), "a;\u{e9}").expect(&rt, "memory");
    assert_command(&rt, OperatingSystemCommand::SetWindowTitle(title));
    let link = Hyperlink::new_with_id(rt.alloc(), "http://x/;y", "1").expect(&rt, "memory");
    let link = Rc::new(rt.alloc(), link).expect(&rt, "memory");
    assert_command(&rt, OperatingSystemCommand::SetHyperlink(Some(link)));
    assert_command(&rt, OperatingSystemCommand::SetHyperlink(None));
}

#[test]
fn selections(rt: HostRuntime) {
    let set = Selection::CLIPBOARD.union(Selection::CUT9);
    let text = String::from_str(rt.alloc(), "a").expect(&rt, "memory");
    assert_command(&rt, OperatingSystemCommand::SetSelection(set, text));
    assert_command(&rt, OperatingSystemCommand::QuerySelection(set));
    assert_command(&rt, OperatingSystemCommand::ClearSelection(set));
}

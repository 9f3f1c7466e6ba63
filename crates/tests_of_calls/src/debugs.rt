//! `Debug`: the whole text of plain values, and of those with private fields how it begins.
use bitflags::Flags;
use cell_base::{
    AnsiColor, AttributeChange, Blink, Cell, CellAttributes, ColorAttribute, ColorSpec,
    CursorShape, CursorVisibility, DoubleClickRange, Hyperlink, Intensity, LineAttribute,
    LinkError, Position, ProgramWidth, RgbColor, SemanticType, SrgbaTuple, Underline,
    VerticalAlign, ZoneRange,
};
use cell_line::{CellRef, Line};
use cell_surface::SurfaceError;
use csi_codec::{
    CSI, CrackError, Cracked, CsiParam, Edit, Esc, Font, OneBased, ParamCursor, Unspecified,
    read_csi,
};
use escape_framing::{Event, ParseError, Read};
use escape_osc::{OperatingSystemCommand, Selection};
use escape_stream::{Action, ControlCode, DeviceControlMode, EnterDeviceControlMode, Piece};
use screen_change::Change;
use std::fmt::Debug;
use std::process::Abort;
use terminal::{RenderError, RunError, TerminalError};

// A value has this text.
fn assert_debug<R: Abort + AllocGlobal, T: Debug>(rt: &R, value: &T, want: &str) {
    let text = format!(in rt.alloc(); "{value:?}").expect(rt, "memory");
    assert_eq!(rt; text.as_str(), want);
}

// A value's text begins with `want`.
fn assert_begins<R: Abort + AllocGlobal, T: Debug>(rt: &R, value: &T, want: &str) {
    let text = format!(in rt.alloc(); "{value:?}").expect(rt, "memory");
    assert!(rt; text.as_str().starts_with(want));
}

fn text_of<R: Abort + AllocGlobal>(rt: &R, text: &str) -> String {
    String::from_str(rt.alloc(), text).expect(rt, "memory")
}

fn line_of<R: Abort + AllocGlobal>(rt: &R, text: &str) -> Line {
    Line::try_from_text(rt.alloc(), text, &ProgramWidth).expect(rt, "memory")
}

#[test]
fn colors(rt: HostRuntime) {
    assert_debug(&rt, &AnsiColor::Navy, "Navy");
    assert_debug(&rt, &SrgbaTuple(1, 2, 3, 4), "SrgbaTuple(1, 2, 3, 4)");
    assert_begins(&rt, &RgbColor::new_8bpc(1, 2, 3), "RgbColor { ");
    assert_debug(&rt, &ColorSpec::PaletteIndex(9), "PaletteIndex(9)");
    assert_debug(&rt, &ColorAttribute::Default, "Default");
}

#[test]
fn attributes(rt: HostRuntime) {
    assert_begins(&rt, &CellAttributes::blank(), "CellAttributes { ");
    assert_debug(&rt, &AttributeChange::Italic(true), "Italic(true)");
    assert_debug(&rt, &Intensity::Half, "Half");
    assert_debug(&rt, &Underline::Curly, "Curly");
    assert_debug(&rt, &Blink::Rapid, "Rapid");
    assert_debug(&rt, &SemanticType::Prompt, "Prompt");
    assert_debug(&rt, &VerticalAlign::SubScript, "SubScript");
    let link = Hyperlink::new(rt.alloc(), "u").expect(&rt, "memory");
    assert_begins(&rt, &link, "Hyperlink { ");
}

#[test]
fn cursors_and_rows(rt: HostRuntime) {
    assert_debug(&rt, &Position::Relative(-2), "Relative(-2)");
    assert_debug(&rt, &CursorVisibility::Hidden, "Hidden");
    assert_debug(&rt, &CursorShape::SteadyBar, "SteadyBar");
    assert_debug(&rt, &LineAttribute::DoubleWidthLine, "DoubleWidthLine");
    assert_debug(&rt, &ProgramWidth, "ProgramWidth");
    let zone = ZoneRange {
        semantic_type: SemanticType::Input,
        range: 2..7,
    };
    assert_debug(
        &rt,
        &zone,
        "ZoneRange { semantic_type: Input, range: 2..7 }",
    );
    let range = DoubleClickRange::RangeWithWrap(0..9);
    assert_debug(&rt, &range, "RangeWithWrap(0..9)");
}

#[test]
fn lines_and_cells(rt: HostRuntime) {
    assert_begins(&rt, &Cell::blank(), "Cell { ");
    let line = line_of(&rt, "ab");
    assert_begins(&rt, &line, "Line { ");
    let cell = line.get_cell(1).expect(&rt, "cell");
    assert_begins(&rt, &cell, "CellRef { cell_index: 1, cell: Cell { ");
    let attrs = CellAttributes::blank();
    let text = CellRef::ClusterRef {
        cell_index: 5,
        text: "b",
        width: 1,
        attrs: &attrs,
    };
    assert_begins(
        &rt,
        &text,
        "ClusterRef { cell_index: 5, text: \"b\", width: 1, attrs: CellAttributes { ",
    );
    let clusters = line.cluster().expect(&rt, "memory");
    let cluster = clusters.first().expect(&rt, "cluster");
    assert_begins(&rt, cluster, "CellCluster { attrs: CellAttributes { ");
}

#[test]
fn changes(rt: HostRuntime) {
    assert_debug(&rt, &Change::Text(text_of(&rt, "ab")), "Text(\"ab\")");
    let scroll = Change::ScrollRegionUp {
        first_row: 1,
        region_size: 2,
        scroll_count: 3,
    };
    assert_debug(
        &rt,
        &scroll,
        "ScrollRegionUp { first_row: 1, region_size: 2, scroll_count: 3 }",
    );
}

#[test]
fn refusals(rt: HostRuntime) {
    assert_debug(&rt, &LinkError::PartCount, "PartCount");
    assert_debug(&rt, &CrackError::NotASpelling, "NotASpelling");
    assert_debug(&rt, &ParseError::Failed, "Failed");
    assert_debug(&rt, &SurfaceError::Number, "Number");
    assert_debug(&rt, &RenderError::NoSpelling, "NoSpelling");
    assert_debug(&rt, &TerminalError::Memory, "Memory");
    let refused = RunError::Terminal(TerminalError::Number);
    assert_debug(&rt, &refused, "Terminal(Number)");
}

#[test]
fn lists_of_parameters(rt: HostRuntime) {
    let params = [CsiParam::P(b';'), CsiParam::Integer(1)];
    assert_debug(&rt, &CsiParam::Integer(1), "Integer(1)");
    let entries = Cracked::parse(rt.alloc(), &params).expect(&rt, "a list");
    assert_begins(&rt, &entries, "Cracked { ");
    assert_begins(&rt, &ParamCursor::start(), "ParamCursor { ");
    assert_begins(&rt, &OneBased::new(3), "OneBased { ");
    let sequence = read_csi(rt.alloc(), b"\x1b[5Hx").expect(&rt, "memory");
    assert_debug(
        &rt,
        &sequence.expect(&rt, "a sequence"),
        "CsiFront { params: [Integer(5)], truncated: false, control: 'H', rest: [120] }",
    );
}

#[test]
fn sequences(rt: HostRuntime) {
    let mut params = Vec::new(rt.alloc());
    assert!(rt; params.push(CsiParam::Integer(255)).is_ok());
    let left = Unspecified {
        params,
        parameters_truncated: false,
        control: 'm',
    };
    assert_debug(
        &rt,
        &left,
        "Unspecified { params: [Integer(255)], parameters_truncated: false, control: 'm' }",
    );
    assert_debug(&rt, &CSI::Edit(Edit::ScrollUp(2)), "Edit(ScrollUp(2))");
    assert_debug(&rt, &Font::Alternate(3), "Alternate(3)");
    let pair = Esc::Unspecified {
        intermediate: None,
        control: 0x6b,
    };
    assert_debug(
        &rt,
        &pair,
        "Unspecified { intermediate: None, control: 107 }",
    );
}

#[test]
fn actions(rt: HostRuntime) {
    assert_debug(&rt, &Action::Print('a'), "Print('a')");
    assert_debug(&rt, &ControlCode::Bell, "Bell");
    assert_debug(&rt, &DeviceControlMode::Data(7), "Data(7)");
    let enter = EnterDeviceControlMode {
        header: b"1$".to_vec(rt.alloc()).expect(&rt, "memory"),
        byte: b'q',
    };
    assert_debug(
        &rt,
        &enter,
        "EnterDeviceControlMode { header: [49, 36], byte: 113 }",
    );
    assert_debug(&rt, &Piece::Text("ab"), "Text(\"ab\")");
    let title = OperatingSystemCommand::SetWindowTitle(text_of(&rt, "a"));
    assert_debug(&rt, &title, "SetWindowTitle(\"a\")");
    assert_begins(&rt, &Selection::empty(), "Selection(");
}

#[test]
fn dispatches(rt: HostRuntime) {
    assert_debug(&rt, &Event::Print('a'), "Print('a')");
    assert_debug(&rt, &Event::Control(7), "Control(7)");
    assert_debug(&rt, &Read::Text(2), "Text(2)");
    let read = Read::Bytes {
        event: Some(Event::Exit),
        count: 1,
    };
    assert_debug(&rt, &read, "Bytes { event: Some(Exit), count: 1 }");
}

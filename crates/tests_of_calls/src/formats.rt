//! Screens of one row in each format.
ghost use Rattle.cell_base.specs.ScreenSize.{IsScreenSize};

use cell_base::{
    AnsiColor, Blink, CellAttributes, CursorVisibility, Hyperlink, Intensity, ProgramWidth,
    Underline, VerticalAlign,
};
use cell_surface::{Change, Position, Surface};
use screen_formats::{write_ansi, write_html, write_json, write_svg, write_text};
use std::process::Abort;
use std::rc::Rc;

fn text_of<R: Abort + AllocGlobal>(rt: &R, text: &str) -> String {
    String::from_str(rt.alloc(), text).expect(rt, "memory")
}

// A dark red foreground in reverse video, with nearly all other renditions.
fn loud() -> CellAttributes {
    let mut a = CellAttributes::blank();
    a.set_intensity(Intensity::Bold);
    a.set_underline(Underline::Curly);
    a.set_blink(Blink::Slow);
    a.set_italic(true);
    a.set_reverse(true);
    a.set_strikethrough(true);
    a.set_overline(true);
    a.set_vertical_align(VerticalAlign::SuperScript);
    a.set_foreground(AnsiColor::Maroon);
    a
}

// Plain attributes with a link.
fn linked<R: Abort + AllocGlobal>(rt: &R, uri: &str) -> CellAttributes {
    let link = Hyperlink::new(rt.alloc(), uri).expect(rt, "memory");
    let mut a = CellAttributes::blank();
    a.set_hyperlink(Some(Rc::new(rt.alloc(), link).expect(rt, "memory")));
    a
}

fn add<R: Abort + AllocGlobal>(rt: &R, surface: &mut Surface<ProgramWidth>, change: Change) {
    let _number = surface.add_change(change).expect(rt, "memory");
}

// A surface of one row on which a text is written.
fn row_of<R: Abort + AllocGlobal>(
    rt: &R,
    width: usize,
    attrs: CellAttributes,
    text: &str,
) -> Surface<ProgramWidth>
    requires { IsScreenSize width 1 }
{
    let mut surface = Surface::new(rt.alloc(), width, 1, ProgramWidth).expect(rt, "memory");
    add(rt, &mut surface, Change::AllAttributes(attrs));
    add(rt, &mut surface, Change::Text(text_of(rt, text)));
    surface
}

fn assert_html<R: Abort + AllocGlobal>(rt: &R, surface: &Surface<ProgramWidth>, html: &str) {
    let mut out = String::new(rt.alloc());
    write_html(rt.alloc(), &mut out, surface).expect(rt, "memory");
    assert_eq!(rt; out.as_str(), html);
}

fn assert_svg<R: Abort + AllocGlobal>(rt: &R, surface: &Surface<ProgramWidth>, svg: &str) {
    let mut out = String::new(rt.alloc());
    write_svg(rt.alloc(), &mut out, surface).expect(rt, "memory");
    assert_eq!(rt; out.as_str(), svg);
}

fn assert_json<R: Abort + AllocGlobal>(rt: &R, surface: &Surface<ProgramWidth>, json: &str) {
    let mut out = String::new(rt.alloc());
    write_json(rt.alloc(), &mut out, surface).expect(rt, "memory");
    assert_eq!(rt; out.as_str(), json);
}

fn assert_ansi<R: Abort + AllocGlobal>(rt: &R, surface: &Surface<ProgramWidth>, ansi: &str) {
    let mut out = String::new(rt.alloc());
    write_ansi(rt.alloc(), &mut out, surface).expect(rt, "memory");
    assert_eq!(rt; out.as_str(), ansi);
}

#[test]
fn wide_cells_and_marks(rt: HostRuntime) {
    let surface = row_of(&rt, 6, CellAttributes::blank(), "a漢<&\"");
    let mut text = String::new(rt.alloc());
    write_text(&mut text, &surface).expect(&rt, "memory");
    assert_eq!(rt; text.as_str(), "a漢<&\"\n");
    assert_html(
        &rt,
        &surface,
        "<pre class=\"screen\" style=\"color:#e5e5e5;background-color:#000000;line-height:1.25;position:relative;\">\
         <span style=\"color:#e5e5e5;\">a</span><span style=\"color:#e5e5e5;display:inline-block;width:2ch;\">漢\
         </span><span style=\"color:#e5e5e5;\">&lt;&amp;&quot;</span>\n\
         <span class=\"cursor\" style=\"position:absolute;left:5ch;top:calc(1.25em*0);width:1ch;height:1.25em;\
         opacity:0.5;background-color:#e5e5e5;\"></span></pre>\n",
    );
}

#[test]
fn looks(rt: HostRuntime) {
    let surface = row_of(&rt, 1, loud(), "'");
    assert_html(
        &rt,
        &surface,
        "<pre class=\"screen\" style=\"color:#e5e5e5;background-color:#000000;line-height:1.25;position:relative;\">\
         <span class=\"bold italic curly-underline overline strikethrough blink reverse superscript \" \
         style=\"color:#000000;background-color:#cd0000;font-weight:bold;font-style:italic;\
         text-decoration:underline overline line-through ;text-decoration-style:wavy;\
         display:inline-block;width:1ch;\">&#39;\
         </span>\n\
         <span class=\"cursor\" style=\"position:absolute;left:0ch;top:calc(1.25em*0);width:1ch;height:1.25em;\
         opacity:0.5;background-color:#e5e5e5;\"></span></pre>\n",
    );
    assert_ansi(
        &rt,
        &surface,
        "\u{1b}[0;1;3;4:3;5;9;53;73;38;5;1m'\u{1b}[0m\n",
    );
}

#[test]
fn links(rt: HostRuntime) {
    let page = row_of(&rt, 1, linked(&rt, "https://e.org/?a&\">"), "x");
    assert_html(
        &rt,
        &page,
        "<pre class=\"screen\" style=\"color:#e5e5e5;background-color:#000000;line-height:1.25;position:relative;\">\
         <a href=\"https://e.org/?a&amp;&quot;&gt;\" style=\"color:#e5e5e5;\">x</a>\n\
         <span class=\"cursor\" style=\"position:absolute;left:0ch;top:calc(1.25em*0);width:1ch;height:1.25em;\
         opacity:0.5;background-color:#e5e5e5;\"></span></pre>\n",
    );
    assert_ansi(
        &rt,
        &page,
        "\u{1b}[0;7m\u{1b}]8;;https://e.org/?a&\">\u{1b}\\x\u{1b}]8;;\u{1b}\\\u{1b}[0m\n",
    );
}

#[test]
fn scripts_are_no_links(rt: HostRuntime) {
    let script = row_of(&rt, 1, linked(&rt, "javascript:x"), "x");
    assert_html(
        &rt,
        &script,
        "<pre class=\"screen\" style=\"color:#e5e5e5;background-color:#000000;line-height:1.25;position:relative;\">\
         <span style=\"color:#e5e5e5;\">x</span>\n\
         <span class=\"cursor\" style=\"position:absolute;left:0ch;top:calc(1.25em*0);width:1ch;height:1.25em;\
         opacity:0.5;background-color:#e5e5e5;\"></span></pre>\n",
    );
}

#[test]
fn pictures(rt: HostRuntime) {
    let mut surface = row_of(&rt, 1, linked(&rt, "file:x"), "x");
    add(&rt, &mut surface, Change::Title(text_of(&rt, "<\u{1}>")));
    assert_svg(
        &rt,
        &surface,
        "<svg xmlns=\"http://www.w3.org/2000/svg\" width=\"10\" height=\"18\" viewBox=\"0 0 10 18\" \
         font-family=\"monospace\" font-size=\"16.7\">\
         <title>&lt;\u{FFFD}&gt;</title><rect x=\"0\" y=\"0\" width=\"10\" height=\"18\" fill=\"#000000\"></rect>\
         <a href=\"file:x\"><text x=\"0\" y=\"14\" textLength=\"10\" xml:space=\"preserve\" \
         style=\"fill:#e5e5e5;text-decoration:underline;\">x</text></a>\
         <rect x=\"0\" y=\"0\" width=\"10\" height=\"18\" fill=\"#e5e5e5\" fill-opacity=\"0.5\"></rect></svg>\n",
    );
}

#[test]
fn json(rt: HostRuntime) {
    let surface = row_of(&rt, 2, loud(), "漢");
    assert_json(
        &rt,
        &surface,
        "{\"cursor\":{\"column\":2,\"row\":0,\"visible\":true},\"height\":1,\
         \"rows\":[[{\"attributes\":{\"colors\":{\"background\":\"\",\"foreground\":\"1\",\"underline\":\"\"},\
         \"link\":\"\",\
         \"looks\":\"bold italic curly-underline overline strikethrough blink reverse superscript \",\
         \"semantic_type\":\"output\",\"wrapped\":false},\"column\":0,\"columns\":2,\"text\":\"漢\",\
         \"width\":2}]],\"title\":\"\",\"width\":2}",
    );
}

#[test]
fn markup_in_texts_and_titles(rt: HostRuntime) {
    let mut surface = row_of(&rt, 7, CellAttributes::blank(), "漢<&>\"'");
    add(
        &rt,
        &mut surface,
        Change::Title(text_of(&rt, "<&>\"'\u{7}")),
    );
    assert_svg(
        &rt,
        &surface,
        "<svg xmlns=\"http://www.w3.org/2000/svg\" width=\"70\" height=\"18\" viewBox=\"0 0 70 18\" \
         font-family=\"monospace\" font-size=\"16.7\">\
         <title>&lt;&amp;&gt;&quot;&#39;\u{FFFD}</title>\
         <rect x=\"0\" y=\"0\" width=\"70\" height=\"18\" fill=\"#000000\"></rect>\
         <text x=\"0\" y=\"14\" textLength=\"20\" xml:space=\"preserve\" style=\"fill:#e5e5e5;\">漢</text>\
         <text x=\"20\" y=\"14\" textLength=\"50\" xml:space=\"preserve\" \
         style=\"fill:#e5e5e5;\">&lt;&amp;&gt;&quot;&#39;</text>\
         <rect x=\"60\" y=\"0\" width=\"10\" height=\"18\" fill=\"#e5e5e5\" fill-opacity=\"0.5\"></rect></svg>\n",
    );
    assert_ansi(
        &rt,
        &surface,
        "\u{1b}[0m漢\u{1b}[0m<&>\"\u{1b}[0;7m'\u{1b}[0m\n",
    );
}

#[test]
fn cells_that_a_font_may_widen(rt: HostRuntime) {
    let surface = row_of(&rt, 2, CellAttributes::blank(), "ｶé");
    assert_html(
        &rt,
        &surface,
        "<pre class=\"screen\" style=\"color:#e5e5e5;background-color:#000000;line-height:1.25;position:relative;\">\
         <span style=\"color:#e5e5e5;display:inline-block;width:2ch;\">ｶé</span>\n\
         <span class=\"cursor\" style=\"position:absolute;left:1ch;top:calc(1.25em*0);width:1ch;height:1.25em;\
         opacity:0.5;background-color:#e5e5e5;\"></span></pre>\n",
    );
}

#[test]
fn cursors(rt: HostRuntime) {
    let mut surface = row_of(&rt, 4, CellAttributes::blank(), "a漢b");
    let place = Change::CursorPosition {
        x: Position::Absolute(2),
        y: Position::Absolute(0),
    };
    add(&rt, &mut surface, place);
    assert_ansi(&rt, &surface, "\u{1b}[0ma\u{1b}[0;7m漢\u{1b}[0mb\u{1b}[0m\n");
    add(
        &rt,
        &mut surface,
        Change::CursorVisibility(CursorVisibility::Hidden),
    );
    assert_ansi(&rt, &surface, "\u{1b}[0ma\u{1b}[0m漢\u{1b}[0mb\u{1b}[0m\n");
    assert_html(
        &rt,
        &surface,
        "<pre class=\"screen\" style=\"color:#e5e5e5;background-color:#000000;line-height:1.25;position:relative;\">\
         <span style=\"color:#e5e5e5;\">a</span><span style=\"color:#e5e5e5;display:inline-block;width:2ch;\">漢\
         </span><span style=\"color:#e5e5e5;\">b</span>\n</pre>\n",
    );
}

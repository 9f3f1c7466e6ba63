//! Width values of a caller's own, in cells and on screens, and terminals that are fed nothing.
use cell_base::{Cell, CellAttributes};
use std::process::Abort;
use terminal::{ProgramWidth, Step, Terminal, Widths, play};

// The program's widths, by another value.
struct OwnWidth;

impl Widths for OwnWidth {
    ghost use Rattle.cell_base.specs.Cluster.{program_width, program_width_le, program_width-space};

    ghost width_of = { λ _ text. program_width text };

    ghost at_most_two = { λ _ text. program_width_le text };

    ghost space_is_one = { λ _. program_width-space };

    fn width(&self, cluster: &str) -> u8 {
        ProgramWidth.width(cluster)
    }
}

// Each text takes one column.
#[derive(Clone, Copy)]
struct Single;

impl Widths for Single {
    ghost use Rattle.std.proofs.Common.{arith, refl};

    ghost width_of = { λ _ _. 1 };

    ghost at_most_two = { λ _ _. omega arith };

    ghost space_is_one = { λ _. refl };

    fn width(&self, _cluster: &str) -> u8 {
        1
    }
}

#[test]
fn cells_of_own_widths(rt: HostRuntime) {
    let cell = Cell::new(rt.alloc(), 'e', CellAttributes::blank(), &OwnWidth).expect(&rt, "memory");
    assert_eq!(rt; cell.str(), "e");
}

// The cursor is in this column after an input, with these widths.
fn assert_leads_to<R: Abort + AllocGlobal, W: Widths + Drop>(
    rt: &R,
    widths: W,
    input: &[u8],
    column: usize,
) {
    let mut terminal = Terminal::new(rt.alloc(), 9, 1, widths).expect(rt, "memory");
    assert!(rt; terminal.feed(input).is_ok());
    assert!(rt; terminal.settle().is_ok());
    assert_eq!(rt; terminal.surface().cursor_position().0, column);
}

#[test]
fn widths_are_lent(rt: HostRuntime) {
    assert_leads_to(&rt, ProgramWidth, b"ab c", 4);
    assert_leads_to(&rt, ProgramWidth, b"\xe3\x81\x8b", 2);
    assert_leads_to(&rt, Single, b"\xe3\x81\x8b", 1);
}

// A new viewer of the same widths that reads the update for 0 shows the same row, with the cursor in the same column.
fn assert_viewed<R: Abort + AllocGlobal, W: Widths + Drop + Copy>(rt: &R, widths: W, input: &[u8]) {
    let mut terminal = Terminal::new(rt.alloc(), 4, 1, widths).expect(rt, "memory");
    let mut viewer = Terminal::new(rt.alloc(), 4, 1, widths).expect(rt, "memory");
    assert!(rt; terminal.feed(input).is_ok());
    let (number, update) = terminal.update(0).expect(rt, "memory");
    assert_eq!(rt; number, terminal.current_number());
    assert!(rt; viewer.feed(&update).is_ok());
    let row = terminal
        .surface()
        .screen_chars_to_string()
        .expect(rt, "memory");
    let shown = viewer
        .surface()
        .screen_chars_to_string()
        .expect(rt, "memory");
    assert_eq!(rt; row.as_str(), shown.as_str());
    let (column, _) = terminal.surface().cursor_position();
    assert_eq!(rt; viewer.surface().cursor_position().0, column);
}

// A viewer of the same widths that reads the patch from its own screen shows the terminal's row then; the patch has
// `count` bytes.
fn assert_patched<R: Abort + AllocGlobal, W: Widths + Drop + Copy>(
    rt: &R,
    widths: W,
    old: &[u8],
    new: &[u8],
    count: usize,
) {
    let mut terminal = Terminal::new(rt.alloc(), 4, 1, widths).expect(rt, "memory");
    let mut viewer = Terminal::new(rt.alloc(), 4, 1, widths).expect(rt, "memory");
    assert!(rt; viewer.feed(old).is_ok());
    assert!(rt; viewer.settle().is_ok());
    assert!(rt; terminal.feed(new).is_ok());
    let (width, height) = terminal.surface().dimensions();
    let (other_width, other_height) = viewer.surface().dimensions();
    let is_same = !viewer.is_failed() && other_width == width && other_height == height;
    assert!(rt; is_same);
    let (number, patch) = terminal.patch(&viewer).expect(rt, "memory");
    assert_eq!(rt; number, terminal.current_number());
    assert_eq!(rt; patch.len(), count);
    assert!(rt; viewer.feed(&patch).is_ok());
    let row = terminal
        .surface()
        .screen_chars_to_string()
        .expect(rt, "memory");
    let shown = viewer
        .surface()
        .screen_chars_to_string()
        .expect(rt, "memory");
    assert_eq!(rt; row.as_str(), shown.as_str());
}

#[test]
fn viewers_of_own_widths(rt: HostRuntime) {
    assert_viewed(&rt, ProgramWidth, b"\xe3\x81\x8b\xe3\x81\x8b");
    assert_viewed(&rt, Single, b"\xe3\x81\x8b\xe3\x81\x8b");
    assert_viewed(&rt, Single, b"\xe3\x81\x8babc");
}

// Besides its printed text and a NUL a patch has a title of 6 bytes, two positions of 6, two pens of 11 and the
// cursor's visibility of 6; where nothing is printed, one position and one pen.
#[test]
fn patches_of_own_widths(rt: HostRuntime) {
    assert_patched(&rt, ProgramWidth, b"abcd", b"axcd\x1b[1;1H", 46 + 2);
    assert_patched(&rt, Single, b"\xe3\x81\x8bb", b"\xe3\x81\x8bc", 46 + 2);
    assert_patched(&rt, Single, b"\xe3\x81\x8bb", b"\xe3\x81\x8bb", 29);
}

#[test]
fn nothing_fed_changes_nothing(rt: HostRuntime) {
    let mut terminal = Terminal::new(rt.alloc(), 4, 3, ProgramWidth).expect(&rt, "memory");
    assert!(rt; terminal.feed(b"").is_ok());
    assert!(rt; terminal.settle().is_ok());
    assert_eq!(rt; terminal.current_number(), 0);
    assert!(rt; !terminal.is_failed());
    let (width, height) = terminal.surface().dimensions();
    assert_eq!(rt; width, 4);
    assert_eq!(rt; height, 3);
}

#[test]
fn steps_are_played_in_turn(rt: HostRuntime) {
    let steps = [Step::Feed(b"ab"), Step::Resize(3, 2)];
    let terminal = play(rt.alloc(), &steps, 4, 2, ProgramWidth).expect(&rt, "memory");
    let rows = terminal
        .surface()
        .screen_chars_to_string()
        .expect(&rt, "memory");
    assert!(rt; rows.as_str() == "ab \n   \n");
    assert!(rt; terminal.surface().cursor_position() == (2, 0));
}

//! Grids: the texts of their lines after some changes.
ghost use Rattle.screen_grid.specs.Grid.{IsDrawn};

use cell_base::{
    ColorAttribute, CursorShape, CursorVisibility, LineAttribute, Position, ProgramWidth,
};
use screen_change::Change;
use screen_grid::Grid;
use std::process::Abort;

fn text_of<R: Abort + AllocGlobal>(rt: &R, text: &str) -> Change {
    Change::Text(String::from_str(rt.alloc(), text).expect(rt, "memory"))
}

fn grid_of<R: Abort + AllocGlobal>(rt: &R) -> Grid<ProgramWidth>
    ensures { IsDrawn result }
{
    Grid::new(rt.alloc(), 4, 3, ProgramWidth).expect(rt, "memory")
}

fn apply<R: Abort + AllocGlobal>(rt: &R, grid: &mut Grid<ProgramWidth>, change: Change)
    requires { IsDrawn grid.old }
    ensures { IsDrawn grid.new }
{
    grid.apply(&change).expect(rt, "memory")
}

// Whether the rows have these texts.
fn shows<R: Abort + AllocGlobal>(rt: &R, grid: &Grid<ProgramWidth>, rows: &str) -> bool {
    let mut shown = String::new(rt.alloc());
    for line in grid.lines() {
        shown
            .push_str(&line.as_str().expect(rt, "memory"))
            .expect(rt, "memory");
        shown.push('|').expect(rt, "memory");
    }
    shown.as_str() == rows
}

#[test]
fn texts_scroll_and_clears_leave_blanks(rt: HostRuntime) {
    let mut grid = grid_of(&rt);
    apply(&rt, &mut grid, text_of(&rt, "w00tfoobaarbaz"));
    assert!(rt; shows(&rt, &grid, "foob|aarb|az  |"));
    apply(&rt, &mut grid, text_of(&rt, "\r\n\u{304b}\tb"));
    assert!(rt; shows(&rt, &grid, "aarb|az  |\u{304b} b|"));
    apply(
        &rt,
        &mut grid,
        Change::ScrollRegionDown {
            first_row: 0,
            region_size: 2,
            scroll_count: 1,
        },
    );
    assert!(rt; shows(&rt, &grid, "    |aarb|\u{304b} b|"));
    apply(
        &rt,
        &mut grid,
        Change::CursorPosition {
            x: Position::Absolute(1),
            y: Position::Relative(-1),
        },
    );
    assert_eq!(rt; grid.cursor_position(), (1, 1));
    apply(
        &rt,
        &mut grid,
        Change::ClearToEndOfScreen(ColorAttribute::Default),
    );
    assert!(rt; shows(&rt, &grid, "    |a   |    |"));
}

#[test]
fn other_fields_are_set(rt: HostRuntime) {
    let mut grid = grid_of(&rt);
    apply(&rt, &mut grid, Change::CursorShape(CursorShape::SteadyBar));
    apply(
        &rt,
        &mut grid,
        Change::CursorVisibility(CursorVisibility::Hidden),
    );
    apply(
        &rt,
        &mut grid,
        Change::LineAttribute(LineAttribute::DoubleWidthLine),
    );
    apply(
        &rt,
        &mut grid,
        Change::Title(String::from_str(rt.alloc(), "t").expect(&rt, "memory")),
    );
    assert_eq!(rt; grid.cursor_shape(), Some(CursorShape::SteadyBar));
    assert_eq!(rt; grid.cursor_visibility(), CursorVisibility::Hidden);
    assert_eq!(rt; grid.title(), "t");
    assert!(rt; grid.lines()[0].is_double_width());
}

#[test]
fn smaller_grids_cut_their_rows(rt: HostRuntime) {
    let mut grid = grid_of(&rt);
    apply(&rt, &mut grid, text_of(&rt, "ab\u{304b}cd"));
    grid.resize(3, 1).expect(&rt, "memory");
    assert_eq!(rt; grid.dimensions(), (3, 1));
    assert_eq!(rt; grid.cursor_position(), (2, 0));
    assert!(rt; shows(&rt, &grid, "ab |"));
}

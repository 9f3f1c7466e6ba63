//! Positions as moves of the cursor.
ghost use Rattle.std.specs.Prelude.{◌≡◌, ◌≢◌, ◌+◌, ◌-◌, min, ◌<◌, ◌≤◌, ◌^◌};
ghost use Rattle.std.specs.Prelude.{◌++◌, None, Some, map, is_some, OnOk, option_map};
ghost use Rattle.csi_codec.specs.Parameters.{word_max};
ghost use Rattle.csi_codec.specs.declared.cursors.Cursor.TheVariants as cursor;
ghost use Rattle.terminal_render.specs.Positions.{At, On, move_by, moves, position_moves, way_of};
ghost use Rattle.terminal_render.specs.PositionsView.{IsCounted, both_listed, listed, move_cursor, way_value};
ghost use Rattle.terminal_render.specs.Rendering.{appended, moved};
ghost use Rattle.cell_base.specs.ScreenSize.{IsScreenSize};

use crate::actions::Actions;
use crate::coordinate::Coordinate;
use crate::moves::Move;
use cell_base::Position;
use std::alloc::AllocError;

/// A line or a column: an absolute one, counted from 1, or a distance back (left, up) or on (right, down) from
/// the current one.
#[derive(Clone, Copy)]
pub(crate) enum Way {
    At(u32),
    Back(usize),
    On(usize),
}

// The column or row `at`, counted from 0, or the last of `size`; the result counts from 1.
fn coordinate_of(size: usize, at: usize) -> u32
    requires some { 0 < size }
    requires within { size < 2 ^ 32 }
    ensures { result ≡ min at (size - 1) + 1 }
{
    at.min(size - 1) as u32 + 1
}

// The way to a column or a row of `size` columns or rows.
fn way_of(size: usize, position: Position) -> Way
    requires some { 0 < size }
    requires within { size < 2 ^ 32 }
    ensures way { way_value result ≡ way_of size position }
    ensures counted { IsCounted (way_value result) }
{
    match position {
        Position::Absolute(at) => Way::At(coordinate_of(size, at)),
        Position::EndRelative(back) => Way::At(coordinate_of(size, size.saturating_sub(back))),
        Position::Relative(way) if way < 0 => Way::Back(way.unsigned_abs()),
        Position::Relative(way) => Way::On(way as usize),
    }
}

// The count, at most the largest parameter.
fn count_of(count: usize) -> u32
    ensures { result ≡ min count word_max }
{
    count.min(u32::MAX as usize) as u32
}

// CUP.
fn move_to(line: u32, col: u32) -> Move
    requires line { 1 ≤ line }
    requires column { 1 ≤ col }
    ensures { move_cursor result ≡ cursor.Position line col }
{
    Move::To(Coordinate::new(line), Coordinate::new(col))
}

// CHA.
fn column_at(col: u32) -> Move
    requires { 1 ≤ col }
    ensures { move_cursor result ≡ cursor.CharacterAbsolute col }
{
    Move::ToColumn(Coordinate::new(col))
}

// CUU; none where the count is 0.
fn up(rows: usize) -> Option<Move>
    ensures { listed result ≡ move_by cursor.Up rows }
{
    if rows == 0 {
        None
    } else {
        Some(Move::Up(count_of(rows)))
    }
}

// CUD; none where the count is 0.
fn down(rows: usize) -> Option<Move>
    ensures { listed result ≡ move_by cursor.Down rows }
{
    if rows == 0 {
        None
    } else {
        Some(Move::Down(count_of(rows)))
    }
}

// CUF; none where the count is 0.
fn right(columns: usize) -> Option<Move>
    ensures { listed result ≡ move_by cursor.Right columns }
{
    if columns == 0 {
        None
    } else {
        Some(Move::Right(count_of(columns)))
    }
}

// The moves to a column, counted from 1, and by a way to a row.
#[tactic(auto, unfolding(crate::specs::Positions::moves))]
fn moves_to(col: u32, row: Way) -> (Option<Move>, Option<Move>)
    requires column { 1 ≤ col }
    requires row { IsCounted (way_value row) }
    ensures { moves (At col) (way_value row) ≡ Some (both_listed result) }
{
    match row {
        Way::At(line) => (Some(move_to(line, col)), None),
        Way::Back(rows) => (up(rows), Some(column_at(col))),
        Way::On(rows) => (down(rows), Some(column_at(col))),
    }
}

// The moves by `columns` to the right and by a way to a row; at least one of them moves.
#[tactic(auto, unfolding(crate::specs::Positions::moves))]
fn moves_on(columns: usize, row: Way) -> (Option<Move>, Option<Move>)
    requires { moves (On columns) (way_value row) ≢ None }
    ensures { moves (On columns) (way_value row) ≡ Some (both_listed result) }
{
    match row {
        Way::At(line) => (right(columns), Some(Move::ToLine(line))),
        Way::Back(rows) => (right(columns), up(rows)),
        Way::On(rows) => (right(columns), down(rows)),
    }
}

/// Whether moves encode a position: none do for a column at or past the width, for a relative column to the left, or
/// where neither column nor row moves.
#[tactic(auto, unfolding(crate::specs::Positions::moves, crate::specs::Positions::position_moves))]
pub(crate) fn position_has_encoding(width: usize, height: usize, x: Position, y: Position) -> bool
    ensures { result ≡ is_some (position_moves width height x y) }
{
    match x {
        Position::Absolute(at) => at < width,
        Position::EndRelative(_) => true,
        Position::Relative(0) => !matches!(y, Position::Relative(0)),
        Position::Relative(columns) => columns > 0,
    }
}

// The moves of a position that has an encoding, on a screen of `width` columns and `height` rows.
#[tactic(auto, unfolding(crate::specs::Positions::position_moves))]
fn position_moves(
    width: usize,
    height: usize,
    x: Position,
    y: Position,
) -> (Option<Move>, Option<Move>)
    requires size { IsScreenSize width height }
    requires encoded { position_moves width height x y ≢ None }
    ensures { position_moves width height x y ≡ Some (both_listed result) }
{
    let row = way_of(height, y);
    match x {
        Position::Absolute(at) => moves_to(coordinate_of(width, at), row),
        Position::EndRelative(back) => moves_to(
            coordinate_of(width, width.saturating_sub(back)),
            row,
        ),
        Position::Relative(columns) => moves_on(columns.unsigned_abs(), row),
    }
}

/// Appends the moves of a position that has an encoding.
pub(crate) fn push_position(
    actions: &mut Actions<'_>,
    width: usize,
    height: usize,
    x: Position,
    y: Position,
) -> Result<(), AllocError>
    requires size { IsScreenSize width height }
    requires encoded { position_moves width height x y ≢ None }
    ensures { OnOk result (appended actions.old (option_map (map moved) (position_moves width height x y))
        ≡ Some actions.new) }
{
    let (first, second) = position_moves(width, height, x, y);
    push_moves(actions, first, second)
}

// Appends two moves in turn.
fn push_moves(
    actions: &mut Actions<'_>,
    first: Option<Move>,
    second: Option<Move>,
) -> Result<(), AllocError>
    ensures { OnOk result (actions.new ≡ actions.old ++ map moved (both_listed (first, second))) }
{
    push_optional(actions, first)?;
    push_optional(actions, second)?;
    Ok(())
}

// Appends a move, if there is one.
fn push_optional(actions: &mut Actions<'_>, step: Option<Move>) -> Result<(), AllocError>
    ensures { OnOk result (actions.new ≡ actions.old ++ map moved (listed step)) }
{
    match step {
        Some(step) => actions.push_move(step),
        None => Ok(()),
    }
}

//! The column or row that a `Position` names, going from the current one.
ghost use Rattle.std.specs.Prelude.{◌≡◌, ◌<◌, ◌≤◌};
ghost use Rattle.screen_effects.specs.Positions.{resolved_column, resolved};

use cell_base::Position;

// The position that is named among `size` positions, where `from` is the current one; at most the last.
pub(crate) fn resolved(size: usize, from: usize, position: Position) -> usize
    requires some { 0 < size }
    requires within { from ≤ size }
    ensures { result ≡ resolved size from position }
{
    let last = size - 1;
    match position {
        Position::Absolute(at) => at.min(last),
        Position::EndRelative(back) => size.saturating_sub(back).min(last),
        Position::Relative(way) if way < 0 => from.saturating_sub(way.unsigned_abs()),
        Position::Relative(way) => from.saturating_add(way as usize).min(last),
    }
}

// The column that is named: as `resolved`, except that the width itself is a column, at which a wrap is pending.
pub(crate) fn resolved_column(width: usize, from: usize, position: Position) -> usize
    requires some { 0 < width }
    requires within { from ≤ width }
    ensures { result ≡ resolved_column width from position }
{
    match position {
        Position::Absolute(at) if at == width => width,
        _ => resolved(width, from, position),
    }
}

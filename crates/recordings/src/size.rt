//! The size of a terminal.
ghost use Rattle.std.specs.Prelude.{◌<◌, ◌≤◌};

/// Columns and rows.
#[derive(Clone, Copy, Debug, PartialEq, Eq)]
pub struct Size {
    /// From 1 to 4096.
    pub width: usize,
    /// From 1 to 4096.
    pub height: usize,
    ghost width_in: { (0 < width) × (width ≤ 4096) },
    ghost height_in: { (0 < height) × (height ≤ 4096) },
}

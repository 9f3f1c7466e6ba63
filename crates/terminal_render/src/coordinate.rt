//! Lines and columns as control sequences count them, from 1.
ghost use Rattle.std.specs.Prelude.{◌≡◌, ◌≤◌};

/// A line or a column, counted from 1.
#[derive(Clone, Copy)]
pub(crate) struct Coordinate {
    pub(crate) number: u32,
    ghost counted: { 1 ≤ number },
}

impl Coordinate {
    /// The line or column with this number, counted from 1.
    pub(crate) fn new(number: u32) -> Coordinate
        requires { 1 ≤ number }
        ensures { result.number ≡ number }
    {
        Coordinate { number }
    }
}

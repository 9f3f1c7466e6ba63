//! Borrowed texts of cells.
ghost use Rattle.std.specs.Prelude.{◌≡◌, false};
ghost use Rattle.cell_base.specs.CellContent.{shows_as_space};

/// The text of a cell, and whether it takes two columns.
#[derive(Debug, Clone, Copy)]
pub struct LentText<'a> {
    /// The text.
    pub text: &'a str,
    /// Whether it takes two columns.
    pub is_wide: bool,
    pub ghost kept: { shows_as_space text.now ≡ false },
}

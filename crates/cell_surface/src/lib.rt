//! The surface: a screen with numbered changes; and the layers below it: cells, lines and changes.
//!
//! - `contents`: texts and cells of a surface.
//! - `differences`: differences between surfaces and lines.
//! - `error`: why a call of a surface was refused.
//! - `for_viewers`: the changes of a surface that `terminal_viewers` encodes.
//! - `laws`: laws of surfaces: each is the contract of a function that does nothing.
//! - `surface`: `Surface`: a screen with numbered changes.
#![tactic(auto)]

mod contents;
mod differences;
mod error;
pub mod for_viewers;
pub mod laws;
mod surface;

pub use cell_base::{
    AnsiColor, AttributeChange, Blink, Cell, CellAttributes, ColorAttribute, ColorSpec,
    CursorShape, CursorVisibility, DoubleClickRange, Hyperlink, Intensity, LineAttribute,
    LinkError, PaletteIndex, Position, ProgramWidth, RgbColor, SEQ_ZERO, SemanticType, SequenceNo,
    SrgbaTuple, Underline, VerticalAlign, Widths, ZoneRange, grapheme_column_width,
    is_white_space_char, is_white_space_grapheme, unicode_column_width,
};
pub use cell_line::{CellCluster, CellRef, Line, RegionIter, VisibleCellIter};
pub use change_sequence::ChangeSequence;
pub use error::SurfaceError;
pub use screen_change::Change;
pub use surface::Surface;

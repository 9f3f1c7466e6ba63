//! The values that every layer of the stack uses: colours, attributes, links, widths and cells.
//!
//! - `attribute_change`: a change of one attribute.
//! - `attributes`: enums of attributes, cursors, lines and positions, and the numbers of changes.
//! - `cell`: a text of one cluster with its width and attributes.
//! - `cell_attributes`: the attributes of a cell.
//! - `cell_text`: the text of a cell.
//! - `color`: colours: the sixteen named ones, the palette, and true colours.
//! - `color_reading`: reading a colour from a text.
//! - `columns`: the columns that a text takes, and white space.
//! - `for_rows`: functions of cells that rows need.
//! - `hyperlink`: links: a URI with parameters, as OSC 8 carries them.
//! - `inline_text`: texts that lie in a cell itself.
//! - `laws`: laws of the definitions: each is the contract of a function that does nothing.
//! - `link_error`: why a text is no link.
//! - `link_reading`: reading a link from the parts of an OSC 8.
//! - `long_text`: texts that lie on the heap.
//! - `ranges`: ranges of a line that a caller asks for.
//! - `rendition`: the attributes of a cell except its link.
//! - `row_laws`: laws of rows and screens: halves come in pairs, also after columns are set.
//! - `stored_color`: colours as a cell stores them.
//! - `widths`: how many columns texts take.
#![tactic(auto)]

mod attribute_change;
mod attributes;
mod cell;
mod cell_attributes;
mod cell_text;
mod color;
mod color_reading;
mod columns;
pub mod for_rows;
mod hyperlink;
mod inline_text;
pub mod laws;
mod link_error;
mod link_reading;
mod long_text;
mod ranges;
mod rendition;
pub mod row_laws;
mod stored_color;
mod widths;

pub use attribute_change::AttributeChange;
pub use attributes::{
    Blink, CursorShape, CursorVisibility, Intensity, LineAttribute, Position, SEQ_ZERO,
    SemanticType, SequenceNo, Underline, VerticalAlign,
};
pub use cell::Cell;
pub use cell_attributes::CellAttributes;
pub use color::{AnsiColor, ColorAttribute, ColorSpec, PaletteIndex, RgbColor, SrgbaTuple};
pub use columns::{
    grapheme_column_width, is_white_space_char, is_white_space_grapheme, unicode_column_width,
};
pub use hyperlink::Hyperlink;
pub use link_error::LinkError;
pub use ranges::{DoubleClickRange, ZoneRange};
pub use widths::{ProgramWidth, Widths};

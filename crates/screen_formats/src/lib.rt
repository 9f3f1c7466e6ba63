//! A screen in the formats of files: as plain rows, as rows with control sequences, as HTML, SVG and JSON.
//!
//! - `ansi`: a screen as rows for a terminal.
//! - `colors`: the colours of cells: those of xterm's palette of 256, direct ones, and those shown for the
//!   default ones.
//! - `escape`: texts escaped for HTML and for XML.
//! - `html`: a screen as HTML.
//! - `json`: a screen as JSON.
//! - `laws`: laws of the formats: each is the contract of a function that does nothing.
//! - `links`: the links that are written.
//! - `renditions`: how a cell looks, as words and as declarations of CSS.
//! - `runs`: a line as runs: neighbouring cells that look alike.
//! - `svg`: a screen as SVG.
//! - `text`: a screen as plain rows.
//! - `tokens`: tags and texts of HTML and XML.
#![tactic(auto)]

mod ansi;
pub mod colors;
pub mod escape;
mod html;
mod json;
pub mod laws;
pub mod links;
mod renditions;
mod runs;
mod svg;
mod text;
pub mod tokens;

pub use ansi::write_ansi;
pub use html::write_html;
pub use json::write_json;
pub use renditions::rendition_words;
pub use runs::{Run, line_runs};
pub use svg::write_svg;
pub use text::write_text;

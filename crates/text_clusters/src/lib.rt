//! The cut of a text into extended grapheme clusters (UAX 29): its laws, and the start of a text cut
//! off by them. Beside it, tests for printable characters and for controls.
//!
//! - `controls`: controls in bytes: C0 and DEL, looked for sixteen bytes at a time, and C1 in UTF-8.
//! - `fast`: shortcuts, which a reader may skip: each returns what the general way does, or `None`, which
//!   leaves all to it.
//! - `independent`: characters that are independent: between any two of them lies a boundary of clusters.
//! - `lanes`: blocks of bytes that one comparison tests.
//! - `laws`: laws of the cut: each is the contract of a function that does nothing.
//! - `prefix`: the start of a text, cut off so that the clusters of the text are those of both parts.
//! - `printable`: printable characters at the start of some bytes, looked for sixteen bytes at a time, then
//!   eight, then four.
#![tactic(auto)]

mod controls;
mod fast;
mod independent;
mod lanes;
pub mod laws;
mod prefix;
mod printable;

pub use controls::{holds_c1, is_c1, len_before_ascii_control};
pub use independent::{begins_independent, first_character, is_independent};
pub use prefix::{begins_printable, split_first_cluster, split_plain, split_printable};
pub use printable::{are_printable, is_printable, printable_len};

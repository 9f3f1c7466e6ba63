//! The terminal for C, and for what calls C: a static library over `terminal`. `include/rilqamyn.h` declares its calls.
//!
//! - `codes`: the codes that calls answer.
//! - `exports`: what C calls.
//! - `fast`: shortcuts, which a reader may skip: each returns what the general way does, or `None`.
//! - `formats`: the screen in the formats of files.
//! - `handle`: a handle, which C keeps between two calls.
//! - `kept`: what a handle leads to, and what each call does with it.
//! - `modes`: the modes of the profile xterm, told to C.
//! - `owned`: what a handle owns.
//! - `parts`: a `Box` with its fields in sight.
//! - `told`: a row, told to C.
#![tactic(auto)]

mod codes;
mod exports;
mod fast;
mod formats;
mod handle;
mod kept;
mod modes;
mod owned;
mod parts;
mod told;

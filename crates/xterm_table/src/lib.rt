//! The table of the profile "xterm": functions from screens to screens that only this profile has, and their laws.
//!
//! - `laws`: laws of these functions: each is the contract of a function that does nothing.
#![tactic(auto)]

pub mod laws;

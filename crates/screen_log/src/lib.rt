//! Logs of numbered changes: the definitions, a log of bounded length, and the law that the same changes
//! are due as from one that keeps all.
//!
//! - `change_log`: `ChangeLog`: numbered changes, of which those are kept that may be due.
//! - `laws`: laws of logs: nothing that is due is lost, and what is kept is counted.
//! - `text_pool`: the memory of dropped texts, kept for later ones.
#![tactic(auto)]

mod change_log;
pub mod laws;
mod text_pool;

pub use change_log::ChangeLog;

//! Shortcuts, which a reader may skip: a test establishes what a call requires that has the contract of the general
//! way, or an `Option` is `None` where the general way is to be taken.

pub(crate) mod controls;
mod plain_texts;

//! Shortcuts, which a reader may skip: each returns what the general way does, or `None`, which leaves all to it.

mod plain_cells;
mod plain_text;
mod unequal_part;

pub(crate) use plain_cells::write_plain;
pub(crate) use unequal_part::unequal_part;

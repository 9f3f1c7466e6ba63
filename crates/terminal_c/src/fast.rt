//! Shortcuts, which a reader may skip: each returns what the general way does, or `None`, which leaves all to it.

mod plain_cells;

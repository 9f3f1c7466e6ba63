//! Shortcuts, which a reader may skip: each returns what the general way does, or `None`, which leaves all to it.
//! The columns in which two rows differ serve the shortcut of differences.

mod equal_columns;
mod equal_columns_at_end;
mod plain_cells;
mod single_cells;
mod text_prefixes;

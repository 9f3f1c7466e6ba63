//! Shortcuts, for the crates above that write rows and differences; users don't call them. Each returns what the
//! general way does, or `None`, which leaves all to it.

pub mod unequal_columns;

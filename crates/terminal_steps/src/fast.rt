//! Shortcuts, which a reader may skip: each answers for a whole what the general way does part by part.

pub(crate) mod whole_runs;

//! Rows that are kept as one text and runs of equal attributes.
//!
//! - `cell_size`: the sizes of cells.
//! - `columns`: the columns of a row up to the last one that was written.
//! - `cut_text`: a text that is cut into cells.
//! - `fast`: shortcuts, which a reader may skip: each returns what the general way does, or `None`, which
//!   leaves all to it.
//! - `items`: items of a vector that are replaced by others.
//! - `lent_text`: borrowed texts of cells.
//! - `position`: positions between cells.
//! - `row`: a row that is kept as one text and runs.
//! - `row_cells`: rows made of cells, and cells made of rows.
//! - `row_texts`: texts, single cells and ranges of blanks that are set on a row.
//! - `run`: columns with equal attributes, and positions among them.
//! - `run_steps`: steps of which edits of runs are made: positions of columns, and runs that grow.
//! - `runs`: the attributes of columns.
//! - `runs_left`: attributes of the columns that an iteration has not passed yet.
//! - `stored`: `StoredRow`: what a row stores, borrowed.
//! - `text_cells`: the sizes of cells that are set.
//! - `texts`: the texts of a row's cells.
//! - `texts_left`: texts of the cells that an iteration has not passed yet.
//! - `visible`: the visible cells of a row.
//! - `visible_columns`: queries on a row's columns.
#![tactic(auto)]

mod cell_size;
mod columns;
mod cut_text;
mod fast;
mod items;
mod lent_text;
mod position;
mod row;
mod row_cells;
mod row_texts;
mod run;
mod run_steps;
mod runs;
mod runs_left;
mod stored;
mod text_cells;
mod texts;
mod texts_left;
mod visible;
mod visible_columns;

pub use cell_size::CellSize;
pub use lent_text::LentText;
pub use row::ClusteredRow;
pub use run::Run;
pub use runs::Runs;
pub use stored::StoredRow;
pub use texts::Texts;
pub use visible::{ClusteredCell, ClusteredCells};

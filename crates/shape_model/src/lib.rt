//! The definitions of tables, histories and folds as plain, slow code. The command `check` and the
//! cases replay whole histories with it; every faster crate is held to the same definitions.
#![tactic(auto)]

mod checks;
mod folds;
mod good;
mod keyed;
mod keys;
mod rows;
mod tables;

pub use folds::{ModelError, fold};
pub use good::{HistoryError, good_history};
pub use rows::shape_rows;
pub use tables::{def_after, table_after};

//! The columns of a table by their names.
//!
//! `ColumnNames` finds the place of a column by its name in logarithmic time, and says whether two columns have one
//! name.
#![tactic(auto)]

mod names;

pub use names::ColumnNames;

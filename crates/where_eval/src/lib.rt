//! Where-clauses over rows: a clause is checked against the columns of a table, and has a truth for each row.
//!
//! `check` gives a clause's `Checked`, or its first fault with the number of a leaf. `truth` answers true, false or
//! unknown by PostgreSQL's three-valued logic (manual, chapters 9.1, 9.2, 9.7.1 and 9.24).
#![tactic(auto)]

mod checked;
mod checking;
mod columns;
mod compile;
mod constant;
mod eval;
mod faults;
mod kinds;
pub mod laws;
mod leaves;
mod like;
mod logic;
mod plan;
mod read_value;
mod row_truth;
mod typing;

pub use checked::Checked;
pub use checking::check;
pub use faults::CheckError;
pub use row_truth::truth;

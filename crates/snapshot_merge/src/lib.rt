//! What a snapshot shows of transactions: `Vis` reads the text of PostgreSQL's `pg_current_snapshot()` and says which transactions it shows. `Pending` keeps the
//! transactions that come before the snapshot does, whole and in order, up to a limit of bytes.
#![tactic(auto)]

mod pending;
mod reading;
mod vis;

pub use pending::{Pending, PendingError};
pub use vis::{Vis, VisError};

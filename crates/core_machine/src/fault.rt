//! Why a snapshot ends that did not come whole.
ghost use Rattle.std.specs.Prelude.{◌≡◌};
ghost use Rattle.core_law.specs.Steps.{code_of};
ghost use Rattle.core_machine.specs.Faults.{fault_of};

use http_edge::{Detail, ErrorCode};

/// Why a snapshot ends that did not come whole, or that may not be taken.
#[derive(Drop)]
pub enum Fault {
    /// The connection to the database had a fault.
    LinkFailed,
    /// What came over it was wrong.
    IsBad { detail: Detail },
    /// The texts of its rows have more bytes than a log may have.
    TooLarge { bytes: u64, limit: u64 },
}

/// The code that the owner of the snapshot is given.
pub(crate) fn code_of(fault: Fault) -> ErrorCode
    ensures { result ≡ code_of (fault_of fault) }
{
    match fault {
        Fault::LinkFailed => ErrorCode::SnapshotLink,
        Fault::IsBad { detail } => ErrorCode::SnapshotRefused { detail },
        Fault::TooLarge { bytes, limit } => ErrorCode::ShapeTooLarge { bytes, limit },
    }
}

//! Where in a stream the assembler stands.
use super::answer::AssembleError;
use shape_base::Tx;

/// Where in a stream the assembler stands.
#[derive(Drop)]
pub enum Stage {
    /// Outside of a transaction.
    Outside,
    /// Inside a repeat, whose Begin had this LSN.
    Passing { begin: u64 },
    /// Inside a transaction, with its changes so far; its end is not known yet.
    Taking(Tx),
    /// Behind a refusal.
    Refused(AssembleError),
}

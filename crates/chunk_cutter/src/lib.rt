//! Cuts a log into chunks by the sizes of its entries. Chunks are runs of entries from the first on; a chunk closes at the entry with which its sizes come to at
//! least a given number, and later entries leave it as it is. After `reserve`, counting an entry takes no memory.
#![tactic(auto)]

mod cutter;

pub use cutter::Cutter;

//! The grammar of where-clauses over tokens: which tokens stand for which tree at which nesting, what the reader of
//! tokens answers, and the canonical tokens of a tree.
#![tactic(auto)]

pub mod laws;
pub mod words;

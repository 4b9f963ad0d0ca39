//! The tokens of where-clauses: from a text to its tokens with their places, and from tokens to their canonical text.
#![tactic(auto)]

mod class;
pub mod laws;
mod lexing;
mod token;
mod writing;

pub use lexing::{Lexed, lex};
pub use token::{CmpOp, Token};
pub use writing::Writer;

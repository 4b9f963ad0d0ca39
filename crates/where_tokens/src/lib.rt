//! The tokens of where-clauses as a declared relation: which bytes a token has, and what may not stand right behind
//! them, so that the longest token text that stands at a place is the token there. It is proved to be what the lexer
//! finds, and the lexer's steps are proved to suffice for every text.
#![tactic(auto)]

pub mod laws;

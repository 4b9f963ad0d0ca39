//! Where-clauses: from a clause's text to its tree, and from a tree to its canonical text.
#![tactic(auto)]

mod chain;
mod expr;
mod front;
mod leaves;
mod parsing;
mod printing;
mod reading;
mod stop;
mod word;

pub use expr::{CmpOp, Expr, Exprs, IsTest};
pub use parsing::{NESTING, ParseError, parse};
pub use printing::print;

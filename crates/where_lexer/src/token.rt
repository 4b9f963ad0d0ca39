//! Tokens.
use shape_base::Text;

/// How two sides are compared.
#[derive(Clone, Copy, Debug, Drop)]
pub enum CmpOp {
    Eq,
    Ne,
    Lt,
    Le,
    Gt,
    Ge,
}

/// A token of a clause.
#[derive(Drop)]
pub enum Token {
    Open,
    Close,
    Comma,
    Minus,
    Compare(CmpOp),
    And,
    Or,
    Not,
    Is,
    Null,
    True,
    False,
    Unknown,
    Distinct,
    From,
    In,
    Between,
    Like,
    Name(Text),
    Quoted(Text),
    /// A number in digits; one of 2^64 or more counts as 2^64 - 1.
    Digits(u64),
}

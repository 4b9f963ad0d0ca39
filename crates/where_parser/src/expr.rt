//! Trees of clauses.
use shape_base::Text;
pub use where_grammar::words::IsTest;
pub use where_lexer::CmpOp;

/// The tree of a clause. A list has two members or more, and that of IN one or more; the flag `not` is the NOT of
/// IS NOT, NOT IN, NOT BETWEEN and NOT LIKE.
#[cycle(tree)]
#[derive(Drop)]
pub enum Expr {
    Or(Exprs),
    And(Exprs),
    Not(Box<Expr>),
    Is {
        left: Box<Expr>,
        not: bool,
        test: IsTest,
    },
    Distinct {
        left: Box<Expr>,
        not: bool,
        right: Box<Expr>,
    },
    Cmp {
        op: CmpOp,
        left: Box<Expr>,
        right: Box<Expr>,
    },
    Within {
        left: Box<Expr>,
        not: bool,
        list: Exprs,
    },
    Between {
        left: Box<Expr>,
        not: bool,
        low: Box<Expr>,
        high: Box<Expr>,
    },
    Like {
        left: Box<Expr>,
        not: bool,
        pattern: Text,
    },
    Name(Text),
    Int(i64),
    Quoted(Text),
    Bool(bool),
    Null,
}

/// A chain of trees, in their order.
#[cycle(tree)]
pub enum Exprs {
    End,
    More { first: Box<Expr>, rest: Box<Exprs> },
}

// A loop, so that a chain of any length is dropped in the stack of one call.
impl Drop for Exprs {
    #[cycle(tree)]
    fn drop(mut self) {
        loop {
            match self {
                Exprs::End => return,
                Exprs::More { first: _, rest } => self = Box::into_inner(rest),
            }
        }
    }
}

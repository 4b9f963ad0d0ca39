//! A clause with its names found and its constants read.
use crate::constant::Constant;
use crate::like::Piece;
use pg_values::Kind;
use where_parser::{CmpOp, IsTest};

/// The tree of a clause, with places for names, values for constants, and the pieces of patterns.
#[cycle(plan)]
#[derive(Drop)]
pub enum Plan {
    Any(Plans),
    All(Plans),
    Not(Box<Plan>),
    Is {
        left: Box<Plan>,
        not: bool,
        test: IsTest,
    },
    Distinct {
        left: Box<Plan>,
        not: bool,
        right: Box<Plan>,
    },
    Cmp {
        op: CmpOp,
        left: Box<Plan>,
        right: Box<Plan>,
    },
    Within {
        left: Box<Plan>,
        not: bool,
        list: Plans,
    },
    Between {
        left: Box<Plan>,
        not: bool,
        low: Box<Plan>,
        high: Box<Plan>,
    },
    Like {
        left: Box<Plan>,
        not: bool,
        pattern: Vec<Piece>,
    },
    Column {
        place: u64,
        kind: Kind,
    },
    Read(Constant),
}

/// A chain of plans, in their order.
#[cycle(plan)]
pub enum Plans {
    End,
    More { first: Box<Plan>, rest: Box<Plans> },
}

// A loop, so that a chain of any length is dropped in the stack of one call.
impl Drop for Plans {
    #[cycle(plan)]
    fn drop(mut self) {
        loop {
            match self {
                Plans::End => return,
                Plans::More { first: _, rest } => self = Box::into_inner(rest),
            }
        }
    }
}

//! The plain table.
use shape_base::Seq;

/// What the text column of a row has.
#[derive(Clone, Copy, Debug, PartialEq, Eq)]
pub enum Letter {
    K,
    M,
}

/// A row of the table.
#[derive(Clone, Copy, Debug, PartialEq, Eq)]
pub struct Item {
    pub id: u64,
    pub n: u64,
    pub letter: Letter,
}

/// Rows, in the order in which they were inserted.
pub type Items = Seq<Item>;

/// The table, and the least id that no row ever had.
#[derive(Drop)]
pub struct Plain {
    pub rows: Items,
    pub fresh: u64,
}

/// One change of the table.
#[derive(Clone, Copy, Debug, PartialEq, Eq)]
pub enum Statement {
    Insert(Item),
    Update { old: Item, new: Item },
    Delete(Item),
    Truncate,
}

/// Changes, in their order.
pub type Statements = Seq<Statement>;

/// A commit: its number, from 0, and its changes.
#[derive(Drop)]
pub struct Commit {
    pub number: u16,
    pub statements: Statements,
}

/// Commits, in their order.
pub type Commits = Seq<Commit>;

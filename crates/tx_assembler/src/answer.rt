//! What the assembler answers to a message.
use shape_base::{OutOfMemory, Tx};

/// What a message led to.
#[derive(Drop)]
pub enum Fed {
    /// Nothing yet: the message is no Commit.
    Nothing,
    /// A transaction ended with this message.
    Tx(Tx),
    /// A transaction ended with this message which is passed over, since its LSN is not above that of the last one.
    Repeat {
        /// Its LSN.
        lsn: u64,
        /// The LSN of the last transaction that was given.
        last: u64,
    },
}

/// Why a message was refused. After each of these but want of memory the assembler answers the same until it is reopened.
#[derive(Clone, Copy, Debug, PartialEq, Eq, Drop)]
pub enum AssembleError {
    /// A Begin inside a transaction, or a change, Truncate or Commit outside one.
    OutOfOrder {
        /// `B` inside a transaction, 0 outside one.
        have: u8,
        /// The message's first byte.
        got: u8,
    },
    /// The Commit's LSN is not its Begin's.
    LsnMismatch {
        /// The Begin's LSN.
        begin: u64,
        /// The Commit's LSN.
        commit: u64,
    },
    /// A change or a Truncate names a table of which no Relation came since the stream began.
    UnknownRelation {
        /// The table's object identifier.
        oid: u32,
    },
    /// An Update or a Delete of a served table without its whole old row.
    NoOldRow {
        /// The table's object identifier.
        oid: u32,
    },
    /// A row is not as wide as its relation.
    WrongWidth {
        /// The row's columns.
        have: u16,
        /// The relation's columns.
        want: u16,
    },
    /// A column is in binary format.
    BinaryColumn {
        /// Its place, from 0.
        column: u32,
    },
    /// A column of an inserted or an old row was not sent.
    UnsentValue {
        /// Its place, from 0.
        column: u32,
    },
    /// A name of a Relation or a value of a kept row is not UTF-8.
    NotUtf8 {
        /// The length of the longest prefix of that name or value that is.
        place: u64,
    },
    /// The kept change messages of a transaction pass the limit.
    TxTooLarge {
        /// Their bytes.
        bytes: u64,
        /// The limit.
        limit: u64,
    },
    /// An allocation failed.
    OutOfMemory,
}

impl From<OutOfMemory> for AssembleError {
    ghost use Rattle.std.specs.Prelude.{◌≡◌};
    ghost use Rattle.tx_assembler.specs.declared.answer.AssembleError.TheVariants as errors;

    ghost from_gives = { λ _ e. e ≡ errors.OutOfMemory };

    fn from(_error: OutOfMemory) -> AssembleError {
        AssembleError::OutOfMemory
    }
}

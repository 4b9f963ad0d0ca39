//! An assembler, and what it gave.
ghost use Rattle.pgout.specs.Grammar.{Fits};

use pgout::Message;
use shape_base::{OutOfMemory, Served, ServedTables, Text, Texts};
use std::alloc::Global;
use tx_assembler::{Assembler, Fed};

/// An assembler, and what it gave.
#[derive(Drop)]
pub struct Assembly {
    assembler: Assembler,
    /// How many transactions.
    pub transactions: u64,
    /// How many changes in them.
    pub changes: u64,
}

impl Assembly {
    /// Before a stream, with the one served table `public.items`.
    pub fn new(alloc: Global) -> Result<Assembly, OutOfMemory> {
        let mut key = Texts::new(alloc);
        key.push(Text::of(alloc, "id")?)?;
        let mut tables = ServedTables::new(alloc);
        tables.push(Served {
            ns: Text::of(alloc, "public")?,
            name: Text::of(alloc, "items")?,
            key,
        })?;
        Ok(Assembly {
            assembler: Assembler::new(alloc, tables)?,
            transactions: 0,
            changes: 0,
        })
    }

    /// Takes the next message of the stream, and counts the transaction that it ends. Whether it was not refused.
    pub fn take(&mut self, message: Message) -> bool
        requires { Fits message }
    {
        match self.assembler.feed(message) {
            Ok(Fed::Tx(tx)) => {
                self.transactions = self.transactions.saturating_add(1);
                self.changes = self.changes.saturating_add(tx.changes.len());
                true
            }
            Ok(_) => true,
            Err(_) => false,
        }
    }
}

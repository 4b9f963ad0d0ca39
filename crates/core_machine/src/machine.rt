//! The machine.
ghost use Rattle.std.specs.Prelude.{◌≡◌, true, length, IfOk};
ghost use Rattle.shape_base.specs.Handle.{is_run};
ghost use Rattle.core_law.specs.Situation.{Options, Situation, at_start};
ghost use Rattle.core_server.specs.Standing.{IsCatalog, options_of};
ghost use Rattle.core_machine.specs.Standing.{Stands};

use crate::first::First;
use core_clients::Clients;
use core_exchanges::Exchanges;
use core_server::Server;
use shape_base::{Limits, OutOfMemory, ServedTables, TableDefs, Text};
use std::alloc::Global;

/// A server, its exchanges and its clients, and the clock. For contracts it stands for a situation.
#[derive(Drop)]
pub struct Machine {
    pub(crate) alloc: Global,
    pub(crate) server: Server,
    pub(crate) exchanges: Exchanges,
    pub(crate) clients: Clients,
    /// What the first target of each client asks for.
    pub(crate) asks: Vec<First>,
    /// For each number, in order, the id of the last commit before it was registered.
    pub(crate) lasts: Vec<Option<u32>>,
    /// The moment, in milliseconds.
    pub(crate) clock: u64,
    /// How long a live request is held, in milliseconds.
    pub(crate) hold: u64,
}

impl Machine {
    /// A machine to which nothing has come: its limits, the served tables, the definition of each in the table's place, and the name of its run.
    pub fn new(
        alloc: Global,
        limits: Limits,
        tables: ServedTables,
        defs: TableDefs,
        run: Text,
    ) -> Result<Machine, OutOfMemory>
        requires catalog { IsCatalog tables defs }
        requires run { is_run run ≡ true }
        ensures { IfOk result (Stands (options_of limits tables defs run) at_start) }
    {
        let hold = limits.hold;
        Ok(Machine {
            alloc,
            server: Server::new(alloc, limits, tables, defs, run)?,
            exchanges: Exchanges::new(alloc),
            clients: Clients::new(alloc),
            asks: Vec::new(alloc),
            lasts: Vec::new(alloc),
            clock: 0,
            hold,
        })
    }

    /// How many exchanges were made.
    pub fn exchanges(&self) -> u64
        ensures { (o : Options) (s : Situation) → Stands o s self.now → result ≡ length s.exchanges }
    {
        self.exchanges.len()
    }
}

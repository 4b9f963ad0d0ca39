//! The server.
ghost use Rattle.std.specs.Prelude.{◌≡◌, ◌<◌, length, IfOk, IfSome};
ghost use Rattle.shape_base.specs.declared.cause.Cause.TheVariants as causes;
ghost use Rattle.shape_base.specs.declared.registry_event.RegistryEvent.TheVariants as events;
ghost use Rattle.core_law.specs.Steps.{with_registry, dropped, redefined};
ghost use Rattle.core_server.specs.Standing.{Stands, IsCatalog, IsNew, IsSituated, Moves, options_of, nothing};

use shape_base::{Cause, Duplicate, Limits, OutOfMemory, ServedTables, TableDef, TableDefs, Text};
use shape_def::Def;
use shape_registry::Registry;
use shape_state::Shape;
use std::alloc::Global;

/// A server: its registry, which keeps the shape of each live number, what it was started with, and the bytes of all logs together.
#[derive(Drop)]
pub struct Server {
    pub(crate) registry: Registry<Shape<Def>>,
    /// The name of its run.
    pub(crate) run: Text,
    pub(crate) limits: Limits,
    pub(crate) tables: ServedTables,
    /// The sum of the bytes of all logs.
    pub(crate) total: u64,
}

impl Server {
    /// A server that was asked nothing: its limits, the served tables, the definition of each in the table's place, and the name of its run.
    pub fn new(
        alloc: Global,
        limits: Limits,
        tables: ServedTables,
        defs: TableDefs,
        run: Text,
    ) -> Result<Server, OutOfMemory>
        requires { IsCatalog tables defs }
        ensures { IfOk result (Stands (options_of limits tables defs run) nothing) }
    {
        let registry = Registry::new(alloc, run.copy(alloc)?, limits.shapes, defs)?;
        Ok(Server {
            registry,
            run,
            limits,
            tables,
            total: 0,
        })
    }

    /// The shape of a number is dropped from outside, for this cause, and the number is live no more. The bytes of its log are no longer counted.
    fn drop_number(&mut self, number: u64, cause: Cause)
        ensures stands { Moves self.old (λ o v. dropped v number cause) self.new }
        ensures tables { self.new.tables ≡ self.old.tables }
        ensures count { length self.new.registry.state.catalog ≡ length self.old.registry.state.catalog }
    {
        if let Some(shape) = self.registry.remove(number, cause) {
            self.total = self.total.saturating_sub(shape.bytes());
        }
    }

    /// The removal of a number was asked for: its shape is dropped, and the number is live no more.
    pub fn remove(&mut self, number: u64)
        ensures { Moves self.old (λ o v. dropped v number causes.Deleted) self.new }
    {
        self.drop_number(number, Cause::Deleted);
    }
    /// A table has a new definition.
    pub(crate) fn redefine(&mut self, definition: TableDef)
        requires new { IsNew self.old.tables definition }
        requires served { definition.table < length self.old.registry.state.catalog }
        ensures stands { Moves self.old (λ o v. with_registry v (events.Redefined definition)) self.new }
        ensures tables { self.new.tables ≡ self.old.tables }
        ensures count { length self.new.registry.state.catalog ≡ length self.old.registry.state.catalog }
    {
        self.registry.redefine(definition);
    }

    /// The snapshot of a number was refused: its shape is dropped, and the number is live no more. Where the snapshot came under another definition, that is its table's from now on.
    pub fn refuse(&mut self, number: u64, definition: Option<TableDef>)
        requires situated { IsSituated self.old }
        requires new { IfSome definition (IsNew self.old.tables) }
        ensures { Moves self.old (λ o v. redefined (dropped v number causes.SnapshotFailed) definition) self.new }
    {
        self.drop_number(number, Cause::SnapshotFailed);
        if let Some(definition) = definition {
            self.redefine(definition);
        }
    }
}

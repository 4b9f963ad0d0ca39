//! A registry under the calls of a script.
ghost use Rattle.std.specs.Prelude.{◌≡◌, ◌<◌, length, IfOk};
ghost use Rattle.shape_registry.specs.State.{lsn_in};

use super::printing::{found, number_or, numbers, registered, standing};
use cases::{cut, number_of};
use shape_base::{
    Ask, Cause, Columns, Handle, HandleError, Named, Offset, OutOfMemory, TableDef, TableDefs, Text,
};
use shape_registry::{Found, Registry, Standing};
use std::alloc::Global;

/// A registry of values that are numbers. It has two tables.
#[derive(Drop)]
pub struct Board {
    registry: Registry<u64>,
    /// The LSN of the last transaction taken.
    newest: u64,
    ghost tables: { length registry.state.catalog ≡ 2 },
    ghost taken: { lsn_in registry.state ≡ newest },
}

/// A definition without columns.
fn definition(alloc: Global, table: u32, oid: u32) -> TableDef
    ensures { result.table ≡ table }
{
    TableDef {
        table,
        oid,
        columns: Columns::new(alloc),
    }
}

/// The definitions of the two tables.
fn definitions(alloc: Global) -> Result<TableDefs, OutOfMemory>
    ensures { IfOk result (λ defs. length defs ≡ 2) }
{
    let mut definitions = TableDefs::new(alloc);
    definitions.push(definition(alloc, 0, 16384))?;
    definitions.push(definition(alloc, 1, 16385))?;
    Ok(definitions)
}

/// The handle that a request names by a text; none for an empty one.
fn named_by(alloc: Global, text: &str) -> Result<Named, OutOfMemory> {
    if text.is_empty() {
        return Ok(Named::Absent);
    }
    match Handle::read(alloc, text.as_bytes()) {
        Ok(handle) => Ok(Named::Known(handle)),
        Err(HandleError::BadHandle) => Ok(Named::Strange),
        Err(HandleError::OutOfMemory) => Err(OutOfMemory),
    }
}

/// A request of an identity, which names a handle by this text.
pub fn ask_for(alloc: Global, identity: &str, text: &str) -> Result<Ask, OutOfMemory> {
    Ok(Ask {
        table: 0,
        columns: None,
        clause: None,
        identity: Text::of(alloc, identity)?,
        named: named_by(alloc, text)?,
        offset: Offset::Start,
        live: false,
        cursor: 0,
    })
}

impl Board {
    pub fn new(alloc: Global, limit: u64) -> Result<Board, OutOfMemory> {
        let run = Text::of(alloc, "r")?;
        let definitions = definitions(alloc)?;
        let registry = Registry::new(alloc, run, limit, definitions)?;
        Ok(Board {
            registry,
            newest: 0,
        })
    }

    /// An identity is given a number, and its handle is ready.
    pub fn start(&mut self, alloc: Global, identity: &str) -> Result<(), OutOfMemory> {
        let identity = Text::of(alloc, identity)?;
        let Ok(number) = self.registry.register(alloc, identity, 0, 0) else {
            return Ok(());
        };
        self.ready(alloc, number)?;
        Ok(())
    }

    /// A request finds a ready handle.
    pub fn is_ready(&self, ask: &Ask) -> bool {
        matches!(self.registry.lookup(ask), Found::Ready { .. })
    }

    fn register(&mut self, alloc: Global, words: &str) -> Result<String, OutOfMemory> {
        let (identity, value) = cut(words, ' ');
        let identity = Text::of(alloc, identity)?;
        let answer = self.registry.register(alloc, identity, 0, number_of(value));
        registered(alloc, answer)
    }

    fn ready(&mut self, alloc: Global, number: u64) -> Result<String, OutOfMemory> {
        match self.registry.standing(number) {
            Standing::Starting => {
                self.registry.ready(number);
                Ok(format!(in alloc; "ready")?)
            }
            Standing::Ready | Standing::NotLive => Ok(format!(in alloc; "not starting")?),
        }
    }

    fn remove(&mut self, alloc: Global, number: u64) -> Result<String, OutOfMemory> {
        let value = self.registry.remove(number, Cause::Deleted);
        number_or(alloc, "value", value, "not live")
    }

    fn lookup(&self, alloc: Global, words: &str) -> Result<String, OutOfMemory> {
        let (identity, text) = cut(words, ' ');
        let ask = ask_for(alloc, identity, text)?;
        found(alloc, self.registry.lookup(&ask))
    }

    fn write(&mut self, alloc: Global, number: u64, value: u64) -> Result<String, OutOfMemory> {
        match self.registry.kept_mut(number) {
            Some(kept) => {
                *kept = value;
                Ok(format!(in alloc; "written")?)
            }
            None => Ok(format!(in alloc; "not live")?),
        }
    }

    fn take(&mut self, alloc: Global, lsn: u64, words: &str) -> Result<String, OutOfMemory> {
        let xid = words.parse::<u32>().unwrap_or(0);
        if lsn <= self.newest {
            return Ok(format!(in alloc; "not above")?);
        }
        let live = self.registry.take(alloc, lsn, xid)?;
        self.newest = lsn;
        numbers(alloc, &live)
    }

    fn define(&mut self, alloc: Global, table: u64, words: &str) -> Result<String, OutOfMemory> {
        if table > 1 {
            return Ok(format!(in alloc; "no such table")?);
        }
        let oid = words.parse::<u32>().unwrap_or(0);
        self.registry.redefine(definition(alloc, table as u32, oid));
        Ok(format!(in alloc; "defined")?)
    }

    fn catalog(&self, alloc: Global, table: u64) -> Result<String, OutOfMemory> {
        if table > 1 {
            return Ok(format!(in alloc; "no such table")?);
        }
        let oid = self.registry.catalog(table as u32).oid;
        Ok(format!(in alloc; "oid {oid}")?)
    }

    fn last(&self, alloc: Global) -> Result<String, OutOfMemory> {
        match self.registry.last() {
            Some(xid) => Ok(format!(in alloc; "last {xid}")?),
            None => Ok(format!(in alloc; "none taken")?),
        }
    }

    /// What one call answers.
    pub fn call(&mut self, alloc: Global, call: &str) -> Result<String, OutOfMemory> {
        let (name, words) = cut(call, ' ');
        let (first, second) = cut(words, ' ');
        let number = number_of(first);
        match name {
            "register" => self.register(alloc, words),
            "ready" => self.ready(alloc, number),
            "remove" => self.remove(alloc, number),
            "lookup" => self.lookup(alloc, words),
            "standing" => standing(alloc, self.registry.standing(number)),
            "kept" => number_or(
                alloc,
                "value",
                self.registry.kept(number).copied(),
                "not live",
            ),
            "write" => self.write(alloc, number, number_of(second)),
            "before" => number_or(alloc, "before", self.registry.before(number), "not live"),
            "take" => self.take(alloc, number, second),
            "last" => self.last(alloc),
            "taken" => number_or(alloc, "taken", Some(self.registry.taken()), ""),
            "define" => self.define(alloc, number, second),
            "catalog" => self.catalog(alloc, number),
            _ => Ok(format!(in alloc; "no such call")?),
        }
    }
}

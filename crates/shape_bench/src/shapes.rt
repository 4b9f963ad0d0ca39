//! The shape.
ghost use Rattle.std.specs.Prelude.{◌≡◌, length, IfOk};

use cases::{ask_of, definition_of, served_of, tables_of};
use pg_dialogue::SnapHead;
use shape_base::{Duplicate, Limits, OutOfMemory, RowTest, ServedTables, Text};
use shape_def::Def;
use shape_snapshot::Snap;
use shape_state::Shape;
use std::alloc::Global;

/// The one served table, `public.items`.
fn items(alloc: Global) -> Result<ServedTables, OutOfMemory>
    ensures { IfOk result (λ tables. length tables ≡ 1) }
{
    tables_of(alloc, served_of(alloc, "public", "items", "id")?)
}

/// The definition of a shape of that table, of which the clause selects rows; each where it is empty.
fn def_of(alloc: Global, clause: &str) -> Result<Def, OutOfMemory> {
    let clause = if clause.is_empty() {
        None
    } else {
        Some(Text::of(alloc, clause)?)
    };
    let ask = ask_of(None, clause, Text::of(alloc, "")?);
    let tables = items(alloc)?;
    let definition = definition_of(alloc, "id 23,n 23,s 25", ',')?;
    Def::from_ask(alloc, &ask, &tables, &definition).map_err(|_| OutOfMemory)
}

/// Chunks of 64 KiB, and logs as large as memory allows.
fn limits() -> Limits {
    Limits {
        chunk: 65_536,
        log: 9_223_372_036_854_775_807,
        all: 9_223_372_036_854_775_807,
        pending: 9_223_372_036_854_775_807,
        shapes: 1,
        hold: 1,
    }
}

/// A shape with this clause, which began with a snapshot that shows no row. An empty clause selects each row.
pub(crate) fn ready_shape(alloc: Global, clause: &str) -> Result<Shape<Def>, OutOfMemory> {
    let mut shape = Shape::begin(alloc, def_of(alloc, clause)?, limits())?;
    let head = SnapHead {
        vis: Text::of(alloc, "1:1:")?,
        oid: shape.test().definition().oid,
        columns: shape.test().definition().columns.copy(alloc)?,
    };
    let limits = shape.limits();
    let Ok(snap) = Snap::start(alloc, shape.test(), None, &head, &limits) else {
        return Err(OutOfMemory);
    };
    if shape.is_unready() {
        shape.ready(snap).map_err(|_| OutOfMemory)?;
    }
    Ok(shape)
}

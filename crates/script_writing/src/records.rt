//! Records.
ghost use Rattle.std.specs.Prelude.{◌≡◌};
ghost use Rattle.script_writing.specs.Outcomes.{Puts, Writes};
ghost use Rattle.script_writing.specs.Records.{start, kind, payload, record_spelling};

use crate::events::{event_kind, framed, put_event};
use crate::fault::WriteError;
use crate::parts::put_int16;
use crate::rows::put_rows;
use crate::table::put_table;
use script::{Record, StartRows};
use shape_base::Octets;
use std::alloc::Global;

/// The rows of a served table at the start.
fn put_start(out: &mut Vec<u8>, given: &StartRows) -> Result<(), WriteError>
    ensures { Puts result out.old.items out.new.items (start given.now) }
{
    put_int16(out, u64::from(given.table))?;
    put_rows(out, &given.rows)?;
    Ok(())
}

/// What a record has behind its length.
fn put_payload(alloc: Global, out: &mut Vec<u8>, record: &Record) -> Result<(), WriteError>
    ensures { Puts result out.old.items out.new.items (payload «record».now) }
{
    match record {
        Record::Table(declaration) => put_table(alloc, out, declaration),
        Record::Start(start) => put_start(out, start),
        Record::Brings(event) => put_event(out, event),
        Record::End => Ok(()),
    }
}

/// The kind byte of a record.
fn kind(record: &Record) -> u8
    ensures { result ≡ kind «record».now }
{
    match record {
        Record::Table(_) => b'T',
        Record::Start(_) => b'B',
        Record::Brings(event) => event_kind(event),
        Record::End => b'E',
    }
}

/// The bytes of a record.
///
/// `Unwritable` exactly where it does not fit: a name has a zero byte, a count or a length has no room in its field, or a table is none
/// that can be declared.
pub fn write_record(alloc: Global, record: &Record) -> Result<Octets, WriteError>
    ensures { Writes result (record_spelling «record».now) }
{
    let mut payload = Vec::new(alloc);
    put_payload(alloc, &mut payload, record)?;
    framed(alloc, kind(record), &payload)
}

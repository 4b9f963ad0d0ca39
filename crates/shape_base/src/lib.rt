//! The types that all crates speak of: values, rows, definitions, changes and transactions; offsets, handles, entries,
//! pages and replies; the traits of the outside. Beside them, in `specs/`, stand the definitions that contracts speak of
//! (tables under changes, histories, snapshots, what a shape knows, logs), and in `laws` the laws over them.
#![tactic(auto)]

mod ask;
mod cause;
mod change;
mod decimal;
mod definition;
mod entry;
mod handle;
mod history;
mod in_memory;
pub mod laws;
mod limits;
mod memory;
mod offset;
mod outside;
mod page;
mod plain;
mod quote;
mod registry_event;
mod reply;
mod row_test;
mod same;
mod seq;
mod served;
mod standard;
mod text;
mod truth;
mod value;

pub use ask::{Ask, Named};
pub use cause::Cause;
pub use change::{Change, ChangeKind, Changes, Tx, Txs};
pub use decimal::{read_decimal, split_at_first};
pub use definition::{Column, Columns, TableDef, TableDefs};
pub use entry::{Cell, Cells, Entries, Entry, KeyedRow, KeyedRows, Op};
pub use handle::{Handle, HandleError, is_run};
pub use history::{History, ServedTables, Step, Steps};
pub use in_memory::{MemorySink, MemorySource};
pub use limits::Limits;
pub use memory::{Duplicate, OutOfMemory};
pub use offset::{BadOffset, Offset};
pub use outside::{Failed, Sink, Source, Traffic};
pub use page::Page;
pub use plain::Plain;
pub use quote::push_quoted;
pub use registry_event::RegistryEvent;
pub use reply::Reply;
pub use row_test::{BadValue, RowTest, is_selected};
pub use same::{are_same_defs, are_same_rows, are_same_texts, are_same_values};
pub use seq::{Numbers, Octets, Oids, Places, Seq};
pub use served::Served;
pub use standard::{Input, Output};
pub use text::{NotUtf8, Text, TextError, Texts};
pub use truth::Tri;
pub use value::{Row, Rows, Tables, Value};

/// The exit status of a program.
pub type Status = u8;

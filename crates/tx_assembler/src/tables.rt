//! The served tables.
ghost use Rattle.std.specs.Prelude.{◌≡◌, ◌<◌, length};
ghost use Rattle.tx_assembler.specs.Kept.{is_named, table_named};

use shape_base::{Served, Text};

fn is_named(table: &Served, ns: &Text, name: &Text) -> bool
    ensures { result ≡ is_named ns.now name.now table.now }
{
    *ns == table.ns && *name == table.name
}

/// The place of the first served table of this name.
pub(crate) fn table_named(tables: &[Served], ns: &Text, name: &Text) -> Option<u32>
    requires { length tables.now < 4294967296 }
    ensures { result ≡ table_named tables.now ns.now name.now }
{
    let mut place = 0;
    let mut rest = tables;
    while let [table, others @ ..] = rest {
        if is_named(table, ns, name) {
            return Some(place);
        }
        place += 1;
        rest = others;
    }
    None
}

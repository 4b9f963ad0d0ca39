//! The text that tells shapes apart.
ghost use Rattle.std.specs.Prelude.{◌≡◌, ◌++◌, ◌∷◌, [], IfOk, OnOk, if◌then◌else◌};
ghost use Rattle.std.specs.Option.{option_copied};
ghost use Rattle.std.specs.Str.{IsUtf8};
ghost use Rattle.shape_base.specs.Shape.{quoted};
ghost use Rattle.shape_def.specs.Identity.{in_order, joined, columns_part, clause_part, identity};

use shape_base::{Duplicate, OutOfMemory, Served, Text, Texts, push_quoted};
use std::alloc::Global;
use std::collections::BTreeSet;

/// The names in byte order, each once.
pub(crate) fn name_set(alloc: Global, names: &Texts) -> Result<BTreeSet<Text>, OutOfMemory>
    ensures { IfOk result (λ set. set.keys ≡ in_order names.now) }
{
    let mut set = BTreeSet::new(alloc);
    let mut left = names.len();
    while left > 0 {
        left -= 1;
        let _new = set.insert(names.at(left).copy(alloc)?)?;
    }
    Ok(set)
}

/// Adds a name in quotes at the end.
fn push_name(out: &mut Vec<u8>, name: &Text) -> Result<(), OutOfMemory>
    ensures added { OnOk result (out.new.items ≡ out.old.items ++ quoted name.now) }
    ensures utf8 { OnOk result (IsUtf8 out.old.items → IsUtf8 out.new.items) }
{
    let words = name.as_bytes();
    push_quoted(out, words)?;
    Ok(())
}

/// Adds a comma at the end, but before the first name.
fn push_comma(out: &mut Vec<u8>, first: bool) -> Result<(), OutOfMemory>
    ensures added { OnOk result (out.new.items ≡ out.old.items ++ (if first then [] else 44 ∷ [])) }
    ensures utf8 { OnOk result (IsUtf8 out.old.items → IsUtf8 out.new.items) }
{
    if first {
        return Ok(());
    }
    out.push(b',')?;
    Ok(())
}

/// Adds the names in quotes, joined by commas, at the end.
fn push_names(out: &mut Vec<u8>, names: &BTreeSet<Text>) -> Result<(), OutOfMemory>
    ensures added { OnOk result (out.new.items ≡ out.old.items ++ joined names.now.keys) }
    ensures utf8 { OnOk result (IsUtf8 out.old.items → IsUtf8 out.new.items) }
{
    let mut first = true;
    for name in names.iter() {
        push_comma(out, first)?;
        push_name(out, name)?;
        first = false;
    }
    Ok(())
}

fn push_columns(
    alloc: Global,
    out: &mut Vec<u8>,
    columns: Option<&Texts>,
) -> Result<(), OutOfMemory>
    ensures added { OnOk result (out.new.items ≡ out.old.items ++ columns_part (option_copied columns.entry)) }
    ensures utf8 { OnOk result (IsUtf8 out.old.items → IsUtf8 out.new.items) }
{
    if let Some(names) = columns {
        let names = name_set(alloc, names)?;
        out.extend_from_slice(b" columns ")?;
        push_names(out, &names)?;
        return Ok(());
    }
    Ok(())
}

fn push_clause(out: &mut Vec<u8>, clause: Option<&Text>) -> Result<(), OutOfMemory>
    ensures added { OnOk result (out.new.items ≡ out.old.items ++ clause_part (option_copied clause.entry)) }
    ensures utf8 { OnOk result (IsUtf8 out.old.items → IsUtf8 out.new.items) }
{
    if let Some(clause) = clause {
        let words = clause.as_bytes();
        out.extend_from_slice(b" where ")?;
        out.extend_from_slice(words)?;
        return Ok(());
    }
    Ok(())
}

fn push_table(out: &mut Vec<u8>, table: &Served) -> Result<(), OutOfMemory>
    ensures added { OnOk result (out.new.items ≡ out.old.items ++ (quoted table.now.ns ++ 46 ∷ quoted table.now.name)) }
    ensures utf8 { OnOk result (IsUtf8 out.old.items → IsUtf8 out.new.items) }
{
    push_name(out, &table.ns)?;
    out.push(b'.')?;
    push_name(out, &table.name)?;
    Ok(())
}

/// The text that tells a shape apart from others: the namespace and the table in quotes, joined by
/// a dot; where columns are chosen, ` columns ` and their names in quotes, in byte order, each
/// once, joined by commas; where there is a clause, ` where ` and the clause, which is a canonical
/// text. Each quote inside quotes is doubled.
pub fn identity(
    alloc: Global,
    table: &Served,
    columns: Option<&Texts>,
    clause: Option<&Text>,
) -> Result<Text, OutOfMemory>
    ensures { IfOk result (λ text. text ≡ identity (record { ns = table.now.ns; name = table.now.name; columns = option_copied columns.entry; clause = option_copied clause.entry })) }
{
    let mut out = Vec::new(alloc);
    push_table(&mut out, table)?;
    push_columns(alloc, &mut out, columns)?;
    push_clause(&mut out, clause)?;
    Ok(Text::of_bytes(out))
}

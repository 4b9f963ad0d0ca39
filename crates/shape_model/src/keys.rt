//! Key values of rows, and whether rows may stand under a definition.
ghost use Rattle.std.specs.Prelude.{◌≡◌, ◌++◌, IfOk, OnOk, map, false};
ghost use Rattle.std.specs.List.{list_any, slice_index_or};
ghost use Rattle.std.specs.Str.{IsUtf8};
ghost use Rattle.shape_base.specs.declared.value.Value.TheVariants.{Null};
ghost use Rattle.shape_base.specs.Tables.{is_null, places_of};
ghost use Rattle.shape_base.specs.Tables as tables;
ghost use Rattle.shape_model.specs.Checks as checks;
ghost use Rattle.shape_model.specs.Checks.{value_text};

use shape_base::{
    Columns, Numbers, OutOfMemory, Row, Rows, Served, TableDef, Text, Texts, Value, are_same_texts,
    push_quoted,
};
use std::alloc::Global;
use std::collections::BTreeMap;

/// The place of the first column of that name.
fn place_of(columns: &Columns, name: &Text) -> Option<u64>
    ensures { result ≡ tables.place_of columns.now name.now }
{
    for place in 0..columns.len() {
        if are_same_texts(name, &columns.at(place).name) {
            return Some(place);
        }
    }
    None
}

/// The places of the columns of these names, where all of them are there.
fn places(alloc: Global, columns: &Columns, names: &Texts) -> Result<Option<Numbers>, OutOfMemory>
    ensures { IfOk result (λ found. found ≡ places_of columns.now names.now) }
{
    let mut found = Numbers::new(alloc);
    for name in names.as_slice() {
        match place_of(columns, name) {
            None => return Ok(None),
            Some(place) => found.push(place)?,
        }
    }
    Ok(Some(found))
}

fn is_null_at(row: &Row, place: u64) -> bool
    ensures { result ≡ is_null (slice_index_or row.now place Null) }
{
    match row.as_slice().get(place as usize) {
        None => true,
        Some(Value::Null) => true,
        Some(Value::Words(_)) => false,
    }
}

fn lacks_key(key: &Numbers, row: &Row) -> bool
    ensures { result ≡ tables.lacks_key key.now row.now }
{
    for place in key.as_slice() {
        if is_null_at(row, *place) {
            return true;
        }
    }
    false
}

fn some_lack(key: &Numbers, rows: &Rows) -> bool
    ensures { result ≡ list_any (tables.lacks_key key.now) rows.now }
{
    for row in rows.as_slice() {
        if lacks_key(key, row) {
            return true;
        }
    }
    false
}

/// Adds the text of the value in a place; one that is null or not there has an empty text.
pub(crate) fn push_value(out: &mut Vec<u8>, row: &Row, place: u64) -> Result<(), OutOfMemory>
    ensures more { OnOk result (out.new.items ≡ out.old.items ++ value_text (slice_index_or row.now place Null)) }
    ensures utf8 { OnOk result (IsUtf8 out.old.items → IsUtf8 out.new.items) }
{
    out.push(47)?;
    match row.as_slice().get(place as usize) {
        None => push_quoted(out, &[])?,
        Some(Value::Null) => push_quoted(out, &[])?,
        Some(Value::Words(words)) => push_quoted(out, words.as_bytes())?,
    }
    Ok(())
}

/// The key values of a row as one text.
fn values_text(alloc: Global, key: &Numbers, row: &Row) -> Result<Text, OutOfMemory>
    ensures { IfOk result (λ text. text ≡ checks.values_text key.now row.now) }
{
    let mut out = Vec::new(alloc);
    for place in key.as_slice() {
        push_value(&mut out, row, *place)?;
    }
    Ok(Text::of_bytes(out))
}

/// Whether no two rows have equal key values.
fn are_new(alloc: Global, key: &Numbers, rows: &Rows) -> Result<bool, OutOfMemory>
    ensures { IfOk result (λ new. new ≡ checks.are_new (λ q. false) (map (checks.values_text key.now) rows.now)) }
{
    let mut seen: BTreeMap<Text, u64> = BTreeMap::new(alloc);
    for place in 0..rows.len() {
        let text = values_text(alloc, key, rows.at(place))?;
        if seen.contains_key(&text) {
            return Ok(false);
        }
        let _before = seen.insert(text, place)?;
    }
    Ok(true)
}

fn are_keyed(alloc: Global, key: &Numbers, rows: &Rows) -> Result<bool, OutOfMemory>
    ensures { IfOk result (λ fit. fit ≡ checks.are_keyed key.now rows.now) }
{
    if some_lack(key, rows) {
        return Ok(false);
    }
    are_new(alloc, key, rows)
}

fn are_wide(def: &TableDef, rows: &Rows) -> bool
    ensures { result ≡ checks.are_wide def.now rows.now }
{
    for row in rows.as_slice() {
        if row.len() != def.columns.len() {
            return false;
        }
    }
    true
}

/// Whether the rows may stand under the definition.
pub fn fit_def(
    alloc: Global,
    served: &Served,
    def: &TableDef,
    rows: &Rows,
) -> Result<bool, OutOfMemory>
    ensures { IfOk result (λ fit. fit ≡ checks.fit_def served.now def.now rows.now) }
{
    if !are_wide(def, rows) {
        return Ok(false);
    }
    match places(alloc, &def.columns, &served.key)? {
        None => Ok(true),
        Some(key) => are_keyed(alloc, &key, rows),
    }
}

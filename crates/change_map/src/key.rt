//! The key text of a row: `"ns"."table"/"value"/"value"`, each quote inside a part doubled.
ghost use Rattle.std.specs.Prelude.{ℕ, min, map, ◌≡◌, ◌<◌, true, false, IfOk, OnOk, IsErrOf, MatchOption, slice_index_or, ◌∷◌, ◌++◌, length};
ghost use Rattle.std.specs.List.{flat_map, AllByRecursion};
ghost use Rattle.std.specs.Str.{IsUtf8};
ghost use Rattle.shape_base.specs.declared.value.Value.TheVariants.{Null};
ghost use Rattle.shape_base.specs.Tables.{Values, is_null, lacks_key, key_values, same_row, same_text};
ghost use Rattle.shape_base.specs.Shape.{Knows, IsLeast, quoted, words_of, key_text};
ghost use Rattle.change_map.specs.Keys.{is_null_key, AreParts, Spells, parts_of, TellsKey};

use shape_base::{OutOfMemory, Row, RowTest, Served, Text, Value, are_same_values, push_quoted};
use std::alloc::{AllocError, Global};

/// Why a row has no key text.
#[derive(Clone, Copy, Debug, PartialEq, Eq)]
pub enum KeyError {
    /// A key column is null; this is the place of the least such column.
    NullKey { column: u32 },
    OutOfMemory,
}

impl From<OutOfMemory> for KeyError {
    ghost use Rattle.std.specs.Prelude.{◌≡◌};
    ghost use Rattle.change_map.specs.declared.key.KeyError.TheVariants as errors;

    ghost from_gives = { λ _ e. e ≡ errors.OutOfMemory };

    fn from(_error: OutOfMemory) -> KeyError {
        KeyError::OutOfMemory
    }
}

fn is_null(value: &Value) -> bool
    ensures { result ≡ is_null value.now }
{
    match value {
        Value::Null => true,
        Value::Words(_) => false,
    }
}

fn value_at(row: &Row, place: u32) -> &Value
    requires { place < length row.now }
    ensures { result.now ≡ slice_index_or row.now place Null }
{
    row.at(u64::from(place))
}

fn is_null_at(row: &Row, place: u32) -> bool
    requires { place < length row.now }
    ensures { result ≡ is_null (slice_index_or row.now place Null) }
{
    is_null(value_at(row, place))
}

fn words_of(value: &Value) -> &[u8]
    ensures words { result.now ≡ words_of value.now }
    ensures utf8 { IsUtf8 result.now }
{
    match value {
        Value::Null => b"",
        Value::Words(words) => words.as_bytes(),
    }
}

/// The lesser of a place and one that may be there.
fn lesser(place: u32, other: Option<u32>) -> u32
    ensures { MatchOption other (result ≡ place) (λ o. result ≡ min place o) }
{
    match other {
        None => place,
        Some(other) => place.min(other),
    }
}

/// The least key column that is null, or none.
pub(crate) fn null_key(key: &[u32], row: &Row) -> Option<u32>
    requires { AllByRecursion (λ p. p < length row.now) key.now }
    ensures { MatchOption result (lacks_key key.now row.now ≡ false) (λ column. (lacks_key key.now row.now ≡ true) × IsLeast (is_null_key key.now row.now) column) }
{
    let mut least = None;
    for place in key {
        if is_null_at(row, *place) {
            least = Some(lesser(*place, least));
        }
    }
    least
}

/// Whether two rows have equal values in the key columns.
fn have_same_values(key: &[u32], old: &Row, new: &Row) -> bool
    requires old { AllByRecursion (λ p. p < length old.now) key.now }
    requires new { AllByRecursion (λ p. p < length new.now) key.now }
    ensures { result ≡ same_row (key_values key.now old.now) (key_values key.now new.now) }
{
    for place in key {
        let place = u64::from(*place);
        if !are_same_values(old.at(place), new.at(place)) {
            return false;
        }
    }
    true
}

/// Whether two rows whose key values are texts have the same key text. It takes no memory.
pub(crate) fn have_same_key<T: RowTest>(test: &T, old: &Row, new: &Row) -> bool
    requires old { length old.now ≡ length (T.knows test.now).definition.columns }
    requires new { length new.now ≡ length (T.knows test.now).definition.columns }
    requires old_key { lacks_key (T.knows test.now).key old.now ≡ false }
    requires new_key { lacks_key (T.knows test.now).key new.now ≡ false }
    ensures { result ≡ same_text (key_text (T.knows test.now) old.now) (key_text (T.knows test.now) new.now) }
{
    have_same_values(test.key().as_slice(), old, new)
}

fn push_value(out: &mut Vec<u8>, value: &Value) -> Result<(), OutOfMemory>
    ensures added { OnOk result (out.new.items ≡ out.old.items ++ 47 ∷ quoted (words_of value.now)) }
    ensures words { OnOk result (IsUtf8 (words_of value.now)) }
    ensures utf8 { OnOk result (IsUtf8 out.old.items → IsUtf8 out.new.items) }
{
    let words = words_of(value);
    out.push(b'/')?;
    push_quoted(out, words)?;
    Ok(())
}

fn push_values(out: &mut Vec<u8>, key: &[u32], row: &Row) -> Result<(), OutOfMemory>
    requires { AllByRecursion (λ p. p < length row.now) key.now }
    ensures added { OnOk result (out.new.items ≡ out.old.items ++ flat_map (λ v. 47 ∷ quoted (words_of v)) (key_values key.now row.now)) }
    ensures words { OnOk result (AllByRecursion IsUtf8 (map words_of (key_values key.now row.now))) }
    ensures utf8 { OnOk result (IsUtf8 out.old.items → IsUtf8 out.new.items) }
{
    for place in key {
        push_value(out, value_at(row, *place))?;
    }
    Ok(())
}

/// The room that a key text begins with, in bytes: enough for most, so that it seldom grows.
const KEY_ROOM: usize = 64;

/// The front of each key text of a table: its namespace and its name in quotes, joined by a dot.
fn table_front(alloc: Global, served: &Served) -> Result<Vec<u8>, OutOfMemory>
    ensures front { IfOk result (λ front. front.items ≡ quoted served.now.ns ++ 46 ∷ quoted served.now.name) }
    ensures ns { IfOk result (λ front. IsUtf8 served.now.ns) }
    ensures name { IfOk result (λ front. IsUtf8 served.now.name) }
    ensures utf8 { IfOk result (λ front. IsUtf8 front.items) }
{
    let mut front = Vec::with_capacity(alloc, KEY_ROOM)?;
    let ns = served.ns.as_bytes();
    let name = served.name.as_bytes();
    push_quoted(&mut front, ns)?;
    front.push(b'.')?;
    push_quoted(&mut front, name)?;
    Ok(front)
}

/// The key text of a row, whose key values are texts.
pub(crate) fn write_key<T: RowTest>(alloc: Global, test: &T, row: &Row) -> Result<Text, OutOfMemory>
    requires { length row.now ≡ length (T.knows test.now).definition.columns }
    ensures text { IfOk result (λ text. text ≡ key_text (T.knows test.now) row.now) }
    ensures parts { IfOk result (λ text. AreParts (parts_of (T.knows test.now) row.now)) }
{
    let mut bytes = table_front(alloc, test.served())?;
    push_values(&mut bytes, test.key().as_slice(), row)?;
    Ok(Text::of_bytes(bytes))
}

/// The key text of a row: the namespace and the table in quotes, joined by a dot, and for each key
/// column a slash and its value in quotes. Each quote inside a part is doubled.
///
/// Refuses `NullKey` exactly where a key column is null.
pub fn key_text<T: RowTest>(alloc: Global, test: &T, row: &Row) -> Result<Text, KeyError>
    requires { length row.now ≡ length (T.knows test.now).definition.columns }
    ensures text { IfOk result (λ text. text ≡ key_text (T.knows test.now) row.now) }
    ensures given { IfOk result (λ text. lacks_key (T.knows test.now).key row.now ≡ false) }
    ensures null { (column : ℕ) → IsErrOf result (KeyError.NullKey column) → IsLeast (is_null_key (T.knows test.now).key row.now) column }
    ensures tells { IfOk result (λ text. TellsKey (T.knows test.now) row.now text) }
    ensures parts { IfOk result (Spells (parts_of (T.knows test.now) row.now)) }
{
    if let Some(column) = null_key(test.key().as_slice(), row) {
        return Err(KeyError::NullKey { column });
    }
    Ok(write_key(alloc, test, row)?)
}

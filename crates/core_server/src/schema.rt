//! The schema line of a reply: the selected columns with the OIDs of their types.
ghost use Rattle.std.specs.Prelude.{◌≡◌, ◌∷◌, ◌++◌, [], map, IfOk, OnOk, slice_get};
ghost use Rattle.std.specs.List.{flat_map};
ghost use Rattle.std.specs.Option.{option_copied};
ghost use Rattle.std.specs.String.{string_bytes};
ghost use Rattle.form_urlencoded.specs.Form.{byte_serialize};
ghost use Rattle.http_edge.specs.Schema.{column_text, columns_text};
ghost use Rattle.core_server.specs.Columns.{column_in};

use form_urlencoded::Serializer;
use shape_base::{Column, Columns, OutOfMemory, Places, Text};
use std::alloc::Global;

/// A name as a web form has it.
fn name_text(alloc: Global, name: &str) -> Result<String, OutOfMemory>
    ensures { IfOk result (λ text. string_bytes text ≡ byte_serialize name.now) }
{
    let mut form = Serializer::new(String::new(alloc));
    form.append_key_only(name)?;
    Ok(form.finish())
}

/// Appends a column.
fn push_column(alloc: Global, text: &mut String, column: &Column) -> Result<(), OutOfMemory>
    ensures { OnOk result (string_bytes text.new ≡ string_bytes text.old ++ column_text column.now) }
{
    let name = name_text(alloc, column.name.as_str())?;
    let oid = column.oid;
    let both = format!(in alloc; "{name}:{oid}")?;
    text.push_str(&both)?;
    Ok(())
}

/// The column in a place.
fn column_at(columns: &Columns, place: u32) -> Option<&Column>
    ensures { option_copied result ≡ slice_get columns.now place }
{
    columns.as_slice().get(place as usize)
}

/// Appends the column in a place.
fn push_place(
    alloc: Global,
    text: &mut String,
    columns: &Columns,
    place: u32,
) -> Result<(), OutOfMemory>
    ensures { OnOk result (string_bytes text.new ≡ string_bytes text.old ++ column_text (column_in columns.now place)) }
{
    match column_at(columns, place) {
        Some(column) => push_column(alloc, text, column),
        None => {
            let none = Column {
                name: Text::from_string(String::new(alloc)),
                oid: 0,
            };
            push_column(alloc, text, &none)
        }
    }
}

/// Appends the columns in these places, each behind a comma.
fn push_places(
    alloc: Global,
    text: &mut String,
    columns: &Columns,
    places: &[u32],
) -> Result<(), OutOfMemory>
    ensures { OnOk result (string_bytes text.new ≡ string_bytes text.old ++ flat_map (λ place. 44 ∷ column_text (column_in columns.now place)) places.now) }
{
    for place in places {
        text.push_str(",")?;
        push_place(alloc, text, columns, *place)?;
    }
    Ok(())
}

/// The columns in these places, joined by commas.
fn some_schema(
    alloc: Global,
    columns: &Columns,
    first: u32,
    rest: &[u32],
) -> Result<Text, OutOfMemory>
    ensures { IfOk result (λ text. text ≡ columns_text (map (column_in columns.now) (first ∷ rest.now))) }
{
    let mut text = String::new(alloc);
    push_place(alloc, &mut text, columns, first)?;
    push_places(alloc, &mut text, columns, rest)?;
    Ok(Text::from_string(text))
}

/// The columns in these places, joined by commas.
pub(crate) fn schema_of(
    alloc: Global,
    columns: &Columns,
    selected: &Places,
) -> Result<Text, OutOfMemory>
    ensures { IfOk result (λ text. text ≡ columns_text (map (column_in columns.now) selected.now)) }
{
    match selected.as_slice().split_first() {
        None => Ok(Text::from_string(String::new(alloc))),
        Some((first, rest)) => some_schema(alloc, columns, *first, rest),
    }
}

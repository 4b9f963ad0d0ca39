//! Targets of requests.
ghost use Rattle.std.specs.Prelude.{◌≡◌, ◌++◌, [], codes, IfOk, OnOk};
ghost use Rattle.std.specs.Option.{option_map, option_copied};
ghost use Rattle.shape_base.specs.Handle.{handle_text};
ghost use Rattle.fold_client.specs.Client.{nothing_held};
ghost use Rattle.fold_client.specs.Target.{with_value, with_cursor, query_form, place_form, target_text};

use super::client::Query;
use form_urlencoded::Serializer;
use shape_base::{Handle, Offset, OutOfMemory, Text};
use std::alloc::Global;

/// Appends a parameter, where it has a value.
fn append_value(form: &mut Serializer, name: &str, value: Option<&Text>) -> Result<(), OutOfMemory>
    ensures { OnOk result (form.new ≡ record form.old { form = with_value form.old.form name.now (option_copied value.entry) }) }
{
    match value {
        None => Ok(()),
        Some(text) => {
            form.append_pair(name, text.as_str())?;
            Ok(())
        }
    }
}

/// Appends a handle, where there is one.
fn append_handle(
    alloc: Global,
    form: &mut Serializer,
    name: &str,
    handle: Option<&Handle>,
) -> Result<(), OutOfMemory>
    ensures { OnOk result (form.new ≡ record form.old { form = with_value form.old.form name.now (option_map handle_text (option_copied handle.entry)) }) }
{
    match handle {
        None => Ok(()),
        Some(handle) => {
            let number = handle.number;
            let run = handle.run.as_str();
            let text = format!(in alloc; "{number}-{run}")?;
            form.append_pair(name, text.as_str())?;
            Ok(())
        }
    }
}

/// Appends what is asked for.
pub fn append_query(form: &mut Serializer, query: &Query) -> Result<(), OutOfMemory>
    requires { form.old.form ≡ [] }
    ensures { OnOk result (form.new ≡ record form.old { form = query_form query.now }) }
{
    form.append_pair("table", query.table.as_str())?;
    append_value(form, "columns", query.columns.as_ref())?;
    append_value(form, "where", query.clause.as_ref())
}

/// Appends the handles and the offset.
pub fn append_place(
    alloc: Global,
    form: &mut Serializer,
    handle: Option<&Handle>,
    left: Option<&Handle>,
    offset: Offset,
) -> Result<(), OutOfMemory>
    ensures { OnOk result (form.new ≡ record form.old { form = place_form form.old.form (option_copied handle.entry) (option_copied left.entry) offset }) }
{
    append_handle(alloc, form, "handle", handle)?;
    append_handle(alloc, form, "left", left)?;
    let text = offset.print(alloc)?;
    form.append_pair("offset", text.as_str())?;
    Ok(())
}

/// Appends live and a cursor, where there is one.
pub fn append_cursor(
    alloc: Global,
    form: &mut Serializer,
    cursor: Option<u64>,
) -> Result<(), OutOfMemory>
    ensures { OnOk result (form.new ≡ record form.old { form = with_cursor form.old.form cursor }) }
{
    match cursor {
        None => Ok(()),
        Some(cursor) => {
            form.append_pair("live", "true")?;
            let text = format!(in alloc; "{cursor}")?;
            form.append_pair("cursor", text.as_str())?;
            Ok(())
        }
    }
}

/// The target of a request: the path, a query's parameters, the handle or else the one that was left, the offset, and after an up-to-date reply `live` and that reply's
/// cursor.
pub fn target_of(
    alloc: Global,
    query: &Query,
    handle: Option<&Handle>,
    left: Option<&Handle>,
    offset: Offset,
    cursor: Option<u64>,
) -> Result<Text, OutOfMemory>
    ensures { IfOk result (λ text. text ≡ codes "/v1/shape?" ++ with_cursor (place_form (query_form query.now) (option_copied handle.entry) (option_copied left.entry) offset) cursor) }
{
    let mut form = Serializer::new(String::new(alloc));
    append_query(&mut form, query)?;
    append_place(alloc, &mut form, handle, left, offset)?;
    append_cursor(alloc, &mut form, cursor)?;
    let form = form.finish();
    Ok(Text::from_string(format!(in alloc; "/v1/shape?{form}")?))
}

/// The target of the first request of a client with a query.
pub fn first_target(alloc: Global, query: &Query) -> Result<Text, OutOfMemory>
    ensures { IfOk result (λ text. text ≡ target_text query.now nothing_held) }
{
    target_of(alloc, query, None, None, Offset::Start, None)
}

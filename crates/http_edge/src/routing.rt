//! What requests ask for.
ghost use Rattle.std.specs.Prelude.{◌≡◌, ◌⊎◌, ◌≢◌, ◌<◌, ◌^◌, ◌==◌, true, false, length, Some, None, Err, codes, IfOk, IfErr, IfSome, option_map};
ghost use Rattle.std.specs.Option.{option_copied};
ghost use Rattle.std.specs.List.{list_any};
ghost use Rattle.form_urlencoded.specs.Form.{parse};
ghost use Rattle.shape_base.specs.OffsetText.{IsOffset, offset_text};
ghost use Rattle.shape_def.specs.Identity.{identity};
ghost use Rattle.http_edge.specs.declared.refusal.Refusal.TheVariants as refusals;
ghost use Rattle.http_edge.specs.Parameters.{path_of, query_of, value_under, AreTexts, pairs_of};
ghost use Rattle.http_edge.specs.Tried.{Never, IsTable, IsRest};
ghost use Rattle.http_edge.specs.Route.{served_path, has_dot, table_name, is_of_name, table_from, is_live, NeedsHandle, IsLiveAtStart, RequestTried, TableTried, PlaceTried, ParametersTried, IsRouteAnswer};

use crate::parameters::{Parameter, form_of, split_once, value_under};
use crate::refusal::Refusal;
use crate::request::Request;
use crate::route_values::{clause_in, columns_in, cursor_in, is_value, named_in, offset_in};
use shape_base::{Ask, Offset, OutOfMemory, Served, ServedTables, Text};
use shape_def::identity;
use std::alloc::Global;

/// The query of a request for the one path that is served.
fn query_of(request: &Request) -> Result<&[u8], Refusal>
    ensures query { IfOk result (λ query. query.now ≡ query_of request.now.target) }
    ensures good { IfOk result (λ query. (request.now.get ≡ true) × (path_of request.now.target ≡ served_path)) }
    ensures refused { IfErr result (λ e. RequestTried request.now Never (Err e)) }
{
    if !request.get {
        return Err(Refusal::MethodRefused);
    }
    let (path, query) = split_once(request.target.as_bytes(), b'?');
    if path == b"/v1/shape".as_slice() {
        return Ok(query);
    }
    Err(Refusal::PathUnknown)
}

fn has_dot(name: &[u8]) -> bool
    ensures { result ≡ has_dot name.now }
{
    name.iter().any(|byte| *byte == b'.')
}

/// The namespace and the name of a table.
fn table_name(name: &[u8]) -> (&[u8], &[u8])
    ensures ns { result.0.now ≡ (table_name name.now).0 }
    ensures name { result.1.now ≡ (table_name name.now).1 }
{
    if has_dot(name) {
        split_once(name, b'.')
    } else {
        (b"public", name)
    }
}

fn is_of_name(table: &Served, ns: &[u8], name: &[u8]) -> bool
    ensures { result ≡ is_of_name (ns.now, name.now) table.now }
{
    table.ns.as_bytes() == ns && table.name.as_bytes() == name
}

/// The first table of this name, and its place.
fn table_named<'a>(tables: &'a ServedTables, ns: &[u8], name: &[u8]) -> Option<(u32, &'a Served)>
    requires { length tables.now < 2 ^ 32 }
    ensures place { option_map (λ found. found.0) result ≡ table_from (ns.now, name.now) 0 tables.now }
    ensures named { IfSome result (λ found. is_of_name (ns.now, name.now) found.1.now ≡ true) }
{
    for place in 0..tables.len() {
        let table = tables.at(place);
        if is_of_name(table, ns, name) {
            return Some((place as u32, table));
        }
    }
    None
}

/// The table that is asked for, and its place.
fn table_in<'a>(
    parameters: &[Parameter<'_>],
    tables: &'a ServedTables,
) -> Result<(u32, &'a Served), Refusal>
    requires { length tables.now < 2 ^ 32 }
    ensures read { IfOk result (λ found. IsTable tables.now (pairs_of parameters.now) found.0 found.1.now) }
    ensures refused { IfErr result (λ e. TableTried tables.now (pairs_of parameters.now) Never (Err e)) }
{
    let Some(name) = value_under(parameters, b"table") else {
        return Err(Refusal::MissingTable);
    };
    let (ns, name) = table_name(name);
    match table_named(tables, ns, name) {
        Some(found) => Ok(found),
        None => Err(Refusal::TableNotServed),
    }
}

/// The offset from which on is asked.
fn place_in(parameters: &[Parameter<'_>]) -> Result<Offset, Refusal>
    ensures read { IfOk result (λ offset. IsOffset offset × (value_under (codes "offset") (pairs_of parameters.now) ≡ Some (offset_text offset))) }
    ensures good { IfOk result (λ offset. (NeedsHandle (pairs_of parameters.now) → ⊥) × (IsLiveAtStart (pairs_of parameters.now) → ⊥)) }
    ensures refused { IfErr result (λ e. PlaceTried (pairs_of parameters.now) Never (Err e)) }
{
    let value = value_under(parameters, b"offset");
    let Some(offset) = offset_in(value) else {
        return Err(Refusal::BadOffset);
    };
    let start = is_value(b"-1", value);
    if !start && value_under(parameters, b"handle").is_none() {
        return Err(Refusal::HandleNeeded);
    }
    if start && is_value(b"true", value_under(parameters, b"live")) {
        return Err(Refusal::LiveAtStart);
    }
    Ok(offset)
}

/// What is asked for, in a table and from an offset on.
fn ask_of(
    alloc: Global,
    parameters: &[Parameter<'_>],
    place: u32,
    table: &Served,
    clause: Option<Text>,
    offset: Offset,
) -> Result<Ask, OutOfMemory>
    requires { AreTexts (pairs_of parameters.now) }
    ensures rest { IfOk result (λ ask. IsRest (pairs_of parameters.now) ask) }
    ensures given { IfOk result (λ ask. (ask.table ≡ place) × (ask.clause ≡ clause) × (ask.offset ≡ offset)) }
    ensures told { IfOk result (λ ask. ask.identity ≡ identity (record { ns = table.now.ns; name = table.now.name; columns = ask.columns; clause = ask.clause })) }
{
    let columns = columns_in(alloc, value_under(parameters, b"columns"))?;
    let named = named_in(alloc, value_under(parameters, b"handle"))?;
    let identity = identity(alloc, table, columns.as_ref(), clause.as_ref())?;
    Ok(Ask {
        table: place,
        columns,
        clause,
        identity,
        named,
        offset,
        live: is_value(b"true", value_under(parameters, b"live")),
        cursor: cursor_in(value_under(parameters, b"cursor")),
    })
}

/// What parameters ask for.
fn asked(alloc: Global, parameters: &[Parameter<'_>], tables: &ServedTables) -> Result<Ask, Refusal>
    requires texts { AreTexts (pairs_of parameters.now) }
    requires few { length tables.now < 2 ^ 32 }
    ensures { (result ≡ Err refusals.OutOfMemory) ⊎ ParametersTried tables.now (pairs_of parameters.now) result }
{
    let (place, table) = match table_in(parameters, tables) {
        Ok(found) => found,
        Err(error) => return Err(error),
    };
    let clause = match clause_in(alloc, value_under(parameters, b"where")) {
        Ok(clause) => clause,
        Err(error) => return Err(error),
    };
    let offset = match place_in(parameters) {
        Ok(offset) => offset,
        Err(error) => return Err(error),
    };
    match ask_of(alloc, parameters, place, table, clause, offset) {
        Ok(ask) => Ok(ask),
        Err(OutOfMemory) => Err(Refusal::OutOfMemory),
    }
}

/// What a request asks for.
///
/// Refusals, in the order in which they are tried: `MethodRefused` exactly where the method is not GET; `PathUnknown`
/// exactly where the target up to its first `?` is not `/v1/shape`; `BadEscape` exactly where in the query (a web form,
/// URL Standard, section 5) a percent sign has no two hexadecimal digits after it, or a name or a value is not UTF-8;
/// `RepeatedParameter` exactly where a name that is looked at stands twice; `MissingTable` and `TableNotServed` exactly
/// where no table is named, or none of that name is served; `WhereTooLong` exactly where the clause has more than 8,192
/// bytes; `WhereSyntax` exactly where parsing refuses it, at that place; `BadOffset` exactly where the offset is absent or
/// cannot be read; `HandleNeeded` exactly where it is not `-1` and no handle is named; `LiveAtStart` exactly where it is
/// `-1` and `live` is `true`.
pub fn route(alloc: Global, request: &Request, tables: &ServedTables) -> Result<Ask, Refusal>
    requires few { length tables.now < 2 ^ 32 }
    ensures { IsRouteAnswer tables.now request.now result }
{
    let query = match query_of(request) {
        Ok(query) => query,
        Err(error) => return Err(error),
    };
    let parameters = match form_of(alloc, query) {
        Ok(parameters) => parameters,
        Err(error) => return Err(error),
    };
    asked(alloc, parameters.as_slice(), tables)
}

//! Refusals as replies.
ghost use Rattle.std.specs.Prelude.{◌≡◌, IfOk, codes};
ghost use Rattle.serde_json.specs.Data.{object, member, string};
ghost use Rattle.serde_json.specs.View.{view};
ghost use Rattle.http_edge.specs.Refusals.{status_of, word_of, detail_word, members_of, sqlstate_member, refusal};

use crate::error_code::{Detail, ErrorCode};
use serde_json::{Value, json};
use shape_base::{OutOfMemory, Reply, Text};
use std::alloc::{AllocError, Global};

fn status_of(code: &ErrorCode) -> u16
    ensures { result ≡ status_of code.now }
{
    match code {
        ErrorCode::PathUnknown => 404,
        ErrorCode::MethodRefused => 405,
        ErrorCode::BodyRefused => 413,
        ErrorCode::HeadTooLong => 431,
        ErrorCode::OutOfMemory => 500,
        ErrorCode::SnapshotRefused { .. } => 502,
        ErrorCode::SnapshotLink
        | ErrorCode::SnapshotLost
        | ErrorCode::DefinitionChanged
        | ErrorCode::SnapshotStale { .. }
        | ErrorCode::TooManyShapes { .. }
        | ErrorCode::ShapeTooLarge { .. } => 503,
        _ => 400,
    }
}

/// The word that stands for it.
fn word_of(code: &ErrorCode) -> &'static str
    ensures { result.now ≡ word_of code.now }
{
    match code {
        ErrorCode::HeadTooLong => "head_too_long",
        ErrorCode::BadHead => "bad_head",
        ErrorCode::BodyRefused => "body_refused",
        ErrorCode::MethodRefused => "method_refused",
        ErrorCode::PathUnknown => "path_unknown",
        ErrorCode::BadEscape => "bad_escape",
        ErrorCode::RepeatedParameter => "repeated_parameter",
        ErrorCode::MissingTable => "missing_table",
        ErrorCode::TableNotServed => "table_not_served",
        ErrorCode::WhereTooLong => "where_too_long",
        ErrorCode::WhereSyntax { .. } => "where_syntax",
        ErrorCode::BadOffset => "bad_offset",
        ErrorCode::HandleNeeded => "handle_needed",
        ErrorCode::LiveAtStart => "live_at_start",
        ErrorCode::OffsetAhead => "offset_ahead",
        ErrorCode::UnknownColumn => "unknown_column",
        ErrorCode::KeyNotSelected => "key_not_selected",
        ErrorCode::WhereType { .. } => "where_type",
        ErrorCode::SnapshotRefused { .. } => "snapshot_refused",
        ErrorCode::SnapshotLink => "snapshot_link",
        ErrorCode::SnapshotLost => "snapshot_lost",
        ErrorCode::DefinitionChanged => "definition_changed",
        ErrorCode::SnapshotStale { .. } => "snapshot_stale",
        ErrorCode::TooManyShapes { .. } => "too_many_shapes",
        ErrorCode::ShapeTooLarge { .. } => "shape_too_large",
        ErrorCode::OutOfMemory => "out_of_memory",
    }
}

/// The word for what was wrong with a snapshot.
fn detail_word(detail: &Detail) -> &'static str
    ensures { result.now ≡ detail_word detail.now }
{
    match detail {
        Detail::ErrorResponse { .. } => "error_response",
        Detail::BadReply => "bad_reply",
        Detail::AuthWanted => "auth_wanted",
        Detail::Ended => "ended",
        Detail::NotUtf8 => "not_utf8",
        Detail::TooLong => "too_long",
        Detail::BadSnapshot => "bad_snapshot",
        Detail::WrongWidth => "wrong_width",
        Detail::BadValue => "bad_value",
        Detail::NullKey => "null_key",
        Detail::DuplicateKey => "duplicate_key",
        Detail::KeyMissing => "key_missing",
    }
}

/// The body that names a refused snapshot.
fn snapshot_value(alloc: Global, word: &str, detail: &Detail) -> Result<Value, AllocError>
    ensures { IfOk result (λ v. view v ≡ object (member (codes "detail") (string (detail_word detail.now)) (member (codes "error") (string word.now) (sqlstate_member detail.now)))) }
{
    let kind = detail_word(detail);
    match detail {
        Detail::ErrorResponse { sqlstate } => {
            let state = sqlstate.as_str();
            json!(in alloc; {"detail": kind, "error": word, "sqlstate": state})
        }
        _ => json!(in alloc; {"detail": kind, "error": word}),
    }
}

fn value_of(alloc: Global, code: &ErrorCode) -> Result<Value, AllocError>
    ensures { IfOk result (λ v. view v ≡ object (members_of code.now)) }
{
    let word = word_of(code);
    match code {
        ErrorCode::WhereSyntax { place } => {
            let place = *place;
            json!(in alloc; {"error": word, "place": place})
        }
        ErrorCode::WhereType { atom } => {
            let atom = *atom;
            json!(in alloc; {"atom": atom, "error": word})
        }
        ErrorCode::SnapshotRefused { detail } => snapshot_value(alloc, word, detail),
        ErrorCode::SnapshotStale { last, xmax } => {
            let (last, xmax) = (*last, *xmax);
            json!(in alloc; {"error": word, "last": last, "xmax": xmax})
        }
        ErrorCode::TooManyShapes { limit, live } => {
            let (limit, live) = (*limit, *live);
            json!(in alloc; {"error": word, "limit": limit, "live": live})
        }
        ErrorCode::ShapeTooLarge { bytes, limit } => {
            let (bytes, limit) = (*bytes, *limit);
            json!(in alloc; {"bytes": bytes, "error": word, "limit": limit})
        }
        _ => json!(in alloc; {"error": word}),
    }
}

/// The reply that refuses a request; no cache may keep it.
pub fn refusal_reply(alloc: Global, code: &ErrorCode) -> Result<Reply, OutOfMemory>
    ensures { IfOk result (λ reply. reply ≡ refusal code.now) }
{
    let value = value_of(alloc, code)?;
    let body = Text::from_string(value.to_string(alloc)?);
    Ok(Reply {
        status: status_of(code),
        handle: None,
        offset: None,
        schema: None,
        cursor: None,
        max_age: 0,
        body,
    })
}

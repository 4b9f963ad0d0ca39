//! Refusals in a line.
use cases::{cut, number_of};
use http_edge::{Detail, ErrorCode};
use shape_base::{OutOfMemory, Text};
use std::alloc::Global;

/// What was wrong with a snapshot, by its word.
fn detail_of(alloc: Global, text: &str) -> Result<Option<Detail>, OutOfMemory> {
    let (word, rest) = cut(text, ' ');
    let detail = match word {
        "error_response" => Detail::ErrorResponse {
            sqlstate: Text::of(alloc, rest)?,
        },
        "bad_reply" => Detail::BadReply,
        "auth_wanted" => Detail::AuthWanted,
        "ended" => Detail::Ended,
        "not_utf8" => Detail::NotUtf8,
        "too_long" => Detail::TooLong,
        "bad_snapshot" => Detail::BadSnapshot,
        "wrong_width" => Detail::WrongWidth,
        "bad_value" => Detail::BadValue,
        "null_key" => Detail::NullKey,
        "duplicate_key" => Detail::DuplicateKey,
        "key_missing" => Detail::KeyMissing,
        _ => return Ok(None),
    };
    Ok(Some(detail))
}

/// A refusal without parts, by its word.
fn plain_code(word: &str) -> Option<ErrorCode> {
    match word {
        "head_too_long" => Some(ErrorCode::HeadTooLong),
        "bad_head" => Some(ErrorCode::BadHead),
        "body_refused" => Some(ErrorCode::BodyRefused),
        "method_refused" => Some(ErrorCode::MethodRefused),
        "path_unknown" => Some(ErrorCode::PathUnknown),
        "bad_escape" => Some(ErrorCode::BadEscape),
        "repeated_parameter" => Some(ErrorCode::RepeatedParameter),
        "missing_table" => Some(ErrorCode::MissingTable),
        "table_not_served" => Some(ErrorCode::TableNotServed),
        "where_too_long" => Some(ErrorCode::WhereTooLong),
        "bad_offset" => Some(ErrorCode::BadOffset),
        "handle_needed" => Some(ErrorCode::HandleNeeded),
        "live_at_start" => Some(ErrorCode::LiveAtStart),
        "offset_ahead" => Some(ErrorCode::OffsetAhead),
        "unknown_column" => Some(ErrorCode::UnknownColumn),
        "key_not_selected" => Some(ErrorCode::KeyNotSelected),
        "snapshot_link" => Some(ErrorCode::SnapshotLink),
        "snapshot_lost" => Some(ErrorCode::SnapshotLost),
        "definition_changed" => Some(ErrorCode::DefinitionChanged),
        "out_of_memory" => Some(ErrorCode::OutOfMemory),
        _ => None,
    }
}

/// A refusal with two numbers.
fn numbers_code(word: &str, first: u64, second: u64) -> Option<ErrorCode> {
    match word {
        "where_syntax" => Some(ErrorCode::WhereSyntax { place: first }),
        "where_type" => Some(ErrorCode::WhereType {
            atom: (first % 0x1_0000_0000) as u32,
        }),
        "snapshot_stale" => Some(ErrorCode::SnapshotStale {
            last: (first % 0x1_0000_0000) as u32,
            xmax: second,
        }),
        "too_many_shapes" => Some(ErrorCode::TooManyShapes {
            limit: first,
            live: second,
        }),
        "shape_too_large" => Some(ErrorCode::ShapeTooLarge {
            bytes: first,
            limit: second,
        }),
        _ => None,
    }
}

/// The refusal that a line names.
pub(crate) fn code_of(alloc: Global, text: &str) -> Result<Option<ErrorCode>, OutOfMemory> {
    let (word, rest) = cut(text, ' ');
    if word == "snapshot_refused" {
        return match detail_of(alloc, rest)? {
            Some(detail) => Ok(Some(ErrorCode::SnapshotRefused { detail })),
            None => Ok(None),
        };
    }
    if let Some(code) = plain_code(word) {
        return Ok(Some(code));
    }
    let (first, second) = cut(rest, ' ');
    Ok(numbers_code(word, number_of(first), number_of(second)))
}

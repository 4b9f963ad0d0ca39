//! What is printed of answers and of logs.
use chunked_log::ChunkedLog;
use shape_base::OutOfMemory;
use shape_snapshot::SnapError;
use std::alloc::Global;

fn refusal_words(alloc: Global, error: SnapError) -> Result<String, OutOfMemory> {
    let words = match error {
        SnapError::BadSnapshot { place } => format!(in alloc; "bad_snapshot {place}")?,
        SnapError::DefinitionChanged { have, got } => {
            let (old, new) = (have.columns.len(), got.columns.len());
            format!(in alloc;
                "definition_changed {} of {old} columns, {} of {new}",
                have.oid, got.oid
            )?
        }
        SnapError::Stale { last, xmax } => format!(in alloc; "stale {last} {xmax}")?,
        SnapError::WrongWidth => format!(in alloc; "wrong_width")?,
        SnapError::BadValue { column } => format!(in alloc; "bad_value {column}")?,
        SnapError::NullKey { column } => format!(in alloc; "null_key {column}")?,
        SnapError::DuplicateKey { key } => format!(in alloc; "duplicate_key {}", key.as_str())?,
        SnapError::LogFull { bytes, limit } => format!(in alloc; "log_full {bytes} of {limit}")?,
        SnapError::OutOfMemory => return Err(OutOfMemory),
    };
    Ok(words)
}

/// `ok`, or the refusal.
pub(crate) fn answer_words(
    alloc: Global,
    answer: Result<(), SnapError>,
) -> Result<String, OutOfMemory> {
    match answer {
        Ok(()) => Ok(format!(in alloc; "ok")?),
        Err(error) => refusal_words(alloc, error),
    }
}

/// How many entries a log has, its end, and its bytes.
pub(crate) fn log_words(alloc: Global, log: &ChunkedLog) -> Result<String, OutOfMemory> {
    let end = log.end().print(alloc)?;
    Ok(format!(in alloc; "log {} {} {}", log.len(), end.as_str(), log.bytes())?)
}

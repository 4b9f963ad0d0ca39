//! What is printed of answers.
use shape_base::{Cause, OutOfMemory, Page, Text};
use shape_state::{Paged, Prepared, Stage};
use std::alloc::Global;

fn cause_words(alloc: Global, cause: Cause) -> Result<String, OutOfMemory> {
    let words = match cause {
        Cause::Truncated { lsn } => format!(in alloc; "truncated {lsn}")?,
        Cause::Changed { lsn } => format!(in alloc; "changed {lsn}")?,
        Cause::Deleted => format!(in alloc; "deleted")?,
        Cause::LogFull { bytes, limit } => format!(in alloc; "log_full {bytes} of {limit}")?,
        Cause::AllLogsFull { bytes, limit } => {
            format!(in alloc; "all_logs_full {bytes} of {limit}")?
        }
        Cause::PendingFull { bytes, limit } => {
            format!(in alloc; "pending_full {bytes} of {limit}")?
        }
        Cause::BadRow { lsn, column } => format!(in alloc; "bad_row {lsn} {column}")?,
        Cause::SnapshotFailed => format!(in alloc; "snapshot_failed")?,
        Cause::NoMemory => format!(in alloc; "no_memory")?,
    };
    Ok(words)
}

/// `gone`, and the cause.
pub(crate) fn gone_words(alloc: Global, cause: Cause) -> Result<String, OutOfMemory> {
    let words = cause_words(alloc, cause)?;
    Ok(format!(in alloc; "gone {}", words.as_str())?)
}

/// What was prepared for a commit.
pub(crate) fn prepared_words(alloc: Global, prepared: &Prepared) -> Result<String, OutOfMemory> {
    match prepared {
        Prepared::Skip => Ok(format!(in alloc; "skip")?),
        Prepared::Buffer { .. } => Ok(format!(in alloc; "buffer")?),
        Prepared::Append { written } => {
            Ok(format!(in alloc; "append {} {}", written.len(), written.bytes())?)
        }
        Prepared::Drop { cause } => {
            let words = cause_words(alloc, *cause)?;
            Ok(format!(in alloc; "drop {}", words.as_str())?)
        }
    }
}

/// Where a shape is in its life.
pub(crate) fn stage_words(alloc: Global, stage: Stage) -> Result<String, OutOfMemory> {
    match stage {
        Stage::Starting => Ok(format!(in alloc; "starting")?),
        Stage::Ready => Ok(format!(in alloc; "ready")?),
        Stage::Gone { cause } => gone_words(alloc, cause),
    }
}

/// The number of a page's entries, its end, whether it is up to date, and how many bytes its texts have; with these behind a blank where they are wanted.
fn page_words(alloc: Global, page: &Page, texts: bool) -> Result<String, OutOfMemory> {
    let end = page.end.print(alloc)?;
    let (count, bytes) = (page.count, page.inner.len() as u64);
    let standing = if page.up_to_date {
        "up-to-date"
    } else {
        "more"
    };
    let mut out = format!(in alloc; "{count} to {} {standing}, {bytes} bytes", end.as_str())?;
    if texts && bytes > 0 {
        let inner = Text::read(alloc, &page.inner).map_err(|_| OutOfMemory)?;
        out.push(' ')?;
        out.push_str(inner.as_str())?;
    }
    Ok(out)
}

/// What a request for a page is answered.
pub(crate) fn paged_words(
    alloc: Global,
    paged: &Paged,
    texts: bool,
) -> Result<String, OutOfMemory> {
    match paged {
        Paged::Page(page) => page_words(alloc, page, texts),
        Paged::NotYet => Ok(format!(in alloc; "not yet")?),
        Paged::Starting => Ok(format!(in alloc; "starting")?),
        Paged::Gone { cause } => gone_words(alloc, *cause),
        Paged::OffsetAhead { end } => {
            let end = end.print(alloc)?;
            Ok(format!(in alloc; "ahead of {}", end.as_str())?)
        }
    }
}

//! Answers as text.
use shape_base::{Numbers, OutOfMemory};
use shape_registry::{Found, RegisterError, Standing};
use std::alloc::Global;

/// A number behind a word, or another text where there is none.
pub fn number_or(
    alloc: Global,
    word: &str,
    number: Option<u64>,
    other: &str,
) -> Result<String, OutOfMemory> {
    match number {
        Some(number) => Ok(format!(in alloc; "{word} {number}")?),
        None => Ok(format!(in alloc; "{other}")?),
    }
}

pub fn registered(
    alloc: Global,
    answer: Result<u64, RegisterError<u64>>,
) -> Result<String, OutOfMemory> {
    match answer {
        Ok(number) => Ok(format!(in alloc; "number {number}")?),
        Err(RegisterError::Exists { number, kept }) => {
            Ok(format!(in alloc; "exists {number} value {kept}")?)
        }
        Err(RegisterError::TooMany { live, limit, kept }) => {
            Ok(format!(in alloc; "too many {live} of {limit} value {kept}")?)
        }
        Err(RegisterError::NumbersSpent { kept }) => {
            Ok(format!(in alloc; "numbers spent value {kept}")?)
        }
        Err(RegisterError::OutOfMemory { .. }) => Err(OutOfMemory),
    }
}

pub fn found(alloc: Global, found: Found) -> Result<String, OutOfMemory> {
    match found {
        Found::Ready { number } => Ok(format!(in alloc; "ready {number}")?),
        Found::Starting { number } => Ok(format!(in alloc; "starting {number}")?),
        Found::Gone { named } => number_or(alloc, "gone, ready", named, "gone"),
        Found::Unregistered => Ok(format!(in alloc; "unregistered")?),
    }
}

pub fn standing(alloc: Global, standing: Standing) -> Result<String, OutOfMemory> {
    match standing {
        Standing::Starting => Ok(format!(in alloc; "starting")?),
        Standing::Ready => Ok(format!(in alloc; "ready")?),
        Standing::NotLive => Ok(format!(in alloc; "not live")?),
    }
}

pub fn numbers(alloc: Global, numbers: &Numbers) -> Result<String, OutOfMemory> {
    let mut line = format!(in alloc; "live")?;
    for number in numbers.as_slice() {
        let word = format!(in alloc; " {number}")?;
        line.push_str(word.as_str())?;
    }
    Ok(line)
}

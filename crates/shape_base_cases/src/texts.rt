//! Offsets, handles and texts.
use cases::{bytes_of, cut};
use shape_base::{BadOffset, Duplicate, Handle, HandleError, Offset, OutOfMemory, Text, TextError};
use std::alloc::Global;

pub(crate) fn offset_line(alloc: Global, text: &str) -> Result<String, OutOfMemory> {
    match Offset::read(text.as_bytes()) {
        Ok(offset) => Ok(format!(in alloc; "{}", offset.print(alloc)?.as_str())?),
        Err(BadOffset) => Ok(format!(in alloc; "bad")?),
    }
}

pub(crate) fn before_line(alloc: Global, text: &str) -> Result<String, OutOfMemory> {
    let (first, second) = cut(text, ' ');
    let Ok(first) = Offset::read(first.as_bytes()) else {
        return Ok(format!(in alloc; "bad")?);
    };
    let Ok(second) = Offset::read(second.as_bytes()) else {
        return Ok(format!(in alloc; "bad")?);
    };
    Ok(format!(in alloc; "{}", first.before(&second))?)
}

pub(crate) fn handle_line(alloc: Global, text: &str) -> Result<String, OutOfMemory> {
    match Handle::read(alloc, text.as_bytes()) {
        Ok(handle) => {
            let twin = handle.copy(alloc)?;
            let text = twin.print(alloc)?;
            let line = format!(in alloc;
                "{} {} {}",
                twin.number,
                twin.run.as_str(),
                text.as_str()
            )?;
            Ok(line)
        }
        Err(HandleError::BadHandle) => Ok(format!(in alloc; "bad")?),
        Err(HandleError::OutOfMemory) => Err(OutOfMemory),
    }
}

pub(crate) fn text_line(alloc: Global, text: &str) -> Result<String, OutOfMemory> {
    let bytes = bytes_of(alloc, text)?;
    match Text::read(alloc, bytes.as_slice()) {
        Ok(text) => Ok(format!(in alloc; "{}", text.as_str())?),
        Err(TextError::NotUtf8 { place }) => Ok(format!(in alloc; "not_utf8 {place}")?),
        Err(TextError::OutOfMemory) => Err(OutOfMemory),
    }
}

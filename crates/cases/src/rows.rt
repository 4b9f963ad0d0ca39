//! Values and rows. As in PostgreSQL's COPY (manual, COPY, "Text Format"), `\N` stands for null.
use shape_base::{OutOfMemory, Row, Text, Tri, Value};
use std::alloc::Global;

/// The word for null.
const NULL: &str = "\\N";

/// The value that a word stands for.
pub fn value_of(alloc: Global, word: &str) -> Result<Value, OutOfMemory> {
    if word == NULL {
        return Ok(Value::Null);
    }
    Ok(Value::Words(Text::of(alloc, word)?))
}

/// The row of the values between marks; an empty text is a row of one value.
pub fn row_of(alloc: Global, text: &str, mark: char) -> Result<Row, OutOfMemory> {
    let mut row = Row::new(alloc);
    for word in text.split(mark) {
        row.push(value_of(alloc, word)?)?;
    }
    Ok(row)
}

/// Adds a value to a line.
pub fn put_value(out: &mut String, value: &Value) -> Result<(), OutOfMemory> {
    match value {
        Value::Null => out.push_str(NULL)?,
        Value::Words(words) => out.push_str(words.as_str())?,
    }
    Ok(())
}

/// Adds a row's values to a line, with marks between them.
pub fn put_row(out: &mut String, row: &Row, mark: char) -> Result<(), OutOfMemory> {
    let mut first = true;
    for value in row.as_slice() {
        if !first {
            out.push(mark)?;
        }
        first = false;
        put_value(out, value)?;
    }
    Ok(())
}

/// The word for a truth.
pub fn truth_word(truth: Tri) -> &'static str {
    match truth {
        Tri::True => "true",
        Tri::False => "false",
        Tri::Unknown => "unknown",
    }
}

//! What is printed of definitions, their refusals and the truth of rows.
use cases::truth_word;
use shape_base::{BadValue, OutOfMemory, Places, Row, RowTest};
use shape_def::{Def, DefError};
use std::alloc::Global;

fn put_places(alloc: Global, out: &mut String, places: &Places) -> Result<(), OutOfMemory> {
    for place in places.as_slice() {
        let text = format!(in alloc; " {}", *place)?;
        out.push_str(text.as_str())?;
    }
    Ok(())
}

/// The places of the key and of the chosen columns, and the identity.
pub(crate) fn definition_line(alloc: Global, def: &Def) -> Result<String, OutOfMemory> {
    let mut line = String::new(alloc);
    line.push_str("ok key")?;
    put_places(alloc, &mut line, def.key())?;
    line.push_str(" selected")?;
    put_places(alloc, &mut line, def.selected())?;
    line.push_str(" identity ")?;
    line.push_str(def.identity().as_str())?;
    Ok(line)
}

/// The name of a refusal, and its number where it has one.
pub(crate) fn refusal_line(alloc: Global, error: DefError) -> Result<String, OutOfMemory> {
    match error {
        DefError::OutOfMemory => Err(OutOfMemory),
        DefError::KeyMissing => Ok(format!(in alloc; "key_missing")?),
        DefError::UnknownColumn { atom: None } => Ok(format!(in alloc; "unknown_column")?),
        DefError::UnknownColumn { atom: Some(atom) } => {
            Ok(format!(in alloc; "unknown_column {atom}")?)
        }
        DefError::KeyNotSelected => Ok(format!(in alloc; "key_not_selected")?),
        DefError::Syntax { place } => Ok(format!(in alloc; "syntax {place}")?),
        DefError::TooDeep { place } => Ok(format!(in alloc; "too_deep {place}")?),
        DefError::TypeMismatch { atom } => Ok(format!(in alloc; "type_mismatch {atom}")?),
        DefError::BadLiteral { atom } => Ok(format!(in alloc; "bad_literal {atom}")?),
    }
}

/// The truth of a row, or the column that cannot be read.
pub(crate) fn truth_line(alloc: Global, def: &Def, row: &Row) -> Result<String, OutOfMemory> {
    if row.len() != def.definition().columns.len() {
        return Ok(format!(in alloc; "a row of another width")?);
    }
    match def.truth(row) {
        Ok(truth) => Ok(format!(in alloc; "{}", truth_word(truth))?),
        Err(BadValue { column }) => Ok(format!(in alloc; "bad {column}")?),
    }
}

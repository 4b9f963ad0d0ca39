//! Relations put into one cache and asked for.
use cases::cut;
use relation_cache::{Relation, Relations, UnknownRelation};
use shape_base::{Columns, Duplicate, OutOfMemory, Text};
use std::alloc::Global;

fn oid_of(word: &str) -> u32 {
    word.parse::<u32>().unwrap_or(0)
}

/// Puts the relation of a word such as `16384:a` into the cache.
fn put(alloc: Global, relations: &mut Relations, word: &str) -> Result<(), OutOfMemory> {
    let (oid, name) = cut(word, ':');
    relations.put(Relation {
        oid: oid_of(oid),
        ns: Text::of(alloc, "public")?,
        name: Text::of(alloc, name)?,
        columns: Columns::new(alloc),
    })
}

/// What is printed of the relation with this object identifier.
fn asked_line(alloc: Global, relations: &Relations, oid: u32) -> Result<String, OutOfMemory> {
    match relations.get(oid) {
        Ok(relation) => {
            let twin = relation.copy(alloc)?;
            Ok(format!(in alloc; "{} {}", twin.oid, twin.name.as_str())?)
        }
        Err(UnknownRelation { oid }) => Ok(format!(in alloc; "unknown {oid}")?),
    }
}

/// Puts relations, and prints what is asked for.
pub(crate) fn relations_line(alloc: Global, text: &str) -> Result<String, OutOfMemory> {
    let mut relations = Relations::new(alloc);
    let mut line = String::new(alloc);
    for word in text.split(' ') {
        match word.strip_prefix('?') {
            Some(oid) => {
                let answer = asked_line(alloc, &relations, oid_of(oid))?;
                if !line.is_empty() {
                    line.push_str(", ")?;
                }
                line.push_str(answer.as_str())?;
            }
            None => put(alloc, &mut relations, word)?,
        }
    }
    Ok(line)
}

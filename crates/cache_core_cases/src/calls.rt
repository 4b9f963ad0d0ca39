//! Calls on a cache.
use cache_core::Cache;
use cases::{cut, number_of};
use shape_base::{OutOfMemory, Reply, Text};
use std::alloc::Global;

/// A number of 32 bits, or 0.
fn small_of(word: &str) -> u32 {
    word.parse::<u32>().unwrap_or(0)
}

/// A reply of a status and an age.
fn reply_of(alloc: Global, status: &str, age: &str) -> Result<Reply, OutOfMemory> {
    Ok(Reply {
        status: status.parse::<u16>().unwrap_or(0),
        handle: None,
        offset: None,
        schema: None,
        cursor: None,
        max_age: small_of(age),
        body: Text::of(alloc, "[]")?,
    })
}

/// Puts a reply, which words name behind its target.
fn put(alloc: Global, cache: &mut Cache, target: Text, words: &str) -> Result<String, OutOfMemory> {
    let (status, rest) = cut(words, ' ');
    let (age, now) = cut(rest, ' ');
    let reply = reply_of(alloc, status, age)?;
    cache.put(target, reply, number_of(now))?;
    Ok(format!(in alloc; "put")?)
}

/// The status of the reply that a get gives.
fn got(alloc: Global, cache: &mut Cache, target: &Text, now: u64) -> Result<String, OutOfMemory> {
    match cache.get(target, now) {
        Some(reply) => Ok(format!(in alloc; "{}", reply.status)?),
        None => Ok(format!(in alloc; "none")?),
    }
}

/// What is printed for a call.
fn called(alloc: Global, cache: &mut Cache, call: &str) -> Result<String, OutOfMemory> {
    let (word, rest) = cut(call, ' ');
    let (target, words) = cut(rest, ' ');
    let target = Text::of(alloc, target)?;
    if word == "put" {
        return Ok(put(alloc, cache, target, words)?);
    }
    if word == "get" {
        return Ok(got(alloc, cache, &target, number_of(words))?);
    }
    Ok(format!(in alloc; "no such call")?)
}

/// What is printed for the calls of a line.
pub fn calls_line(alloc: Global, line: &str) -> Result<String, OutOfMemory> {
    let (capacity, calls) = cut(line, '|');
    let mut cache = Cache::new(alloc, small_of(capacity).max(1))?;
    let mut text = String::new(alloc);
    for call in calls.split('|') {
        let word = called(alloc, &mut cache, call)?;
        text.push_str(word.as_str())?;
        text.push('|')?;
    }
    Ok(text)
}

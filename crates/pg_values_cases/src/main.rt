//! Reads lines with texts of values, and prints what they stand for: cases for `pg_values`.
//!
//! | Line | What is printed |
//! |---|---|
//! | `21 -32768` | the value of the text under the type with this OID, or `none` and the OID of the refusal |
//! | `bytes 20 1\00` | the same of bytes, where a backslash and two hexadecimal digits stand for one byte |
//! | `order 16 f t` | how the values of two texts stand to one another; `none` where one has no value or the type has no order |
#![tactic(auto)]

ghost use Rattle.std.specs.Prelude.{◌≡◌, ◌≢◌, true};
ghost use Rattle.pg_values.specs.Values.{kind_under, has_value};
ghost use Rattle.pg_values.specs.declared.kind.Kind.TheVariants.{Other};

use cases::{Answers, answer_lines, bytes_of, cut};
use pg_values::{BadValueText, Kind, compare, has_value, kind_of, read_bool, read_int, read_uuid};
use shape_base::{OutOfMemory, Text};
use std::alloc::Global;
use std::cmp::Ordering;
use std::io;

fn oid_of(word: &str) -> u32 {
    word.parse::<u32>().unwrap_or(0)
}

fn refusal_line(alloc: Global, bad: BadValueText) -> Result<String, OutOfMemory> {
    Ok(format!(in alloc; "none {}", bad.oid)?)
}

/// The value of bytes under a type.
fn read_line(alloc: Global, text: &[u8], oid: u32) -> Result<String, OutOfMemory> {
    match kind_of(oid) {
        Kind::SmallInt | Kind::Integer | Kind::BigInt => match read_int(text, oid) {
            Ok(number) => Ok(format!(in alloc; "{number}")?),
            Err(bad) => refusal_line(alloc, bad),
        },
        Kind::Boolean => match read_bool(text) {
            Ok(truth) => Ok(format!(in alloc; "{truth}")?),
            Err(bad) => refusal_line(alloc, bad),
        },
        Kind::Uuid => match read_uuid(text) {
            Ok(number) => Ok(format!(in alloc; "{number}")?),
            Err(bad) => refusal_line(alloc, bad),
        },
        Kind::Text | Kind::Other => Ok(format!(in alloc; "a text")?),
    }
}

/// The value of a text under a type.
fn value_line(alloc: Global, text: &str, oid: u32) -> Result<String, OutOfMemory> {
    match kind_of(oid) {
        Kind::Text | Kind::Other => Ok(format!(in alloc; "{text}")?),
        _ => read_line(alloc, text.as_bytes(), oid),
    }
}

/// How two texts with values stand to one another; none where one has no value or the type has no order.
fn order(left: &Text, right: &Text, oid: u32) -> Option<Ordering> {
    if kind_of(oid) == Kind::Other {
        return None;
    }
    if has_value(left.as_bytes(), oid) && has_value(right.as_bytes(), oid) {
        Some(compare(left, right, oid))
    } else {
        None
    }
}

fn order_word(order: Option<Ordering>) -> &'static str {
    match order {
        Some(Ordering::Less) => "less",
        Some(Ordering::Equal) => "equal",
        Some(Ordering::Greater) => "greater",
        None => "none",
    }
}

/// How the texts of a line such as `16 f t` stand to one another.
fn order_line(alloc: Global, line: &str) -> Result<String, OutOfMemory> {
    let (oid, texts) = cut(line, ' ');
    let (left, right) = cut(texts, ' ');
    let left = Text::of(alloc, left)?;
    let right = Text::of(alloc, right)?;
    let order = order(&left, &right, oid_of(oid));
    Ok(format!(in alloc; "{}", order_word(order))?)
}

#[derive(Drop)]
struct ValueCases;

impl Answers for ValueCases {
    fn answer(&mut self, alloc: Global, line: &str) -> Result<Option<String>, OutOfMemory> {
        let (word, rest) = cut(line, ' ');
        let answer = match word {
            "order" => order_line(alloc, rest)?,
            "bytes" => {
                let (oid, text) = cut(rest, ' ');
                let text = bytes_of(alloc, text)?;
                read_line(alloc, text.as_slice(), oid_of(oid))?
            }
            oid => value_line(alloc, rest, oid_of(oid))?,
        };
        Ok(Some(answer))
    }
}

fn main(rt: HostRuntime) -> io::Result<()> {
    answer_lines(&rt, &mut ValueCases)
}

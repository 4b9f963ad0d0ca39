//! The words of the command line.
ghost use Rattle.std.specs.Prelude.{◌≡◌, ◌↔◌, ◌≤◌, ◌<◌, ◌^◌, IsTrue, Some, map};
ghost use Rattle.std.specs.String.{string_bytes};
ghost use Rattle.script_play.specs.Settings.{bounds_of, IsBetween, IsWithin, IsNamed, AreOptions, AreWords, IsSet, AreLimits};

use shape_base::{Limits, read_decimal};

/// The least and the greatest value of an option, by its name.
fn bounds_of(name: &[u8]) -> Option<(u64, u64)>
    ensures { result ≡ bounds_of name.now }
{
    if name == b"--chunk".as_slice() {
        return Some((4_096, 1_048_576));
    }
    if name == b"--log".as_slice() {
        return Some((1, 67_108_864));
    }
    if name == b"--pending".as_slice() {
        return Some((1, 67_108_864));
    }
    if name == b"--shapes".as_slice() {
        return Some((1, 1_000));
    }
    if name == b"--hold".as_slice() {
        return Some((0, 86_400_000));
    }
    None
}

/// Whether a number is between these.
fn is_in(number: u64, least: u64, most: u64) -> bool
    ensures { IsTrue result ↔ ((least ≤ number) × (number ≤ most)) }
{
    least <= number && number <= most
}

/// Whether a text is a canonical decimal between these.
fn is_between(value: &[u8], least: u64, most: u64) -> bool
    ensures { IsTrue result ↔ IsBetween value.now least most }
{
    match read_decimal(value) {
        Some(number) => is_in(number, least, most),
        None => false,
    }
}

/// Whether these are the name of an option and a value of it.
fn is_option(name: &String, value: &String) -> bool
    ensures { IsTrue result ↔ IsWithin (string_bytes value.now) (bounds_of (string_bytes name.now)) }
{
    match bounds_of(name.as_str().as_bytes()) {
        Some((least, most)) => is_between(value.as_str().as_bytes(), least, most),
        None => false,
    }
}

/// Whether one of the options among the words has this name.
fn is_named(words: &[String], name: &String) -> bool
    ensures { IsTrue result ↔ IsNamed (string_bytes name.now) (map string_bytes words.now) }
{
    let mut left = words;
    while let [other, _, rest @ ..] = left {
        if other.as_str() == name.as_str() {
            return true;
        }
        left = rest;
    }
    false
}

/// Whether the words are options with their values, none of them twice.
fn are_options(words: &[String]) -> bool
    ensures { IsTrue result ↔ AreOptions (map string_bytes words.now) }
{
    let mut left = words;
    while let [name, value, rest @ ..] = left {
        if !is_option(name, value) {
            return false;
        }
        if is_named(rest, name) {
            return false;
        }
        left = rest;
    }
    left.is_empty()
}

/// Whether the words are `replay` and then options with their values, none of them twice.
pub fn are_words(words: &[String]) -> bool
    ensures { IsTrue result ↔ AreWords (map string_bytes words.now) }
{
    match words {
        [first, options @ ..] => first.as_str() == "replay" && are_options(options),
        _ => false,
    }
}

/// The value of the option with this name among the options, or the usual one.
fn value_of(options: &[String], name: &[u8], usual: u64) -> u64
    requires { AreOptions (map string_bytes options.now) }
    ensures { IsSet (map string_bytes options.now) name.now usual result }
{
    let mut left = options;
    while let [other, value, rest @ ..] = left {
        if other.as_str().as_bytes() == name {
            return read_decimal(value.as_str().as_bytes()).unwrap_or(usual);
        }
        left = rest;
    }
    usual
}

/// The limits that the words set; the others are the usual ones.
pub fn limits_of(words: &[String]) -> Limits
    requires { AreWords (map string_bytes words.now) }
    ensures { AreLimits (map string_bytes words.now) result }
{
    let options = &words[1..];
    Limits {
        chunk: value_of(options, b"--chunk", 65_536),
        log: value_of(options, b"--log", 67_108_864),
        all: 2_147_483_648,
        pending: value_of(options, b"--pending", 67_108_864),
        shapes: value_of(options, b"--shapes", 1_000),
        hold: value_of(options, b"--hold", 20_000),
    }
}

//! The values of the lines of a reply's head.
ghost use Rattle.std.specs.Prelude.{◌≡◌, ◌<◌, ◌^◌, ℕ, ◌==◌, List, true, false, Option, option_map, IfSome, IfOk, IfErr, IsNone, codes, decimal};
ghost use Rattle.shape_base.specs.Tables.{same_text};
ghost use Rattle.std.specs.List.{list_all};
ghost use Rattle.http_edge.specs.declared.reply_values.ValueError.TheVariants as errors;
ghost use Rattle.shape_base.specs.declared.handle.Handle.{Handle as Name};
ghost use Rattle.shape_base.specs.declared.offset.Offset.{Offset as Place};
ghost use Rattle.shape_base.specs.Handle.{IsHandle, handle_text};
ghost use Rattle.shape_base.specs.OffsetText.{IsOffset, offset_text};
ghost use Rattle.http_edge.specs.declared.reply_head.ReplyHead.{ReplyHead as Head};
ghost use Rattle.http_edge.specs.ReplyText.{cache_text, is_visible};
ghost use Rattle.http_edge.specs.ReplySeen.{seen, seen_fixed, seen_optional, seen_lines};
ghost use Rattle.http_edge.specs.ReplyValues.{late_status_in, status_in, AreFixedValues, AreOptionalValues, AreLinesOf};

use crate::reply_head::ReplyHead;
use crate::reply_lines::{FixedLines, OptionalLines, ReplyLines};
use crate::scanning::behind;
use shape_base::{Handle, HandleError, Offset, OutOfMemory, Text, read_decimal};
use std::alloc::Global;

/// Why a value was not read.
#[derive(Clone, Copy, Debug, PartialEq, Eq)]
pub enum ValueError {
    Bad,
    OutOfMemory,
}

impl From<OutOfMemory> for ValueError {
    ghost use Rattle.std.specs.Prelude.{◌≡◌};
    ghost use Rattle.http_edge.specs.declared.reply_values.ValueError.TheVariants as errors;

    ghost from_gives = { λ _ e. e ≡ errors.OutOfMemory };

    fn from(_error: OutOfMemory) -> ValueError {
        ValueError::OutOfMemory
    }
}

/// The values that each head has.
#[derive(Clone, Copy)]
struct FixedValues {
    status: u16,
    length: u64,
    age: u32,
}

/// The values that a head may lack.
#[derive(Drop)]
struct OptionalValues {
    handle: Option<Handle>,
    offset: Option<Offset>,
    schema: Option<Text>,
    cursor: Option<u64>,
}

fn is_text(value: &[u8], text: &[u8]) -> bool
    ensures { result ≡ same_text value.now text.now }
{
    value == text
}

/// The status with this number and phrase, from 413 on.
#[tactic(auto, unfolding(crate::specs::ReplyValues::late_status_in))]
fn late_status_in(value: &[u8]) -> Option<u16>
    ensures { result ≡ late_status_in value.now }
{
    if is_text(value, b"413 Payload Too Large") {
        Some(413)
    } else if is_text(value, b"431 Request Header Fields Too Large") {
        Some(431)
    } else if is_text(value, b"500 Internal Server Error") {
        Some(500)
    } else if is_text(value, b"502 Bad Gateway") {
        Some(502)
    } else if is_text(value, b"503 Service Unavailable") {
        Some(503)
    } else {
        None
    }
}

/// The status with this number and phrase.
#[tactic(auto, unfolding(crate::specs::ReplyValues::status_in))]
fn status_in(value: &[u8]) -> Option<u16>
    ensures { result ≡ status_in value.now }
{
    if is_text(value, b"200 OK") {
        Some(200)
    } else if is_text(value, b"400 Bad Request") {
        Some(400)
    } else if is_text(value, b"404 Not Found") {
        Some(404)
    } else if is_text(value, b"405 Method Not Allowed") {
        Some(405)
    } else if is_text(value, b"409 Conflict") {
        Some(409)
    } else {
        late_status_in(value)
    }
}

/// The number as an age that a cache may keep a reply.
fn age_of(number: u64) -> Option<u32>
    ensures read { IfSome result (λ age. (age ≡ number) × ((age == 0) ≡ false)) }
    ensures refused { IsNone result → number < 2 ^ 32 → (number ≡ 0 → ⊥) → ⊥ }
    ensures small { number < 2 ^ 64 }
{
    if number == 0 {
        return None;
    }
    if number > 0xffff_ffff {
        return None;
    }
    Some(number as u32)
}

/// The seconds that a cache may keep the reply; 0 where it may not.
fn age_in(value: &[u8]) -> Option<u32>
    ensures read { IfSome result (λ age. value.now ≡ cache_text age) }
    ensures small { IfSome result (λ age. age < 2 ^ 32) }
    ensures refused { IsNone result → (age : ℕ) → age < 2 ^ 32 → value.now ≡ cache_text age → ⊥ }
{
    if is_text(value, b"no-store") {
        return Some(0);
    }
    let digits = behind(b"public, max-age=", value)?;
    let number = read_decimal(digits)?;
    let age = age_of(number)?;
    Some(age)
}

/// A number of 64 bits.
fn number_in(value: &[u8]) -> Option<u64>
    ensures read { IfSome result (λ n. (value.now ≡ decimal n) × (n < 2 ^ 64)) }
    ensures refused { IsNone result → (n : ℕ) → n < 2 ^ 64 → value.now ≡ decimal n → ⊥ }
{
    let number = read_decimal(value)?;
    Some(number)
}

fn fixed_values(fixed: &FixedLines<'_>) -> Option<FixedValues>
    ensures read { IfSome result (λ v. AreFixedValues (seen_fixed fixed.now) v.status v.length v.age) }
    ensures refused { IsNone result → (status length age : ℕ) → AreFixedValues (seen_fixed fixed.now) status length age → ⊥ }
{
    let status = status_in(fixed.status)?;
    let length = number_in(fixed.length)?;
    let age = age_in(fixed.cache)?;
    if is_text(fixed.kind, b"application/json") {
        return Some(FixedValues {
            status,
            length,
            age,
        });
    }
    None
}

fn handle_in(alloc: Global, value: Option<&[u8]>) -> Result<Option<Handle>, ValueError>
    ensures read { IfOk result (λ h. (IfSome h IsHandle) × (option_map seen value.entry ≡ option_map handle_text h)) }
    ensures refused { IfErr result (λ e. e ≡ errors.Bad → (h : Option Name) → IfSome h IsHandle → option_map seen value.entry ≡ option_map handle_text h → ⊥) }
{
    let Some(value) = value else {
        return Ok(None);
    };
    match Handle::read(alloc, value) {
        Ok(handle) => Ok(Some(handle)),
        Err(HandleError::BadHandle) => Err(ValueError::Bad),
        Err(HandleError::OutOfMemory) => Err(ValueError::OutOfMemory),
    }
}

fn offset_in(value: Option<&[u8]>) -> Result<Option<Offset>, ValueError>
    ensures read { IfOk result (λ o. (IfSome o IsOffset) × (option_map seen value.entry ≡ option_map offset_text o)) }
    ensures refused { IfErr result (λ e. e ≡ errors.Bad → (o : Option Place) → IfSome o IsOffset → option_map seen value.entry ≡ option_map offset_text o → ⊥) }
{
    let Some(value) = value else {
        return Ok(None);
    };
    match Offset::read(value) {
        Ok(offset) => Ok(Some(offset)),
        Err(_) => Err(ValueError::Bad),
    }
}

fn is_visible(byte: u8) -> bool
    ensures { result ≡ is_visible byte }
{
    33 <= byte && byte <= 126
}

pub fn are_visible(bytes: &[u8]) -> bool
    ensures { result ≡ list_all is_visible bytes.now }
{
    bytes.iter().all(|byte| is_visible(*byte))
}

fn schema_in(alloc: Global, value: Option<&[u8]>) -> Result<Option<Text>, ValueError>
    ensures read { IfOk result (λ s. (IfSome s (λ schema. list_all is_visible schema ≡ true)) × (option_map seen value.entry ≡ s)) }
    ensures refused { IfErr result (λ e. e ≡ errors.Bad → (s : Option (List ℕ)) → IfSome s (λ schema. list_all is_visible schema ≡ true) → option_map seen value.entry ≡ s → ⊥) }
{
    let Some(value) = value else {
        return Ok(None);
    };
    if are_visible(value) {
        return match Vec::from_slice(alloc, value) {
            Ok(bytes) => Ok(Some(Text::of_bytes(bytes))),
            Err(_) => Err(ValueError::OutOfMemory),
        };
    }
    Err(ValueError::Bad)
}

fn cursor_in(value: Option<&[u8]>) -> Result<Option<u64>, ValueError>
    ensures read { IfOk result (λ n. (IfSome n (λ cursor. cursor < 2 ^ 64)) × (option_map seen value.entry ≡ option_map decimal n)) }
    ensures refused { IfErr result (λ e. e ≡ errors.Bad → (n : Option ℕ) → IfSome n (λ cursor. cursor < 2 ^ 64) → option_map seen value.entry ≡ option_map decimal n → ⊥) }
{
    let Some(value) = value else {
        return Ok(None);
    };
    match number_in(value) {
        Some(cursor) => Ok(Some(cursor)),
        None => Err(ValueError::Bad),
    }
}

fn optional_values(
    alloc: Global,
    optional: &OptionalLines<'_>,
) -> Result<OptionalValues, ValueError>
    ensures read { IfOk result (λ v. AreOptionalValues (seen_optional optional.now) v.handle v.offset v.schema v.cursor) }
    ensures refused { IfErr result (λ e. e ≡ errors.Bad → (h : Option Name) (o : Option Place) (s : Option (List ℕ)) (n : Option ℕ) → AreOptionalValues (seen_optional optional.now) h o s n → ⊥) }
{
    let handle = match handle_in(alloc, optional.handle) {
        Ok(handle) => handle,
        Err(error) => return Err(error),
    };
    let offset = match offset_in(optional.offset) {
        Ok(offset) => offset,
        Err(error) => return Err(error),
    };
    let schema = match schema_in(alloc, optional.schema) {
        Ok(schema) => schema,
        Err(error) => return Err(error),
    };
    let cursor = match cursor_in(optional.cursor) {
        Ok(cursor) => cursor,
        Err(error) => return Err(error),
    };
    Ok(OptionalValues {
        handle,
        offset,
        schema,
        cursor,
    })
}

fn is_same(a: bool, b: bool) -> bool
    ensures same { result ≡ true → a ≡ b }
    ensures other { result ≡ false → a ≡ b → ⊥ }
{
    a == b
}

/// The head that has these lines.
pub fn head_in(alloc: Global, lines: &ReplyLines<'_>) -> Result<ReplyHead, ValueError>
    ensures read { IfOk result (λ head. AreLinesOf (seen_lines lines.now) head) }
    ensures refused { IfErr result (λ e. e ≡ errors.Bad → (head : Head) → AreLinesOf (seen_lines lines.now) head → ⊥) }
{
    let Some(fixed) = fixed_values(&lines.fixed) else {
        return Err(ValueError::Bad);
    };
    let optional = match optional_values(alloc, &lines.optional) {
        Ok(optional) => optional,
        Err(error) => return Err(error),
    };
    if is_same(lines.allow, fixed.status == 405) {
        return Ok(ReplyHead {
            status: fixed.status,
            length: fixed.length,
            max_age: fixed.age,
            handle: optional.handle,
            offset: optional.offset,
            schema: optional.schema,
            cursor: optional.cursor,
            close: lines.close,
        });
    }
    Err(ValueError::Bad)
}

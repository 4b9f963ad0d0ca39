//! Reading values out of texts, and comparing them.
ghost use Rattle.std.specs.Prelude.{◌≡◌, ◌≢◌, true, false, IfOk, IfErr};
ghost use Rattle.pg_values.specs.Values.{kind_under, IsIntegerKind, has_value, is_within, limit_of, truth_value, number_value, uuid_value, order_of};

use crate::kind::{Kind, kind_of};
use shape_base::Text;
use std::cmp::Ordering;
use std::str;
use uuid::Uuid;

/// A text that has no value under the type with this OID.
#[derive(Clone, Copy, Debug, PartialEq, Eq)]
pub struct BadValueText {
    pub oid: u32,
}

const BOOLEAN: u32 = 16;

const UUID: u32 = 2950;

/// The number that the text writes, under the OID of smallint (21), integer (23) or bigint (20): `-`, `+` or no sign,
/// and decimal digits, in the range of the type.
///
/// Any other text is `BadValueText`.
pub fn read_int(text: &[u8], oid: u32) -> Result<i64, BadValueText>
    requires { IsIntegerKind (kind_under oid) }
    ensures read { IfOk result (λ n. (has_value (kind_under oid) text.now ≡ true) × (n ≡ number_value text.now)) }
    ensures refused { IfErr result (λ e. (has_value (kind_under oid) text.now ≡ false) × (e.oid ≡ oid)) }
{
    let Ok(text) = str::from_utf8(text) else {
        return Err(BadValueText { oid });
    };
    let Ok(number) = text.parse::<i64>() else {
        return Err(BadValueText { oid });
    };
    if fits(number, kind_of(oid)) {
        Ok(number)
    } else {
        Err(BadValueText { oid })
    }
}

// Whether the number lies in the range of the type.
fn fits(number: i64, kind: Kind) -> bool
    requires { IsIntegerKind kind }
    ensures { result ≡ is_within (limit_of kind) number }
{
    match kind {
        Kind::SmallInt => -0x8000 <= number && number < 0x8000,
        Kind::Integer => -0x8000_0000 <= number && number < 0x8000_0000,
        _ => true,
    }
}

/// The value of a boolean's text: `t` and `true` are true, `f` and `false` are false.
///
/// Any other text is `BadValueText`.
pub fn read_bool(text: &[u8]) -> Result<bool, BadValueText>
    ensures read { IfOk result (λ b. (has_value Kind.Boolean text.now ≡ true) × (b ≡ truth_value text.now)) }
    ensures refused { IfErr result (λ e. (has_value Kind.Boolean text.now ≡ false) × (e.oid ≡ 16)) }
{
    if text == b"t".as_slice() || text == b"true".as_slice() {
        Ok(true)
    } else if text == b"f".as_slice() || text == b"false".as_slice() {
        Ok(false)
    } else {
        Err(BadValueText { oid: BOOLEAN })
    }
}

/// The 128-bit number of a uuid's text: 36 bytes, with hyphens after 8, 12, 16 and 20 hexadecimal digits of either case.
///
/// Any other text is `BadValueText`.
pub fn read_uuid(text: &[u8]) -> Result<u128, BadValueText>
    ensures read { IfOk result (λ n. (has_value Kind.Uuid text.now ≡ true) × (n ≡ uuid_value text.now)) }
    ensures refused { IfErr result (λ e. (has_value Kind.Uuid text.now ≡ false) × (e.oid ≡ 2950)) }
{
    if text.len() != 36 {
        return Err(BadValueText { oid: UUID });
    }
    match Uuid::try_parse_ascii(text) {
        Ok(id) => Ok(id.as_u128()),
        Err(_) => Err(BadValueText { oid: UUID }),
    }
}

/// Whether the text has a value under the type with this OID. A plain text has, and so has any text of a type that
/// where-clauses do not know.
pub fn has_value(text: &[u8], oid: u32) -> bool
    ensures { result ≡ has_value (kind_under oid) text.now }
{
    match kind_of(oid) {
        Kind::Boolean => read_bool(text).is_ok(),
        Kind::SmallInt | Kind::Integer | Kind::BigInt => read_int(text, oid).is_ok(),
        Kind::Uuid => read_uuid(text).is_ok(),
        Kind::Text | Kind::Other => true,
    }
}

/// How the values of two texts stand to one another under a type: false before true, numbers by size, texts by their
/// bytes, uuids by their 128-bit numbers.
pub fn compare(left: &Text, right: &Text, oid: u32) -> Ordering
    requires kind { kind_under oid ≢ Kind.Other }
    requires left { has_value (kind_under oid) left.now ≡ true }
    requires right { has_value (kind_under oid) right.now ≡ true }
    ensures { result ≡ order_of (kind_under oid) left.now right.now }
{
    match kind_of(oid) {
        Kind::Boolean => compare_truths(left, right),
        Kind::SmallInt | Kind::Integer | Kind::BigInt => compare_numbers(left, right, oid),
        Kind::Uuid => compare_uuids(left, right),
        Kind::Text | Kind::Other => left.cmp(right),
    }
}

fn compare_truths(left: &Text, right: &Text) -> Ordering
    requires left { has_value Kind.Boolean left.now ≡ true }
    requires right { has_value Kind.Boolean right.now ≡ true }
    ensures { result ≡ order_of Kind.Boolean left.now right.now }
{
    match (read_bool(left.as_bytes()), read_bool(right.as_bytes())) {
        (Ok(left_truth), Ok(right_truth)) => left_truth.cmp(&right_truth),
        _ => unreachable!(),
    }
}

fn compare_numbers(left: &Text, right: &Text, oid: u32) -> Ordering
    requires kind { IsIntegerKind (kind_under oid) }
    requires left { has_value (kind_under oid) left.now ≡ true }
    requires right { has_value (kind_under oid) right.now ≡ true }
    ensures { result ≡ order_of (kind_under oid) left.now right.now }
{
    match (
        read_int(left.as_bytes(), oid),
        read_int(right.as_bytes(), oid),
    ) {
        (Ok(left_number), Ok(right_number)) => left_number.cmp(&right_number),
        _ => unreachable!(),
    }
}

fn compare_uuids(left: &Text, right: &Text) -> Ordering
    requires left { has_value Kind.Uuid left.now ≡ true }
    requires right { has_value Kind.Uuid right.now ≡ true }
    ensures { result ≡ order_of Kind.Uuid left.now right.now }
{
    match (read_uuid(left.as_bytes()), read_uuid(right.as_bytes())) {
        (Ok(left_id), Ok(right_id)) => left_id.cmp(&right_id),
        _ => unreachable!(),
    }
}

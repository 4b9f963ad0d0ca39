//! The value of a part over a row, and how two compare.
ghost use Rattle.std.specs.Prelude.{◌≡◌, Some, None, if◌then◌else◌};
ghost use Rattle.pg_values.specs.Values.{kind_under, IsIntegerKind, has_value, number_value};
ghost use Rattle.where_eval.specs.Data.{seen};
ghost use Rattle.where_eval.specs.Scalars.{Number, read_under, read_cell as cell, tri_of as tri_of_scalar, of_tri as scalar_of_tri, order_between, held as held_order, compared as compared_scalars, is_distinct as are_distinct, passes as passes_test, fits_scalar};

use crate::like::{Piece, fits};
use crate::logic::of_bool;
use pg_values::{Kind, read_bool, read_int, read_uuid};
use shape_base::{Text, Tri, Value};
use std::cmp::Ordering;
use where_parser::{CmpOp, IsTest};

/// The value of a part. Null is unknown where a truth is asked for.
#[derive(Clone, Copy)]
pub enum ReadValue<'a> {
    Null,
    Truth(bool),
    Number(i64),
    Words(&'a Text),
    Id(u128),
}

fn read_number(text: &Text, oid: u32) -> ReadValue
    requires { IsIntegerKind (kind_under oid) }
    ensures { seen result ≡ (if has_value (kind_under oid) text.now then Some (Number (number_value text.now)) else None) }
{
    match read_int(text.as_bytes(), oid) {
        Ok(number) => ReadValue::Number(number),
        Err(_) => ReadValue::Null,
    }
}

/// The value that a text has under a kind; null where it has none.
pub fn read(text: &Text, kind: Kind) -> ReadValue
    ensures { seen result ≡ read_under kind text.now }
{
    match kind {
        Kind::Boolean => match read_bool(text.as_bytes()) {
            Ok(truth) => ReadValue::Truth(truth),
            Err(_) => ReadValue::Null,
        },
        Kind::SmallInt => read_number(text, 21),
        Kind::Integer => read_number(text, 23),
        Kind::BigInt => read_number(text, 20),
        Kind::Uuid => match read_uuid(text.as_bytes()) {
            Ok(id) => ReadValue::Id(id),
            Err(_) => ReadValue::Null,
        },
        Kind::Text | Kind::Other => ReadValue::Words(text),
    }
}

/// The value of a row's cell under its column's kind.
pub fn read_cell(value: &Value, kind: Kind) -> ReadValue
    ensures { seen result ≡ cell kind value.now }
{
    match value {
        Value::Null => ReadValue::Null,
        Value::Words(text) => read(text, kind),
    }
}

/// A null bool is unknown.
pub fn tri_of(value: ReadValue) -> Tri
    ensures { result ≡ tri_of_scalar (seen value.entry) }
{
    match value {
        ReadValue::Truth(truth) => of_bool(truth),
        _ => Tri::Unknown,
    }
}

/// Unknown is a null bool.
pub fn of_tri<'a>(tri: Tri) -> ReadValue<'a>
    ensures { seen result ≡ scalar_of_tri tri }
{
    match tri {
        Tri::True => ReadValue::Truth(true),
        Tri::False => ReadValue::Truth(false),
        Tri::Unknown => ReadValue::Null,
    }
}

/// How two values of one class stand to one another; none where one is null.
fn order(left: ReadValue, right: ReadValue) -> Option<Ordering>
    ensures { result ≡ order_between (seen left.entry) (seen right.entry) }
{
    match (left, right) {
        (ReadValue::Truth(a), ReadValue::Truth(b)) => Some(a.cmp(&b)),
        (ReadValue::Number(a), ReadValue::Number(b)) => Some(a.cmp(&b)),
        (ReadValue::Words(a), ReadValue::Words(b)) => Some(a.cmp(b)),
        (ReadValue::Id(a), ReadValue::Id(b)) => Some(a.cmp(&b)),
        _ => None,
    }
}

fn held(op: CmpOp, order: Option<Ordering>) -> Tri
    ensures { result ≡ held_order op order }
{
    let Some(order) = order else {
        return Tri::Unknown;
    };
    of_bool(match op {
        CmpOp::Eq => order.is_eq(),
        CmpOp::Ne => order.is_ne(),
        CmpOp::Lt => order.is_lt(),
        CmpOp::Le => order.is_le(),
        CmpOp::Gt => order.is_gt(),
        CmpOp::Ge => order.is_ge(),
    })
}

/// A comparison; unknown where one value is null.
pub fn compared(op: CmpOp, left: ReadValue, right: ReadValue) -> Tri
    ensures { result ≡ compared_scalars op (seen left.entry) (seen right.entry) }
{
    held(op, order(left, right))
}

/// Whether two values are distinct; two nulls are not.
pub fn is_distinct(left: ReadValue, right: ReadValue) -> bool
    ensures { result ≡ are_distinct (seen left.entry) (seen right.entry) }
{
    match (left, right) {
        (ReadValue::Null, ReadValue::Null) => false,
        _ => match order(left, right) {
            Some(order) => order.is_ne(),
            None => true,
        },
    }
}

/// IS NULL, IS TRUE, IS FALSE, IS UNKNOWN.
pub fn passes(test: IsTest, value: ReadValue) -> bool
    ensures { result ≡ passes_test test (seen value.entry) }
{
    match (test, value) {
        (IsTest::Null, ReadValue::Null) => true,
        (IsTest::Null, _) => false,
        (IsTest::True, _) => matches!(tri_of(value), Tri::True),
        (IsTest::False, _) => matches!(tri_of(value), Tri::False),
        (IsTest::Unknown, _) => matches!(tri_of(value), Tri::Unknown),
    }
}

/// LIKE; unknown where the left side is null.
pub fn like(pieces: &[Piece], left: ReadValue) -> Tri
    ensures { result ≡ fits_scalar pieces.now (seen left.entry) }
{
    match left {
        ReadValue::Words(text) => of_bool(fits(pieces, text.as_str())),
        _ => Tri::Unknown,
    }
}

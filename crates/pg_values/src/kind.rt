//! The column types that where-clauses know.
ghost use Rattle.std.specs.Prelude.{◌≡◌};
ghost use Rattle.pg_values.specs.Values.{kind_under};

/// What a column's type is to a where-clause (PostgreSQL manual, chapter 8).
#[derive(Clone, Copy, Debug, PartialEq, Eq)]
pub enum Kind {
    Boolean,
    SmallInt,
    Integer,
    BigInt,
    /// `text` and `varchar`.
    Text,
    Uuid,
    /// Any other type: each text is a value, and the values have no order.
    Other,
}

/// The kind of the type with this OID in PostgreSQL's catalogue `pg_type`.
pub fn kind_of(oid: u32) -> Kind
    ensures { result ≡ kind_under oid }
{
    match oid {
        16 => Kind::Boolean,
        20 => Kind::BigInt,
        21 => Kind::SmallInt,
        23 => Kind::Integer,
        25 | 1043 => Kind::Text,
        2950 => Kind::Uuid,
        _ => Kind::Other,
    }
}

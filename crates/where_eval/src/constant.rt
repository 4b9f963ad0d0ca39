//! Values that a clause writes.
use shape_base::Text;

/// A constant of a clause, read under the kind that its place asks for.
#[derive(Drop)]
pub enum Constant {
    Null,
    Truth(bool),
    Number(i64),
    Words(Text),
    Id(u128),
}

//! The sizes of change messages.
ghost use Rattle.std.specs.Prelude.{◌≡◌, ◌<◌, length};
ghost use Rattle.std.specs.List.{flat_map};
ghost use Rattle.pgout.specs.Grammar.{field, tuple};

use pgout::Field;

fn field_size(value: &Field) -> u64
    requires { field.Fits value.now }
    ensures size { result ≡ length (field.spell value.now) }
    ensures most { result < 4294967301 }
{
    match value {
        Field::Null => 1,
        Field::Unsent => 1,
        Field::Chars(bytes) => 5 + bytes.len(),
        Field::Binary(bytes) => 5 + bytes.len(),
    }
}

/// The bytes of a row's columns in a message.
pub(crate) fn fields_size(row: &[Field]) -> u64
    requires { tuple.Fits row.now }
    ensures size { result ≡ length (flat_map field.spell row.now) }
    ensures most { result < 281479271677952 }
{
    let mut size = 0;
    let mut rest = row;
    while let [field, others @ ..] = rest {
        size += field_size(field);
        rest = others;
    }
    size
}

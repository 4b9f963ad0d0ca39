//! What holds of all values, over the definitions alone.
ghost use Rattle.pg_values.specs.Laws.{OrderIsTotal, WiderTypesHaveTheNumbersOfNarrower, PrintedTextsHaveValues};

/// The order of each type is total, and two texts are equal in it exactly where they write one value.
pub fn order_is_total()
    ensures { OrderIsTotal }
{}

/// A number of smallint is one of integer, and a number of integer is one of bigint.
pub fn wider_types_have_the_numbers_of_narrower()
    ensures { WiderTypesHaveTheNumbersOfNarrower }
{}

/// The texts that PostgreSQL prints have their values: a number in decimal, `t` and `f`, a uuid in lower case.
pub fn printed_texts_have_values()
    ensures { PrintedTextsHaveValues }
{}

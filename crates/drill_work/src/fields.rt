//! Rows, as they are sent.
ghost use Rattle.std.specs.Prelude.{◌≡◌, IfOk, decimal};
ghost use Rattle.pgout.specs.declared.message.Field.TheVariants.{Chars};
ghost use Rattle.pgout.specs.Grammar.{field, tuple};
ghost use Rattle.drill_work.specs.Messages.{letter_text, fields_of};

use crate::plain::{Item, Letter};
use pgout::{Field, Fields};
use shape_base::{Octets, OutOfMemory, Seq};
use std::alloc::Global;

/// The text of a letter.
pub fn letter_text(letter: Letter) -> &'static str
    ensures { result.now ≡ letter_text letter }
{
    match letter {
        Letter::K => "k",
        Letter::M => "m",
    }
}

/// Bytes of their own.
pub fn octets(alloc: Global, bytes: &[u8]) -> Result<Octets, OutOfMemory>
    ensures { IfOk result (λ twin. twin ≡ bytes.now) }
{
    Ok(Octets::from_vec(Vec::from_slice(alloc, bytes)?))
}

fn number_field(alloc: Global, number: u64) -> Result<Field, OutOfMemory>
    ensures is { IfOk result (λ sent. sent ≡ Chars (decimal number)) }
    ensures fits { IfOk result field.Fits }
{
    let mut digits = itoa::Buffer::new();
    let text = digits.format(number);
    Ok(Field::Chars(octets(alloc, text.as_bytes())?))
}

fn letter_field(alloc: Global, letter: Letter) -> Result<Field, OutOfMemory>
    ensures is { IfOk result (λ sent. sent ≡ Chars (letter_text letter)) }
    ensures fits { IfOk result field.Fits }
{
    let text = letter_text(letter);
    Ok(Field::Chars(octets(alloc, text.as_bytes())?))
}

/// A row, as it is sent.
pub fn fields_of(alloc: Global, item: &Item) -> Result<Fields, OutOfMemory>
    ensures is { IfOk result (λ row. row ≡ fields_of item.now) }
    ensures fits { IfOk result tuple.Fits }
{
    let mut row = Seq::new(alloc);
    row.push(number_field(alloc, item.id)?)?;
    row.push(number_field(alloc, item.n)?)?;
    row.push(letter_field(alloc, item.letter)?)?;
    Ok(row)
}

//! What row descriptions and data rows hold.
ghost use Rattle.std.specs.Prelude.{◌≡◌, ◌++◌, OnOk};
ghost use Rattle.byte_format.specs.Format.{Gives, string};
ghost use Rattle.byte_format.specs.Whole.{whole};
ghost use Rattle.pg_dialogue.specs.Contents.{column_type, type_of, field, value, row_description, data_row, is_copy_both};

use byte_format::{
    Part, ReadError, list_of, put_chunk, put_string, put_u16, put_u32, string_of, u16_at, u32_at,
};
use shape_base::Octets;
use std::alloc::{AllocError, Global};

/// A field of a RowDescription.
#[derive(Drop)]
pub(crate) struct Field {
    pub name: Octets,
    pub table: u32,
    pub attribute: u16,
    pub oid: u32,
    pub size: u16,
    pub modifier: u32,
    pub format: u16,
}

/// A value of a DataRow.
#[derive(Drop)]
pub(crate) enum Sent {
    Null,
    Chars(Octets),
}

/// The length that stands for null.
const NULL: u32 = 0xffff_ffff;

/// The type of a column, its size and modifier, and the format of its values.
fn put_type(out: &mut Vec<u8>, field: &Field) -> Result<(), AllocError>
    ensures { OnOk result (out.new.items ≡ out.old.items ++ column_type.spell (type_of field.now)) }
{
    put_u32(out, field.oid)?;
    put_u16(out, field.size)?;
    put_u32(out, field.modifier)?;
    put_u16(out, field.format)
}

impl Part for Field {
    ghost format = { field };

    fn read_part(alloc: Global, bytes: &[u8]) -> Result<(Field, &[u8]), ReadError> {
        let (name, rest) = string_of(alloc, bytes)?;
        let (table, rest) = u32_at(rest)?;
        let (attribute, rest) = u16_at(rest)?;
        let (oid, rest) = u32_at(rest)?;
        let (size, rest) = u16_at(rest)?;
        let (modifier, rest) = u32_at(rest)?;
        let (format, rest) = u16_at(rest)?;
        let name = Octets::from_vec(name);
        let field = Field {
            name,
            table,
            attribute,
            oid,
            size,
            modifier,
            format,
        };
        Ok((field, rest))
    }

    fn put_part(&self, out: &mut Vec<u8>) -> Result<(), AllocError> {
        put_string(out, self.name.as_slice())?;
        put_u32(out, self.table)?;
        put_u16(out, self.attribute)?;
        put_type(out, self)
    }
}

impl Part for Sent {
    ghost format = { value };

    fn read_part(alloc: Global, bytes: &[u8]) -> Result<(Sent, &[u8]), ReadError> {
        let (len, rest) = u32_at(bytes)?;
        if len == NULL {
            return Ok((Sent::Null, rest));
        }
        let len = len as usize;
        if rest.len() < len {
            return Err(ReadError::Wrong { left: 0 });
        }
        let (text, rest) = rest.split_at(len);
        let text = Vec::from_slice(alloc, text)?;
        Ok((Sent::Chars(Octets::from_vec(text)), rest))
    }

    fn put_part(&self, out: &mut Vec<u8>) -> Result<(), AllocError> {
        match self {
            Sent::Null => put_u32(out, NULL),
            Sent::Chars(text) => put_chunk(out, text.as_slice()),
        }
    }
}

/// A payload that is nothing but the fields of a RowDescription.
pub(crate) fn row_description_of(alloc: Global, payload: &[u8]) -> Result<Vec<Field>, ReadError>
    ensures { Gives (λ x. x.items) result (whole row_description payload.now) }
{
    let (count, rest) = u16_at(payload)?;
    let (fields, rest) = list_of(alloc, count as u64, rest)?;
    if !rest.is_empty() {
        return Err(ReadError::Wrong { left: rest.len() });
    }
    Ok(fields)
}

/// A payload that is nothing but the values of a DataRow.
pub(crate) fn data_row_of(alloc: Global, payload: &[u8]) -> Result<Vec<Sent>, ReadError>
    ensures { Gives (λ x. x.items) result (whole data_row payload.now) }
{
    let (count, rest) = u16_at(payload)?;
    let (values, rest) = list_of(alloc, count as u64, rest)?;
    if !rest.is_empty() {
        return Err(ReadError::Wrong { left: rest.len() });
    }
    Ok(values)
}

/// A payload that is nothing but a string.
pub(crate) fn text_of(alloc: Global, payload: &[u8]) -> Result<Vec<u8>, ReadError>
    ensures { Gives (λ x. x.items) result (whole string payload.now) }
{
    let (text, rest) = string_of(alloc, payload)?;
    if !rest.is_empty() {
        return Err(ReadError::Wrong { left: rest.len() });
    }
    Ok(text)
}

pub(crate) fn is_copy_both(payload: &[u8]) -> bool
    ensures { result ≡ is_copy_both payload.now }
{
    match payload {
        [_, a, b, rest @ ..] => rest.len() == 2 * u16::from_be_bytes([*a, *b]) as usize,
        _ => false,
    }
}

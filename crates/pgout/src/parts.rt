//! The parts of messages that have a format of their own.
ghost use Rattle.pgout.specs.Grammar.{field, column};

use crate::message::{ColumnSent, Field};
use byte_format::{
    Part, ReadError, chunk_of, put_chunk, put_string, put_u32, string_of, u8_at, u32_at,
};
use shape_base::Octets;
use std::alloc::{AllocError, Global};

impl Part for Field {
    ghost format = { field };

    fn read_part(alloc: Global, bytes: &[u8]) -> Result<(Field, &[u8]), ReadError> {
        match bytes {
            [] => Err(ReadError::Wrong { left: 0 }),
            [b'n', rest @ ..] => Ok((Field::Null, rest)),
            [b'u', rest @ ..] => Ok((Field::Unsent, rest)),
            [b't', rest @ ..] => {
                let (value, rest) = chunk_of(alloc, rest)?;
                Ok((Field::Chars(Octets::from_vec(value)), rest))
            }
            [b'b', rest @ ..] => {
                let (value, rest) = chunk_of(alloc, rest)?;
                Ok((Field::Binary(Octets::from_vec(value)), rest))
            }
            _ => Err(ReadError::Wrong { left: bytes.len() }),
        }
    }

    fn put_part(&self, out: &mut Vec<u8>) -> Result<(), AllocError> {
        match self {
            Field::Null => {
                out.push(b'n')?;
                Ok(())
            }
            Field::Unsent => {
                out.push(b'u')?;
                Ok(())
            }
            Field::Chars(value) => {
                out.push(b't')?;
                put_chunk(out, value.as_slice())
            }
            Field::Binary(value) => {
                out.push(b'b')?;
                put_chunk(out, value.as_slice())
            }
        }
    }
}

impl Part for ColumnSent {
    ghost format = { column };

    fn read_part(alloc: Global, bytes: &[u8]) -> Result<(ColumnSent, &[u8]), ReadError> {
        let (flags, rest) = u8_at(bytes)?;
        let (name, rest) = string_of(alloc, rest)?;
        let (oid, rest) = u32_at(rest)?;
        let (modifier, rest) = u32_at(rest)?;
        let column = ColumnSent {
            flags,
            name: Octets::from_vec(name),
            oid,
            modifier,
        };
        Ok((column, rest))
    }

    fn put_part(&self, out: &mut Vec<u8>) -> Result<(), AllocError> {
        out.push(self.flags)?;
        put_string(out, self.name.as_slice())?;
        put_u32(out, self.oid)?;
        put_u32(out, self.modifier)
    }
}

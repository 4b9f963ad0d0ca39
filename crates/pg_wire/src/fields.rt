//! The fields of an ErrorResponse.
ghost use Rattle.std.specs.Prelude.{◌≡◌, ℕ, MatchOption};
ghost use Rattle.byte_format.specs.Format.{string_at};
ghost use Rattle.pg_wire.specs.ErrorFields.{sqlstate_of, found_by, bytes_of};

/// The bytes up to the first zero byte, and those after it.
#[tactic(auto, unfolding(byte_format::specs::Format::string_at))]
pub(crate) fn text_at(bytes: &[u8]) -> Option<(&[u8], &[u8])>
    ensures { MatchOption result ((left : ℕ) × (string_at bytes.now ≡ Err left)) (λ x. string_at bytes.now ≡ Ok (x.0.now, x.1.now)) }
{
    for (len, byte) in bytes.iter().enumerate() {
        if *byte == 0 {
            return Some((&bytes[..len], &bytes[len + 1..]));
        }
    }
    None
}

/// The text that was found before, else this one where it is a field `C`.
fn first_code<'a>(found: Option<&'a [u8]>, kind: u8, text: &'a [u8]) -> Option<&'a [u8]>
    ensures { bytes_of result ≡ found_by (bytes_of found.entry) kind text.now }
{
    match found {
        Some(code) => Some(code),
        None => { if kind == b'C' { Some(text) } else { None } }
    }
}

/// The SQLSTATE code in the payload of an ErrorResponse (PostgreSQL manual, 55.8 Error and Notice Message Fields): the text of the first field `C`, where the
/// payload is the list of fields and has one. Whether it is UTF-8 is not looked at.
pub fn sqlstate_at(payload: &[u8]) -> Option<&[u8]>
    ensures { bytes_of result ≡ sqlstate_of payload.now }
{
    let mut found = None;
    let mut rest = payload;
    for _ in 0..payload.len() {
        let (kind, after) = rest.split_first()?;
        if *kind == 0 {
            return if after.is_empty() { found } else { None };
        }
        let (text, more) = text_at(after)?;
        found = first_code(found, *kind, text);
        rest = more;
    }
    None
}

//! The lines of a reply's head, before their values are looked at.
ghost use Rattle.std.specs.Prelude.{◌≡◌, IfSome, option_map};
ghost use Rattle.http_edge.specs.ReplyLines.{fixed_in, optional_in, flags_in, lines_in, fixed_text, optional_text, flags_text, lines_text};
ghost use Rattle.http_edge.specs.ReplySeen.{seen_fixed, seen_optional, seen_lines};

use crate::scanning::{behind, flag_of, value_if, value_of};

/// The values that each head has, as they stand there.
#[derive(Clone, Copy)]
pub struct FixedLines<'a> {
    pub status: &'a [u8],
    pub kind: &'a [u8],
    pub length: &'a [u8],
    pub cache: &'a [u8],
}

/// The values that a head may lack.
#[derive(Clone, Copy)]
pub struct OptionalLines<'a> {
    pub handle: Option<&'a [u8]>,
    pub offset: Option<&'a [u8]>,
    pub schema: Option<&'a [u8]>,
    pub cursor: Option<&'a [u8]>,
}

/// The values of a head, and whether its lines without a value stand there.
#[derive(Clone, Copy)]
pub struct ReplyLines<'a> {
    pub fixed: FixedLines<'a>,
    pub optional: OptionalLines<'a>,
    pub allow: bool,
    pub close: bool,
}

#[tactic(auto, unfolding(crate::specs::ReplyLines::fixed_in))]
fn fixed_lines(text: &[u8]) -> Option<(FixedLines<'_>, &[u8])>
    ensures read { option_map (λ p. (seen_fixed p.0, p.1.now)) result ≡ fixed_in text.now }
    ensures whole { IfSome result (λ p. text.now ≡ fixed_text (seen_fixed p.0) p.1.now) }
{
    let (status, text) = value_of(b"HTTP/1.1 ", text)?;
    let (kind, text) = value_of(b"content-type: ", text)?;
    let (length, text) = value_of(b"content-length: ", text)?;
    let (cache, text) = value_of(b"cache-control: ", text)?;
    let fixed = FixedLines {
        status,
        kind,
        length,
        cache,
    };
    Some((fixed, text))
}

#[tactic(auto, unfolding(crate::specs::ReplyLines::optional_in))]
fn optional_lines(text: &[u8]) -> Option<(OptionalLines<'_>, &[u8])>
    ensures read { option_map (λ p. (seen_optional p.0, p.1.now)) result ≡ optional_in text.now }
    ensures whole { IfSome result (λ p. text.now ≡ optional_text (seen_optional p.0) p.1.now) }
{
    let (handle, text) = value_if(b"electric-handle: ", text)?;
    let (offset, text) = value_if(b"electric-offset: ", text)?;
    let (schema, text) = value_if(b"electric-schema: ", text)?;
    let (cursor, text) = value_if(b"electric-cursor: ", text)?;
    let optional = OptionalLines {
        handle,
        offset,
        schema,
        cursor,
    };
    Some((optional, text))
}

/// The flags, behind the values, and what stands behind the empty line.
#[tactic(auto, unfolding(crate::specs::ReplyLines::flags_in))]
fn flags(text: &[u8]) -> Option<((bool, bool), &[u8])>
    ensures read { option_map (λ p. (p.0, p.1.now)) result ≡ flags_in text.now }
    ensures whole { IfSome result (λ p. text.now ≡ flags_text p.0.0 p.0.1 p.1.now) }
{
    let (allow, text) = flag_of(b"allow: GET\r\n", text);
    let (close, text) = flag_of(b"connection: close\r\n", text);
    let rest = behind(b"\r\n", text)?;
    Some(((allow, close), rest))
}

/// The lines of the head that the bytes begin with, and what stands behind it.
#[tactic(auto, unfolding(crate::specs::ReplyLines::lines_in, crate::specs::ReplyLines::lines_text))]
pub fn reply_lines(text: &[u8]) -> Option<(ReplyLines<'_>, &[u8])>
    ensures read { option_map (λ p. (seen_lines p.0, p.1.now)) result ≡ lines_in text.now }
    ensures whole { IfSome result (λ p. text.now ≡ lines_text (seen_lines p.0) p.1.now) }
{
    let (fixed, text) = fixed_lines(text)?;
    let (optional, text) = optional_lines(text)?;
    let ((allow, close), rest) = flags(text)?;
    let lines = ReplyLines {
        fixed,
        optional,
        allow,
        close,
    };
    Some((lines, rest))
}

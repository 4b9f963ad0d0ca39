//! What the fields of a head say of the body and of the connection.
ghost use Rattle.std.specs.Prelude.{◌≡◌, ◌==◌, ◌||◌, [], ◌∷◌, ◌++◌, length, reverse, All, MatchOption};
ghost use Rattle.std.specs.List.{list_any};
ghost use Rattle.httparse.specs.Grammar.{skip_ows};
ghost use Rattle.httparse.specs.Spans.{IsHeaderWithin, span_bytes};
ghost use Rattle.http_edge.specs.Head.{is_named, says_body, is_close, has_close, says_close};

use crate::scanning::first_byte;
use httparse::spans::HeaderSpan;

/// Whether a name is this one, in any case (RFC 9110, section 5.1).
fn is_named(name: &[u8], other: &[u8]) -> bool
    ensures { result ≡ is_named name.now other.now }
{
    name.eq_ignore_ascii_case(other)
}

fn is_white(byte: u8) -> bool
    ensures { result ≡ (byte == 32) || (byte == 9) }
{
    byte == b' ' || byte == b'\t'
}

/// The bytes without the white space in front of them.
fn without_leading(bytes: &[u8]) -> &[u8]
    ensures { result.now ≡ skip_ows bytes.now }
{
    let mut rest = bytes;
    'white: while let Some((first, others)) = first_byte(rest) {
        if !is_white(first) {
            return rest;
        }
        rest = others;
    }
    rest
}

/// The bytes, with the last apart.
fn last_byte(bytes: &[u8]) -> Option<(u8, &[u8])>
    ensures { MatchOption result (bytes.now ≡ []) (λ x. bytes.now ≡ x.1.now ++ x.0 ∷ []) }
{
    let (last, rest) = bytes.split_last()?;
    Some((*last, rest))
}

/// The bytes without the white space behind them.
fn without_trailing(bytes: &[u8]) -> &[u8]
    ensures { reverse result.now ≡ skip_ows (reverse bytes.now) }
{
    let mut rest = bytes;
    'white: while let Some((last, others)) = last_byte(rest) {
        if !is_white(last) {
            return rest;
        }
        rest = others;
    }
    rest
}

/// Whether an option of a connection is `close`, in any case.
fn is_close(option: &[u8]) -> bool
    ensures { result ≡ is_close option.now }
{
    is_named(without_trailing(without_leading(option)), b"close")
}

/// Whether a list of options has `close` (RFC 9110, sections 5.6.1 and 7.6.1).
fn has_close(value: &[u8]) -> bool
    ensures { result ≡ has_close value.now }
{
    value.split(|byte| *byte == b',').any(is_close)
}

/// Whether a field says that the connection is closed after the reply.
fn says_close(name: &[u8], value: &[u8]) -> bool
    ensures { result ≡ says_close name.now value.now }
{
    is_named(name, b"connection") && has_close(value)
}

/// Whether a field says that a body follows the head.
fn says_body(name: &[u8], value: &[u8]) -> bool
    ensures { result ≡ says_body name.now value.now }
{
    is_named(name, b"transfer-encoding")
        || (is_named(name, b"content-length") && value != b"0".as_slice())
}

/// Whether some field says that a body follows the head.
pub fn have_body(bytes: &[u8], fields: &[HeaderSpan]) -> bool
    requires { All (IsHeaderWithin (length bytes.now)) fields.now }
    ensures { result ≡ list_any (λ f. says_body (span_bytes bytes.now f.name) (span_bytes bytes.now f.value)) fields.now }
{
    fields.iter().any(|field| says_body(field.name.of(bytes), field.value.of(bytes)))
}

/// Whether some field says that the connection is closed after the reply.
pub fn have_close(bytes: &[u8], fields: &[HeaderSpan]) -> bool
    requires { All (IsHeaderWithin (length bytes.now)) fields.now }
    ensures { result ≡ list_any (λ f. says_close (span_bytes bytes.now f.name) (span_bytes bytes.now f.value)) fields.now }
{
    fields.iter().any(|field| says_close(field.name.of(bytes), field.value.of(bytes)))
}

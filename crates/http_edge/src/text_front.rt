//! Bytes in front of a text.
ghost use Rattle.std.specs.Prelude.{MatchBool};
ghost use Rattle.http_edge.specs.TextFront.{BeginsText, BeginsNoText};

/// Whether bytes can follow these that make them UTF-8.
pub fn begins_text(bytes: &[u8]) -> bool
    ensures { MatchBool result (BeginsText bytes.now) (BeginsNoText bytes.now) }
{
    match str::from_utf8(bytes) {
        Ok(_) => true,
        Err(error) => error.error_len().is_none(),
    }
}

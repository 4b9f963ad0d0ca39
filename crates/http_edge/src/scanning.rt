//! Lines of a head, read from the front of bytes.
ghost use Rattle.std.specs.Prelude.{◌≡◌, ◌∷◌, ◌++◌, [], MatchOption, IfSome, option_map};
ghost use Rattle.http_edge.specs.ReplyLines.{behind, to_end, value_of, value_if, flag_of, flag_text};
ghost use Rattle.http_edge.specs.ReplyText.{line, line_if};
ghost use Rattle.http_edge.specs.ReplySeen.{seen, seen_pair, seen_maybe};

use shape_base::split_at_first;

/// The bytes, with the first apart.
pub fn first_byte(bytes: &[u8]) -> Option<(u8, &[u8])>
    ensures { MatchOption result (bytes.now ≡ []) (λ x. bytes.now ≡ x.0 ∷ x.1.now) }
{
    let (first, rest) = bytes.split_first()?;
    Some((*first, rest))
}

/// What stands behind a front, where the bytes begin with it.
#[tactic(auto, unfolding(crate::specs::ReplyLines::behind))]
pub fn behind<'a>(front: &[u8], text: &'a [u8]) -> Option<&'a [u8]>
    ensures read { option_map seen result ≡ behind front.now text.now }
    ensures whole { IfSome result (λ rest. text.now ≡ front.now ++ rest.now) }
{
    let Some((first, front)) = first_byte(front) else {
        return Some(text);
    };
    let Some((other, text)) = first_byte(text) else {
        return None;
    };
    if first == other {
        return behind(front, text);
    }
    None
}

/// The bytes before the first CR, and those after the CR LF there.
#[tactic(auto, using(crate::proofs::LineLaws::split_to_end, crate::proofs::LineLaws::to_end_lacks))]
pub fn to_end(text: &[u8]) -> Option<(&[u8], &[u8])>
    ensures read { option_map seen_pair result ≡ to_end text.now }
    ensures whole { IfSome result (λ p. text.now ≡ p.0.now ++ 13 ∷ 10 ∷ p.1.now) }
{
    let (value, rest) = split_at_first(text, b'\r')?;
    let rest = behind(b"\n", rest)?;
    Some((value, rest))
}

/// The value of a field with this name, and what stands behind its line.
#[tactic(auto, unfolding(crate::specs::ReplyLines::value_of), using(crate::proofs::LineLaws::line_at))]
pub fn value_of<'a>(name: &[u8], text: &'a [u8]) -> Option<(&'a [u8], &'a [u8])>
    ensures read { option_map seen_pair result ≡ value_of name.now text.now }
    ensures whole { IfSome result (λ p. text.now ≡ line name.now p.0.now ++ p.1.now) }
{
    let rest = behind(name, text)?;
    to_end(rest)
}

/// The same of a field that may be absent.
#[tactic(auto, unfolding(crate::specs::ReplyLines::value_if), using(crate::proofs::LineLaws::line_at))]
pub fn value_if<'a>(name: &[u8], text: &'a [u8]) -> Option<(Option<&'a [u8]>, &'a [u8])>
    ensures read { option_map seen_maybe result ≡ value_if name.now text.now }
    ensures whole { IfSome result (λ p. text.now ≡ line_if name.now (λ value. value) (option_map seen p.0) ++ p.1.now) }
{
    let Some(rest) = behind(name, text) else {
        return Some((None, text));
    };
    let (value, rest) = to_end(rest)?;
    Some((Some(value), rest))
}

/// Whether a line stands there, and what stands behind it.
#[tactic(auto, unfolding(crate::specs::ReplyLines::flag_of))]
pub fn flag_of<'a>(words: &[u8], text: &'a [u8]) -> (bool, &'a [u8])
    ensures flag { result.0 ≡ (flag_of words.now text.now).0 }
    ensures rest { result.1.now ≡ (flag_of words.now text.now).1 }
    ensures whole { text.now ≡ flag_text result.0 words.now ++ result.1.now }
{
    match behind(words, text) {
        Some(rest) => (true, rest),
        None => (false, text),
    }
}

//! The words of a line.

/// What stands before the first mark, and what stands behind it: the whole text and an empty one where there is no mark.
pub fn cut(text: &str, mark: char) -> (&str, &str) {
    match text.split_once(mark) {
        Some((before, behind)) => (before, behind),
        None => (text, ""),
    }
}

/// The number that a word spells in decimal digits, or 0 where it spells none.
pub fn number_of(word: &str) -> u64 {
    word.parse::<u64>().unwrap_or(0)
}

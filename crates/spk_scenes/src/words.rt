//! The words of an event.

/// The first word, and what stands behind it.
pub(crate) fn split(text: &str) -> (&str, &str) {
    text.split_once(' ').unwrap_or((text, ""))
}

/// The number that a word is.
pub(crate) fn number(word: &str) -> Option<u64> {
    word.parse::<u64>().ok()
}

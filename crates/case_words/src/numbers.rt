//! Numbers by their digits.

/// An id, the number of a record, or a number to draw from.
pub fn number(word: &str) -> Option<u64> {
    word.parse().ok()
}

/// A count, or the number of a field, a class, a named lock or a text.
pub fn count(word: &str) -> Option<u32> {
    word.parse().ok()
}

/// The number of a client, or of a thread at its client.
pub fn small(word: &str) -> Option<u8> {
    word.parse().ok()
}

/// A number of the language.
pub fn long(word: &str) -> Option<i64> {
    word.parse().ok()
}

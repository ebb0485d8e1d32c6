// The words of a case.
use chv_num::{read_dec, read_hex};
use std::io;

/// What stands before the first such character, and what stands behind it.
pub fn cut(text: &str, at: char) -> (&str, &str) {
    match text.split_once(at) {
        Some((before, behind)) => (before, behind),
        None => (text, ""),
    }
}

/// The number that a word spells, in decimal digits, or in hexadecimal ones behind `0x`.
pub fn number(word: &str) -> Option<u64> {
    read_dec(word.as_bytes()).or(read_hex(word.as_bytes()))
}

/// Whether a reply is the last one of its connection: the word is `last` or `more`.
pub fn is_last(word: &str) -> Option<bool> {
    match word {
        "last" => Some(true),
        "more" => Some(false),
        _ => None,
    }
}

/// What a word spells, or an error where it spells nothing.
pub fn found<T: Drop>(value: Option<T>) -> io::Result<T> {
    match value {
        Some(value) => Ok(value),
        None => Err(io::Error::other("a word of the case cannot be read")),
    }
}

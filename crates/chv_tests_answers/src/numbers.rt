// Numbers as texts and as bytes (`chv_num`).
use crate::answers::allocated;
use crate::escapes::{bytes_of, shown};
use crate::words::{cut, found, number};
use chv_num::{bytes_of_hex, get_le, hex_of, put_le};
use std::alloc::{AllocError, Global};
use std::io;

/// A number, or `none`.
pub fn number_or_none(alloc: Global, found: Option<u64>) -> Result<String, AllocError> {
    match found {
        Some(number) => number.to_string(alloc),
        None => String::from_str(alloc, "none"),
    }
}

/// `bytes PAIRS`: the bytes that pairs of digits spell.
pub fn bytes(alloc: Global, text: &[u8]) -> Result<String, AllocError> {
    match bytes_of_hex(alloc, text)? {
        Some(bytes) => shown(alloc, bytes.as_slice()),
        None => String::from_str(alloc, "none"),
    }
}

/// `put VALUE:WIDTH ..`: fields behind one another, as pairs of digits.
pub fn put(alloc: Global, words: &str) -> io::Result<String> {
    let mut fields = Vec::new(alloc);
    for word in words.split(' ') {
        put_word(&mut fields, word)?;
    }
    allocated(hex_of(alloc, fields.as_slice()))
}

fn put_word(fields: &mut Vec<u8>, word: &str) -> io::Result<()> {
    let (value, width) = cut(word, ':');
    let value = found(number(value))?;
    allocated(found(put_field(fields, value, width))?)
}

// Puts a field, where the value fits a width.
fn put_field(fields: &mut Vec<u8>, value: u64, width: &str) -> Option<Result<(), AllocError>> {
    match width {
        "1" if value < 256 => Some(put_le(fields, value, 1)),
        "2" if value < 65_536 => Some(put_le(fields, value, 2)),
        "4" if value < 4_294_967_296 => Some(put_le(fields, value, 4)),
        "8" => Some(put_le(fields, value, 8)),
        _ => None,
    }
}

/// `field AT WIDTH TEXT`: the number in so many bytes of a text, from a place on.
pub fn field(alloc: Global, words: &str) -> io::Result<String> {
    let (at, behind) = cut(words, ' ');
    let (width, text) = cut(behind, ' ');
    let at = found(at.parse().ok())?;
    let width = found(width.parse().ok())?;
    let bytes = bytes_of(alloc, text)?;
    allocated(number_or_none(alloc, get_le(bytes.as_slice(), at, width)))
}

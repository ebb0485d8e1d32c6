// The escapes of texts in cases. `\n`, `\r`, `\t`, `\\` and `\xHH` are one byte each, and `<COUNT*PART>` is a part many
// times; a `<` itself is `\x3c`.
use crate::words::{cut, found, number};
use chv_num::bytes_of_hex;
use std::alloc::{AllocError, Global};
use std::io;

/// The bytes that a text stands for.
pub fn bytes_of(alloc: Global, text: &str) -> io::Result<Vec<u8>> {
    let mut bytes = Vec::new(alloc);
    for (k, piece) in text.split('<').enumerate() {
        if k == 0 {
            push_part(alloc, &mut bytes, piece)?;
        } else {
            push_repeat(alloc, &mut bytes, piece)?;
        }
    }
    Ok(bytes)
}

// `COUNT*PART>` and what stands behind it.
fn push_repeat(alloc: Global, bytes: &mut Vec<u8>, piece: &str) -> io::Result<()> {
    let (repeat, behind) = cut(piece, '>');
    let (count, part) = cut(repeat, '*');
    push_times(alloc, bytes, found(number(count))?, part)?;
    push_part(alloc, bytes, behind)
}

fn push_times(alloc: Global, bytes: &mut Vec<u8>, count: u64, text: &str) -> io::Result<()> {
    let mut part = Vec::new(alloc);
    push_part(alloc, &mut part, text)?;
    for _ in 0..count {
        bytes.extend_from_slice(part.as_slice())?;
    }
    Ok(())
}

// A text without repeats. Behind each `\` stands an escape; the empty piece between two is the first half of `\\`.
fn push_part(alloc: Global, bytes: &mut Vec<u8>, text: &str) -> io::Result<()> {
    let mut is_plain = true;
    for piece in text.split('\\') {
        if is_plain {
            bytes.extend_from_slice(piece.as_bytes())?;
            is_plain = false;
        } else if piece.is_empty() {
            bytes.push(b'\\')?;
            is_plain = true;
        } else {
            push_escape(alloc, bytes, piece.as_bytes())?;
        }
    }
    Ok(())
}

// An escape without its `\`, and what stands behind it.
fn push_escape(alloc: Global, bytes: &mut Vec<u8>, piece: &[u8]) -> io::Result<()> {
    match piece {
        [b'n', behind @ ..] => push(bytes, b'\n', behind),
        [b'r', behind @ ..] => push(bytes, b'\r', behind),
        [b't', behind @ ..] => push(bytes, b'\t', behind),
        [b'x', digits @ ..] if 2 <= digits.len() => {
            push_pair(alloc, bytes, &digits[..2], &digits[2..])
        }
        _ => Err(io::Error::other("an escape of the case is unknown")),
    }
}

fn push(bytes: &mut Vec<u8>, byte: u8, behind: &[u8]) -> io::Result<()> {
    bytes.push(byte)?;
    bytes.extend_from_slice(behind)?;
    Ok(())
}

fn push_pair(alloc: Global, bytes: &mut Vec<u8>, pair: &[u8], behind: &[u8]) -> io::Result<()> {
    match bytes_of_hex(alloc, pair)? {
        Some(byte) => bytes.extend_from_slice(byte.as_slice())?,
        None => return Err(io::Error::other("an escape of the case has no two digits")),
    }
    bytes.extend_from_slice(behind)?;
    Ok(())
}

/// Bytes as a case would write them, without repeats.
pub fn shown(alloc: Global, bytes: &[u8]) -> Result<String, AllocError> {
    let mut text = String::new(alloc);
    for byte in bytes {
        push_shown(&mut text, *byte)?;
    }
    Ok(text)
}

fn push_shown(text: &mut String, byte: u8) -> Result<(), AllocError> {
    match byte {
        b'\n' => text.push_str("\\n"),
        b'\r' => text.push_str("\\r"),
        b'\t' => text.push_str("\\t"),
        b'\\' => text.push_str("\\\\"),
        32..=59 | 61..=126 => text.push(char::from(byte)),
        _ => write!(text, "\\x{byte:02x}"),
    }
}

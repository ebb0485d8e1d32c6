// Bytes as pairs of hexadecimal digits.
ghost use Rattle.std.specs.Prelude.{◌≡◌, ◌<◌, false, IfOk, option_map, string_bytes};
ghost use Rattle.std.specs.Fmt.{digit_glyph};
ghost use Rattle.chv_defs_base.specs.Numbers.{pairs, bytes_in as bytes_in_pairs, bytes_of};

use crate::digits::{digit, is_hex};
use std::alloc::{AllocError, Global};

fn glyph(value: u8) -> char
    requires { value < 16 }
    ensures { result ≡ digit_glyph false value }
{
    if value < 10 {
        (48 + value) as char
    } else {
        (87 + value) as char
    }
}

/// Two lower-case hexadecimal digits for each byte.
pub fn hex_of(alloc: Global, bytes: &[u8]) -> Result<String, AllocError>
    ensures { IfOk result (λ text. string_bytes text ≡ pairs bytes.now) }
{
    let mut text = String::new(alloc);
    for byte in bytes {
        text.push(glyph(*byte / 16))?;
        text.push(glyph(*byte % 16))?;
    }
    Ok(text)
}

fn bytes_in(alloc: Global, text: &[u8]) -> Result<Option<Vec<u8>>, AllocError>
    ensures { IfOk result (λ found. option_map (λ v. v.items) found ≡ bytes_in_pairs text.now) }
{
    let mut bytes = Vec::new(alloc);
    let mut rest = text;
    while let [high, low, after @ ..] = rest {
        if !is_hex(*high) || !is_hex(*low) {
            return Ok(None);
        }
        bytes.push(digit(*high) * 16 + digit(*low))?;
        rest = after;
    }
    if rest.is_empty() {
        Ok(Some(bytes))
    } else {
        Ok(None)
    }
}

/// The bytes that a text spells in pairs of lower-case hexadecimal digits. None where it spells
/// none, or not a single byte.
pub fn bytes_of_hex(alloc: Global, text: &[u8]) -> Result<Option<Vec<u8>>, AllocError>
    ensures { IfOk result (λ found. option_map (λ v. v.items) found ≡ bytes_of text.now) }
{
    if text.is_empty() {
        Ok(None)
    } else {
        bytes_in(alloc, text)
    }
}

// What the fields of a head say of the body, and of the connection.
ghost use Rattle.std.specs.Prelude.{◌≡◌, ◌+◌, ◌-◌, ◌*◌, ◌^◌, ◌<◌, ◌≤◌, length, map, All, SomeIff};
ghost use Rattle.std.specs.List.{list_any};
ghost use Rattle.std.specs.Str.{str_eq_ignore_ascii_case};
ghost use Rattle.httparse.specs.Spans.{IsHeaderWithin, header_bytes};
ghost use Rattle.chv_defs_api.specs.Requests as request;

use chv_defs_base::Rule;
use httparse::spans::HeaderSpan;

const CONTENT_LENGTH: &[u8] = b"content-length";

const TRANSFER_ENCODING: &[u8] = b"transfer-encoding";

const CONNECTION: &[u8] = b"connection";

const CLOSE: &[u8] = b"close";

/// The most bytes that a body has.
const LONGEST_BODY: u64 = 65_536;

/// Whether two words are one without case.
fn is_word(word: &[u8], other: &[u8]) -> bool
    ensures { result ≡ str_eq_ignore_ascii_case word.now other.now }
{
    word.eq_ignore_ascii_case(other)
}

/// Whether the field has this name.
fn is_named(head: &[u8], field: &HeaderSpan, name: &[u8]) -> bool
    requires { IsHeaderWithin (length head.now) field.now }
    ensures { result ≡ request.is_named name.now (header_bytes head.now field.now) }
{
    is_word(field.name.of(head), name)
}

/// Whether the field asks to close the connection.
#[tactic(auto, unfolding(chv_defs_api::specs::Requests::connection, chv_defs_api::specs::Requests::close_word))]
fn is_close(head: &[u8], field: &HeaderSpan) -> bool
    requires { IsHeaderWithin (length head.now) field.now }
    ensures { result ≡ request.asks_to_close (header_bytes head.now field.now) }
{
    is_named(head, field, CONNECTION) && is_word(field.value.of(head), CLOSE)
}

/// Whether a field of this name stands in the head.
fn has_field(head: &[u8], fields: &[HeaderSpan], name: &[u8]) -> bool
    requires { All (IsHeaderWithin (length head.now)) fields.now }
    ensures { result ≡ list_any (request.is_named name.now) (map (header_bytes head.now) fields.now) }
{
    for field in fields {
        if is_named(head, field, name) {
            return true;
        }
    }
    false
}

/// Whether a field asks to close the connection.
pub fn asks_to_close(head: &[u8], fields: &[HeaderSpan]) -> bool
    requires { All (IsHeaderWithin (length head.now)) fields.now }
    ensures { result ≡ list_any request.asks_to_close (map (header_bytes head.now) fields.now) }
{
    for field in fields {
        if is_close(head, field) {
            return true;
        }
    }
    false
}

/// The number with a decimal digit behind it, where it is below 2^64.
fn with_digit(value: u64, digit: u8) -> Option<u64>
    requires low { 48 ≤ digit }
    requires high { digit ≤ 57 }
    ensures { SomeIff result (10 * value + (digit - 48) < 2 ^ 64) (10 * value + (digit - 48)) }
{
    value.checked_mul(10)?.checked_add(u64::from(digit - b'0'))
}

/// The number that decimal digits write, where it is below 2^64.
fn length_of_digits(digits: &[u8]) -> Option<u64>
    ensures { result ≡ request.length_of_digits digits.now }
{
    if digits.is_empty() {
        return None;
    }
    let mut value: u64 = 0;
    for digit in digits {
        if !digit.is_ascii_digit() {
            return None;
        }
        match with_digit(value, *digit) {
            Some(more) => value = more,
            None => return None,
        }
    }
    Some(value)
}

/// The length that the `Content-Length` fields announce.
fn announced_length(head: &[u8], fields: &[HeaderSpan]) -> Option<u64>
    requires { All (IsHeaderWithin (length head.now)) fields.now }
    ensures { result ≡ request.announced_length
        (request.values request.content_length (map (header_bytes head.now) fields.now)) }
{
    let mut found: Option<&[u8]> = None;
    for field in fields {
        if !is_named(head, field, CONTENT_LENGTH) {
            continue;
        }
        if found.is_some() {
            return None;
        }
        found = Some(field.value.of(head));
    }
    match found {
        Some(digits) => length_of_digits(digits),
        None => Some(0),
    }
}

/// The length of the body, or the first rule that refuses the head.
#[tactic(auto, unfolding(chv_defs_api::specs::Requests::transfer_encoding))]
pub fn body_length(head: &[u8], fields: &[HeaderSpan]) -> Result<usize, Rule>
    requires { All (IsHeaderWithin (length head.now)) fields.now }
    ensures { result ≡ request.body_length (map (header_bytes head.now) fields.now) }
{
    if has_field(head, fields, TRANSFER_ENCODING) {
        return Err(Rule::Coded);
    }
    match announced_length(head, fields) {
        None => Err(Rule::BadLength),
        Some(length) if length > LONGEST_BODY => Err(Rule::BodyTooLong),
        Some(length) => Ok(length as usize),
    }
}

// Numbers as texts of digits.
ghost use Rattle.std.specs.Prelude.{◌≡◌, ◌+◌, ◌*◌, ◌≤◌, ◌^◌, ◌==◌, ◌||◌, not, nat_lt};
ghost use Rattle.std.specs.Prelude.{length, slice_index, Some, None, if◌then◌else◌};
ghost use Rattle.std.specs.Char.{digit_value as value_of_digit};
ghost use Rattle.std.specs.List.{list_all};
ghost use Rattle.std.specs.Str.Parse.{digits_value};
ghost use Rattle.chv_defs_base.specs.Numbers.{is_decimal_digit, is_hex_digit, are_digits, dec, hex};

pub(crate) fn is_decimal(byte: u8) -> bool
    ensures { result ≡ is_decimal_digit byte }
{
    matches!(byte, b'0'..=b'9')
}

pub(crate) fn is_hex(byte: u8) -> bool
    ensures { result ≡ is_hex_digit byte }
{
    is_decimal(byte) || matches!(byte, b'a'..=b'f')
}

/// The value of a digit of base 36 at most, and 36 for any other byte.
pub(crate) fn digit(byte: u8) -> u8
    ensures { result ≡ value_of_digit byte }
{
    match byte {
        b'0'..=b'9' => byte - 48,
        b'A'..=b'Z' => byte - 55,
        b'a'..=b'z' => byte - 87,
        _ => 36,
    }
}

fn has_no_leading_zero(text: &[u8]) -> bool
    requires { 1 ≤ length text.now }
    ensures { result ≡ (length text.now == 1 || not (slice_index text.now 0 == 48)) }
{
    text.len() == 1 || text[0] != b'0'
}

fn all_decimal(text: &[u8]) -> bool
    ensures { result ≡ list_all is_decimal_digit text.now }
{
    text.iter().all(|b| is_decimal(*b))
}

fn all_hex(text: &[u8]) -> bool
    ensures { result ≡ list_all is_hex_digit text.now }
{
    text.iter().all(|b| is_hex(*b))
}

fn are_decimal(text: &[u8]) -> bool
    ensures { result ≡ are_digits is_decimal_digit text.now }
{
    0 < text.len() && all_decimal(text) && has_no_leading_zero(text)
}

fn are_hex(text: &[u8]) -> bool
    ensures { result ≡ are_digits is_hex_digit text.now }
{
    0 < text.len() && all_hex(text) && has_no_leading_zero(text)
}

/// The number with one digit more, where it is below 2^64.
fn with_digit(value: u64, base: u64, digit: u8) -> Option<u64>
    ensures { result ≡ (if nat_lt (value * base + digit) (2 ^ 64)
        then Some (value * base + digit) else None) }
{
    value.checked_mul(base)?.checked_add(digit as u64)
}

/// The number that digits of a base spell, where it is below 2^64.
fn number(text: &[u8], base: u64) -> Option<u64>
    requires { 1 ≤ base }
    ensures { result ≡ (if nat_lt (digits_value base text.now) (2 ^ 64)
        then Some (digits_value base text.now) else None) }
{
    let mut value: u64 = 0;
    for byte in text {
        match with_digit(value, base, digit(*byte)) {
            Some(more) => value = more,
            None => return None,
        }
    }
    Some(value)
}

/// The number that a text spells in decimal, without leading zeros. None where the text spells no
/// number below 2^64.
pub fn read_dec(text: &[u8]) -> Option<u64>
    ensures { result ≡ dec text.now }
{
    if are_decimal(text) {
        number(text, 10)
    } else {
        None
    }
}

/// The number that a text spells as `0x` and lower-case hexadecimal digits, without leading zeros.
/// None where the text spells no number below 2^64.
pub fn read_hex(text: &[u8]) -> Option<u64>
    ensures { result ≡ hex text.now }
{
    match text {
        [b'0', b'x', digits @ ..] if are_hex(digits) => number(digits, 16),
        _ => None,
    }
}

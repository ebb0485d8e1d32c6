// The fields of a line.
ghost use Rattle.std.specs.Prelude.{◌≡◌, ◌≤◌, ◌==◌, ◌&&◌, nat_le, length, option_map, IfOk};
ghost use Rattle.std.specs.List.{list_all};
ghost use Rattle.std.specs.Str.{bytes_eq};
ghost use Rattle.chv_defs_base.specs.Numbers.{dec};
ghost use Rattle.chv_defs_scene.specs.ScenarioLines.{is_route_byte};
ghost use Rattle.chv_defs_scene.specs.ScenarioLines as line;
ghost use Rattle.chv_scene.specs.Cuts.{cut_at};

use chv_defs_base::Reason;
use chv_num::read_dec;

const SPACE: u8 = b' ';

/// What stands before the first such byte, and what stands behind it where there is one.
pub(crate) fn cut(text: &[u8], byte: u8) -> (&[u8], Option<&[u8]>)
    ensures before { result.0.now ≡ (cut_at byte text.now).0 }
    ensures behind { option_map (λ s. s.now) result.1 ≡ (cut_at byte text.now).1 }
{
    for (i, b) in text.iter().enumerate() {
        if *b == byte {
            return (&text[..i], Some(&text[i + 1..]));
        }
    }
    (text, None)
}

/// The first field, and what stands behind the space after it.
pub(crate) fn at_space(text: &[u8]) -> (&[u8], Option<&[u8]>)
    ensures before { result.0.now ≡ (line.at_space text.now).0 }
    ensures behind { option_map (λ s. s.now) result.1 ≡ (line.at_space text.now).1 }
{
    cut(text, SPACE)
}

/// Whether a space stands in the text, so that it is more than one field.
pub(crate) fn has_space(text: &[u8]) -> bool
    ensures { result ≡ line.has_space text.now }
{
    text.iter().any(|b| *b == SPACE)
}

/// Whether the field is this word.
pub(crate) fn is_word(field: &[u8], word: &str) -> bool
    ensures { result ≡ bytes_eq field.now word.now }
{
    field == word.as_bytes()
}

fn is_route_byte(byte: u8) -> bool
    ensures { result ≡ is_route_byte byte }
{
    matches!(byte, b'a'..=b'z' | b'0'..=b'9' | b'.' | b'-')
}

fn are_route_bytes(text: &[u8]) -> bool
    ensures { result ≡ list_all is_route_byte text.now }
{
    text.iter().all(|b| is_route_byte(*b))
}

/// Whether the field is a name of a route.
pub(crate) fn is_route_name(field: &[u8]) -> bool
    ensures { result ≡ line.is_route_name field.now }
{
    1 <= field.len() && field.len() <= 32 && are_route_bytes(field)
}

/// The number from `low` to `high` that the field spells.
pub(crate) fn ranged(low: u64, high: u64, field: &[u8]) -> Result<u64, Reason>
    ensures answer { result ≡ line.ranged low high (dec field.now) }
    ensures most { IfOk result (λ number. number ≤ high) }
{
    match read_dec(field) {
        Some(number) if low <= number && number <= high => Ok(number),
        _ => Err(Reason::BadNumber),
    }
}

// Lists of texts: identifiers, names, and whether one stands twice.
ghost use Rattle.std.specs.Prelude.{◌≡◌, ◌==◌, ◌&&◌, IfOk, length, nat_le};
ghost use Rattle.std.specs.List.{list_all, list_any};
ghost use Rattle.chv_defs_api.specs.ConfigRules.{has_text, has_twice};
ghost use Rattle.chv_defs_base.specs.Id.{is_id, is_id_byte};

use chv_defs_base::Text;
use std::alloc::{AllocError, Global};
use std::collections::HashSet;

/// Whether a text is one of the texts.
pub fn has_text(texts: &[Text], text: &Text) -> bool
    ensures { result ≡ has_text texts.now text.now }
{
    texts.iter().any(|other| text == other)
}

/// Whether two of the texts are equal. Each is looked up once among those before it.
pub fn has_twice(alloc: Global, texts: Vec<Text>) -> Result<bool, AllocError>
    ensures { IfOk result (λ twice. twice ≡ has_twice texts.items) }
{
    let mut seen = HashSet::new(alloc);
    for text in texts {
        if !seen.insert(text)? {
            return Ok(true);
        }
    }
    Ok(false)
}

/// Whether each of the texts is one of the others.
pub fn are_among(alloc: Global, texts: &[Text], others: Vec<Text>) -> Result<bool, AllocError>
    ensures { IfOk result (λ all. all ≡ list_all (has_text others.items) texts.now) }
{
    let known: HashSet<Text> = others.into_iter().collect(alloc)?;
    Ok(texts.iter().all(|text| known.contains(text)))
}

/// Whether a text is an identifier: 1 to 32 letters, digits, `_` or `-`.
pub fn is_id(text: &str) -> bool
    ensures { result ≡ is_id text.now }
{
    is_id_of_bytes(text.as_bytes())
}

fn is_id_of_bytes(bytes: &[u8]) -> bool
    ensures { result ≡ is_id bytes.now }
{
    1 <= bytes.len() && bytes.len() <= 32 && has_id_bytes(bytes)
}

fn has_id_bytes(bytes: &[u8]) -> bool
    ensures { result ≡ list_all is_id_byte bytes.now }
{
    bytes.iter().all(|byte| is_id_byte(*byte))
}

fn is_id_byte(byte: u8) -> bool
    ensures { result ≡ is_id_byte byte }
{
    (48 <= byte && byte <= 57)
        || (65 <= byte && byte <= 90)
        || (97 <= byte && byte <= 122)
        || byte == b'_'
        || byte == b'-'
}

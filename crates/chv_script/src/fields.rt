// The fields of a line.
ghost use Rattle.std.specs.Prelude.{◌≡◌, ◌∷◌, option_map};
ghost use Rattle.std.specs.Str.{bytes_eq};
ghost use Rattle.chv_defs_scene.specs.ScriptReading.{fields_of};
ghost use Rattle.chv_defs_scene.specs.ScriptReading as script;
ghost use Rattle.chv_script.specs.Answer.{Gives};
ghost use Rattle.chv_script.specs.Fields.{fields_behind, first_of};

use crate::stop::Stop;
use chv_defs_base::Reason;

const SPACE: u8 = b' ';

/// The first field, and what stands behind the space after it.
pub(crate) fn next_field(text: &[u8]) -> (&[u8], Option<&[u8]>)
    ensures { fields_of text.now ≡ result.0.now ∷ fields_behind (option_map (λ s. s.now) result.1) }
{
    for (i, b) in text.iter().enumerate() {
        if *b == SPACE {
            return (&text[..i], Some(&text[i + 1..]));
        }
    }
    (text, None)
}

/// Whether the field is this word.
pub(crate) fn is_word(field: &[u8], word: &str) -> bool
    ensures { result ≡ bytes_eq field.now word.now }
{
    field == word.as_bytes()
}

// The first of the fields, and those behind it.
#[tactic(auto, unfolding(crate::specs::Fields::first_of))]
fn first(fields: Option<&[u8]>) -> Result<(&[u8], Option<&[u8]>), Stop>
    ensures { Gives (λ x. (x.0.now, fields_behind (option_map (λ s. s.now) x.1))) result (first_of (fields_behind (option_map (λ s. s.now) fields.entry))) }
{
    match fields {
        Some(text) => Ok(next_field(text)),
        None => Err(Stop::Refused(Reason::FieldCount)),
    }
}

/// The field, where there is exactly one.
pub(crate) fn one(fields: Option<&[u8]>) -> Result<&[u8], Stop>
    ensures { Gives (λ x. x.now) result (script.one (fields_behind (option_map (λ s. s.now) fields.entry))) }
{
    let (a, rest) = first(fields)?;
    match rest {
        None => Ok(a),
        Some(_) => Err(Stop::Refused(Reason::FieldCount)),
    }
}

/// The fields, where there are exactly two.
pub(crate) fn two(fields: Option<&[u8]>) -> Result<(&[u8], &[u8]), Stop>
    ensures { Gives (λ x. (x.0.now, x.1.now)) result (script.two (fields_behind (option_map (λ s. s.now) fields.entry))) }
{
    let (a, rest) = first(fields)?;
    let b = one(rest)?;
    Ok((a, b))
}

/// The fields, where there are exactly three.
pub(crate) fn three(fields: Option<&[u8]>) -> Result<(&[u8], &[u8], &[u8]), Stop>
    ensures { Gives (λ x. (x.0.now, x.1.now, x.2.now)) result (script.three (fields_behind (option_map (λ s. s.now) fields.entry))) }
{
    let (a, rest) = first(fields)?;
    let (b, c) = two(rest)?;
    Ok((a, b, c))
}

/// The fields, where there are exactly four.
pub(crate) fn four(fields: Option<&[u8]>) -> Result<(&[u8], &[u8], &[u8], &[u8]), Stop>
    ensures { Gives (λ x. (x.0.now, x.1.now, x.2.now, x.3.now)) result (script.four (fields_behind (option_map (λ s. s.now) fields.entry))) }
{
    let (a, rest) = first(fields)?;
    let (b, c, d) = three(rest)?;
    Ok((a, b, c, d))
}

// What a line of a section means: something that stands in it, or nothing where it ends the section; or why it fails.
ghost use Rattle.std.specs.Prelude.{◌≡◌, IfOk, option_map};
ghost use Rattle.chv_defs_scene.specs.ScenarioLines as line;
ghost use Rattle.chv_scene.specs.Meanings.{part_of, Went};

use chv_defs_base::{Reason, Row};
use std::alloc::AllocError;

/// What a line means whose word is `end`.
pub(crate) fn end_line<T: Drop>(fields: Option<&[u8]>) -> Result<Option<T>, Reason>
    ensures { part_of result ≡ line.end_line (option_map (λ s. s.now) fields.entry) }
{
    match fields {
        None => Ok(None),
        Some(_) => Err(Reason::FieldCount),
    }
}

/// What a line means where so many stand before it, of which the section can have so many.
pub(crate) fn at_most<T: Drop>(
    most: usize,
    before: usize,
    meaning: Result<Option<T>, Reason>,
) -> Result<Option<T>, Reason>
    ensures { part_of result ≡ line.at_most most before (part_of meaning) }
{
    match meaning {
        Ok(Some(_)) if before >= most => Err(Reason::TooMany),
        meaning => meaning,
    }
}

/// Puts what a line means behind what stands in the section. Whether the section goes on, or why the line fails.
pub(crate) fn grown<T: Drop>(
    things: &mut Row<T>,
    meaning: Result<Option<T>, Reason>,
) -> Result<Result<bool, Reason>, AllocError>
    ensures { IfOk result (λ went. Went things.old things.new went (part_of meaning)) }
{
    match meaning {
        Ok(Some(thing)) => {
            things.push(thing)?;
            Ok(Ok(true))
        }
        Ok(None) => Ok(Ok(false)),
        Err(reason) => Ok(Err(reason)),
    }
}

// The lines of a text.
ghost use Rattle.std.specs.Prelude.{◌≡◌, ◌<◌, ◌∷◌, length};
ghost use Rattle.chv_defs_scene.specs.ScenarioLines.{lines_of};

use crate::fields::cut;

const LINE_FEED: u8 = b'\n';

/// The first line of a text that is not empty, without its line feed; whether it has one; and what stands behind it.
pub(crate) fn next_line(text: &[u8]) -> (&[u8], bool, &[u8])
    requires { 0 < length text.now }
    ensures lines { lines_of text.now ≡ record { text = result.0.now; is_ended = result.1 } ∷ lines_of result.2.now }
    ensures shorter { length result.2.now < length text.now }
{
    let (line, behind) = cut(text, LINE_FEED);
    match behind {
        Some(rest) => (line, true, rest),
        None => (line, false, &[]),
    }
}

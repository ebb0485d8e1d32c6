//! What a test of several steps is written with: a step that does not come as it must ends its test, by its name.
#![tactic(auto)]

ghost use Rattle.std.specs.Prelude.{◌≡◌, true, IfOk};

use std::test::Fail;

/// Goes on where a step came as it must, and else fails with its name.
pub fn step(name: &str, is_so: bool) -> Result<(), Fail>
    ensures { IfOk result (λ _. is_so ≡ true) }
{
    if is_so { Ok(()) } else { Err(Fail::new(name)) }
}

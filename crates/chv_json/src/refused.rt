// Why a body gives no value.
ghost use Rattle.std.specs.Prelude.{◌≡◌};
ghost use Rattle.chv_json.specs.declared.refused.Refused.TheVariants.{Memory, Broken};

use chv_defs_base::Rule;
use std::alloc::AllocError;

/// Why nothing was read.
#[derive(Clone, Copy, PartialEq, Eq)]
pub(crate) enum Refused {
    /// Want of memory.
    Memory,
    /// The first rule that the body breaks.
    Broken(Rule),
}

impl From<AllocError> for Refused {
    ghost from_gives = { λ _ e. e ≡ Memory };

    fn from(_error: AllocError) -> Refused {
        Refused::Memory
    }
}

impl From<Rule> for Refused {
    ghost from_gives = { λ rule e. e ≡ Broken rule };

    fn from(rule: Rule) -> Refused {
        Refused::Broken(rule)
    }
}

// Why a line is not read.
ghost use Rattle.std.specs.Prelude.{◌≡◌};
ghost use Rattle.chv_script.specs.declared.stop.Stop.TheVariants.{Memory};

use chv_defs_base::Reason;
use std::alloc::AllocError;

/// Why a line is not read: for want of memory, or since it is refused.
#[derive(Clone, Copy)]
pub(crate) enum Stop {
    Memory,
    Refused(Reason),
}

impl From<AllocError> for Stop {
    ghost from_gives = { λ _ e. e ≡ Memory };

    fn from(_e: AllocError) -> Stop {
        Stop::Memory
    }
}

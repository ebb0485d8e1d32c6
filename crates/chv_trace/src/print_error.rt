// Why a trace is not printed whole.
ghost use Rattle.std.specs.Prelude.{◌≡◌};
ghost use Rattle.chv_trace.specs.declared.print_error.PrintError.TheVariants as error;

use std::alloc::AllocError;

/// Why a trace was not printed whole.
#[derive(Clone, Copy, PartialEq, Eq)]
pub enum PrintError {
    /// Want of memory.
    Memory,
    /// The output failed. The count of its faults rose.
    Failed,
}

impl From<AllocError> for PrintError {
    ghost from_gives = { λ _ e. e ≡ error.Memory };

    fn from(_error: AllocError) -> PrintError {
        PrintError::Memory
    }
}

impl From<chv_io::Failed> for PrintError {
    ghost from_gives = { λ _ e. e ≡ error.Failed };

    fn from(_error: chv_io::Failed) -> PrintError {
        PrintError::Failed
    }
}

// Why a call makes no entry.
use chv_defs_base::Full;

/// Why a call makes no entry. So far only `Full` comes.
#[derive(Clone, Copy, PartialEq, Eq)]
pub enum Inner {
    /// The call waits for this context to come home, and is made again then.
    Again { context: u32 },
    /// Nothing of the role is ready yet.
    NotYet,
    /// The run is over.
    Over,
    /// The entry would pass a limit of the control book, or calls that it makes in a bank one of that bank.
    Full(Full),
}

// How a run of the program ends.
use chv_defs::{BookId, Name, Reason};

/// How a run of the program ends.
#[derive(Clone, Copy, PartialEq, Eq)]
pub enum Status {
    /// The input was read to its end, and the work is done.
    Done,
    /// The words are none of the program's.
    Usage,
    /// The scenario is refused: its first line that fails, counted from 1, and why.
    Scene {
        line: u32,
        reason: Reason,
    },
    /// The input could not be read.
    ReadFault,
    /// The output could not be written.
    WriteFault,
    /// There was no memory.
    Memory,
    /// A book has no room for the next entry. It holds so many entries, reserved ones counted, and so many bytes of payload.
    Full {
        book: BookId,
        entries: u64,
        bytes: u64,
    },
    /// The input is longer than 16,777,216 bytes; it has at least so many.
    TooLong {
        bytes: u64,
    },
}

impl Status {
    ghost use Rattle.std.specs.Prelude.{◌≡◌};
    ghost use Rattle.chv_top.specs.Outcome.{exit_code};

    /// The exit code of the process.
    pub fn code(self) -> u8
        ensures { result ≡ exit_code self }
    {
        match self {
            Status::Done => 0,
            Status::Usage => 1,
            Status::Scene { .. } => 2,
            Status::ReadFault => 3,
            Status::WriteFault => 4,
            Status::Memory => 6,
            Status::Full { .. } => 7,
            Status::TooLong { .. } => 9,
        }
    }
}

/// What a run hands back: how it ended, and the disks that were handed in.
#[derive(Drop)]
pub struct Ended<D> {
    pub status: Status,
    pub disks: Vec<(Name, D)>,
}

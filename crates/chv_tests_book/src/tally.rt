// A kept value of the plainest kind.
use chv_book::Kept;
use chv_defs_book::HistoryEntry;
use std::alloc::{AllocError, Global};

/// A number with who entered it.
#[derive(Clone, Copy, PartialEq, Eq)]
pub struct Entered {
    pub caller: u32,
    pub number: u64,
}

/// What no call changes of a tally is its place. It is never still.
impl HistoryEntry for Entered {
    ghost use Rattle.std.specs.Prelude.{false, refl};
    ghost use Rattle.chv_tests_book.specs.Entered.{caller_of};

    type Origin = u8;

    ghost made_by = { caller_of };

    ghost is_still = { λ _. false };

    ghost begins_moving = { refl };
}

/// Numbers in the order in which they were entered. It has no side.
#[derive(Drop)]
pub struct Tally {
    pub entries: Vec<Entered>,
    pub place: u8,
}

impl Kept for Tally {
    type Entry = Entered;

    ghost history = { λ t. t.entries.items };

    ghost side = { λ _. (0, 0) };

    ghost origin = { λ t. t.place };

    fn entries(&self) -> u64 {
        self.entries.len() as u64
    }

    fn last_caller(&self) -> Option<u32> {
        let last = self.entries.last()?;
        Some(last.caller)
    }
}

impl Tally {
    ghost use Rattle.std.specs.Prelude.{◌≡◌, [], ◌∷◌, ◌++◌, OnErr, OnOk};

    pub fn new(alloc: Global, place: u8) -> Tally
        ensures { (result.entries.items ≡ []) × (result.place ≡ place) }
    {
        Tally {
            entries: Vec::new(alloc),
            place,
        }
    }

    /// Enters a number.
    pub fn enter(&mut self, caller: u32, number: u64) -> Result<(), AllocError>
        ensures ok { OnOk result (self.new.entries.items ≡ self.old.entries.items ++ (record { caller = caller; number = number }) ∷ []) }
        ensures err { OnErr result (self.new.entries.items ≡ self.old.entries.items) }
        ensures place { self.new.place ≡ self.old.place }
    {
        self.entries.push(Entered { caller, number })?;
        Ok(())
    }
}

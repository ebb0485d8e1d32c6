// The calls of an object in memory, of which listed ones fail.
ghost use Rattle.std.specs.Prelude.{◌≡◌, ◌≤◌, ◌↔◌, false, IsOk};
ghost use Rattle.chv_io.specs.Outside.{HasCause};
ghost use Rattle.chv_io.specs.FailingCalls.{no_calls, is_listed, after_call};

use crate::Failed;
use chv_defs_base::Row;
use std::marker::Model;

/// Which calls of an object in memory fail, how many calls it has had, and how many of them failed.
/// Contracts see it as the record `Calls` of the definitions.
#[derive(Drop)]
pub struct Calls {
    listed: Row<u64>,
    made: u64,
    faults: u64,
}

impl Model for Calls {
    ghost use Rattle.chv_io.specs.FailingCalls.{Calls};

    ghost Value = { Calls };

    ghost view = { λ c. record { listed = c.listed; made = c.made; faults = c.faults } };
}

impl Calls {
    /// No call yet. The listed numbers, counted from 1, are those of the calls that fail. Takes no memory.
    pub fn new(listed: Row<u64>) -> Calls
        ensures { result ≡ no_calls listed }
    {
        Calls {
            listed,
            made: 0,
            faults: 0,
        }
    }

    /// Whether the next call is listed.
    pub fn is_listed(&self) -> bool
        ensures { result ≡ is_listed self.now }
    {
        let next = self.made.saturating_add(1);
        self.listed.as_slice().contains(&next)
    }

    /// Counts a call, which failed or not. Both counts stand still at their type's end.
    pub fn count(&mut self, failed: bool)
        ensures after { self.new ≡ after_call self.old failed }
        ensures later { self.old.faults ≤ self.new.faults }
    {
        self.made = self.made.saturating_add(1);
        if failed {
            self.faults = self.faults.saturating_add(1);
        }
    }

    /// Counts the next call, which fails where it is listed.
    pub fn answer(&mut self) -> Result<(), Failed>
        ensures answered { IsOk result ↔ (is_listed self.old ≡ false) }
        ensures after { self.new ≡ after_call self.old (is_listed self.old) }
        ensures cause { HasCause self.old.faults self.new.faults result }
    {
        let failed = self.is_listed();
        self.count(failed);
        if failed { Err(Failed) } else { Ok(()) }
    }

    /// How many calls failed.
    pub fn faults(&self) -> u64
        ensures { result ≡ self.now.faults }
    {
        self.faults
    }
}

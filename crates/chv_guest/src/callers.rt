// The numbers of contexts, as which they call on banks.
ghost use Rattle.std.specs.Prelude.{◌≡◌, ◌≤◌, [], true};
ghost use Rattle.chv_defs_memory.specs.Lending.{is_in, most_contexts, OneLess, OneMore};

use std::marker::Model;

/// Some numbers of contexts. Contracts see their list, which ascends. It takes no memory.
#[derive(Drop)]
pub struct Callers {
    /// By the number, whether it is one of them.
    flags: [bool; 144],
}

impl Model for Callers {
    ghost use Rattle.std.specs.Prelude.{ℕ, List};
    ghost use Rattle.chv_defs_memory.specs.BlockSets.{members};

    ghost Value = { List ℕ };

    ghost view = { λ c. members c.flags };
}

impl Callers {
    /// No number.
    pub fn none() -> Callers
        ensures { result ≡ [] }
    {
        Callers {
            flags: [false; 144],
        }
    }

    /// Puts a number in.
    pub fn insert(&mut self, caller: u32)
        requires { caller ≤ most_contexts }
        ensures { OneMore caller self.old self.new }
    {
        self.flags[caller as usize] = true;
    }

    /// Takes a number out.
    pub fn remove(&mut self, caller: u32)
        requires { is_in caller self.old ≡ true }
        ensures { OneLess caller self.old self.new }
    {
        self.flags[caller as usize] = false;
    }
}

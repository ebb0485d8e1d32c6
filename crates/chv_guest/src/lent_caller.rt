// A context that is lent, where it reaches the banks.
ghost use Rattle.std.specs.Prelude.{◌≡◌, ◌≤◌, ◌<◌, ℕ, List, Option, Some, [], ◌==◌, ◌&&◌, refl, true, false, IfOk, IfSome, IsOk, OnErr};
ghost use Rattle.chv_defs_memory.specs.BankBook.{is_unpin, HasItsNumber};
ghost use Rattle.chv_defs_memory.specs.BankState.{is_owner_call, IsCall};
ghost use Rattle.chv_defs_memory.specs.Lending.{is_in, left_by, Accesses, GoesOnFor};
ghost use Rattle.chv_defs_memory.specs.LentHistory.{made_by, TellsOwn};
ghost use Rattle.chv_defs_memory.specs.Zones.{IsBank};
ghost use Rattle.chv_guest.specs.Accesses.{MakesAccess};
ghost use Rattle.chv_guest.specs.LentBanks.{bank_at};

use crate::LentBanks;
use chv_defs_memory::{BankCall, BankReply, Lent, Reach, Refusal, Told};
use std::alloc::AllocError;

/// The banks of all zones, as a context that is lent reaches them. When it is given up, the banks are as its accesses left them.
#[derive(Drop)]
pub struct LentCaller<'a> {
    banks: &'a mut LentBanks,
    caller: u32,
}

impl LentBanks {
    /// The banks, as the context of this number reaches them, which is lent.
    pub fn as_caller(&mut self, caller: u32) -> LentCaller<'_>
        requires lent { is_in caller self.old.lent ≡ true }
        ensures caller { result.caller ≡ caller }
        ensures banks { result.banks.now ≡ self.old }
        ensures same_reference { result.banks.ghost_name ≡ self.entry.ghost_name }
    {
        LentCaller {
            banks: self,
            caller,
        }
    }
}

impl Told for LentCaller<'_> {
    ghost are_empty = { λ c. is_in c.caller c.banks.now.lent ≡ false };

    ghost are_lent_to = { λ c n. (n ≡ c.caller) × (is_in n c.banks.now.lent ≡ true) };

    ghost seen = { λ c zone bank. Some (bank_at c.banks.now.books zone bank).history };

    ghost books_told = { λ _. [] };
}

impl Reach<()> for LentCaller<'_> {
    ghost bank_caller = { λ c. c.caller };

    ghost own = { λ c zone bank. made_by c.caller (bank_at c.banks.now.books zone bank).history };

    ghost accesses = { λ before zone bank call came after. (after.banks.ghost_name ≡ before.banks.ghost_name)
        × MakesAccess before.caller zone bank call came before.banks.now after.banks.now };

    fn access(
        &mut self,
        _rt: (),
        zone: u8,
        bank: u8,
        call: &BankCall,
    ) -> Result<Result<BankReply, Refusal>, AllocError> {
        self.banks.recall();
        self.banks.access(self.caller, zone, bank, call)
    }

    ghost tells_own = { λ c zone bank lent is. refl };
}

// The banks of all zones on one thread.
ghost use Rattle.std.specs.Prelude.{◌≡◌, ◌<◌, [], false, refl, IfOk, IsOk, true};
ghost use Rattle.chv_defs_memory.specs.BankBook.{is_unpin, refusal_of, refused_or, HasItsNumber};
ghost use Rattle.chv_defs_memory.specs.BankState.{is_owner_call, IsCall};
ghost use Rattle.chv_defs_memory.specs.LegalBank.{access_reply, IsLegal};
ghost use Rattle.chv_defs_memory.specs.Lending.{IsWithinLimits};
ghost use Rattle.chv_defs_memory.specs.Zones.{most_zones, IsBank};
ghost use Rattle.chv_guest.specs.Accesses.{left_at};
ghost use Rattle.chv_guest.specs.LentBanks.{bank_at, fresh_zones, known_at, AreAllBanks, AreLentTo};

use crate::callers::Callers;
use crate::room::{keep_room, make_room, place_of};
use chv_bank::Bank;
use chv_defs_base::{MOST_ZONES, Row};
use chv_defs_memory::{
    BANKS, BankCall, BankEntry, BankReply, Banked, Lends, Lent, PageAt, Refusal, Zones,
};
use std::alloc::{AllocError, Global};
use std::marker::Model;

/// How many banks there are.
const BANK_COUNT: u16 = MOST_ZONES as u16 * BANKS as u16;

/// The banks of all zones, on one thread. Contracts see them in one list, those of zone 0 first, and the numbers of the contexts
/// that are lent, ascending. By its type each outstanding pin is one of a context that is lent, and while a bank is frozen
/// nobody is lent.
#[derive(Drop)]
pub struct LentBanks {
    banks: Vec<Bank>,
    lent: Callers,
}

impl Model for LentBanks {
    ghost use Rattle.chv_guest.specs.LentBanks.{AreAllBanks, AreLentTo, Lent};

    ghost Value = { Lent };

    ghost view = { λ l. record { books = l.banks.items; lent = l.lent } };

    ghost invariant = { λ l. AreAllBanks l.banks.items × AreLentTo l.lent l.banks.items };
}

impl LentBanks {
    /// Banks to which nothing happened yet.
    pub fn new(alloc: Global) -> Result<LentBanks, AllocError>
        ensures { IfOk result (λ made. made ≡ fresh_zones) }
    {
        let mut banks = Vec::new(alloc);
        for place in 0..BANK_COUNT {
            let bank = Bank::new(
                alloc,
                (place / BANKS as u16) as u8,
                (place % BANKS as u16) as u8,
            )?;
            banks.push(bank)?;
        }
        Ok(LentBanks {
            banks,
            lent: Callers::none(),
        })
    }

    /// The history of a bank, which is legal.
    pub fn history(&self, zone: u8, bank: u8) -> &[BankEntry]
        requires { IsBank zone bank }
        ensures value { result.now ≡ (bank_at self.now.books zone bank).history }
        ensures legal { IsLegal bank (bank_at self.now.books zone bank).history }
    {
        self.banks[place_of(zone, bank)].history()
    }

    /// That these are the banks of all zones, each at its place, and lent to these contexts alone. It does nothing: a caller that
    /// needs the fact says so.
    pub fn recall(&self)
        ensures all { AreAllBanks self.now.books }
        ensures lent { AreLentTo self.now.lent self.now.books }
    {
        let _ = &self.banks;
    }

    /// The banks of all zones, those of zone 0 first. Takes no memory.
    pub fn into_banks(self) -> Vec<Bank>
        ensures value { result.items ≡ self.books }
        ensures all { AreAllBanks result.items }
    {
        self.banks
    }
}

impl Banked for LentBanks {
    ghost known = { λ zones. known_at zones.books };

    ghost lent = { λ zones. zones.lent };

    ghost is_shared = { false };

    ghost books = { λ _. [] };
}

impl Zones<()> for LentBanks {
    fn room(
        &mut self,
        _rt: (),
        zone: u8,
        entries: u32,
        pages: u32,
    ) -> Result<Result<(), Refusal>, AllocError> {
        make_room(&mut self.banks, zone, entries, pages)
    }

    fn give_back(&mut self, _rt: (), zone: u8, keep: u32) {
        keep_room(&mut self.banks, zone, keep);
    }

    fn owner(&mut self, _rt: (), zone: u8, bank: u8, call: &BankCall) -> BankReply {
        self.banks[place_of(zone, bank)].owner(call)
    }

    fn pages(&mut self, _rt: (), zone: u8, bank: u8) -> Result<Row<PageAt>, AllocError> {
        self.banks[place_of(zone, bank)].pages()
    }
}

impl Lends<()> for LentBanks {
    fn lend(&mut self, caller: u32, _passes: &mut ()) {
        self.lent.insert(caller);
    }

    fn back(&mut self, caller: u32, _passes: &mut ()) {
        self.lent.remove(caller);
    }
}

impl Lent for LentBanks {
    fn access(
        &mut self,
        caller: u32,
        zone: u8,
        bank: u8,
        call: &BankCall,
    ) -> Result<Result<BankReply, Refusal>, AllocError> {
        access_at(&mut self.banks[place_of(zone, bank)], caller, call)
    }

    ghost by_value = { refl };
}

// Makes an access in a bank, which is within its limits before, and whose history is legal then, whatever is answered.
fn access_at(
    bank: &mut Bank,
    caller: u32,
    call: &BankCall,
) -> Result<Result<BankReply, Refusal>, AllocError>
    requires caller { 0 < caller }
    requires call { IsCall bank.old.bank call.now }
    requires access { is_owner_call call.now ≡ false }
    requires number { HasItsNumber bank.old.history caller call.now }
    ensures answer { IfOk result (λ answer. answer
        ≡ refused_or (refusal_of bank.old call.now) (access_reply bank.old.bank bank.old.history call.now)) }
    ensures left { bank.new ≡ left_at bank.old caller call.now result }
    ensures limits { IsWithinLimits bank.old }
    ensures legal { IsLegal bank.new.bank bank.new.history }
    ensures unpin { is_unpin call.now ≡ true → IsOk result }
{
    bank.history();
    let answer = bank.access(caller, call);
    bank.history();
    answer
}

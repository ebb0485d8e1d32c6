// The banks of all zones, as their owner reaches them.
ghost use Rattle.std.specs.Prelude.{◌≡◌, ◌<◌, ◌≤◌, ℕ, Bool, List, true, IfOk, OnErr};
ghost use Rattle.chv_defs_memory.specs.BankState.{banks, is_owner_call, IsCall};
ghost use Rattle.chv_defs_memory.specs.BankBook.{pages_shown, pages_used};
ghost use Rattle.chv_defs_memory.specs.LegalBank.{IsLegal};
ghost use Rattle.chv_defs_memory.specs.Zones.{acting, most_zones, Enters, GivesBack, IsBank, Known, MakesRoom, OnlySeesMore, OtherBanksStay, OtherZonesStay, OwnerMayAsk};

use crate::{BankCall, BankReply, PageAt, Refusal};
use chv_defs_base::Row;
use std::alloc::AllocError;

/// How many banks a zone has.
pub const BANKS: u8 = 1;

/// What banks mean to their owner, whose entries are those of caller 0. It has no calls, so that what holds of banks can be
/// said of a value whatever runtime its calls want.
pub trait Banked {
    /// What the owner knows of a bank, by the zone's and the bank's number.
    ghost known: { Self → ℕ → ℕ → Known };

    /// The callers of the contexts that are lent. While there is none, what the owner knows of a bank is all of it.
    ghost lent: { Self → List ℕ };

    /// Whether contexts that are lent make accesses while the owner makes its calls: they do where the banks stand behind locks,
    /// and do not where the owner holds the banks by value.
    ghost is_shared: { Bool };

    /// Behind which locks the banks stand, each told by some numbers, zones and then banks ascending; none where there is no
    /// lock. No call changes it.
    ghost books: { Self → List (List ℕ) };
}

/// The banks of all zones. `R` is what a call that waits needs, and `()` where nothing waits.
pub trait Zones<R>: Banked {
    /// Reserves places for further entries of the owner in each bank of a zone, and for pages where none is reserved. `Full`
    /// comes exactly where a bank has no such room when it is asked, and names the lowest such bank; then and at an `Err`
    /// nothing further is reserved.
    fn room(
        &mut self,
        rt: R,
        zone: u8,
        entries: u32,
        pages: u32,
    ) -> Result<Result<(), Refusal>, AllocError>
        requires zone { zone < most_zones }
        requires unreserved { (bank : ℕ) → bank < banks → (Self.known self.old zone bank).pages ≡ 0 }
        ensures room { IfOk result (λ answer. MakesRoom (acting Self.is_shared (Self.lent self.old)) (Self.known self.old zone) (Self.known self.new zone) zone entries pages tt answer) }
        ensures err { OnErr result ((bank : ℕ) → bank < banks → OnlySeesMore (acting Self.is_shared (Self.lent self.old)) (Self.known self.old zone bank) (Self.known self.new zone bank)) }
        // What is known of each bank of the zone then is a legal history, whatever is answered.
        ensures legal { (bank : ℕ) → bank < banks → IsLegal bank (Self.known self.new zone bank).history }
        ensures others { OtherZonesStay (Self.known self.old) (Self.known self.new) zone }
        ensures lent { Self.lent self.new ≡ Self.lent self.old }
        ensures books { Self.books self.new ≡ Self.books self.old };

    /// Gives reserved entries back in each bank of a zone, until `keep` are left there, and every reserved page.
    fn give_back(&mut self, rt: R, zone: u8, keep: u32)
        requires zone { zone < most_zones }
        ensures left { (bank : ℕ) → bank < banks → GivesBack (acting Self.is_shared (Self.lent self.old)) keep (Self.known self.old zone bank) (Self.known self.new zone bank) }
        // What is known of each bank of the zone then is a legal history.
        ensures legal { (bank : ℕ) → bank < banks → IsLegal bank (Self.known self.new zone bank).history }
        ensures others { OtherZonesStay (Self.known self.old) (Self.known self.new) zone }
        ensures lent { Self.lent self.new ≡ Self.lent self.old }
        ensures books { Self.books self.new ≡ Self.books self.old };

    /// Makes a call of the owner in a bank, for which an entry is reserved, and for a Fill a page: appends its one entry and
    /// answers it. It is never refused and takes no memory.
    fn owner(&mut self, rt: R, zone: u8, bank: u8, call: &BankCall) -> BankReply
        requires zone { IsBank zone bank }
        requires call { IsCall bank call.now }
        requires owner { is_owner_call call.now ≡ true }
        requires condition { OwnerMayAsk (Self.lent self.old) bank (Self.known self.old zone bank).history call.now }
        requires entry { 0 < (Self.known self.old zone bank).entries }
        requires page { pages_used call.now ≤ (Self.known self.old zone bank).pages }
        ensures entered { Enters (acting Self.is_shared (Self.lent self.old)) bank (Self.known self.old zone bank) (Self.known self.new zone bank) call.now result }
        // What is known of the bank then, with this entry as its last, is a legal history.
        ensures legal { IsLegal bank (Self.known self.new zone bank).history }
        ensures others { OtherBanksStay (Self.known self.old) (Self.known self.new) zone bank }
        ensures lent { Self.lent self.new ≡ Self.lent self.old }
        ensures books { Self.books self.new ≡ Self.books self.old };

    /// The pages of a bank that are not all zero, ascending by block and page: each byte is the last that was written.
    fn pages(&mut self, rt: R, zone: u8, bank: u8) -> Result<Row<PageAt>, AllocError>
        requires zone { IsBank zone bank }
        ensures pages { IfOk result (λ pages. pages ≡ pages_shown bank (Self.known self.new zone bank).history) }
        ensures seen { OnlySeesMore (acting Self.is_shared (Self.lent self.old)) (Self.known self.old zone bank) (Self.known self.new zone bank) }
        // What is known of the bank then is a legal history, whatever is answered.
        ensures legal { IsLegal bank (Self.known self.new zone bank).history }
        ensures others { OtherBanksStay (Self.known self.old) (Self.known self.new) zone bank }
        ensures lent { Self.lent self.new ≡ Self.lent self.old }
        ensures books { Self.books self.new ≡ Self.books self.old };
}

// Banks that are lent to contexts, and where a context reaches them.
ghost use Rattle.std.specs.Prelude.{◌≡◌, ◌<◌, ◌≤◌, ℕ, List, Option, ◌==◌, ◌&&◌, true, false, IfOk, IfSome, IsOk, OnErr};
ghost use Rattle.chv_defs_memory.specs.declared.bank.BankEntry.{BankEntry};
ghost use Rattle.chv_defs_memory.specs.declared.bank.BankCall.{BankCall};
ghost use Rattle.chv_defs_memory.specs.BankBook.{is_unpin, refusal_of, refused_or, HasItsNumber};
ghost use Rattle.chv_defs_memory.specs.LegalBank.{access_reply, IsLegal};
ghost use Rattle.chv_defs_memory.specs.BankState.{is_frozen, is_owner_call, IsCall};
ghost use Rattle.chv_defs_memory.specs.Zones.{acting, book_of, IsBank, OnlySeesMore, OtherBanksStay};
ghost use Rattle.chv_defs_memory.specs.Lending.{is_in, left_by, most_contexts, told_or, Access, Accesses, GoesOnFor, HasNoPinBy, IsWithinLimits, OneLess, OneMore};
ghost use Rattle.chv_defs_memory.specs.LentHistory.{TellsOwn};

use crate::{BankCall, BankReply, Banked, Refusal, Zones};
use std::alloc::AllocError;

/// What passes of a context mean. It has no calls, so that it can be said of a value whatever runtime its calls want.
pub trait Told {
    /// They are lent to nobody.
    ghost are_empty: { Self → Type 0 };

    /// They are lent to the context of this number.
    ghost are_lent_to: { Self → ℕ → Type 0 };

    /// What they have seen of a bank's history, where they tell it: of it the caller's entries are all its own.
    ghost seen: { Self → ℕ → ℕ → Option (List BankEntry) };

    /// Behind which locks the banks stand, as `Banked` tells it.
    ghost books_told: { Self → List (List ℕ) };
}

/// Passes where there is no lock.
impl Told for () {
    ghost use Rattle.std.specs.Prelude.{⊤, [], None};

    ghost are_empty = { λ _. ⊤ };

    ghost are_lent_to = { λ _ _. ⊤ };

    ghost seen = { λ _ _ _. None };

    ghost books_told = { λ _. [] };
}

/// Banks that can be lent to contexts. Both calls make no entry, wait for nobody and take no memory.
pub trait Lends<P: Told>: Banked {
    /// Lends the banks to a context that is home.
    fn lend(&mut self, caller: u32, passes: &mut P)
        requires caller { 0 < caller }
        requires bound { caller ≤ most_contexts }
        requires home { is_in caller (Self.lent self.old) ≡ false }
        requires thawed { (zone bank : ℕ) → IsBank zone bank → is_frozen (Self.known self.old zone bank).history ≡ false }
        requires same_books { P.books_told passes.old ≡ Self.books self.old }
        requires empty { P.are_empty passes.old }
        ensures lent { OneMore caller (Self.lent self.old) (Self.lent self.new) }
        ensures given { P.are_lent_to passes.new caller }
        ensures known { (zone bank : ℕ) → IsBank zone bank → Self.known self.new zone bank ≡ Self.known self.old zone bank }
        ensures told { (zone bank : ℕ) → IsBank zone bank → IfSome (P.seen passes.new zone bank) (λ seen. seen ≡ (Self.known self.new zone bank).history) }
        // No pin of a context that was home is outstanding.
        ensures unpinned { (zone bank : ℕ) → IsBank zone bank → HasNoPinBy caller (told_or (P.seen passes.new zone bank) (Self.known self.new zone bank).history) }
        ensures books { Self.books self.new ≡ Self.books self.old }
        ensures books_told { P.books_told passes.new ≡ P.books_told passes.old };

    /// Takes them back from a context, which has no pin outstanding.
    fn back(&mut self, caller: u32, passes: &mut P)
        requires lent { is_in caller (Self.lent self.old) ≡ true }
        requires given { P.are_lent_to passes.old caller }
        requires same_books { P.books_told passes.old ≡ Self.books self.old }
        requires unpinned { (zone bank : ℕ) → IsBank zone bank → HasNoPinBy caller (told_or (P.seen passes.old zone bank) (Self.known self.old zone bank).history) }
        ensures lent { OneLess caller (Self.lent self.old) (Self.lent self.new) }
        ensures empty { P.are_empty passes.new }
        ensures known { (zone bank : ℕ) → IsBank zone bank → OnlySeesMore (acting Self.is_shared (Self.lent self.old)) (Self.known self.old zone bank) (Self.known self.new zone bank) }
        // The owner knows then all that the passes had seen, and no further entry of their caller.
        ensures told { (zone bank : ℕ) → IsBank zone bank → IfSome (P.seen passes.old zone bank) (λ seen. GoesOnFor caller seen (Self.known self.new zone bank).history) }
        // What is known of each bank then is a legal history.
        ensures legal { (zone bank : ℕ) → IsBank zone bank → IsLegal bank (Self.known self.new zone bank).history }
        ensures books { Self.books self.new ≡ Self.books self.old }
        ensures books_told { P.books_told passes.new ≡ P.books_told passes.old };
}

/// Where a context that is lent reaches the banks. `R` is what a call that waits needs, and `()` where nothing waits.
pub trait Reach<R>: Told {
    /// The context's number, as which it calls on banks.
    ghost bank_caller: { Self → ℕ };

    /// A history of a bank with just the entries that the context made there.
    ghost own: { Self → ℕ → ℕ → List BankEntry };

    /// What holds between this value before an access, by zone, bank, call and what it came to, and this value behind it.
    ghost accesses: { Self → ℕ → ℕ → BankCall → Access → Self → Type 0 };

    /// Makes an access in a bank: one entry and its answer, or a refusal, which is never `Frozen`, and no entry. An Unpin is
    /// never refused and takes no memory.
    fn access(
        &mut self,
        rt: R,
        zone: u8,
        bank: u8,
        call: &BankCall,
    ) -> Result<Result<BankReply, Refusal>, AllocError>
        requires zone { IsBank zone bank }
        requires lent { Self.are_lent_to self.old (bank_caller self.old) }
        requires call { IsCall bank call.now }
        requires access { is_owner_call call.now ≡ false }
        requires number { HasItsNumber (own self.old zone bank) (bank_caller self.old) call.now }
        ensures answer { IfOk result (λ answer. Accesses (bank_caller self.old) zone bank (Self.seen self.old zone bank) (Self.seen self.new zone bank) call.now answer) }
        ensures own { IfOk result (λ answer. own self.new zone bank ≡ left_by (own self.old zone bank) (bank_caller self.old) call.now answer) }
        ensures unpin { is_unpin call.now ≡ true → IsOk result }
        ensures err { OnErr result ((own self.new zone bank ≡ own self.old zone bank) × (IfSome (Self.seen self.old zone bank) (λ seen. IfSome (Self.seen self.new zone bank) (λ after. GoesOnFor (bank_caller self.old) seen after)))) }
        ensures others { (z b : ℕ) → IsBank z b → (z == zone && b == bank) ≡ false → (own self.new z b ≡ own self.old z b) × (Self.seen self.new z b ≡ Self.seen self.old z b) }
        ensures accessed { accesses self.old zone bank call.now result self.new }
        ensures still_lent { Self.are_lent_to self.new (bank_caller self.new) }
        ensures bank_caller { bank_caller self.new ≡ bank_caller self.old }
        ensures books_told { Self.books_told self.new ≡ Self.books_told self.old };

    /// While the banks are lent to the context it tells what it has seen of each, and of that the context's entries are just its
    /// own ones.
    ghost tells_own: { (x : Self) (zone bank : ℕ) → Self.are_lent_to x (bank_caller x) → IsBank zone bank → TellsOwn (bank_caller x) (Self.seen x zone bank) (own x zone bank) };
}

/// Banks on one thread: an access is made through the banks themselves, for a context that is lent. What the owner knows is
/// then the whole history.
pub trait Lent: Zones<()> {
    /// Makes an access of a context. It is answered, or refused, by all that is known of the bank; `Full` counts the owner's
    /// reserved places. An Unpin is never refused and takes no memory.
    fn access(
        &mut self,
        caller: u32,
        zone: u8,
        bank: u8,
        call: &BankCall,
    ) -> Result<Result<BankReply, Refusal>, AllocError>
        requires lent { is_in caller (Self.lent self.old) ≡ true }
        requires zone { IsBank zone bank }
        requires call { IsCall bank call.now }
        requires access { is_owner_call call.now ≡ false }
        requires number { HasItsNumber (Self.known self.old zone bank).history caller call.now }
        ensures answer { IfOk result (λ answer. answer
            ≡ refused_or (refusal_of (book_of zone bank (Self.known self.old zone bank)) call.now) (access_reply bank (Self.known self.old zone bank).history call.now)) }
        ensures entry { IfOk result (λ answer. Self.known self.new zone bank
            ≡ record (Self.known self.old zone bank) { history = left_by (Self.known self.old zone bank).history caller call.now answer }) }
        ensures legal { IsLegal bank (Self.known self.new zone bank).history }
        ensures thawed { is_frozen (Self.known self.old zone bank).history ≡ false }
        ensures limits { IsWithinLimits (book_of zone bank (Self.known self.old zone bank)) }
        ensures unpin { is_unpin call.now ≡ true → IsOk result }
        ensures err { OnErr result (Self.known self.new zone bank ≡ Self.known self.old zone bank) }
        ensures others { OtherBanksStay (Self.known self.old) (Self.known self.new) zone bank }
        ensures lent { Self.lent self.new ≡ Self.lent self.old }
        ensures books { Self.books self.new ≡ Self.books self.old };

    /// No context makes an access while the owner makes a call.
    ghost by_value: { Self.is_shared ≡ false };
}

// The bank.
ghost use Rattle.std.specs.Prelude.{◌≡◌, ◌+◌, ◌-◌, ◌<◌, ◌≤◌, ◌^◌, List, [], ◌∷◌, ◌++◌, true, false, None, Some, min, IfOk, IfErr, IsOk, OnOk, OnErr, MatchResult, length};
ghost use Rattle.chv_defs_memory.specs.BankState.{banks, is_owner_call, IsCall};
ghost use Rattle.chv_defs_memory.specs.LegalBank.{access_reply, IsLegal, OwnerMay};
ghost use Rattle.chv_defs_base.specs.Sizes.{most_entries, most_payload};
ghost use Rattle.chv_defs_memory.specs.declared.bank.BankCall.TheVariants as call;
ghost use Rattle.chv_defs_memory.specs.declared.bank.BankReply.TheVariants as reply;
ghost use Rattle.chv_defs_memory.specs.declared.bank.Refusal.{Refusal};

use crate::access::{find_sealed, leave, reply_to};
use crate::entries::{
    copy_call, copy_owner_call, copy_owner_reply, copy_reply, payload_of, places_of,
};
use crate::owner::serve_owner;
use crate::sheets::Sheets;
use crate::state::State;
use crate::steps::unpin;
use chv_defs_base::{BookId, Full, MOST_ENTRIES, MOST_PAYLOAD, PAGE_BYTES, Row};
use chv_defs_memory::{BankCall, BankEntry, BankReply, PageAt, Refusal};
use std::alloc::{AllocError, Global};
use std::marker::Model;

/// What a reserved page counts in the payload, in bytes.
const PAGE_PAYLOAD: u64 = PAGE_BYTES as u64;

/// A bank: one lock's share of a zone's memory, with its history. By its type the history is legal, and what is kept
/// beside it is what the definitions say at its end. Contracts see which bank it is, its history, and for how many
/// entries and pages of its owner places are reserved.
#[derive(Drop)]
pub struct Bank {
    alloc: Global,
    zone: u8,
    bank: u8,
    state: State,
    history: Vec<BankEntry>,
    payload: u64,
    reserved: u32,
    sheets: Sheets,
}

impl Model for Bank {
    ghost use Rattle.chv_defs_memory.specs.BankBook.{BankBook};

    ghost Value = { BankBook };

    ghost use Rattle.chv_bank.specs.Kept.{IsKept};

    ghost view = { λ b. record { zone = b.zone; bank = b.bank; history = b.history.items; entries = b.reserved; pages = b.sheets } };

    ghost invariant = { IsKept };
}

impl Bank {
    ghost use Rattle.chv_defs_memory.specs.BankBook.{bytes_taken, entries_taken, fresh, full, is_unpin, owner_reply, pages_shown, pages_used, passes_limit, refusal_of, refused_or, room_refusal, with_entry, HasItsNumber};

    /// A bank to which nothing happened yet.
    pub fn new(alloc: Global, zone: u8, bank: u8) -> Result<Bank, AllocError>
        requires { bank < banks }
        ensures { IfOk result (λ made. made ≡ fresh zone bank) }
    {
        let state = State::new(alloc)?;
        Ok(Bank {
            alloc,
            zone,
            bank,
            state,
            history: Vec::new(alloc),
            payload: 0,
            reserved: 0,
            sheets: Sheets::none(alloc),
        })
    }

    /// Reserves places for entries and pages of the owner, where no page is reserved. `Full` comes exactly where a limit
    /// would be passed, and then nothing is reserved. An `Err` changes nothing.
    pub fn room(&mut self, entries: u32, pages: u32) -> Result<Result<(), Refusal>, AllocError>
        requires { self.old.pages ≡ 0 }
        ensures answer { IfOk result (λ answer. answer ≡ refused_or (room_refusal self.old entries pages) tt) }
        ensures made { IfOk result (λ answer. MatchResult answer
            (λ _. self.new ≡ record self.old { entries = self.old.entries + entries; pages = pages })
            (λ _. self.new ≡ self.old)) }
        // A refusal takes no memory.
        ensures refused { (why : Refusal) → room_refusal self.old entries pages ≡ Some why → IsOk result }
        ensures err { OnErr result (self.new ≡ self.old) }
    {
        if self.passes_limit(entries as u64, pages as u64 * PAGE_PAYLOAD) {
            return Ok(Err(self.full()));
        }
        let taken = self.reserved as usize + self.state.pins.len() + entries as usize;
        self.history.reserve(taken)?;
        let sheets = Sheets::new(self.alloc, pages)?;
        self.state.memory.reserve(pages)?;
        self.sheets = sheets;
        self.reserved += entries;
        Ok(Ok(()))
    }

    /// Gives reserved entries back until `keep` are left, and every reserved page. The places for the Unpins of
    /// outstanding pins stay.
    pub fn give_back(&mut self, keep: u32)
        ensures { self.new ≡ record self.old { entries = min self.old.entries keep; pages = 0 } }
    {
        self.reserved = self.reserved.min(keep);
        self.sheets.clear();
        self.state.memory.release();
    }

    /// Makes a call of the owner, for which an entry is reserved, and for a Fill a page: appends its one entry and
    /// answers it. It is never refused and takes no memory.
    pub fn owner(&mut self, call: &BankCall) -> BankReply
        requires call { IsCall self.old.bank call.now }
        requires owner { is_owner_call call.now ≡ true }
        requires condition { OwnerMay self.old.bank self.old.history call.now }
        requires entry { 0 < self.old.entries }
        requires page { pages_used call.now ≤ self.old.pages }
        ensures reply { result ≡ owner_reply self.old.bank self.old.history call.now }
        ensures entry { self.new ≡ record self.old {
          history = with_entry self.old.history 0 call.now result;
          entries = self.old.entries - 1;
          pages = self.old.pages - pages_used call.now;
        } }
        ensures legal { IsLegal self.old.bank self.new.history }
    {
        let answer = serve_owner(&mut self.state, self.bank, call);
        let entry = BankEntry {
            caller: 0,
            call: copy_owner_call(call, &mut self.sheets),
            reply: copy_owner_reply(&answer),
        };
        self.payload += payload_of(call);
        self.reserved -= 1;
        self.history.push(entry).unwrap();
        answer
    }

    /// Makes an access: appends its one entry and answers it, or refuses it and changes nothing. An `Err` changes nothing.
    pub fn access(
        &mut self,
        caller: u32,
        call: &BankCall,
    ) -> Result<Result<BankReply, Refusal>, AllocError>
        requires caller { 0 < caller }
        requires call { IsCall self.old.bank call.now }
        requires access { is_owner_call call.now ≡ false }
        requires number { HasItsNumber self.old.history caller call.now }
        ensures answer { IfOk result (λ answer. answer
            ≡ refused_or (refusal_of self.old call.now) (access_reply self.old.bank self.old.history call.now)) }
        // A call that is answered has one entry, and a refused one none.
        ensures entry { IfOk result (λ answer. MatchResult answer
            (λ reply. self.new ≡ record self.old { history = with_entry self.old.history caller call.now reply })
            (λ _. self.new ≡ self.old)) }
        // An Unpin takes no memory.
        ensures unpin { is_unpin call.now ≡ true → IsOk result }
        // Nor does a refusal.
        ensures refused { (why : Refusal) → refusal_of self.old call.now ≡ Some why → IsOk result }
        ensures err { OnErr result (self.new ≡ self.old) }
    {
        if let BankCall::Unpin { number } = call {
            self.unpin(caller, *number);
            return Ok(Ok(BankReply::Done));
        }
        if let Some(why) = self.refusal(call) {
            return Ok(Err(why));
        }
        let answer = self.enter(caller, call)?;
        Ok(Ok(answer))
    }

    // Appends the entry of an Unpin, whose place its Pin kept.
    fn unpin(&mut self, caller: u32, number: u32)
        requires caller { 0 < caller }
        requires number { HasItsNumber self.old.history caller (call.Unpin number) }
        ensures { self.new ≡ record self.old { history = with_entry self.old.history caller (call.Unpin number) reply.Done } }
    {
        unpin(&mut self.state, self.bank, caller, number);
        let entry = BankEntry {
            caller,
            call: BankCall::Unpin { number },
            reply: BankReply::Done,
        };
        self.history.push(entry).unwrap();
    }

    // Appends the entry of an access that is not refused. An `Err` changes nothing.
    fn enter(&mut self, caller: u32, call: &BankCall) -> Result<BankReply, AllocError>
        requires caller { 0 < caller }
        requires call { IsCall self.old.bank call.now }
        requires access { is_owner_call call.now ≡ false }
        requires no_unpin { is_unpin call.now ≡ false }
        requires number { HasItsNumber self.old.history caller call.now }
        requires due { refusal_of self.old call.now ≡ None }
        ensures reply { IfOk result (λ reply. reply ≡ access_reply self.old.bank self.old.history call.now) }
        ensures entry { IfOk result (λ reply. self.new ≡ record self.old { history = with_entry self.old.history caller call.now reply }) }
        ensures err { OnErr result (self.new ≡ self.old) }
    {
        let taken = self.reserved as usize + self.state.pins.len() + 2;
        self.history.reserve(taken)?;
        let answer = reply_to(self.alloc, &self.state, self.bank, call)?;
        let entry = BankEntry {
            caller,
            call: copy_call(call)?,
            reply: copy_reply(&answer)?,
        };
        leave(&mut self.state, self.bank, caller, call, &answer)?;
        self.payload += payload_of(call);
        self.history.push(entry).unwrap();
        Ok(answer)
    }

    // The refusal of an access, where one is due.
    fn refusal(&self, call: &BankCall) -> Option<Refusal>
        requires call { IsCall self.now.bank call.now }
        requires access { is_owner_call call.now ≡ false }
        requires no_unpin { is_unpin call.now ≡ false }
        ensures { result ≡ refusal_of self.now call.now }
    {
        let seen = self.history.len() as u64;
        if self.state.frozen {
            return Some(Refusal::Frozen { seen });
        }
        if let Some(block) = find_sealed(&self.state, self.bank, call) {
            return Some(Refusal::Sealed { block, seen });
        }
        if self.passes_limit(places_of(call) as u64, payload_of(call)) {
            return Some(self.full());
        }
        None
    }

    // Whether further entries and bytes pass a limit.
    fn passes_limit(&self, entries: u64, bytes: u64) -> bool
        requires entries { entries < 2 ^ 33 }
        requires bytes { bytes < 2 ^ 50 }
        ensures { result ≡ passes_limit self.now entries bytes }
    {
        self.entries_taken() + entries > MOST_ENTRIES || self.bytes_taken() + bytes > MOST_PAYLOAD
    }

    // How many entries the bank holds, reserved ones and those for Unpins counted.
    fn entries_taken(&self) -> u64
        ensures taken { result ≡ entries_taken self.now }
        ensures small { result ≤ 1048576 }
    {
        self.history.len() as u64 + self.reserved as u64 + self.state.pins.len() as u64
    }

    // How many bytes of payload the bank holds, reserved pages counted.
    fn bytes_taken(&self) -> u64
        ensures taken { result ≡ bytes_taken self.now }
        ensures small { result ≤ 16777216 }
    {
        self.payload + self.sheets.len() as u64 * PAGE_PAYLOAD
    }

    // The refusal of a bank that is full.
    fn full(&self) -> Refusal
        ensures { result ≡ full self.now }
    {
        Refusal::Full(Full {
            book: BookId::Bank {
                zone: self.zone,
                bank: self.bank,
            },
            entries: self.entries_taken(),
            bytes: self.bytes_taken(),
        })
    }

    /// The pages that are not all zero, ascending by block and page: each byte is the last that was written.
    pub fn pages(&self) -> Result<Row<PageAt>, AllocError>
        ensures { IfOk result (λ pages. pages ≡ pages_shown self.now.bank self.now.history) }
    {
        self.state.memory.list()
    }

    /// For how many entries of the owner places are reserved.
    pub fn reserved(&self) -> u32
        ensures { result ≡ self.now.entries }
    {
        self.reserved
    }

    /// The number of its zone, and its own there.
    pub fn number(&self) -> (u8, u8)
        ensures zone { result.0 ≡ self.now.zone }
        ensures bank { result.1 ≡ self.now.bank }
    {
        (self.zone, self.bank)
    }

    /// The history, which is legal. With what is reserved it is within the limits of a book.
    pub fn history(&self) -> &[BankEntry]
        ensures value { result.now ≡ self.now.history }
        ensures legal { IsLegal self.now.bank self.now.history }
        ensures entries { entries_taken self.now ≤ most_entries }
        ensures bytes { bytes_taken self.now ≤ most_payload }
    {
        self.history.as_slice()
    }

    /// The history, which is legal, given up. Takes no memory.
    pub fn into_history(self) -> Row<BankEntry>
        ensures value { result ≡ self.history }
        ensures legal { IsLegal self.bank self.history }
    {
        Row::new(self.history)
    }
}

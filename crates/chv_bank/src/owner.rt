// The owner's calls.
ghost use Rattle.std.specs.Prelude.{◌≡◌, ◌+◌, ◌<◌, ◌≤◌, List, true, length};
ghost use Rattle.chv_defs_memory.specs.declared.bank.BankCall.TheVariants as call;
ghost use Rattle.chv_defs_memory.specs.declared.bank.BankEntry.{BankEntry};
ghost use Rattle.chv_defs_memory.specs.BankState.{is_owner_call, most_blocks, IsCall, IsInZone};
ghost use Rattle.chv_defs_memory.specs.LegalBank.{seal_reply};
ghost use Rattle.chv_defs_memory.specs.BankBook.{owner_reply, pages_counted, pages_used};
ghost use Rattle.chv_bank.specs.Carried.{HasWholePage};
ghost use Rattle.chv_bank.specs.Caches.{IsFormed, IsStateAfter, Steps};

use crate::blocks::first_pinned;
use crate::state::State;
use crate::steps::{close, fill, open, seal, shape, unseal, wipe};
use chv_defs_memory::{BankCall, BankReply, Span};

/// Makes a call of the owner, whose condition holds, and answers it.
pub fn serve_owner(state: &mut State, bank: u8, call: &BankCall) -> BankReply
    requires formed { IsFormed state.old }
    requires call { IsCall bank call.now }
    requires owner { is_owner_call call.now ≡ true }
    requires whole { HasWholePage call.now }
    requires page { pages_used call.now ≤ state.old.memory.reserved }
    ensures steps { Steps bank state.old state.new 0 call.now result }
    ensures answer { (before : List BankEntry) → IsStateAfter bank before state.old → result ≡ owner_reply bank before call.now }
    ensures reserved { state.new.memory.reserved + pages_used call.now ≡ state.old.memory.reserved }
{
    match call {
        BankCall::Shape(n) => shape(state, bank, *n),
        BankCall::Wipe => wipe(state, bank),
        BankCall::Open(span) => open(state, bank, *span),
        BankCall::Seal(span) => return serve_seal(state, bank, *span),
        BankCall::Unseal(span) => unseal(state, bank, *span),
        BankCall::Close(span) => {
            close(state, bank, *span);
            return BankReply::Closed;
        }
        BankCall::Freeze => state.frozen = true,
        BankCall::Thaw => state.frozen = false,
        BankCall::Fill { block, page, bytes } => {
            fill(state, bank, *block, *page, bytes.as_slice());
        }
        BankCall::Show => return BankReply::Pages(shown_pages(state, bank)),
        _ => unreachable!(),
    }
    BankReply::Done
}

// Seals the blocks, or answers the lowest one that is pinned and the lowest caller that pins it.
fn serve_seal(state: &mut State, bank: u8, span: Span) -> BankReply
    requires formed { IsFormed state.old }
    requires zone { IsInZone span }
    ensures steps { Steps bank state.old state.new 0 (call.Seal span) result }
    ensures answer { (before : List BankEntry) → IsStateAfter bank before state.old → result ≡ seal_reply bank before (call.Seal span) }
    ensures reserved { state.new.memory.reserved ≡ state.old.memory.reserved }
{
    match first_pinned(&state.pins, bank, span) {
        Some(block) => BankReply::Busy {
            block,
            caller: state.pins.lowest_pinner(bank, block),
        },
        None => {
            seal(state, bank, span);
            BankReply::Sealed
        }
    }
}

// How many pages are not all zero.
fn shown_pages(state: &State, bank: u8) -> u32
    requires formed { IsFormed state.now }
    ensures { (before : List BankEntry) → IsStateAfter bank before state.now → result ≡ pages_counted bank before }
{
    state.memory.count() as u32
}

// Accesses: Read, Write, Pin and Unpin.
ghost use Rattle.std.specs.Prelude.{◌≡◌, ◌+◌, ◌<◌, ◌≤◌, ◌^◌, ℕ, List, false, IfOk, OnOk, OnErr, length};
ghost use Rattle.chv_defs_memory.specs.declared.bank.BankCall.TheVariants as call;
ghost use Rattle.chv_defs_memory.specs.declared.bank.BankReply.TheVariants as reply;
ghost use Rattle.chv_defs_memory.specs.declared.bank.BankEntry.{BankEntry};
ghost use Rattle.chv_defs_memory.specs.BankState.{blocks_in, blocks_of, is_owner_call, payload_of, IsCall, IsInBlock, IsInZone};
ghost use Rattle.chv_defs_memory.specs.LastByte.{last_bytes};
ghost use Rattle.chv_defs_memory.specs.LegalBank.{access_reply, first_closed, first_sealed};
ghost use Rattle.chv_defs_memory.specs.BankBook.{is_unpin, places_of};
ghost use Rattle.chv_bank.specs.Caches.{IsFormed, IsStateAfter, Steps};
ghost use Rattle.chv_bank.specs.CallerPins.{total};

use crate::blocks::{first_in, first_not_in};
use crate::state::State;
use crate::steps::{pin, write};
use chv_defs_base::Bytes;
use chv_defs_memory::{BankCall, BankReply, Span};
use std::alloc::{AllocError, Global};

// The blocks that an access names, as a span.
fn span_of(call: &BankCall) -> Span
    ensures blocks { (bank : ℕ) → is_owner_call call.now ≡ false → IsCall bank call.now → blocks_in bank result ≡ blocks_of bank call.now }
    ensures zone { (bank : ℕ) → is_owner_call call.now ≡ false → IsCall bank call.now → IsInZone result }
{
    match call {
        BankCall::Read { block, .. } | BankCall::Write { block, .. } => Span {
            first: *block,
            count: 1,
        },
        BankCall::Pin { span, .. } => *span,
        _ => Span { first: 0, count: 0 },
    }
}

/// The lowest block of an access that is sealed.
pub fn find_sealed(state: &State, bank: u8, call: &BankCall) -> Option<u32>
    requires access { is_owner_call call.now ≡ false }
    requires call { IsCall bank call.now }
    ensures { (before : List BankEntry) → IsStateAfter bank before state.now → result ≡ first_sealed bank before call.now }
{
    first_in(&state.sealed_blocks, bank, span_of(call))
}

// The lowest block of an access that is not open.
fn find_closed(state: &State, bank: u8, call: &BankCall) -> Option<u32>
    requires access { is_owner_call call.now ≡ false }
    requires call { IsCall bank call.now }
    ensures { (before : List BankEntry) → IsStateAfter bank before state.now → result ≡ first_closed bank before call.now }
{
    first_not_in(&state.open_blocks, bank, span_of(call))
}

/// The reply to an access.
pub fn reply_to(
    alloc: Global,
    state: &State,
    bank: u8,
    call: &BankCall,
) -> Result<BankReply, AllocError>
    requires formed { IsFormed state.now }
    requires access { is_owner_call call.now ≡ false }
    requires call { IsCall bank call.now }
    ensures { IfOk result (λ r. (before : List BankEntry) → IsStateAfter bank before state.now → r ≡ access_reply bank before call.now) }
{
    if let Some(block) = find_closed(state, bank, call) {
        return Ok(BankReply::Fault(block));
    }
    match call {
        BankCall::Read { block, offset, len } => {
            let bytes = read(alloc, state, bank, *block, *offset, *len)?;
            Ok(BankReply::Got(bytes))
        }
        BankCall::Pin { .. } => Ok(BankReply::Pinned),
        _ => Ok(BankReply::Done),
    }
}

fn read(
    alloc: Global,
    state: &State,
    bank: u8,
    block: u32,
    offset: u32,
    len: u32,
) -> Result<Bytes, AllocError>
    requires formed { IsFormed state.now }
    requires call { IsInBlock bank block offset len }
    ensures { IfOk result (λ bytes. (before : List BankEntry) → IsStateAfter bank before state.now → bytes ≡ last_bytes bank before block offset len) }
{
    let mut bytes = vec![in alloc; 0; len as usize]?;
    state.memory.read(block, offset, &mut bytes);
    Ok(Bytes::new(bytes))
}

/// Leaves what an access does that is answered so. An `Err` leaves all as it was.
pub fn leave(
    state: &mut State,
    bank: u8,
    caller: u32,
    call: &BankCall,
    reply: &BankReply,
) -> Result<(), AllocError>
    requires formed { IsFormed state.old }
    requires access { is_owner_call call.now ≡ false }
    requires no_unpin { is_unpin call.now ≡ false }
    requires call { IsCall bank call.now }
    requires few { total state.old.pins < 2 ^ 32 }
    ensures ok { OnOk result (Steps bank state.old state.new caller call.now reply.now) }
    ensures reserved { state.new.memory.reserved ≡ state.old.memory.reserved }
    ensures err { OnErr result (state.new ≡ state.old) }
{
    match (call, reply) {
        (
            BankCall::Write {
                block,
                offset,
                bytes,
            },
            BankReply::Done,
        ) => write(state, bank, caller, *block, *offset, bytes.as_slice()),
        (BankCall::Pin { number, span }, BankReply::Pinned) => {
            pin(state, bank, caller, *number, *span)
        }
        _ => Ok(()),
    }
}

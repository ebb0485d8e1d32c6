// Copies of calls and replies, as entries keep them.
ghost use Rattle.std.specs.Prelude.{◌≡◌, ◌+◌, ◌<◌, ◌≤◌, true, IfOk, length};
ghost use Rattle.chv_defs_memory.specs.BankState.{is_owner_call, payload_of};
ghost use Rattle.chv_defs_memory.specs.BankBook.{pages_used, places_of};
ghost use Rattle.chv_bank.specs.Carried.{HasNoBytes, HasWholePage};

use crate::sheets::Sheets;
use chv_defs_memory::{BankCall, BankReply};
use std::alloc::AllocError;

/// A copy of a call.
pub fn copy_call(call: &BankCall) -> Result<BankCall, AllocError>
    ensures { IfOk result (λ copy. copy ≡ call.now) }
{
    call.clone()
}

/// A copy of a reply.
pub fn copy_reply(reply: &BankReply) -> Result<BankReply, AllocError>
    ensures { IfOk result (λ copy. copy ≡ reply.now) }
{
    reply.clone()
}

/// A copy of a call of the owner, for which a Fill uses a sheet. Takes no memory.
pub fn copy_owner_call(call: &BankCall, sheets: &mut Sheets) -> BankCall
    requires owner { is_owner_call call.now ≡ true }
    requires whole { HasWholePage call.now }
    requires sheet { pages_used call.now ≤ sheets.old }
    ensures copied { result ≡ call.now }
    ensures used { sheets.new + pages_used call.now ≡ sheets.old }
{
    match call {
        BankCall::Shape(n) => BankCall::Shape(*n),
        BankCall::Wipe => BankCall::Wipe,
        BankCall::Open(span) => BankCall::Open(*span),
        BankCall::Seal(span) => BankCall::Seal(*span),
        BankCall::Unseal(span) => BankCall::Unseal(*span),
        BankCall::Close(span) => BankCall::Close(*span),
        BankCall::Freeze => BankCall::Freeze,
        BankCall::Thaw => BankCall::Thaw,
        BankCall::Fill { block, page, bytes } => BankCall::Fill {
            block: *block,
            page: *page,
            bytes: sheets.copy(bytes.as_slice()),
        },
        BankCall::Show => BankCall::Show,
        _ => unreachable!(),
    }
}

/// A copy of a reply to the owner. Takes no memory.
pub fn copy_owner_reply(reply: &BankReply) -> BankReply
    requires { HasNoBytes reply.now }
    ensures { result ≡ reply.now }
{
    match reply {
        BankReply::Done => BankReply::Done,
        BankReply::Sealed => BankReply::Sealed,
        BankReply::Busy { block, caller } => BankReply::Busy {
            block: *block,
            caller: *caller,
        },
        BankReply::Closed => BankReply::Closed,
        BankReply::Pages(n) => BankReply::Pages(*n),
        BankReply::Pinned => BankReply::Pinned,
        BankReply::Fault(block) => BankReply::Fault(*block),
        BankReply::Got(_) => unreachable!(),
    }
}

/// The bytes of payload of a call.
pub fn payload_of(call: &BankCall) -> u64
    ensures { result ≡ payload_of call.now }
{
    match call {
        BankCall::Read { len, .. } => *len as u64,
        BankCall::Write { bytes, .. } => bytes.len() as u64,
        BankCall::Fill { bytes, .. } => bytes.len() as u64,
        _ => 0,
    }
}

/// How many places an access needs.
pub fn places_of(call: &BankCall) -> u32
    ensures { result ≡ places_of call.now }
{
    match call {
        BankCall::Pin { .. } => 2,
        BankCall::Unpin { .. } => 0,
        _ => 1,
    }
}

// An entry is made of a call that was decided.
ghost use Rattle.std.specs.Prelude.{◌≡◌, true, IfOk};
ghost use Rattle.chv_defs_api.specs.Desks.{can_have, is_session_call};
ghost use Rattle.chv_defs_control.specs.Machine.{IsWellFormed};
ghost use Rattle.chv_defs_control.specs.ApiStep.{after, reply_to};
ghost use Rattle.chv_defs_control.specs.ControlBook.{entry_payload};
ghost use Rattle.chv_defs_control.specs.ControlStep.{MayCall};
ghost use Rattle.chv_ctl_api.specs.Changed.{changed};
ghost use Rattle.chv_control.specs.Control.{entry_of};

use crate::book::payload_of;
use chv_ctl_api::{Change, api_decide};
use chv_defs_api::{ControlCall, ControlEntry, ControlReply, OnShelf};
use chv_defs_base::{Row, beside, copy_of};
use chv_defs_control::Machine;
use std::alloc::{AllocError, Global};

/// An entry that is not entered yet, its reply once more, its payload in bytes, and what its call changes.
#[derive(Drop)]
pub struct Made {
    pub entry: ControlEntry,
    pub reply: ControlReply,
    pub added: u64,
    pub change: Change,
}

/// The entry of a call that is answered so.
fn entry(caller: u32, call: &ControlCall, reply: &ControlReply) -> Result<ControlEntry, AllocError>
    ensures { IfOk result (λ entry. entry ≡ record { caller = caller; call = call.now; reply = reply.now }) }
{
    let call = copy_of(call)?;
    let (reply, call) = beside(copy_of(reply), call)?;
    Ok(ControlEntry {
        caller,
        call,
        reply,
    })
}

/// The entry of a call, answered by its rules, and what the call changes. Nothing is changed yet.
pub fn make(
    alloc: Global,
    machine: &Machine,
    shelf: &Row<OnShelf>,
    caller: u32,
    call: &ControlCall,
) -> Result<Made, AllocError>
    requires formed { IsWellFormed machine.now }
    requires may { MayCall machine.now caller call.now }
    ensures entry { IfOk result (λ made. made.entry ≡ entry_of shelf.now machine.now caller call.now) }
    ensures reply { IfOk result (λ made. made.reply ≡ reply_to shelf.now machine.now call.now) }
    ensures added { IfOk result (λ made. made.added ≡ entry_payload made.entry) }
    ensures change { IfOk result (λ made. changed machine.now made.change ≡ after machine.now caller call.now made.reply) }
    ensures fits { is_session_call call.now ≡ true → IfOk result (λ made. can_have call.now made.reply ≡ true) }
{
    let decided = api_decide(alloc, machine, caller, shelf, call)?;
    let (added, decided) = beside(payload_of(alloc, call, &decided.reply), decided)?;
    let (entry, decided) = beside(entry(caller, call, &decided.reply), decided)?;
    Ok(Made {
        entry,
        reply: decided.reply,
        added,
        change: decided.change,
    })
}

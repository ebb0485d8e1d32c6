// What an entry costs the control book.
ghost use Rattle.std.specs.Prelude.{◌≡◌, ◌+◌, ◌≤◌, ◌<◌, ◌^◌, IfOk};
ghost use Rattle.chv_defs_base.specs.Sizes.{most_entries, most_payload};
ghost use Rattle.chv_defs_api.specs.declared.control.ControlReply.TheVariants.{Added};
ghost use Rattle.chv_defs_control.specs.ControlBook.{call_payload, entry_payload, full_at, payload, places, reply_payload};

use chv_defs_api::{ControlCall, ControlEntry, ControlReply, DeviceInfo};
use chv_defs_base::{BookId, Full, MOST_ENTRIES, MOST_PAYLOAD, Text, copy_of};
use chv_defs_control::Machine;
use chv_json::{config_text, counters_text, device_text, disk_text, info_text};
use std::alloc::{AllocError, Global};

/// The payload of the entry of a call that is answered so, in bytes.
pub fn payload_of(
    alloc: Global,
    call: &ControlCall,
    reply: &ControlReply,
) -> Result<u64, AllocError>
    ensures { IfOk result (λ bytes. bytes ≡ call_payload call.now + reply_payload reply.now) }
{
    let call = call_payload(alloc, call)?;
    let reply = reply_payload(alloc, reply)?;
    Ok(call as u64 + reply as u64)
}

fn call_payload(alloc: Global, call: &ControlCall) -> Result<usize, AllocError>
    ensures value { IfOk result (λ bytes. bytes ≡ call_payload call.now) }
    ensures small { IfOk result (λ bytes. bytes < 2 ^ 63) }
{
    match call {
        ControlCall::Create(config) => Ok(config_text(alloc, config)?.as_str().len()),
        ControlCall::AddDisk(disk) => Ok(disk_text(alloc, disk)?.as_str().len()),
        _ => Ok(0),
    }
}

fn reply_payload(alloc: Global, reply: &ControlReply) -> Result<usize, AllocError>
    ensures value { IfOk result (λ bytes. bytes ≡ reply_payload reply.now) }
    ensures small { IfOk result (λ bytes. bytes < 2 ^ 63) }
{
    match reply {
        ControlReply::Shown(info) => Ok(info_text(alloc, info)?.as_str().len()),
        ControlReply::Counted(counts) => Ok(counters_text(alloc, counts)?.as_str().len()),
        ControlReply::Added { id, slot } => added_payload(alloc, id, *slot),
        ControlReply::Restored(image) => Ok(image.as_slice().len()),
        _ => Ok(0),
    }
}

fn added_payload(alloc: Global, id: &Text, slot: u8) -> Result<usize, AllocError>
    ensures value { IfOk result (λ bytes. bytes ≡ reply_payload (Added id.now slot)) }
    ensures small { IfOk result (λ bytes. bytes < 2 ^ 63) }
{
    let device = DeviceInfo {
        slot,
        id: copy_of(id)?,
    };
    Ok(device_text(alloc, &device)?.as_str().len())
}

/// The refusal of a further entry, where one is due.
pub fn full_at(
    machine: &Machine,
    history: &[ControlEntry],
    bytes: u64,
    entry: &ControlEntry,
    added: u64,
) -> Option<Full>
    requires bytes { bytes ≡ payload history.now }
    requires entries { places machine.now history.now ≤ most_entries }
    requires within { bytes ≤ most_payload }
    requires added { added ≡ entry_payload entry.now }
    ensures { result ≡ full_at machine.now history.now entry.now }
{
    if matches!(entry.call, ControlCall::Stop) {
        return None;
    }
    let entries = places(machine, history);
    if entries < MOST_ENTRIES && added <= MOST_PAYLOAD - bytes {
        return None;
    }
    Some(Full {
        book: BookId::Control,
        entries,
        bytes,
    })
}

fn places(machine: &Machine, history: &[ControlEntry]) -> u64
    requires { places machine.now history.now ≤ most_entries }
    ensures { result ≡ places machine.now history.now }
{
    let kept = if machine.stopped { 0 } else { 1 };
    history.len() as u64 + kept
}

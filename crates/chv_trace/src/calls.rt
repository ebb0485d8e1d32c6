// Control calls.
ghost use Rattle.std.specs.Prelude.{◌≡◌, IfOk, string_bytes};
ghost use Rattle.chv_defs.specs.TraceText as text;

use crate::accesses::access_text;
use crate::fields::{after_text, after_word, number_or_dash};
use crate::notes::hand_text;
use chv_defs::{ControlCall, Goal, MemRequest, Role};
use chv_json::{config_text, disk_text, quoted_text};
use std::alloc::{AllocError, Global};

/// The text of a control call.
pub(crate) fn call_text(alloc: Global, call: &ControlCall) -> Result<String, AllocError>
    ensures { IfOk result (λ shown. string_bytes shown ≡ text.call_text call.now) }
{
    match call {
        ControlCall::Ping => String::from_str(alloc, "ping"),
        ControlCall::Info => String::from_str(alloc, "info"),
        ControlCall::Counters => String::from_str(alloc, "counters"),
        ControlCall::Create(config) => after_text(alloc, "create ", config_text(alloc, config)),
        ControlCall::Boot => String::from_str(alloc, "boot"),
        ControlCall::Begin(goal) => after_word(alloc, "begin ", goal_text(*goal)),
        ControlCall::Settle => String::from_str(alloc, "settle"),
        ControlCall::Resume => String::from_str(alloc, "resume"),
        ControlCall::Resize { vcpus, ram } => resize_text(alloc, *vcpus, *ram),
        ControlCall::ResizeZone { zone, ram } => zone_text(alloc, zone.as_str(), *ram),
        ControlCall::AddDisk(disk) => after_text(alloc, "add ", disk_text(alloc, disk)),
        ControlCall::Remove(id) => after_text(alloc, "remove ", quoted_text(alloc, id.as_str())),
        ControlCall::Snapshot(name) => after_word(alloc, "snapshot ", name.as_str()),
        ControlCall::Restore(name) => after_word(alloc, "restore ", name.as_str()),
        ControlCall::Bye => String::from_str(alloc, "bye"),
        ControlCall::Take(role) => take_text(alloc, *role),
        ControlCall::Hand(hand) => hand_text(alloc, hand),
        ControlCall::Reg { context, access } => access_text(alloc, *context, *access),
        ControlCall::Mem { slot, request } => mem_text(alloc, *slot, *request),
        ControlCall::Stop => String::from_str(alloc, "stop"),
    }
}

fn goal_text(goal: Goal) -> &'static str
    ensures { result.now ≡ text.goal_text goal }
{
    match goal {
        Goal::Pause => "pause",
        Goal::Shutdown => "shutdown",
        Goal::Delete => "delete",
    }
}

fn resize_text(alloc: Global, vcpus: Option<u64>, ram: Option<u64>) -> Result<String, AllocError>
    ensures { IfOk result (λ shown. string_bytes shown ≡ text.call_text (ControlCall.Resize vcpus ram)) }
{
    let vcpus = number_or_dash(alloc, vcpus)?;
    let ram = number_or_dash(alloc, ram)?;
    format!(in alloc; "resize {vcpus} {ram}")
}

fn zone_text(alloc: Global, zone: &str, ram: u64) -> Result<String, AllocError>
    ensures { IfOk result (λ shown. string_bytes shown ≡ text.call_text (ControlCall.ResizeZone zone.now ram)) }
{
    let quoted = quoted_text(alloc, zone)?;
    let zone = quoted.as_str();
    format!(in alloc; "zone {zone} {ram}")
}

fn take_text(alloc: Global, role: Role) -> Result<String, AllocError>
    ensures { IfOk result (λ shown. string_bytes shown ≡ text.call_text (ControlCall.Take role)) }
{
    match role {
        Role::Vcpu(vcpu) => format!(in alloc; "take vcpu {vcpu}"),
        Role::Queue => String::from_str(alloc, "take queue"),
    }
}

fn mem_text(alloc: Global, slot: u8, request: MemRequest) -> Result<String, AllocError>
    ensures { IfOk result (λ shown. string_bytes shown ≡ text.call_text (ControlCall.Mem slot request)) }
{
    let kind = request.kind;
    let addr = request.addr;
    let blocks = request.blocks;
    format!(in alloc; "mem {slot} {kind} 0x{addr:x} {blocks}")
}

// Calls on the control machine, and its history.
ghost use Rattle.std.specs.Prelude.{◌≡◌};

use crate::{ContextNote, CountOf, DiskConfig, HandNote, Info, RegAccess, VmConfig};
use chv_defs_base::{Bytes, Name, Row, Rule, Text};
use std::alloc::AllocError;

/// Where a pause, a shutdown or a delete leads.
#[derive(Clone, Copy, PartialEq, Eq)]
pub enum Goal {
    Pause,
    Shutdown,
    Delete,
}

/// What a caller takes: a vCPU, or the lowest queue that is ready.
#[derive(Clone, Copy, PartialEq, Eq)]
pub enum Role {
    Vcpu(u8),
    Queue,
}

/// A control call. Sessions make those of the API, `Settle` and `Bye`; runners and workers `Take`, `Hand`, `Reg` and
/// `Mem`; any caller makes `Stop`.
#[derive(PartialEq, Eq, Drop)]
pub enum ControlCall {
    Ping,
    Info,
    Counters,
    Create(VmConfig),
    Boot,
    Begin(Goal),
    /// Reaches the goal of a `Begin` that was answered `Holding`.
    Settle,
    Resume,
    /// `ram` is in bytes.
    Resize {
        vcpus: Option<u64>,
        ram: Option<u64>,
    },
    ResizeZone {
        zone: Text,
        ram: u64,
    },
    AddDisk(DiskConfig),
    Remove(Text),
    Snapshot(Name),
    Restore(Name),
    /// The last call of a session.
    Bye,
    Take(Role),
    Hand(HandNote),
    /// An access of the context with this bank caller number.
    Reg {
        context: u32,
        access: RegAccess,
    },
    Mem {
        slot: u8,
        request: MemRequest,
    },
    Stop,
}

impl Clone for ControlCall {
    ghost is_clone = { λ a b. b ≡ a };

    fn clone(&self) -> Result<ControlCall, AllocError> {
        Ok(match self {
            ControlCall::Ping => ControlCall::Ping,
            ControlCall::Info => ControlCall::Info,
            ControlCall::Counters => ControlCall::Counters,
            ControlCall::Create(config) => ControlCall::Create(config.clone()?),
            ControlCall::Boot => ControlCall::Boot,
            ControlCall::Begin(goal) => ControlCall::Begin(*goal),
            ControlCall::Settle => ControlCall::Settle,
            ControlCall::Resume => ControlCall::Resume,
            ControlCall::Resize { vcpus, ram } => ControlCall::Resize {
                vcpus: *vcpus,
                ram: *ram,
            },
            ControlCall::ResizeZone { zone, ram } => ControlCall::ResizeZone {
                zone: zone.clone()?,
                ram: *ram,
            },
            ControlCall::AddDisk(disk) => ControlCall::AddDisk(disk.clone()?),
            ControlCall::Remove(id) => ControlCall::Remove(id.clone()?),
            ControlCall::Snapshot(name) => ControlCall::Snapshot(name.clone()?),
            ControlCall::Restore(name) => ControlCall::Restore(name.clone()?),
            ControlCall::Bye => ControlCall::Bye,
            ControlCall::Take(role) => ControlCall::Take(*role),
            ControlCall::Hand(note) => ControlCall::Hand(note.clone()?),
            ControlCall::Reg { context, access } => ControlCall::Reg {
                context: *context,
                access: *access,
            },
            ControlCall::Mem { slot, request } => ControlCall::Mem {
                slot: *slot,
                request: *request,
            },
            ControlCall::Stop => ControlCall::Stop,
        })
    }
}

/// A request to a memory device (VIRTIO 1.2, 5.15.6): its type, a guest address and a number of blocks.
#[derive(Clone, Copy, PartialEq, Eq)]
pub struct MemRequest {
    pub kind: u16,
    pub addr: u64,
    pub blocks: u16,
}

/// The answer of a memory device: its type and state, and for BUSY the block and who pins it.
#[derive(Clone, Copy, PartialEq, Eq)]
pub struct MemAnswer {
    pub kind: u16,
    pub state: u16,
    pub busy: Option<BusyAt>,
}

/// A pinned block, and a bank caller that pins it.
#[derive(Clone, Copy, PartialEq, Eq)]
pub struct BusyAt {
    pub block: u32,
    pub caller: u32,
}

/// The answer of the control machine.
#[derive(PartialEq, Eq, Drop)]
pub enum ControlReply {
    Done,
    Shown(Info),
    /// Ascending by the bytes of the ids.
    Counted(Row<CountOf>),
    Added { id: Text, slot: u8 },
    Holding,
    /// Refused, and nothing was changed.
    Ruled(Rule),
    Taken(ContextNote),
    Value(u64),
    Answer(MemAnswer),
    /// The image that was read.
    Restored(Bytes),
}

impl Clone for ControlReply {
    ghost is_clone = { λ a b. b ≡ a };

    fn clone(&self) -> Result<ControlReply, AllocError> {
        Ok(match self {
            ControlReply::Done => ControlReply::Done,
            ControlReply::Shown(info) => ControlReply::Shown(info.clone()?),
            ControlReply::Counted(counts) => ControlReply::Counted(counts.clone()?),
            ControlReply::Added { id, slot } => ControlReply::Added {
                id: id.clone()?,
                slot: *slot,
            },
            ControlReply::Holding => ControlReply::Holding,
            ControlReply::Ruled(rule) => ControlReply::Ruled(*rule),
            ControlReply::Taken(note) => ControlReply::Taken(*note),
            ControlReply::Value(value) => ControlReply::Value(*value),
            ControlReply::Answer(answer) => ControlReply::Answer(*answer),
            ControlReply::Restored(image) => ControlReply::Restored(image.clone()?),
        })
    }
}

/// One entry of the control history.
#[derive(PartialEq, Eq, Drop)]
pub struct ControlEntry {
    /// 0 is the main thread, 1 to 16 are sessions, 17 + n is the runner of vCPU n, 33 and 34 are the workers.
    pub caller: u32,
    pub call: ControlCall,
    pub reply: ControlReply,
}

// One step of the API: a call is decided, and what was decided is committed.
ghost use Rattle.std.specs.Prelude.{◌≡◌, IsOk, IfOk, OnErr};
ghost use Rattle.chv_defs_api.specs.declared.control.ControlCall.TheVariants.{Stop};
ghost use Rattle.chv_defs_control.specs.Machine.{IsWellFormed};
ghost use Rattle.chv_defs_control.specs.ApiStep.{after, reply_to};
ghost use Rattle.chv_defs_control.specs.ControlStep.{MayCall};
ghost use Rattle.chv_ctl_api.specs.Changed.{changed};

use crate::creation::decide_create;
use crate::decided::{Change, Decided, done, stays};
use crate::devices::{decide_add_disk, decide_remove};
use crate::ended::ended_by;
use crate::life::{answer_restore, decide_begin, decide_boot, refuse};
use crate::queries::{answer_counters, answer_info};
use crate::resize::{answer_resize, answer_resize_zone};
use chv_defs_api::{ControlCall, ControlReply, OnShelf};
use chv_defs_base::{Row, Rule};
use chv_defs_control::{Life, Machine};
use std::alloc::{AllocError, Global};

/// What a call of a session or a Stop comes to, where these disks stand by: it is answered by the first of its rules that is
/// broken, and nothing is changed; or else by its success, with what it changes. A Stop takes no memory.
pub fn api_decide(
    alloc: Global,
    machine: &Machine,
    caller: u32,
    shelf: &Row<OnShelf>,
    call: &ControlCall,
) -> Result<Decided, AllocError>
    requires formed { IsWellFormed machine.now }
    requires may { MayCall machine.now caller call.now }
    ensures reply { IfOk result (λ decided. decided.reply ≡ reply_to shelf.now machine.now call.now) }
    ensures change { IfOk result (λ decided. changed machine.now decided.change ≡ after machine.now caller call.now decided.reply) }
    ensures stop { call.now ≡ Stop → IsOk result }
{
    match call {
        ControlCall::Ping => Ok(stays(ControlReply::Done)),
        ControlCall::Info => Ok(stays(answer_info(alloc, machine)?)),
        ControlCall::Counters => Ok(stays(answer_counters(alloc, machine))),
        ControlCall::Create(config) => decide_create(alloc, machine, shelf, config),
        ControlCall::Boot => Ok(decide_boot(machine)),
        ControlCall::Begin(goal) => Ok(decide_begin(machine, *goal)),
        ControlCall::Resume | ControlCall::Snapshot(_) => Ok(stays(refuse(
            machine,
            Rule::NotPaused,
        ))),
        ControlCall::Resize { vcpus, ram } => Ok(stays(answer_resize(machine, *vcpus, *ram))),
        ControlCall::ResizeZone { zone, ram } => Ok(stays(answer_resize_zone(machine, zone, *ram))),
        ControlCall::AddDisk(disk) => decide_add_disk(alloc, machine, shelf, disk),
        ControlCall::Remove(id) => decide_remove(alloc, machine, id),
        ControlCall::Restore(_) => Ok(stays(answer_restore(machine))),
        ControlCall::Bye => Ok(done(ended_by(machine, caller)?)),
        ControlCall::Stop => Ok(done(Change::Stopped)),
        _ => unreachable!(),
    }
}

/// Changes the machine as was decided. Takes no memory.
pub fn api_commit(machine: &mut Machine, change: Change)
    ensures { machine.new ≡ changed machine.old change }
{
    match change {
        Change::Stays => {}
        Change::Created(checked) => {
            machine.life = Life::Created;
            machine.config = Some(checked);
        }
        Change::Reconfigured(checked) => machine.config = Some(checked),
        Change::Booted => machine.life = Life::Running,
        Change::ShutDown => machine.life = Life::Shutdown,
        Change::Deleted => {
            machine.life = Life::None;
            machine.config = None;
        }
        Change::Ended(ended) => machine.ended = ended,
        Change::Stopped => machine.stopped = true,
    }
}

/// Answers a call and leaves the machine as after it. An `Err` leaves the machine as it was. A Stop takes no memory.
pub fn api_step(
    alloc: Global,
    machine: &mut Machine,
    caller: u32,
    shelf: &Row<OnShelf>,
    call: &ControlCall,
) -> Result<ControlReply, AllocError>
    requires formed { IsWellFormed machine.old }
    requires may { MayCall machine.old caller call.now }
    ensures reply { IfOk result (λ reply. reply ≡ reply_to shelf.now machine.old call.now) }
    ensures state { IfOk result (λ reply. machine.new ≡ after machine.old caller call.now reply) }
    ensures formed { IsWellFormed machine.new }
    ensures err { OnErr result (machine.new ≡ machine.old) }
    ensures stop { call.now ≡ Stop → IsOk result }
{
    let decided = api_decide(alloc, machine, caller, shelf, call)?;
    api_commit(machine, decided.change);
    Ok(decided.reply)
}

// The calls of the API on one machine, step by step: what each is answered, and what it leaves.
ghost use Rattle.std.specs.Prelude.{◌≡◌, true};
ghost use Rattle.chv_defs_api.specs.Desks.{is_session_call};
ghost use Rattle.chv_defs_control.specs.Machine.{IsWellFormed};

use chv_ctl_api::api_step;
use chv_defs_api::{
    Checked, ControlCall, ControlReply, CpuConfig, DiskConfig, Goal, OnShelf, VmConfig,
};
use chv_defs_base::{Row, Rule, Text};
use chv_defs_control::{Life, Machine};
use chv_tests_samples::{name, plain_config, plain_disk};
use chv_tests_steps::step;
use std::alloc::{AllocError, Global};
use std::test::Fail;

// The state before anything happened.
pub fn nothing(alloc: Global) -> Machine
    ensures { IsWellFormed result }
{
    Machine {
        life: Life::None,
        config: None,
        ended: Row::empty(alloc),
        stopped: false,
    }
}

// The disk `a`, which stands by.
fn shelf(alloc: Global) -> Result<Row<OnShelf>, Fail> {
    let name = name(alloc, "a")?;
    Ok(Row::new(vec![in alloc; OnShelf { name, sectors: 8 }]?))
}

// The plain configuration, but with two vCPUs.
fn with_two_vcpus(alloc: Global) -> VmConfig {
    VmConfig {
        cpus: CpuConfig { boot: 2, max: 2 },
        ..plain_config(alloc)
    }
}

// Whether these are so many disks: none, or the disk `a` with the lowest id that is free.
fn are_disks(disks: &[DiskConfig], count: usize) -> bool {
    match (disks, count) {
        ([], 0) => true,
        ([disk], 1) => {
            disk.path.as_str() == "/images/a"
                && matches!(&disk.id, Some(id) if id.as_str() == "_disk0")
                && (disk.readonly, disk.queues, disk.queue_size) == (false, 1, 128)
        }
        _ => false,
    }
}

// Whether the plain configuration is kept, but for its disks, with the zone that is in effect where none is configured.
fn is_plain(alloc: Global, checked: &Checked) -> bool {
    let [zone] = checked.zones.as_slice() else {
        return false;
    };
    let plain = plain_config(alloc);
    let is_so = checked.config.cpus == plain.cpus && checked.config.memory == plain.memory;
    drop(plain);
    is_so
        && zone.id.as_str() == "mem0"
        && (zone.size, zone.hotplug, zone.hotplugged) == (536_870_912, 0, 0)
}

// Whether a plain machine with so many disks was created, or, where no number is given, there is no machine.
fn has(alloc: Global, machine: &Machine, disks: Option<usize>) -> bool {
    match (&machine.config, disks) {
        (Some(checked), Some(count)) => {
            machine.life == Life::Created
                && is_plain(alloc, checked)
                && are_disks(checked.config.disks.as_slice(), count)
        }
        (None, None) => machine.life == Life::None,
        _ => false,
    }
}

// Whether a reply names this rule, or, where none is given, is Done.
fn is_answer(reply: &ControlReply, rule: Option<Rule>) -> bool {
    match (reply, rule) {
        (ControlReply::Ruled(given), Some(rule)) => *given == rule,
        (ControlReply::Done, None) => true,
        _ => false,
    }
}

// Whether a call of session 2 is answered by this rule or none.
fn answers(
    alloc: Global,
    machine: &mut Machine,
    shelf: &Row<OnShelf>,
    call: ControlCall,
    rule: Option<Rule>,
) -> Result<bool, AllocError>
    requires formed { IsWellFormed machine.old }
    requires call { is_session_call call ≡ true }
    ensures { IsWellFormed machine.new }
{
    let given = api_step(alloc, machine, 2, shelf, &call);
    drop(call);
    let reply = given?;
    let is_so = is_answer(&reply, rule);
    drop(reply);
    Ok(is_so)
}

// Whether a call of session 2 is answered by this rule or none, and leaves a machine with so many disks or none.
fn leaves(
    alloc: Global,
    machine: &mut Machine,
    shelf: &Row<OnShelf>,
    call: ControlCall,
    rule: Option<Rule>,
    disks: Option<usize>,
) -> Result<bool, AllocError>
    requires formed { IsWellFormed machine.old }
    requires call { is_session_call call ≡ true }
    ensures { IsWellFormed machine.new }
{
    let is_so = answers(alloc, machine, shelf, call, rule)?;
    Ok(is_so && has(alloc, machine, disks))
}

// A machine is created, but not again, and a disk is added, and removed by the id that it got.
fn change(alloc: Global, machine: &mut Machine, shelf: &Row<OnShelf>) -> Result<(), Fail>
    requires { IsWellFormed machine.old }
    ensures { IsWellFormed machine.new }
{
    let create = ControlCall::Create(plain_config(alloc));
    step(
        "create",
        leaves(alloc, machine, shelf, create, None, Some(0))?,
    )?;
    let again = ControlCall::Create(with_two_vcpus(alloc));
    let rule = Some(Rule::AlreadyCreated);
    step(
        "create again",
        leaves(alloc, machine, shelf, again, rule, Some(0))?,
    )?;
    let add = ControlCall::AddDisk(plain_disk(alloc, "/images/a")?);
    step(
        "add a disk",
        leaves(alloc, machine, shelf, add, None, Some(1))?,
    )?;
    let remove = ControlCall::Remove(Text::of(alloc, "_disk0")?);
    step(
        "remove the disk",
        leaves(alloc, machine, shelf, remove, None, Some(0))?,
    )
}

// A Stop is done, and keeps the machine.
fn stop(alloc: Global, machine: &mut Machine, shelf: &Row<OnShelf>) -> Result<(), Fail>
    requires { IsWellFormed machine.old }
{
    step("no stop before", !machine.stopped)?;
    let reply = api_step(alloc, machine, 0, shelf, &ControlCall::Stop)?;
    let is_done = is_answer(&reply, None);
    drop(reply);
    step("stop: the reply", is_done)?;
    step("stop: stopped", machine.stopped)?;
    step("stop: the machine is kept", has(alloc, machine, Some(0)))
}

// The calls of session 2, and then a Stop.
fn steps(alloc: Global, machine: &mut Machine, shelf: &Row<OnShelf>) -> Result<(), Fail>
    requires { IsWellFormed machine.old }
{
    let rule = Some(Rule::NotCreated);
    step(
        "info before a machine",
        leaves(alloc, machine, shelf, ControlCall::Info, rule, None)?,
    )?;
    change(alloc, machine, shelf)?;
    step(
        "bye",
        leaves(alloc, machine, shelf, ControlCall::Bye, None, Some(0))?,
    )?;
    step(
        "bye: the session has ended",
        machine.ended.as_slice() == [2].as_slice(),
    )?;
    stop(alloc, machine, shelf)
}

#[test]
fn steps_of_one_machine(rt: HostRuntime) -> Result<(), Fail> {
    let shelf = shelf(rt.alloc())?;
    let mut machine = nothing(rt.alloc());
    let came = steps(rt.alloc(), &mut machine, &shelf);
    drop(machine);
    drop(shelf);
    came
}

// A machine that has no device boots, but not again, and is shut down, and deleted.
fn boot(alloc: Global, machine: &mut Machine, shelf: &Row<OnShelf>) -> Result<(), Fail>
    requires { IsWellFormed machine.old }
{
    let create = ControlCall::Create(plain_config(alloc));
    step("create", answers(alloc, machine, shelf, create, None)?)?;
    step(
        "boot",
        answers(alloc, machine, shelf, ControlCall::Boot, None)?,
    )?;
    step("boot: it runs", machine.life == Life::Running)?;
    let again = Some(Rule::AlreadyBooted);
    step(
        "boot again",
        answers(alloc, machine, shelf, ControlCall::Boot, again)?,
    )?;
    let shutdown = ControlCall::Begin(Goal::Shutdown);
    step("shut down", answers(alloc, machine, shelf, shutdown, None)?)?;
    step("shut down: the life", machine.life == Life::Shutdown)?;
    let delete = ControlCall::Begin(Goal::Delete);
    step("delete", answers(alloc, machine, shelf, delete, None)?)?;
    step("delete: nothing is left", has(alloc, machine, None))
}

#[test]
fn boot_of_one_machine(rt: HostRuntime) -> Result<(), Fail> {
    let shelf = shelf(rt.alloc())?;
    let mut machine = nothing(rt.alloc());
    let came = boot(rt.alloc(), &mut machine, &shelf);
    drop(machine);
    drop(shelf);
    came
}

// What `vm.info` and `vm.counters` show.
ghost use Rattle.std.specs.Prelude.{◌≡◌, ◌≢◌, ◌<◌, ◌≤◌, ◌^◌, List, None, IfOk, map, sum_by};
ghost use Rattle.std.specs.List.{range_with_len};
ghost use Rattle.chv_defs_control.specs.Machine.{IsWellFormed};
ghost use Rattle.chv_defs_control.specs.Shown.{present, shown, shown_as, shown_state, shown_zone};
ghost use Rattle.chv_defs_control.specs.ApiStep.{reply_to};
ghost use Rattle.chv_defs_api.specs.declared.config.ZoneConfig.{ZoneConfig};
ghost use Rattle.chv_defs_api.specs.declared.control.ControlCall.TheVariants as call;
ghost use Rattle.chv_defs_api.specs.declared.shelf.OnShelf.{OnShelf};

use crate::life::{is_running, refuse};
use chv_defs_api::{Checked, ControlReply, Info, ShownState, ZoneConfig, ZoneInfo};
use chv_defs_base::{Row, Rule, copy_of};
use chv_defs_control::{Life, Machine};
use std::alloc::{AllocError, Global};

/// The answer to Info.
pub fn answer_info(alloc: Global, machine: &Machine) -> Result<ControlReply, AllocError>
    requires { IsWellFormed machine.now }
    ensures { IfOk result (λ reply. (shelf : List OnShelf) → reply ≡ reply_to shelf machine.now call.Info) }
{
    if machine.config.is_none() {
        return Ok(ControlReply::Ruled(Rule::NotCreated));
    }
    Ok(ControlReply::Shown(show(alloc, machine)?))
}

/// The answer to Counters. No disk is placed in a machine that runs, so that none is counted.
pub fn answer_counters(alloc: Global, machine: &Machine) -> ControlReply
    requires { IsWellFormed machine.now }
    ensures { (shelf : List OnShelf) → result ≡ reply_to shelf machine.now call.Counters }
{
    if is_running(machine.life) {
        return ControlReply::Counted(Row::empty(alloc));
    }
    refuse(machine, Rule::NotBooted)
}

/// What is shown of a machine that has a configuration.
pub fn show(alloc: Global, machine: &Machine) -> Result<Info, AllocError>
    requires formed { IsWellFormed machine.now }
    requires created { machine.now.config ≢ None }
    ensures { IfOk result (λ info. info ≡ shown machine.now) }
{
    match &machine.config {
        Some(checked) => show_as(alloc, state_of(machine.life), checked),
        None => unreachable!(),
    }
}

fn show_as(alloc: Global, state: ShownState, checked: &Checked) -> Result<Info, AllocError>
    requires sizes { sum_by (λ (zone : ZoneConfig). zone.size) checked.now.zones < 2 ^ 64 }
    requires vcpus { checked.now.config.cpus.boot ≤ 16 }
    ensures { IfOk result (λ info. info ≡ shown_as state checked.now) }
{
    Ok(Info {
        config: copy_of(&checked.config)?,
        devices: Row::empty(alloc),
        actual_size: total_size(checked.zones.as_slice()),
        state,
        vcpus: present(alloc, state, checked.config.cpus.boot)?,
        zones: zones_of(alloc, checked.zones.as_slice())?,
    })
}

// The vCPUs that are present in a state, where so many are present at boot.
fn present(alloc: Global, state: ShownState, boot: u64) -> Result<Row<u8>, AllocError>
    requires { boot ≤ 16 }
    ensures { IfOk result (λ vcpus. vcpus ≡ present state boot) }
{
    match state {
        ShownState::Running | ShownState::Paused => below(alloc, boot as u8),
        ShownState::Created | ShownState::Shutdown => Ok(Row::empty(alloc)),
    }
}

// The numbers below this one, ascending.
fn below(alloc: Global, count: u8) -> Result<Row<u8>, AllocError>
    ensures { IfOk result (λ numbers. numbers ≡ range_with_len 0 count) }
{
    let mut numbers = Row::empty(alloc);
    for number in 0..count {
        numbers.push(number)?;
    }
    Ok(numbers)
}

fn state_of(life: Life) -> ShownState
    ensures { result ≡ shown_state life }
{
    match life {
        Life::None | Life::Created => ShownState::Created,
        Life::Running | Life::Hold { .. } => ShownState::Running,
        Life::Paused => ShownState::Paused,
        Life::Shutdown => ShownState::Shutdown,
    }
}

fn total_size(zones: &[ZoneConfig]) -> u64
    requires { sum_by (λ (zone : ZoneConfig). zone.size) zones.now < 2 ^ 64 }
    ensures { result ≡ sum_by (λ (zone : ZoneConfig). zone.size) zones.now }
{
    zones.iter().map(|zone| zone.size).sum()
}

fn zones_of(alloc: Global, zones: &[ZoneConfig]) -> Result<Row<ZoneInfo>, AllocError>
    ensures { IfOk result (λ shown. shown ≡ map shown_zone zones.now) }
{
    let mut shown = Row::empty(alloc);
    for zone in zones {
        shown.push(zone_of(zone)?)?;
    }
    Ok(shown)
}

fn zone_of(zone: &ZoneConfig) -> Result<ZoneInfo, AllocError>
    ensures { IfOk result (λ info. info ≡ shown_zone zone.now) }
{
    Ok(ZoneInfo {
        id: zone.id.clone()?,
        plugged_size: 0,
        requested_size: zone.hotplugged,
    })
}

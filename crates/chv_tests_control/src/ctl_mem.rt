// What a boot and a delete do to the banks of all zones.
ghost use Rattle.chv_defs_control.specs.Machine.{HasChecked, IsWellFormed};
ghost use Rattle.chv_defs_control.specs.OwnerCalls.{zones_of};
ghost use Rattle.chv_defs_memory.specs.Zones.{most_zones, OtherZonesStay};
ghost use Rattle.chv_defs_memory.specs.declared.bank.BankCall.TheVariants as call;
ghost use Rattle.chv_defs_memory.specs.declared.bank.BankReply.TheVariants as reply;
ghost use Rattle.chv_defs_control.specs.declared.machine.Life.TheVariants as life;
ghost use Rattle.chv_guest.specs.LentBanks.{fresh_zones, known_at};
ghost use Rattle.std.specs.Prelude.{◌≡◌, ◌<◌, ℕ, [], ◌∷◌, true, length, IfOk};

use crate::ctl_api::nothing;
use chv_ctl_api::api_step;
use chv_ctl_mem::{boot_zones, wipe_all};
use chv_defs_api::{ControlCall, CpuConfig, Hotplug, MemConfig, OnShelf, VmConfig, ZoneConfig};
use chv_defs_base::{Row, Text};
use chv_defs_control::{Life, Machine};
use chv_defs_memory::{BankCall, BankEntry, BankReply, Zones};
use chv_guest::LentBanks;
use chv_tests_samples::plain_config;
use chv_tests_steps::step;
use std::alloc::{AllocError, Global};
use std::test::Fail;

// A zone of so many bytes, which does not grow.
fn zone(alloc: Global, id: &str, size: u64) -> Result<ZoneConfig, AllocError> {
    Ok(ZoneConfig {
        id: Text::of(alloc, id)?,
        size,
        hotplug: 0,
        hotplugged: 0,
    })
}

// A zone of 2 blocks and one of 3.
fn two_zones(alloc: Global) -> Result<Row<ZoneConfig>, AllocError> {
    let mut zones = Row::empty(alloc);
    zones.push(zone(alloc, "near", 4_194_304)?)?;
    zones.push(zone(alloc, "far", 6_291_456)?)?;
    Ok(zones)
}

// A configuration of two zones.
fn config_of_two(alloc: Global) -> Result<VmConfig, AllocError> {
    let zones = two_zones(alloc)?;
    Ok(VmConfig {
        cpus: CpuConfig { boot: 1, max: 1 },
        memory: MemConfig {
            size: 0,
            hotplug: 0,
            hotplugged: 0,
            way: Hotplug::Acpi,
            zones,
        },
        disks: Row::empty(alloc),
    })
}

// Creates a machine of this configuration.
fn create(
    alloc: Global,
    machine: &mut Machine,
    shelf: &Row<OnShelf>,
    config: VmConfig,
) -> Result<(), AllocError>
    requires { IsWellFormed machine.old }
    ensures { IsWellFormed machine.new }
{
    let create = ControlCall::Create(config);
    let reply = api_step(alloc, machine, 1, shelf, &create);
    drop(create);
    drop(reply?);
    Ok(())
}

// Whether an entry is a call of the owner, answered Done.
fn is_done_by_owner(entry: &BankEntry) -> bool {
    entry.caller == 0 && entry.reply == BankReply::Done
}

// Whether a history is one entry, by which the owner opened so many blocks. Of no blocks there is none.
fn is_shaped(history: &[BankEntry], blocks: u32) -> bool {
    match history {
        [] => blocks == 0,
        [entry] => is_done_by_owner(entry)
            && matches!(entry.call, BankCall::Shape(n) if n == blocks),
        _ => false,
    }
}

// Whether a history is one entry, by which the owner wiped the bank. Of a zone that is not in effect there is none.
fn is_wiped(history: &[BankEntry], is_in_effect: bool) -> bool {
    match history {
        [] => !is_in_effect,
        [entry] => is_in_effect && is_done_by_owner(entry) && matches!(entry.call, BankCall::Wipe),
        _ => false,
    }
}

// A boot opens the blocks of the zones in effect, and leaves the banks of other zones.
fn boot(machine: &Machine, zones: &mut LentBanks, first: u32, second: u32) -> Result<(), Fail>
    requires machine { IsWellFormed machine.now }
    requires zones { zones.old ≡ fresh_zones }
{
    step("boot: done", boot_zones((), machine, zones)?.is_ok())?;
    step(
        "boot: the first zone",
        is_shaped(zones.history(0, 0), first),
    )?;
    step(
        "boot: the second zone",
        is_shaped(zones.history(1, 0), second),
    )?;
    step(
        "boot: no entry in the third zone",
        zones.history(2, 0).is_empty(),
    )
}

// A wipe, as a machine that was created and never booted is deleted, is one entry there too.
fn wipe(machine: &Machine, zones: &mut LentBanks, has_second: bool) -> Result<(), Fail>
    requires machine { IsWellFormed machine.now }
    requires zones { zones.old ≡ fresh_zones }
{
    step("wipe: done", wipe_all((), machine, zones)?.is_ok())?;
    step("wipe: the first zone", is_wiped(zones.history(0, 0), true))?;
    step(
        "wipe: the second zone",
        is_wiped(zones.history(1, 0), has_second),
    )?;
    step(
        "wipe: no entry in the third zone",
        zones.history(2, 0).is_empty(),
    )
}

/// Makes room for so many entries in a zone.
pub fn has_room(zones: &mut LentBanks, zone: u8, entries: u32) -> Result<bool, AllocError>
    requires zone { zone < most_zones }
    requires home { zones.old.lent ≡ [] }
    requires fresh { known_at zones.old.books zone 0 ≡ record { history = []; entries = 0; pages = 0 } }
    ensures made { IfOk result (λ made. made ≡ true → known_at zones.new.books zone 0 ≡ record { history = []; entries = entries; pages = 0 }) }
    ensures home { zones.new.lent ≡ [] }
    ensures others { OtherZonesStay (known_at zones.old.books) (known_at zones.new.books) zone }
{
    Ok(zones.room((), zone, entries, 0)?.is_ok())
}

// Freezes a bank, where a place is left for its Thaw.
fn freeze(zones: &mut LentBanks, zone: u8)
    requires zone { zone < most_zones }
    requires home { zones.old.lent ≡ [] }
    requires room { known_at zones.old.books zone 0 ≡ record { history = []; entries = 2; pages = 0 } }
    ensures frozen { known_at zones.new.books zone 0 ≡ record {
      history = record { caller = 0; call = call.Freeze; reply = reply.Done } ∷ [];
      entries = 1;
      pages = 0;
    } }
    ensures home { zones.new.lent ≡ [] }
    ensures others { OtherZonesStay (known_at zones.old.books) (known_at zones.new.books) zone }
{
    drop(zones.owner((), zone, 0, &BankCall::Freeze));
}

// Freezes the banks of two zones.
fn freeze_two(zones: &mut LentBanks) -> Result<bool, AllocError>
    requires { zones.old ≡ fresh_zones }
    ensures home { zones.new.lent ≡ [] }
    ensures frozen { IfOk result (λ done. done ≡ true → (z : ℕ) → z < 2 → known_at zones.new.books z 0 ≡ record {
      history = record { caller = 0; call = call.Freeze; reply = reply.Done } ∷ [];
      entries = 1;
      pages = 0;
    }) }
{
    if !has_room(zones, 0, 2)? || !has_room(zones, 1, 2)? {
        return Ok(false);
    }
    freeze(zones, 0);
    freeze(zones, 1);
    Ok(true)
}

/// Whether two zones are in effect.
pub fn has_two_zones(machine: &Machine) -> bool
    ensures { result ≡ true → length (zones_of machine.now) ≡ 2 }
{
    match &machine.config {
        None => false,
        Some(checked) => checked.zones.len() == 2,
    }
}

// Whether a history is a Freeze, a Thaw and a Wipe, each done by the owner.
fn is_thawed(history: &[BankEntry]) -> bool {
    match history {
        [first, second, third] => {
            is_done_by_owner(first)
                && matches!(first.call, BankCall::Freeze)
                && is_done_by_owner(second)
                && matches!(second.call, BankCall::Thaw)
                && is_done_by_owner(third)
                && matches!(third.call, BankCall::Wipe)
        }
        _ => false,
    }
}

// Where a machine of two zones is paused, a wipe thaws their banks before.
fn wipe_paused(machine: &Machine, zones: &mut LentBanks) -> Result<(), Fail>
    requires checked { HasChecked machine.now.config }
    requires paused { machine.now.life ≡ life.Paused }
    requires zones { zones.old ≡ fresh_zones }
{
    step("paused: two zones", has_two_zones(machine))?;
    step("paused: freeze", freeze_two(zones)?)?;
    step("paused: done", wipe_all((), machine, zones)?.is_ok())?;
    step("paused: the first zone", is_thawed(zones.history(0, 0)))?;
    step("paused: the second zone", is_thawed(zones.history(1, 0)))?;
    step(
        "paused: no entry in the third zone",
        zones.history(2, 0).is_empty(),
    )
}

// A boot and a wipe of the plain machine, whose one zone has 512 MiB, each over one of these banks.
fn play_one(
    alloc: Global,
    machine: &mut Machine,
    first: &mut LentBanks,
    second: &mut LentBanks,
) -> Result<(), Fail>
    requires machine { IsWellFormed machine.old }
    requires first { first.old ≡ fresh_zones }
    requires second { second.old ≡ fresh_zones }
{
    let shelf = Row::empty(alloc);
    create(alloc, machine, &shelf, plain_config(alloc))?;
    boot(machine, first, 256, 0)?;
    wipe(machine, second, false)
}

#[test]
fn memory_at_a_boot_and_at_a_wipe(rt: HostRuntime) -> Result<(), Fail> {
    let mut first = LentBanks::new(rt.alloc())?;
    let mut second = LentBanks::new(rt.alloc())?;
    let mut machine = nothing(rt.alloc());
    let came = play_one(rt.alloc(), &mut machine, &mut first, &mut second);
    drop(machine);
    came
}

/// Creates a machine of two zones.
pub fn create_two(alloc: Global, machine: &mut Machine) -> Result<(), AllocError>
    requires { IsWellFormed machine.old }
    ensures { IsWellFormed machine.new }
{
    let config = config_of_two(alloc)?;
    let shelf = Row::empty(alloc);
    create(alloc, machine, &shelf, config)
}

// A boot and a wipe of a machine of two zones, and a wipe of it while it is paused, each over one of these banks.
fn play_two(
    alloc: Global,
    machine: &mut Machine,
    first: &mut LentBanks,
    second: &mut LentBanks,
    third: &mut LentBanks,
) -> Result<(), Fail>
    requires machine { IsWellFormed machine.old }
    requires first { first.old ≡ fresh_zones }
    requires second { second.old ≡ fresh_zones }
    requires third { third.old ≡ fresh_zones }
{
    create_two(alloc, machine)?;
    boot(machine, first, 2, 3)?;
    wipe(machine, second, true)?;
    machine.life = Life::Paused;
    wipe_paused(machine, third)
}

#[test]
fn memory_of_two_zones(rt: HostRuntime) -> Result<(), Fail> {
    let mut first = LentBanks::new(rt.alloc())?;
    let mut second = LentBanks::new(rt.alloc())?;
    let mut third = LentBanks::new(rt.alloc())?;
    let mut machine = nothing(rt.alloc());
    let came = play_two(
        rt.alloc(),
        &mut machine,
        &mut first,
        &mut second,
        &mut third,
    );
    drop(machine);
    came
}

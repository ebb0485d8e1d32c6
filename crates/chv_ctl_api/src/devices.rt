// Disks are added to a machine and removed from it; so far only one that is not booted has any.
ghost use Rattle.std.specs.Prelude.{◌≡◌, [], ◌∷◌, filter, length, not, ℕ, List, IfOk};
ghost use Rattle.std.specs.Str.{bytes_eq};
ghost use Rattle.chv_defs_api.specs.declared.control.ControlCall.TheVariants.{AddDisk, Remove};
ghost use Rattle.chv_defs_api.specs.declared.shelf.OnShelf.{OnShelf};
ghost use Rattle.chv_defs_control.specs.ApiStep.{after, has_devices, has_full_slots, has_id, is_booted, names_of, reply_to, with_new_disk, without_disk};
ghost use Rattle.chv_defs_api.specs.ConfigRules.{given_ids, grows, has_text, memory_device_id, memory_device_ids, with_disk};
ghost use Rattle.chv_ctl_api.specs.declared.decided.Change.TheVariants as change;
ghost use Rattle.chv_ctl_api.specs.ApiCalls.{disk_rule, place_rule};
ghost use Rattle.chv_ctl_api.specs.Changed.{changed, done_unless};

use crate::decided::{Change, Decided, done, refused};
use crate::shelf::names_of;
use chv_config::check_disk;
use chv_defs_api::{Checked, DiskConfig, OnShelf, ZoneConfig};
use chv_defs_base::{Row, Rule, SLOTS, Text, beside, copy_of};
use chv_defs_control::{Life, Machine};
use std::alloc::{AllocError, Global};
use std::mem;

/// What an AddDisk comes to.
pub fn decide_add_disk(
    alloc: Global,
    machine: &Machine,
    shelf: &Row<OnShelf>,
    disk: &DiskConfig,
) -> Result<Decided, AllocError>
    ensures reply { IfOk result (λ decided. decided.reply ≡ reply_to shelf.now machine.now (AddDisk disk.now)) }
    ensures change { IfOk result (λ decided. (caller : ℕ) → changed machine.now decided.change ≡ after machine.now caller (AddDisk disk.now) decided.reply) }
{
    match &machine.config {
        Some(checked) => decide_disk(alloc, shelf, checked, machine.life, disk),
        None => Ok(refused(Rule::NotCreated)),
    }
}

// What an AddDisk comes to, where there is a machine.
fn decide_disk(
    alloc: Global,
    shelf: &Row<OnShelf>,
    checked: &Checked,
    life: Life,
    disk: &DiskConfig,
) -> Result<Decided, AllocError>
    ensures { IfOk result (λ decided. decided
        ≡ done_unless (disk_rule (names_of shelf.now) checked.now life disk.now) (change.Reconfigured (with_new_disk checked.now disk.now))) }
{
    let names = names_of(alloc, shelf)?;
    match check_disk(alloc, checked, disk, &names)? {
        Ok(named) => place_disk(checked, life, named),
        Err(rule) => Ok(refused(rule)),
    }
}

// What the adding of a disk comes to that breaks no rule on disks, and has its id.
fn place_disk(checked: &Checked, life: Life, disk: DiskConfig) -> Result<Decided, AllocError>
    ensures { IfOk result (λ decided. decided ≡ done_unless (place_rule checked.now life) (change.Reconfigured (with_disk checked.now disk))) }
{
    match place_rule(checked, life) {
        None => Ok(done(Change::Reconfigured(with_disk(checked, disk)?))),
        Some(rule) => Ok(refused(rule)),
    }
}

// The rule by which no place is left for a further disk: all slots are used, or else the machine is booted.
fn place_rule(checked: &Checked, life: Life) -> Option<Rule>
    ensures { result ≡ place_rule checked.now life }
{
    if has_full_slots(checked) {
        return Some(Rule::SlotsFull);
    }
    if is_booted(life) {
        return Some(Rule::NotBuilt);
    }
    None
}

// Whether the machine is booted.
fn is_booted(life: Life) -> bool
    ensures { result ≡ is_booted life }
{
    matches!(life, Life::Running | Life::Hold { .. } | Life::Paused)
}

// Whether all slots would be used at boot.
fn has_full_slots(checked: &Checked) -> bool
    ensures { result ≡ has_full_slots checked.now }
{
    let growing = count_growing(checked.zones.as_slice());
    SLOTS <= growing || SLOTS - growing <= checked.config.disks.len()
}

/// Whether a configuration has a device.
pub fn has_devices(checked: &Checked) -> bool
    ensures { result ≡ has_devices checked.now }
{
    count_growing(checked.zones.as_slice()) > 0 || !checked.config.disks.is_empty()
}

fn count_growing(zones: &[ZoneConfig]) -> usize
    ensures { result ≡ length (filter grows zones.now) }
{
    zones.iter().filter(|zone| zone.hotplug > 0).count()
}

/// What a Remove comes to.
pub fn decide_remove(alloc: Global, machine: &Machine, id: &Text) -> Result<Decided, AllocError>
    ensures reply { IfOk result (λ decided. (shelf : List OnShelf) → decided.reply ≡ reply_to shelf machine.now (Remove id.now)) }
    ensures change { IfOk result (λ decided. (caller : ℕ) → changed machine.now decided.change ≡ after machine.now caller (Remove id.now) decided.reply) }
{
    let Some(checked) = &machine.config else {
        return Ok(refused(Rule::NotCreated));
    };
    if has_memory_device(checked.zones.as_slice(), id) {
        return Ok(refused(Rule::DeviceFixed));
    }
    if !has_disk(checked.config.disks.as_slice(), id) {
        return Ok(refused(Rule::DeviceUnknown));
    }
    Ok(done(Change::Reconfigured(without_disk(alloc, checked, id)?)))
}

// Whether the memory device of a zone has this id.
fn has_memory_device(zones: &[ZoneConfig], id: &Text) -> bool
    ensures { result ≡ has_text (memory_device_ids zones.now) id.now }
{
    zones
        .iter()
        .any(|zone| zone.hotplug > 0 && is_memory_device(zone, id))
}

fn is_memory_device(zone: &ZoneConfig, id: &Text) -> bool
    ensures { result ≡ bytes_eq id.now (memory_device_id zone.now) }
{
    match id.as_str().strip_prefix("_mem_") {
        Some(rest) => rest == zone.id.as_str(),
        None => false,
    }
}

// Whether a disk was given this id.
fn has_disk(disks: &[DiskConfig], id: &Text) -> bool
    ensures { result ≡ has_text (given_ids disks.now) id.now }
{
    disks.iter().any(|disk| is_given(disk, id))
}

fn is_given(disk: &DiskConfig, id: &Text) -> bool
    ensures { result ≡ has_text (given_ids (disk.now ∷ [])) id.now }
{
    match &disk.id {
        Some(given) => given == id,
        None => false,
    }
}

/// A copy of a configuration.
pub fn copied(checked: &Checked) -> Result<Checked, AllocError>
    ensures { IfOk result (λ copy. copy ≡ checked.now) }
{
    let zones = copy_of(&checked.zones)?;
    let (config, zones) = beside(copy_of(&checked.config), zones)?;
    Ok(Checked { config, zones })
}

// A configuration with one disk more.
fn with_disk(checked: &Checked, disk: DiskConfig) -> Result<Checked, AllocError>
    ensures { IfOk result (λ more. more ≡ with_disk checked.now disk) }
{
    let (mut more, disk) = beside(copied(checked), disk)?;
    more.config.disks.push(disk)?;
    Ok(more)
}

// A configuration without the disk of this id.
fn without_disk(alloc: Global, checked: &Checked, id: &Text) -> Result<Checked, AllocError>
    ensures { IfOk result (λ fewer. fewer ≡ without_disk checked.now id.now) }
{
    let mut fewer = copied(checked)?;
    keep_others(alloc, &mut fewer.config.disks, id);
    Ok(fewer)
}

// Keeps the disks of other ids.
fn keep_others(alloc: Global, disks: &mut Row<DiskConfig>, id: &Text)
    ensures { disks.new ≡ filter (λ disk. not (has_id id.now disk)) disks.old }
{
    let mut kept = mem::replace(disks, Row::empty(alloc)).into_vec();
    kept.retain(|disk| !has_id(disk, id));
    *disks = Row::new(kept);
}

fn has_id(disk: &DiskConfig, id: &Text) -> bool
    ensures { result ≡ has_id id.now disk.now }
{
    match &disk.id {
        Some(own) => own == id,
        None => id.as_str().is_empty(),
    }
}

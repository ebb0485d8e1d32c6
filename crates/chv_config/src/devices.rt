// The rules on disks and devices.
ghost use Rattle.std.specs.Prelude.{◌≡◌, IfOk, false};
ghost use Rattle.std.specs.Option.{option_map_or};
ghost use Rattle.chv_defs_api.specs.ConfigRules.{device_id_bad, device_id_twice, device_ids, device_rules, disk_name, disk_twice, disk_unknown, first_broken, further_disk_rules, has_text, queue_shape, too_many_devices};

use crate::disks::{disk_name, disk_names, has_bad_id, has_odd_queue, texts_of};
use crate::ids::known_ids;
use crate::memory::{growing_zones, zones_in_effect};
use crate::texts::{are_among, has_text, has_twice};
use chv_defs_api::{Checked, DiskConfig, VmConfig};
use chv_defs_base::{Name, Row, Rule, SLOTS, Text};
use std::alloc::{AllocError, Global};

/// The first rule on disks and devices that a configuration breaks, where disks of these names stand by.
pub fn device_rule(
    alloc: Global,
    config: &VmConfig,
    names: &Row<Name>,
) -> Result<Option<Rule>, AllocError>
    ensures { IfOk result (λ rule. rule ≡ first_broken (device_rules names.now config.now)) }
{
    if has_unknown_disk(alloc, config, names)? {
        return Ok(Some(Rule::DiskUnknown));
    }
    if has_disk_twice(alloc, config)? {
        return Ok(Some(Rule::DiskTwice));
    }
    if has_bad_device_id(config) {
        return Ok(Some(Rule::DeviceIdBad));
    }
    if has_device_id_twice(alloc, config)? {
        return Ok(Some(Rule::DeviceIdTwice));
    }
    if has_queue_shape(config) {
        return Ok(Some(Rule::QueueShape));
    }
    if has_too_many_devices(config) {
        return Ok(Some(Rule::TooManyDevices));
    }
    Ok(None)
}

fn has_unknown_disk(alloc: Global, config: &VmConfig, names: &Row<Name>) -> Result<bool, AllocError>
    ensures { IfOk result (λ unknown. unknown ≡ disk_unknown names.now config.now) }
{
    let wanted = disk_names(alloc, config.disks.as_slice())?;
    let all = are_among(alloc, wanted.as_slice(), texts_of(alloc, names)?)?;
    Ok(!all)
}

fn has_disk_twice(alloc: Global, config: &VmConfig) -> Result<bool, AllocError>
    ensures { IfOk result (λ twice. twice ≡ disk_twice config.now) }
{
    has_twice(alloc, disk_names(alloc, config.disks.as_slice())?)
}

fn has_bad_device_id(config: &VmConfig) -> bool
    ensures { result ≡ device_id_bad config.now }
{
    config.disks.as_slice().iter().any(|disk| has_bad_id(disk))
}

fn has_device_id_twice(alloc: Global, config: &VmConfig) -> Result<bool, AllocError>
    ensures { IfOk result (λ twice. twice ≡ device_id_twice config.now) }
{
    let zones = zones_in_effect(alloc, &config.memory)?;
    has_twice(
        alloc,
        known_ids(alloc, zones.as_slice(), config.disks.as_slice())?,
    )
}

fn has_queue_shape(config: &VmConfig) -> bool
    ensures { result ≡ queue_shape config.now }
{
    config
        .disks
        .as_slice()
        .iter()
        .any(|disk| has_odd_queue(disk))
}

fn has_too_many_devices(config: &VmConfig) -> bool
    ensures { result ≡ too_many_devices config.now }
{
    let growing = growing_zones(&config.memory);
    growing > SLOTS || config.disks.len() > SLOTS - growing
}

/// The first rule that one further disk breaks, beside a configuration that is kept.
pub fn further_disk_rule(
    alloc: Global,
    now: &Checked,
    ids: &[Text],
    disk: &DiskConfig,
    names: &Row<Name>,
) -> Result<Option<Rule>, AllocError>
    requires { ids.now ≡ device_ids now.now }
    ensures { IfOk result (λ rule. rule ≡ first_broken (further_disk_rules names.now now.now disk.now)) }
{
    let name = disk_name(alloc, disk)?;
    if !has_text(texts_of(alloc, names)?.as_slice(), &name) {
        return Ok(Some(Rule::DiskUnknown));
    }
    if has_text(
        disk_names(alloc, now.config.disks.as_slice())?.as_slice(),
        &name,
    ) {
        return Ok(Some(Rule::DiskTwice));
    }
    if has_bad_id(disk) {
        return Ok(Some(Rule::DeviceIdBad));
    }
    if is_id_used(ids, disk) {
        return Ok(Some(Rule::DeviceIdTwice));
    }
    if has_odd_queue(disk) {
        return Ok(Some(Rule::QueueShape));
    }
    Ok(None)
}

fn is_id_used(ids: &[Text], disk: &DiskConfig) -> bool
    ensures { result ≡ option_map_or (has_text ids.now) disk.now.id false }
{
    match &disk.id {
        Some(id) => has_text(ids, id),
        None => false,
    }
}

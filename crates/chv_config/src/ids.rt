// The ids of devices: the given ones, and the default ones.
ghost use Rattle.std.specs.Prelude.{◌≡◌, ◌++◌, [], ◌∷◌, IfOk, OnOk};
ghost use Rattle.chv_defs_api.specs.ConfigRules.{default_id, given_ids, id_beside, ids_of, lowest_free, memory_device_id, memory_device_ids, with_id, with_ids};

use crate::texts::has_text;
use chv_defs_api::{DiskConfig, ZoneConfig};
use chv_defs_base::{Row, Text, copy_of};
use std::alloc::{AllocError, Global};

/// The ids of devices that are known: those of the memory devices, then those that disks are given.
pub fn known_ids(
    alloc: Global,
    zones: &[ZoneConfig],
    disks: &[DiskConfig],
) -> Result<Vec<Text>, AllocError>
    ensures { IfOk result (λ ids. ids.items ≡ ids_of zones.now disks.now) }
{
    let mut ids = memory_device_ids(alloc, zones)?;
    push_given_ids(&mut ids, disks)?;
    Ok(ids)
}

fn memory_device_ids(alloc: Global, zones: &[ZoneConfig]) -> Result<Vec<Text>, AllocError>
    ensures { IfOk result (λ ids. ids.items ≡ memory_device_ids zones.now) }
{
    let mut ids = Vec::new(alloc);
    for zone in zones {
        if zone.hotplug > 0 {
            ids.push(memory_device_id(alloc, zone)?)?;
        }
    }
    Ok(ids)
}

fn memory_device_id(alloc: Global, zone: &ZoneConfig) -> Result<Text, AllocError>
    ensures { IfOk result (λ id. id ≡ memory_device_id zone.now) }
{
    Ok(Text::new(format!(in alloc; "_mem_{}", zone.id.as_str())?))
}

fn push_given_ids(ids: &mut Vec<Text>, disks: &[DiskConfig]) -> Result<(), AllocError>
    ensures { OnOk result (ids.new.items ≡ ids.old.items ++ given_ids disks.now) }
{
    for disk in disks {
        if let Some(id) = &disk.id {
            ids.push(copy_of(id)?)?;
        }
    }
    Ok(())
}

/// Disks in order, each with its id set beside devices with these ids and the disks before it.
pub fn with_ids(
    alloc: Global,
    mut ids: Vec<Text>,
    disks: &[DiskConfig],
) -> Result<Row<DiskConfig>, AllocError>
    ensures { IfOk result (λ named. named ≡ with_ids ids.items disks.now) }
{
    let mut named = Row::empty(alloc);
    for disk in disks {
        push_named(alloc, &mut ids, &mut named, disk)?;
    }
    Ok(named)
}

// Adds a disk behind those that are named, with its id set beside devices with these ids, and its id behind theirs.
fn push_named(
    alloc: Global,
    ids: &mut Vec<Text>,
    named: &mut Row<DiskConfig>,
    disk: &DiskConfig,
) -> Result<(), AllocError>
    ensures ids { OnOk result (ids.new.items ≡ ids.old.items ++ id_beside ids.old.items disk.now ∷ []) }
    ensures named { OnOk result (named.new ≡ named.old ++ with_id ids.old.items disk.now ∷ []) }
{
    let id = id_beside(alloc, ids.as_slice(), disk)?;
    ids.push(copy_of(&id)?)?;
    named.push(disk_with(disk, id)?)
}

/// A disk with its id set beside devices with these ids.
pub fn with_id(alloc: Global, ids: &[Text], disk: &DiskConfig) -> Result<DiskConfig, AllocError>
    ensures { IfOk result (λ named. named ≡ with_id ids.now disk.now) }
{
    let id = id_beside(alloc, ids, disk)?;
    disk_with(disk, id)
}

fn disk_with(disk: &DiskConfig, id: Text) -> Result<DiskConfig, AllocError>
    ensures { IfOk result (λ named. named ≡ record disk.now { id = Some id }) }
{
    Ok(DiskConfig {
        path: copy_of(&disk.path)?,
        id: Some(id),
        readonly: disk.readonly,
        queues: disk.queues,
        queue_size: disk.queue_size,
    })
}

fn id_beside(alloc: Global, ids: &[Text], disk: &DiskConfig) -> Result<Text, AllocError>
    ensures { IfOk result (λ id. id ≡ id_beside ids.now disk.now) }
{
    match &disk.id {
        Some(id) => copy_of(id),
        None => free_id(alloc, ids),
    }
}

fn free_id(alloc: Global, ids: &[Text]) -> Result<Text, AllocError>
    ensures { IfOk result (λ id. id ≡ default_id (lowest_free ids.now)) }
{
    for k in 0..ids.len() {
        let id = default_id(alloc, k)?;
        if !has_text(ids, &id) {
            return Ok(id);
        }
    }
    default_id(alloc, ids.len())
}

fn default_id(alloc: Global, k: usize) -> Result<Text, AllocError>
    ensures { IfOk result (λ id. id ≡ default_id k) }
{
    Ok(Text::new(format!(in alloc; "_disk{k}")?))
}

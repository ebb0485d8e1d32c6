// A configuration, read from a JSON value.
ghost use Rattle.std.specs.Prelude.{◌≡◌};
ghost use Rattle.serde_json.specs.View.{view};
ghost use Rattle.chv_defs_api.specs.JsonBodies.{cpus_in, zone_in, memory_in};
ghost use Rattle.chv_defs_api.specs.JsonBodies.{disk_in, empty_object, config_in};
ghost use Rattle.chv_json.specs.Gives.{Gives};

use crate::fields::{
    an_object, bool_or, method_or, object_or, text, text_given, whole, whole_given, whole_or,
};
use crate::from_json::{FromJson, list_of};
use crate::refused::Refused;
use chv_defs_api::{CpuConfig, DiskConfig, Hotplug, MemConfig, VmConfig, ZoneConfig};
use chv_defs_base::{Row, Rule};
use serde_json::{Map, Value};
use std::alloc::Global;

/// The memory's size where none is given and there are no zones: 512 MiB.
const DEFAULT_SIZE: u64 = 536870912;

fn cpus(object: &Value) -> Result<CpuConfig, Rule>
    ensures { result ≡ cpus_in (view object.now) }
{
    let boot = whole_or(object, "boot_vcpus", 1)?;
    let max = whole_or(object, "max_vcpus", boot)?;
    Ok(CpuConfig { boot, max })
}

fn memory(alloc: Global, object: &Value) -> Result<MemConfig, Refused>
    ensures { Gives (λ x. x) result (memory_in (view object.now)) }
{
    let size = whole_given(object, "size")?;
    let hotplug = whole_or(object, "hotplug_size", 0)?;
    let hotplugged = whole_or(object, "hotplugged_size", 0)?;
    let way = method_or(object, "hotplug_method", Hotplug::Acpi)?;
    let zones: Row<ZoneConfig> = list_of(alloc, object, "zones")?;
    let default = if zones.is_empty() { DEFAULT_SIZE } else { 0 };
    Ok(MemConfig {
        size: size.unwrap_or(default),
        hotplug,
        hotplugged,
        way,
        zones,
    })
}

impl FromJson for ZoneConfig {
    ghost meaning = { zone_in };

    fn from_json(alloc: Global, value: &Value) -> Result<ZoneConfig, Refused> {
        let zone = an_object(value)?;
        let id = text(alloc, zone, "id")?;
        let size = whole(zone, "size")?;
        let hotplug = whole_or(zone, "hotplug_size", 0)?;
        let hotplugged = whole_or(zone, "hotplugged_size", 0)?;
        Ok(ZoneConfig {
            id,
            size,
            hotplug,
            hotplugged,
        })
    }
}

impl FromJson for DiskConfig {
    ghost meaning = { disk_in };

    fn from_json(alloc: Global, value: &Value) -> Result<DiskConfig, Refused> {
        let disk = an_object(value)?;
        let path = text(alloc, disk, "path")?;
        let id = text_given(alloc, disk, "id")?;
        let readonly = bool_or(disk, "readonly", false)?;
        let queues = whole_or(disk, "num_queues", 1)?;
        let queue_size = whole_or(disk, "queue_size", 128)?;
        Ok(DiskConfig {
            path,
            id,
            readonly,
            queues,
            queue_size,
        })
    }
}

// `empty` is an object without a key, which stands for one that is absent.
fn config(alloc: Global, value: &Value, empty: &Value) -> Result<VmConfig, Refused>
    requires { view empty.now ≡ empty_object }
    ensures { Gives (λ x. x) result (config_in (view value.now)) }
{
    let config = an_object(value)?;
    let cpus = cpus(object_or(config, "cpus", empty)?)?;
    let memory = memory(alloc, object_or(config, "memory", empty)?)?;
    let disks = list_of(alloc, config, "disks")?;
    Ok(VmConfig {
        cpus,
        memory,
        disks,
    })
}

impl FromJson for VmConfig {
    ghost meaning = { config_in };

    fn from_json(alloc: Global, value: &Value) -> Result<VmConfig, Refused> {
        config(alloc, value, &Value::Object(Map::new(alloc)))
    }
}

// A configuration as a JSON value. An object of serde_json keeps its keys in byte order.
ghost use Rattle.std.specs.Prelude.{◌≡◌, IfOk, ◌∷◌, [], codes};
ghost use Rattle.serde_json.specs.Data.{boolean, string};
ghost use Rattle.serde_json.specs.View.{members_view};
ghost use Rattle.chv_defs_api.specs.JsonTexts.{members_of, whole, method_value, cpus_value};
ghost use Rattle.chv_defs_api.specs.JsonTexts.{zone_value, memory_value, disk_value, config_value};

use crate::to_json::{ToJson, with, with_all};
use chv_defs_api::{CpuConfig, DiskConfig, Hotplug, MemConfig, VmConfig, ZoneConfig};
use serde_json::{Map, Value};
use std::alloc::{AllocError, Global};

fn hotplug_name(way: Hotplug) -> &'static str
    ensures { string result.now ≡ method_value way }
{
    match way {
        Hotplug::Acpi => "Acpi",
        Hotplug::VirtioMem => "VirtioMem",
    }
}

impl ToJson for Hotplug {
    ghost json = { method_value };

    fn to_json(&self, alloc: Global) -> Result<Value, AllocError> {
        Value::try_from_str(alloc, hotplug_name(*self))
    }
}

impl ToJson for CpuConfig {
    ghost json = { cpus_value };

    fn to_json(&self, alloc: Global) -> Result<Value, AllocError> {
        let object = Map::new(alloc);
        let object = with(object, alloc, "boot_vcpus", &self.boot)?;
        let object = with(object, alloc, "max_vcpus", &self.max)?;
        Ok(Value::Object(object))
    }
}

impl ToJson for ZoneConfig {
    ghost json = { zone_value };

    fn to_json(&self, alloc: Global) -> Result<Value, AllocError> {
        let object = Map::new(alloc);
        let object = with(object, alloc, "hotplug_size", &self.hotplug)?;
        let object = with(object, alloc, "hotplugged_size", &self.hotplugged)?;
        let object = with(object, alloc, "id", &self.id)?;
        let object = with(object, alloc, "size", &self.size)?;
        Ok(Value::Object(object))
    }
}

impl ToJson for MemConfig {
    ghost json = { memory_value };

    fn to_json(&self, alloc: Global) -> Result<Value, AllocError> {
        let object = Map::new(alloc);
        let object = with(object, alloc, "hotplug_method", &self.way)?;
        let object = with(object, alloc, "hotplug_size", &self.hotplug)?;
        let object = with(object, alloc, "hotplugged_size", &self.hotplugged)?;
        let object = with(object, alloc, "size", &self.size)?;
        let object = with_all(object, alloc, "zones", self.zones.as_slice())?;
        Ok(Value::Object(object))
    }
}

// The members that every disk has.
fn disk_members(alloc: Global, disk: &DiskConfig) -> Result<Map<String, Value>, AllocError>
    ensures { IfOk result (λ m. members_view m.entries ≡ members_of ((codes "num_queues", whole disk.now.queues) ∷ (codes "path", string disk.now.path) ∷ (codes "queue_size", whole disk.now.queue_size) ∷ (codes "readonly", boolean disk.now.readonly) ∷ [])) }
{
    let object = Map::new(alloc);
    let object = with(object, alloc, "num_queues", &disk.queues)?;
    let object = with(object, alloc, "path", &disk.path)?;
    let object = with(object, alloc, "queue_size", &disk.queue_size)?;
    let object = with(object, alloc, "readonly", &disk.readonly)?;
    Ok(object)
}

impl ToJson for DiskConfig {
    ghost json = { disk_value };

    fn to_json(&self, alloc: Global) -> Result<Value, AllocError> {
        let object = disk_members(alloc, self)?;
        let object = match &self.id {
            Some(id) => with(object, alloc, "id", id)?,
            None => object,
        };
        Ok(Value::Object(object))
    }
}

impl ToJson for VmConfig {
    ghost json = { config_value };

    fn to_json(&self, alloc: Global) -> Result<Value, AllocError> {
        let object = Map::new(alloc);
        let object = with(object, alloc, "cpus", &self.cpus)?;
        let object = with_all(object, alloc, "disks", self.disks.as_slice())?;
        let object = with(object, alloc, "memory", &self.memory)?;
        Ok(Value::Object(object))
    }
}

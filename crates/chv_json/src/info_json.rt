// What vm.info and vm.counters show, as JSON values.
ghost use Rattle.std.specs.Prelude.{◌≡◌, IfOk, string_bytes, ◌<◌};
ghost use Rattle.serde_json.specs.Data.{no_members, string};
ghost use Rattle.serde_json.specs.View.{view};
ghost use Rattle.chv_defs_api.specs.JsonTexts.{bdf_text, device_value, zone_info_value};
ghost use Rattle.chv_defs_api.specs.JsonTexts.{state_value, info_value, count_value, counters_value};

use crate::to_json::{ToJson, with, with_all, with_value};
use chv_defs_api::{CountOf, DeviceInfo, DiskCount, Info, ShownState, ZoneInfo};
use serde_json::{Map, Value};
use std::alloc::{AllocError, Global};

fn bdf(alloc: Global, slot: u8) -> Result<String, AllocError>
    ensures { IfOk result (λ s. string_bytes s ≡ bdf_text slot) }
{
    format!(in alloc; "0000:00:{slot:02x}.0")
}

impl ToJson for DeviceInfo {
    ghost json = { device_value };

    fn to_json(&self, alloc: Global) -> Result<Value, AllocError> {
        let bdf = Value::String(bdf(alloc, self.slot)?);
        let object = Map::new(alloc);
        let object = with_value(object, alloc, "bdf", bdf)?;
        let object = with(object, alloc, "id", &self.id)?;
        Ok(Value::Object(object))
    }
}

impl ToJson for ZoneInfo {
    ghost json = { zone_info_value };

    fn to_json(&self, alloc: Global) -> Result<Value, AllocError> {
        let object = Map::new(alloc);
        let object = with(object, alloc, "id", &self.id)?;
        let object = with(object, alloc, "plugged_size", &self.plugged_size)?;
        let object = with(object, alloc, "requested_size", &self.requested_size)?;
        Ok(Value::Object(object))
    }
}

fn state_name(state: ShownState) -> &'static str
    ensures { string result.now ≡ state_value state }
{
    match state {
        ShownState::Created => "Created",
        ShownState::Running => "Running",
        ShownState::Paused => "Paused",
        ShownState::Shutdown => "Shutdown",
    }
}

impl ToJson for ShownState {
    ghost json = { state_value };

    fn to_json(&self, alloc: Global) -> Result<Value, AllocError> {
        Value::try_from_str(alloc, state_name(*self))
    }
}

impl ToJson for Info {
    ghost json = { info_value };

    fn to_json(&self, alloc: Global) -> Result<Value, AllocError> {
        let object = Map::new(alloc);
        let object = with(object, alloc, "config", &self.config)?;
        let object = with_all(object, alloc, "devices", self.devices.as_slice())?;
        let object = with(object, alloc, "memory_actual_size", &self.actual_size)?;
        let object = with(object, alloc, "state", &self.state)?;
        let object = with_all(object, alloc, "vcpus", self.vcpus.as_slice())?;
        let object = with_all(object, alloc, "zones", self.zones.as_slice())?;
        Ok(Value::Object(object))
    }
}

impl ToJson for DiskCount {
    ghost json = { count_value };

    fn to_json(&self, alloc: Global) -> Result<Value, AllocError> {
        let object = Map::new(alloc);
        let object = with(object, alloc, "read_bytes", &self.read_bytes)?;
        let object = with(object, alloc, "read_ops", &self.reads)?;
        let object = with(object, alloc, "write_bytes", &self.write_bytes)?;
        let object = with(object, alloc, "write_ops", &self.writes)?;
        Ok(Value::Object(object))
    }
}

/// An object from each disk to what it has done.
pub(crate) fn counters(alloc: Global, counts: &[CountOf]) -> Result<Value, AllocError>
    ensures { IfOk result (λ v. view v ≡ counters_value counts.now) }
{
    let mut members = Map::new(alloc);
    for count in counts {
        members = with(members, alloc, count.id.as_str(), &count.count)?;
    }
    Ok(Value::Object(members))
}

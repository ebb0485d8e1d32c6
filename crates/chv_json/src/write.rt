// The texts that are written.
ghost use Rattle.std.specs.Prelude.{◌≡◌, ◌≤◌, IfOk, Ok, false};
ghost use Rattle.serde_json.specs.Data.{depth};
ghost use Rattle.serde_json.specs.Read.{max_depth};
ghost use Rattle.serde_json.specs.View.{view};
ghost use Rattle.serde_json.specs.Written.{compact_text, has_float};
ghost use Rattle.chv_defs_api.specs.JsonBodies as bodies;
ghost use Rattle.chv_defs_api.specs.JsonTexts as texts;
ghost use Rattle.chv_defs_api.specs.JsonTexts.{quoted};

use crate::info_json::counters;
use crate::to_json::ToJson;
use chv_defs_api::{CountOf, DeviceInfo, DiskConfig, Info, VmConfig};
use chv_defs_base::{Row, Text};
use serde_json::Value;
use std::alloc::{AllocError, Global};

// The compact text of a value. As a body it means that value, where this has no more levels than a body may have.
#[tactic(auto, using(crate::proofs::Spelled::text_means))]
fn compact(alloc: Global, value: Value) -> Result<Text, AllocError>
    requires { has_float (view value) ≡ false }
    ensures text { IfOk result (λ t. t ≡ compact_text (view value)) }
    ensures reads_back { IfOk result (λ t. depth (view value) ≤ max_depth → bodies.value_of t ≡ Ok (view value)) }
{
    Ok(Text::new(value.to_string(alloc)?))
}

/// A text as a JSON string (RFC 8259, 7).
pub fn quoted_text(alloc: Global, text: &str) -> Result<Text, AllocError>
    ensures { IfOk result (λ t. t ≡ quoted text.now) }
{
    compact(alloc, Value::String(String::from_str(alloc, text)?))
}

/// The text of a configuration, as `vm.create` takes it and `vm.info` shows it. As a body it means that configuration.
#[tactic(auto, using(crate::proofs::Floatless::floatless_config, crate::proofs::Levels::config_means), unfolding(chv_defs_api::specs::JsonTexts::config_text))]
pub fn config_text(alloc: Global, config: &VmConfig) -> Result<Text, AllocError>
    ensures text { IfOk result (λ t. t ≡ texts.config_text config.now) }
    ensures reads_back { IfOk result (λ t. bodies.config_of t ≡ Ok config.now) }
{
    compact(alloc, config.to_json(alloc)?)
}

/// The text of a disk, as `vm.add-disk` takes it. As a body it means that disk.
#[tactic(auto, using(crate::proofs::Floatless::floatless_disk, crate::proofs::Levels::disk_means), unfolding(chv_defs_api::specs::JsonTexts::disk_text))]
pub fn disk_text(alloc: Global, disk: &DiskConfig) -> Result<Text, AllocError>
    ensures text { IfOk result (λ t. t ≡ texts.disk_text disk.now) }
    ensures reads_back { IfOk result (λ t. bodies.disk_of t ≡ Ok disk.now) }
{
    compact(alloc, disk.to_json(alloc)?)
}

/// The text of a device and its PCI address, which answers a disk that was added to a machine that
/// is booted.
pub fn device_text(alloc: Global, device: &DeviceInfo) -> Result<Text, AllocError>
    ensures { IfOk result (λ t. t ≡ texts.device_text device.now) }
{
    compact(alloc, device.to_json(alloc)?)
}

/// The text that `vm.info` shows.
#[tactic(auto, using(crate::proofs::Floatless::floatless_info), unfolding(chv_defs_api::specs::JsonTexts::info_text))]
pub fn info_text(alloc: Global, info: &Info) -> Result<Text, AllocError>
    ensures { IfOk result (λ t. t ≡ texts.info_text info.now) }
{
    compact(alloc, info.to_json(alloc)?)
}

/// The text that `vm.counters` shows: of each disk what it has done. Ids are distinct.
#[tactic(auto, using(crate::proofs::Floatless::floatless_counters), unfolding(chv_defs_api::specs::JsonTexts::counters_text))]
pub fn counters_text(alloc: Global, counts: &Row<CountOf>) -> Result<Text, AllocError>
    ensures { IfOk result (λ t. t ≡ texts.counters_text counts.now) }
{
    compact(alloc, counters(alloc, counts.as_slice())?)
}

// The resizing of a machine: refused by its rules, and else, where it runs, as not built.
ghost use Rattle.std.specs.Prelude.{◌≡◌, ◌∷◌, [], ◌&&◌, true, not, List, Some, is_some, find};
ghost use Rattle.std.specs.Option.{option_copied};
ghost use Rattle.std.specs.Str.{bytes_eq};
ghost use Rattle.chv_defs_api.specs.declared.config.ZoneConfig.{ZoneConfig};
ghost use Rattle.chv_defs_api.specs.declared.control.ControlCall.TheVariants.{Resize, ResizeZone};
ghost use Rattle.chv_defs_base.specs.declared.rule.Rule.TheVariants.{ByZone, NotBuilt, RamRange, VcpuCount, ZoneUnknown};
ghost use Rattle.chv_defs_api.specs.declared.shelf.OnShelf.{OnShelf};
ghost use Rattle.chv_defs_control.specs.Machine.{IsWellFormed};
ghost use Rattle.chv_defs_control.specs.ApiStep.{is_bad_vcpu_count, is_given_and, is_out_of_range, is_zone_out_of_range, reply_to, zone_named};
ghost use Rattle.chv_defs_api.specs.ConfigRules.{first_broken, has_zones, own_zone};

use crate::life::{is_running, refuse};
use chv_defs_api::{Checked, ControlReply, ZoneConfig};
use chv_defs_base::{BLOCK_BYTES, Rule, Text};
use chv_defs_control::Machine;

/// The answer to a Resize; `ram` is in bytes.
pub fn answer_resize(machine: &Machine, vcpus: Option<u64>, ram: Option<u64>) -> ControlReply
    requires { IsWellFormed machine.now }
    ensures { (shelf : List OnShelf) → result ≡ reply_to shelf machine.now (Resize vcpus ram) }
{
    match &machine.config {
        Some(checked) if is_running(machine.life) => {
            ControlReply::Ruled(resize_rule(checked, vcpus, ram))
        }
        _ => refuse(machine, Rule::NotBooted),
    }
}

// The first rule by which a machine that runs is not resized.
fn resize_rule(checked: &Checked, vcpus: Option<u64>, ram: Option<u64>) -> Rule
    ensures { first_broken ((is_given_and vcpus (is_bad_vcpu_count checked.now), VcpuCount)
        ∷ (is_some ram && has_zones checked.now.config.memory, ByZone)
        ∷ (is_given_and ram (is_out_of_range (own_zone checked.now.config.memory)), RamRange)
        ∷ (true, NotBuilt)
        ∷ []) ≡ Some result }
{
    let max = checked.config.cpus.max;
    let memory = &checked.config.memory;
    if matches!(vcpus, Some(count) if count == 0 || count > max) {
        return Rule::VcpuCount;
    }
    let Some(ram) = ram else {
        return Rule::NotBuilt;
    };
    if !memory.zones.is_empty() {
        return Rule::ByZone;
    }
    if is_out_of_range(memory.size, memory.hotplug, ram) {
        return Rule::RamRange;
    }
    Rule::NotBuilt
}

// Whether a zone with these bytes of boot memory and of memory that can be plugged cannot have so many.
fn is_out_of_range(size: u64, hotplug: u64, ram: u64) -> bool
    ensures { result ≡ is_out_of_range (record { id = []; size = size; hotplug = hotplug; hotplugged = 0 }) ram }
{
    ram < size || ram - size > hotplug || ram % BLOCK_BYTES != 0
}

/// The answer to a ResizeZone; `ram` is in bytes.
pub fn answer_resize_zone(machine: &Machine, id: &Text, ram: u64) -> ControlReply
    requires { IsWellFormed machine.now }
    ensures { (shelf : List OnShelf) → result ≡ reply_to shelf machine.now (ResizeZone id.now ram) }
{
    match &machine.config {
        Some(checked) if is_running(machine.life) => {
            ControlReply::Ruled(resize_zone_rule(checked, id, ram))
        }
        _ => refuse(machine, Rule::NotBooted),
    }
}

// The first rule by which a zone of a machine that runs is not resized.
fn resize_zone_rule(checked: &Checked, id: &Text, ram: u64) -> Rule
    ensures { first_broken ((not (is_some (zone_named checked.now id.now)), ZoneUnknown)
        ∷ (is_zone_out_of_range (zone_named checked.now id.now) ram, RamRange)
        ∷ (true, NotBuilt)
        ∷ []) ≡ Some result }
{
    match zone_named(checked.config.memory.zones.as_slice(), id) {
        None => Rule::ZoneUnknown,
        Some(zone) if is_out_of_range(zone.size, zone.hotplug, ram) => Rule::RamRange,
        Some(_) => Rule::NotBuilt,
    }
}

// The zone of this id.
fn zone_named<'a>(zones: &'a [ZoneConfig], id: &Text) -> Option<&'a ZoneConfig>
    ensures { option_copied result ≡ find (λ (zone : ZoneConfig). bytes_eq zone.id id.now) zones.now }
{
    zones.iter().find(|zone| zone.id == *id)
}

// The rules on memory.
ghost use Rattle.std.specs.Prelude.{◌≡◌, ◌==◌, ◌+◌, ◌*◌, ◌^◌, ◌&&◌, ◌||◌, Bool, nat_lt, not, map, filter, length, IfOk};
ghost use Rattle.std.specs.List.{list_any};
ghost use Rattle.chv_defs_api.specs.ConfigRules.{first_broken, grows, has_zones, hotplugged_above, is_acpi, is_unaligned, memory_rules, size_unaligned, size_zero, too_many_zones, way_acpi, way_for_zones, zone_id_bad, zone_id_twice, zone_too_large, zones_in_effect, zones_need_size_zero, zones_own_hotplug};
ghost use Rattle.chv_defs_base.specs.Id.{is_id};

use crate::texts::{has_twice, is_id};
use chv_defs_api::{Hotplug, MemConfig, VmConfig, ZoneConfig};
use chv_defs_base::{BLOCK_BYTES, MOST_ZONES, Row, Rule, Text, copy_of};
use std::alloc::{AllocError, Global};

/// How many bytes a zone has at most, plugged or not (64 GiB).
const ZONE_LIMIT: u64 = 64 << 30;

/// How many zones there are at most.
const ZONES_LIMIT: usize = MOST_ZONES as usize;

/// How many bytes the id of a zone has at most.
const ZONE_ID_LIMIT: usize = 24;

/// The first rule on memory that a configuration breaks.
pub fn memory_rule(alloc: Global, config: &VmConfig) -> Result<Option<Rule>, AllocError>
    ensures { IfOk result (λ rule. rule ≡ first_broken (memory_rules config.now)) }
{
    if needs_size_zero(config) {
        return Ok(Some(Rule::ZonesNeedSizeZero));
    }
    if has_own_hotplug(config) {
        return Ok(Some(Rule::ZonesOwnHotplug));
    }
    if has_size_zero(config) {
        return Ok(Some(Rule::SizeZero));
    }
    if has_too_many_zones(config) {
        return Ok(Some(Rule::TooManyZones));
    }
    if has_bad_zone_id(config) {
        return Ok(Some(Rule::ZoneIdBad));
    }
    if has_zone_id_twice(alloc, config)? {
        return Ok(Some(Rule::ZoneIdTwice));
    }
    if has_unaligned_size(config) {
        return Ok(Some(Rule::SizeUnaligned));
    }
    if has_too_large_zone(config) {
        return Ok(Some(Rule::ZoneTooLarge));
    }
    if has_hotplugged_above(config) {
        return Ok(Some(Rule::HotpluggedAbove));
    }
    if is_way_for_zones(config) {
        return Ok(Some(Rule::WayForZones));
    }
    if is_way_acpi(config) {
        return Ok(Some(Rule::WayAcpi));
    }
    Ok(None)
}

/// The zones in effect: the configured ones, or the one zone `mem0` with the memory's own sizes.
pub fn zones_in_effect(alloc: Global, memory: &MemConfig) -> Result<Row<ZoneConfig>, AllocError>
    ensures { IfOk result (λ zones. zones ≡ zones_in_effect memory.now) }
{
    if has_zones(memory) {
        return copy_of(&memory.zones);
    }
    let mut zones = Row::empty(alloc);
    zones.push(ZoneConfig {
        id: Text::of(alloc, "mem0")?,
        size: memory.size,
        hotplug: memory.hotplug,
        hotplugged: memory.hotplugged,
    })?;
    Ok(zones)
}

/// How many of the zones in effect grow.
pub fn growing_zones(memory: &MemConfig) -> usize
    ensures { result ≡ length (filter grows (zones_in_effect memory.now)) }
{
    if has_zones(memory) {
        return count_growing(memory.zones.as_slice());
    }
    if memory.hotplug > 0 { 1 } else { 0 }
}

fn count_growing(zones: &[ZoneConfig]) -> usize
    ensures { result ≡ length (filter grows zones.now) }
{
    zones.iter().filter(|zone| zone.hotplug > 0).count()
}

fn has_zones(memory: &MemConfig) -> bool
    ensures { result ≡ has_zones memory.now }
{
    !memory.zones.is_empty()
}

fn needs_size_zero(config: &VmConfig) -> bool
    ensures { result ≡ zones_need_size_zero config.now }
{
    has_zones(&config.memory) && config.memory.size != 0
}

fn has_own_hotplug(config: &VmConfig) -> bool
    ensures { result ≡ zones_own_hotplug config.now }
{
    has_zones(&config.memory) && (config.memory.hotplug != 0 || config.memory.hotplugged != 0)
}

fn has_size_zero(config: &VmConfig) -> bool
    ensures { result ≡ size_zero config.now }
{
    lacks_size(&config.memory) || has_empty_zone(config.memory.zones.as_slice())
}

fn lacks_size(memory: &MemConfig) -> bool
    ensures { result ≡ (not (has_zones memory.now) && memory.now.size == 0) }
{
    !has_zones(memory) && memory.size == 0
}

fn has_empty_zone(zones: &[ZoneConfig]) -> bool
    ensures { result ≡ list_any (λ zone. zone.size == 0) zones.now }
{
    zones.iter().any(|zone| zone.size == 0)
}

fn has_too_many_zones(config: &VmConfig) -> bool
    ensures { result ≡ too_many_zones config.now }
{
    config.memory.zones.len() > ZONES_LIMIT
}

fn has_bad_zone_id(config: &VmConfig) -> bool
    ensures { result ≡ zone_id_bad config.now }
{
    config
        .memory
        .zones
        .as_slice()
        .iter()
        .any(|zone| is_bad_zone_id(&zone.id))
}

fn is_bad_zone_id(id: &Text) -> bool
    ensures { result ≡ (not (is_id id.now) || nat_lt 24 (length id.now)) }
{
    !is_id(id.as_str()) || id.as_str().len() > ZONE_ID_LIMIT
}

fn has_zone_id_twice(alloc: Global, config: &VmConfig) -> Result<bool, AllocError>
    ensures { IfOk result (λ twice. twice ≡ zone_id_twice config.now) }
{
    has_twice(alloc, zone_ids(alloc, config.memory.zones.as_slice())?)
}

fn zone_ids(alloc: Global, zones: &[ZoneConfig]) -> Result<Vec<Text>, AllocError>
    ensures { IfOk result (λ ids. ids.items ≡ map (λ zone. zone.id) zones.now) }
{
    let mut ids = Vec::new(alloc);
    for zone in zones {
        ids.push(copy_of(&zone.id)?)?;
    }
    Ok(ids)
}

fn has_unaligned_size(config: &VmConfig) -> bool
    ensures { result ≡ size_unaligned config.now }
{
    let memory = &config.memory;
    are_unaligned(memory.size, memory.hotplug, memory.hotplugged)
        || has_unaligned_zone(memory.zones.as_slice())
}

fn has_unaligned_zone(zones: &[ZoneConfig]) -> bool
    ensures { result ≡ list_any (λ zone. is_unaligned zone.size || is_unaligned zone.hotplug || is_unaligned zone.hotplugged) zones.now }
{
    zones.iter().any(|zone| are_unaligned(zone.size, zone.hotplug, zone.hotplugged))
}

fn are_unaligned(size: u64, hotplug: u64, hotplugged: u64) -> bool
    ensures { result ≡ (is_unaligned size || is_unaligned hotplug || is_unaligned hotplugged) }
{
    is_unaligned(size) || is_unaligned(hotplug) || is_unaligned(hotplugged)
}

fn is_unaligned(size: u64) -> bool
    ensures { result ≡ is_unaligned size }
{
    size % BLOCK_BYTES != 0
}

fn has_too_large_zone(config: &VmConfig) -> bool
    ensures { result ≡ zone_too_large config.now }
{
    let memory = &config.memory;
    if has_zones(memory) {
        has_large_zone(memory.zones.as_slice())
    } else {
        is_too_large(memory.size, memory.hotplug)
    }
}

fn has_large_zone(zones: &[ZoneConfig]) -> bool
    ensures { result ≡ list_any (λ zone. nat_lt (64 * 2 ^ 30) (zone.size + zone.hotplug)) zones.now }
{
    zones
        .iter()
        .any(|zone| is_too_large(zone.size, zone.hotplug))
}

// The sum may pass 2^64.
fn is_too_large(size: u64, hotplug: u64) -> bool
    ensures { result ≡ nat_lt (64 * 2 ^ 30) (size + hotplug) }
{
    size > ZONE_LIMIT || hotplug > ZONE_LIMIT - size
}

fn has_hotplugged_above(config: &VmConfig) -> bool
    ensures { result ≡ hotplugged_above config.now }
{
    let memory = &config.memory;
    memory.hotplugged > memory.hotplug || has_zone_above(memory.zones.as_slice())
}

fn has_zone_above(zones: &[ZoneConfig]) -> bool
    ensures { result ≡ list_any (λ zone. nat_lt zone.hotplug zone.hotplugged) zones.now }
{
    zones.iter().any(|zone| zone.hotplugged > zone.hotplug)
}

fn is_acpi(way: Hotplug) -> bool
    ensures { result ≡ is_acpi way }
{
    match way {
        Hotplug::Acpi => true,
        Hotplug::VirtioMem => false,
    }
}

fn is_way_for_zones(config: &VmConfig) -> bool
    ensures { result ≡ way_for_zones config.now }
{
    has_growing_zone(config.memory.zones.as_slice()) && is_acpi(config.memory.way)
}

fn has_growing_zone(zones: &[ZoneConfig]) -> bool
    ensures { result ≡ list_any grows zones.now }
{
    zones.iter().any(|zone| zone.hotplug > 0)
}

fn is_way_acpi(config: &VmConfig) -> bool
    ensures { result ≡ way_acpi config.now }
{
    !has_zones(&config.memory) && config.memory.hotplug > 0 && is_acpi(config.memory.way)
}

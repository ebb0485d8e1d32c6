// Where memory lies: boot memory with a hole below 4 GiB, and the hotplug regions above it.
ghost use Rattle.std.specs.Prelude.{◌≡◌, ◌+◌, ◌*◌, ◌<◌, ◌≤◌, ◌^◌, ◌++◌, [], ◌∷◌, IfOk, OnOk, length, sum_by, true};
ghost use Rattle.chv_addr.specs.AddressMap.{below_hole, boot_end, boot_runs, is_within_limits, past_hole, plug_runs, region_start, regions_from, with_run};
ghost use Rattle.chv_defs_base.specs.Sizes.{blocks_in};

use crate::{Region, Run};
use chv_defs_api::ZoneConfig;
use chv_defs_base::BLOCK_BYTES;
use std::alloc::{AllocError, Global};

/// Where boot memory stops.
const HOLE_START: u64 = 0xc000_0000;

/// Where it goes on.
const HOLE_END: u64 = 0x1_0000_0000;

/// Hotplug regions begin at multiples of this.
const REGION_STEP: u64 = 0x800_0000;

/// The runs of boot memory.
pub fn boot_runs(alloc: Global, zones: &[ZoneConfig]) -> Result<Vec<Run>, AllocError>
    requires { is_within_limits zones.now ≡ true }
    ensures { IfOk result (λ runs. runs.items ≡ boot_runs 0 0 zones.now) }
{
    let mut runs = Vec::new(alloc);
    let mut before = 0;
    for (zone, config) in zones.iter().enumerate() {
        push_boot(&mut runs, zone as u8, before, config)?;
        before += blocks_in(config.size);
    }
    Ok(runs)
}

/// Where boot memory ends.
pub fn boot_end(zones: &[ZoneConfig]) -> u64
    requires { is_within_limits zones.now ≡ true }
    ensures value { result ≡ boot_end zones.now }
    ensures small { result < 2 ^ 40 }
{
    past_hole(boot_blocks(zones) * BLOCK_BYTES)
}

/// Puts the runs of hotplug memory behind others. All before it ends at `end`.
pub fn push_plug_runs(runs: &mut Vec<Run>, zones: &[ZoneConfig], end: u64) -> Result<(), AllocError>
    requires zones { is_within_limits zones.now ≡ true }
    requires end { end < 2 ^ 40 }
    ensures { OnOk result (runs.new.items ≡ runs.old.items ++ plug_runs 0 end zones.now) }
{
    let mut before = end;
    for (zone, config) in zones.iter().enumerate() {
        let addr = region_start(before);
        push_plug(runs, zone as u8, addr, config)?;
        before = addr + config.hotplug;
    }
    Ok(())
}

/// The hotplug regions. All before them ends at `end`.
pub fn regions(alloc: Global, zones: &[ZoneConfig], end: u64) -> Result<Vec<Region>, AllocError>
    requires zones { is_within_limits zones.now ≡ true }
    requires end { end < 2 ^ 40 }
    ensures { IfOk result (λ regions. regions.items ≡ regions_from end zones.now) }
{
    let mut regions = Vec::new(alloc);
    let mut before = end;
    for config in zones {
        let addr = region_start(before);
        regions.push(Region {
            addr,
            size: config.hotplug,
        })?;
        before = addr + config.hotplug;
    }
    Ok(regions)
}

// The boot blocks of all zones.
fn boot_blocks(zones: &[ZoneConfig]) -> u64
    requires { is_within_limits zones.now ≡ true }
    ensures value { result ≡ sum_by (λ config. blocks_in config.size) zones.now }
    ensures small { result ≤ 262144 }
{
    let mut blocks = 0;
    for config in zones {
        blocks += blocks_in(config.size);
    }
    blocks
}

// Puts a zone's boot memory behind other runs.
fn push_boot(
    runs: &mut Vec<Run>,
    zone: u8,
    before: u64,
    config: &ZoneConfig,
) -> Result<(), AllocError>
    requires before { before ≤ 262144 }
    requires size { config.now.size ≤ 64 * 2 ^ 30 }
    ensures { OnOk result (runs.new.items ≡ runs.old.items ++ boot_runs zone before (config.now ∷ [])) }
{
    let count = blocks_in(config.size);
    let low = below_hole(before, count);
    push_run(
        runs,
        Run {
            zone,
            first: 0,
            count: low as u32,
            addr: before * BLOCK_BYTES,
        },
    )?;
    push_run(
        runs,
        Run {
            zone,
            first: low as u32,
            count: (count - low) as u32,
            addr: past_hole((before + low) * BLOCK_BYTES),
        },
    )
}

// Puts a zone's hotplug memory, of which the region begins at `addr`, behind other runs.
fn push_plug(
    runs: &mut Vec<Run>,
    zone: u8,
    addr: u64,
    config: &ZoneConfig,
) -> Result<(), AllocError>
    requires { config.now.size + config.now.hotplug ≤ 64 * 2 ^ 30 }
    ensures { OnOk result (runs.new.items ≡ runs.old.items ++ with_run (record { zone = zone; first = blocks_in config.now.size; count = blocks_in config.now.hotplug; addr = addr }) []) }
{
    push_run(
        runs,
        Run {
            zone,
            first: blocks_in(config.size) as u32,
            count: blocks_in(config.hotplug) as u32,
            addr,
        },
    )
}

// Puts a run behind others, if it has a block.
fn push_run(runs: &mut Vec<Run>, run: Run) -> Result<(), AllocError>
    ensures { OnOk result (runs.new.items ≡ runs.old.items ++ with_run run []) }
{
    if run.count > 0 {
        runs.push(run)?;
    }
    Ok(())
}

/// How many blocks so many bytes are.
pub fn blocks_in(bytes: u64) -> u64
    ensures { result ≡ blocks_in bytes }
{
    bytes / BLOCK_BYTES
}

// How many of `count` blocks behind `before` others lie below the hole.
fn below_hole(before: u64, count: u64) -> u64
    ensures { result ≡ below_hole before count }
{
    count.min((HOLE_START / BLOCK_BYTES).saturating_sub(before))
}

// Where boot memory lies that would lie at an address if nothing were left out.
fn past_hole(addr: u64) -> u64
    requires { addr < 2 ^ 63 }
    ensures { result ≡ past_hole addr }
{
    if addr < HOLE_START {
        addr
    } else {
        addr + (HOLE_END - HOLE_START)
    }
}

// Where a hotplug region begins, behind all that ends at `before`.
fn region_start(before: u64) -> u64
    requires { before < 2 ^ 63 }
    ensures { result ≡ region_start before }
{
    before.max(HOLE_END).div_ceil(REGION_STEP) * REGION_STEP
}

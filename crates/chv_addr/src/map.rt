// The address map of a machine.
ghost use Rattle.std.specs.Prelude.{◌≡◌, ◌+◌, ◌<◌, ◌≤◌, ◌^◌, IfOk, length, slice_get, true};
ghost use Rattle.chv_addr.specs.AddressMap.{AreInOrder, bare_place, is_within_limits, map_of, place_of};

use crate::layout::{boot_end, boot_runs, push_plug_runs, regions};
use crate::search::{ram_place, run_at, touches_ram};
use crate::windows::{bar_place, slot_at, touches_window};
use crate::{Place, Region, Run};
use chv_defs_api::Checked;
use std::alloc::{AllocError, Global};
use std::marker::Model;

/// Where a machine's memory and windows lie. Contracts see the runs of RAM, ascending, and the zones' regions.
#[derive(Drop)]
pub struct AddrMap {
    runs: Vec<Run>,
    regions: Vec<Region>,
}

impl Model for AddrMap {
    ghost use Rattle.chv_addr.specs.AddressMap.{AddressMap, IsMap};

    ghost Value = { AddressMap };

    ghost view = { λ m. record { runs = m.runs.items; regions = m.regions.items } };

    ghost invariant = { λ m. IsMap m.runs.items };
}

impl AddrMap {
    /// The map of a configuration's zones in effect, which those of a checked configuration fit. It fails only where
    /// memory runs out.
    pub fn build(alloc: Global, checked: &Checked) -> Result<AddrMap, AllocError>
        requires { is_within_limits checked.now.zones ≡ true }
        ensures value { IfOk result (λ map. map ≡ map_of checked.now.zones) }
        // There is a region for each zone.
        ensures regions { IfOk result (λ map. length map.regions ≡ length checked.now.zones) }
    {
        let zones = checked.zones.as_slice();
        let mut runs = boot_runs(alloc, zones)?;
        let end = boot_end(zones);
        push_plug_runs(&mut runs, zones, end)?;
        let regions = regions(alloc, zones, end)?;
        Ok(AddrMap { runs, regions })
    }

    /// In what the `len` bytes from a guest address on lie. It searches the runs by bisection.
    pub fn find(&self, addr: u64, len: u64) -> Place
        ensures { result ≡ place_of self.now addr len }
    {
        if len == 0 || len - 1 > u64::MAX - addr {
            return Place::Crosses;
        }
        let runs = self.runs.as_slice();
        if let Some(run) = run_at(runs, addr) {
            return ram_place(run, addr, len);
        }
        match slot_at(addr) {
            Some(slot) => bar_place(slot, addr, len),
            None => bare_place(runs, addr, len),
        }
    }

    /// The hotplug region of a zone in effect: of size 0 where the zone does not grow.
    pub fn region(&self, zone: u8) -> Region
        requires { zone < length self.now.regions }
        ensures { slice_get self.now.regions zone ≡ Some result }
    {
        self.regions[zone as usize]
    }
}

// The place of bytes of which the first lies neither in RAM nor in a window.
fn bare_place(runs: &[Run], addr: u64, len: u64) -> Place
    requires order { AreInOrder 0 runs.now }
    requires some { 0 < len }
    requires fits { addr + len ≤ 2 ^ 64 }
    ensures { result ≡ bare_place runs.now addr len }
{
    let last = addr + (len - 1);
    if touches_ram(runs, addr, last) || touches_window(addr, last) {
        Place::Crosses
    } else {
        Place::Hole
    }
}

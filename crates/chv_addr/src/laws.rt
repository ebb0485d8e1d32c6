// Laws of the definitions.
ghost use Rattle.std.specs.Prelude.{◌≡◌, ℕ, ◌<◌, ◌≤◌, Some, slice_get, true};
ghost use Rattle.chv_addr.specs.AddressMap.{addresses_of, blocks_of, holders, is_within_limits, map_of};
ghost use Rattle.chv_addr.specs.Layout.{BootBlocksLieInOrder, BytesLieTogether, PlugBlocksLieInRegions, RegionsLieInOrder};
ghost use Rattle.chv_defs_api.specs.ConfigRules.{IsChecked};

use chv_defs_api::{Checked, ZoneConfig};

/// No address lies in two intervals: each lies in at most one run of RAM or window.
pub fn intervals_never_overlap(zones: &[ZoneConfig])
    ensures { (addr : ℕ) → holders (map_of zones.now).runs addr ≤ 1 }
{}

/// Every block of a zone has exactly one address: one run has it.
pub fn blocks_have_one_address(zones: &[ZoneConfig])
    ensures { (zone : ℕ) (config : ZoneConfig) (block : ℕ) → slice_get zones.now zone ≡ Some config → block < blocks_of config → addresses_of (map_of zones.now).runs zone block ≡ 1 }
{}

/// The zones of a checked configuration are few and small enough for an address map.
pub fn checked_zones_fit(checked: &Checked)
    requires { IsChecked checked.now }
    ensures { is_within_limits checked.now.zones ≡ true }
{}

/// In the map of any zones an access is decided by its single bytes: it is in a block, in a window or in a hole exactly where
/// each byte is, at its own offset.
pub fn bytes_lie_together(zones: &[ZoneConfig])
    ensures { BytesLieTogether (map_of zones.now) }
{}

/// Boot blocks lie one behind the other through all zones, from address 0 on, and 1 GiB higher from 3 GiB on.
pub fn boot_blocks_lie_in_order(zones: &[ZoneConfig])
    requires { is_within_limits zones.now ≡ true }
    ensures { BootBlocksLieInOrder zones.now }
{}

/// A zone's region begins at the least multiple of 128 MiB from 4 GiB on that lies behind all boot memory and the regions before.
pub fn regions_lie_in_order(zones: &[ZoneConfig])
    ensures { RegionsLieInOrder zones.now }
{}

/// A zone's blocks behind its boot blocks lie one behind the other in its region.
pub fn plug_blocks_lie_in_regions(zones: &[ZoneConfig])
    requires { is_within_limits zones.now ≡ true }
    ensures { PlugBlocksLieInRegions zones.now }
{}

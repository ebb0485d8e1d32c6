// Places at the edges of runs, blocks and windows.
ghost use Rattle.std.specs.Prelude.{◌≡◌, true, IfOk};
ghost use Rattle.chv_addr.specs.AddressMap.{is_within_limits};

use chv_addr::{AddrMap, Place, Region, checked_zones_fit};
use chv_config::check;
use chv_defs_api::{Checked, Hotplug, VmConfig, ZoneConfig};
use chv_defs_base::{Row, Text};
use chv_tests_samples::plain_config;
use std::alloc::{AllocError, Global};
use std::test::Fail;

const MIB: u64 = 1 << 20;

const GIB: u64 = 1 << 30;

/// A zone: its size and its `hotplug_size`.
type Zone = (u64, u64);

/// A look-up: address, length and place.
type LookUp = (u64, u64, Place);

macro_rules! ram {
    ($zone:expr, $block:expr, $offset:expr) => {
        Place::Ram {
            zone: $zone,
            block: $block,
            offset: $offset,
        }
    };
}

macro_rules! bar {
    ($slot:expr, $offset:expr) => {
        Place::Bar {
            slot: $slot,
            offset: $offset,
        }
    };
}

fn config_of(alloc: Global, zones: &[Zone]) -> Result<VmConfig, AllocError> {
    let mut config = plain_config(alloc);
    config.memory.size = 0;
    config.memory.way = Hotplug::VirtioMem;
    for (k, zone) in zones.iter().enumerate() {
        config.memory.zones.push(ZoneConfig {
            id: Text::new(format!(in alloc; "z{k}")?),
            size: zone.0,
            hotplug: zone.1,
            hotplugged: 0,
        })?;
    }
    Ok(config)
}

fn checked_of(alloc: Global, zones: &[Zone]) -> Result<Checked, Fail>
    ensures { IfOk result (λ checked. is_within_limits checked.zones ≡ true) }
{
    match check(alloc, &config_of(alloc, zones)?, &Row::empty(alloc))? {
        Ok(checked) => {
            checked_zones_fit(&checked);
            Ok(checked)
        }
        Err(rule) => Err(rule.name().into()),
    }
}

/// The first look-up that finds another place: its address and length.
fn first_other(map: &AddrMap, wanted: &[LookUp]) -> Option<(u64, u64)> {
    for (addr, len, place) in wanted {
        if map.find(*addr, *len) != *place {
            return Some((*addr, *len));
        }
    }
    None
}

/// The same in the map of some zones.
fn other(alloc: Global, zones: &[Zone], wanted: &[LookUp]) -> Result<Option<(u64, u64)>, Fail> {
    let map = AddrMap::build(alloc, &checked_of(alloc, zones)?)?;
    Ok(first_other(&map, wanted))
}

const WORKED: [LookUp; 5] = [
    (0xbfff_ffff, 1, ram!(0, 1535, 2_097_151)),
    (0xc000_0000, 1, Place::Hole),
    (0x1_0000_0000, 8, ram!(0, 1536, 0)),
    (0xbfff_fffc, 8, Place::Crosses),
    (0x1_0020_0000, 1, Place::Hole),
];

const WINDOWS: [LookUp; 16] = [
    (0xe000_ffff, 1, Place::Hole),
    (0xe000_ffff, 2, Place::Crosses),
    (0xe001_0000, 1, bar!(1, 0)),
    (0xe001_0000, 0x1_0000, bar!(1, 0)),
    (0xe001_0000, 0x1_0001, Place::Crosses),
    (0xe002_0000, 4, bar!(2, 0)),
    (0xe01f_fffe, 2, bar!(31, 0xfffe)),
    (0xe01f_fffe, 3, Place::Crosses),
    (0xe020_0000, 1, Place::Hole),
    (0x40_0000, 0xdfc1_0000, Place::Hole),
    (0x40_0000, 0xdfc1_0001, Place::Crosses),
    (0xe020_0000, u64::MAX - 0xe020_0000 + 1, Place::Hole),
    (u64::MAX, 1, Place::Hole),
    (u64::MAX, 2, Place::Crosses),
    (u64::MAX, u64::MAX, Place::Crosses),
    (0xe001_0000, 0, Place::Crosses),
];

const FIXED: [LookUp; 9] = [
    (0, 1, ram!(0, 0, 0)),
    (0, 0, Place::Crosses),
    (0, 2_097_152, ram!(0, 0, 0)),
    (0, 2_097_153, Place::Crosses),
    (0x1f_ffff, 1, ram!(0, 0, 2_097_151)),
    (0x1f_ffff, 2, Place::Crosses),
    (0x3f_fffc, 4, ram!(0, 1, 2_097_148)),
    (0x3f_fffc, 5, Place::Crosses),
    (0x40_0000, 1, Place::Hole),
];

const GROWS: [LookUp; 7] = [
    (0x3fff_ffff, 1, ram!(0, 511, 2_097_151)),
    (0x4000_0000, 1, Place::Hole),
    (0xffff_ffff, 1, Place::Hole),
    (0xffff_ffff, 2, Place::Crosses),
    (0x1_0000_0000, 1, ram!(0, 512, 0)),
    (0x1_7fff_ffff, 1, ram!(0, 1535, 2_097_151)),
    (0x1_8000_0000, 1, Place::Hole),
];

const PAST: [LookUp; 5] = [
    (0x1_001f_ffff, 1, ram!(0, 1536, 2_097_151)),
    (0x1_0020_0000, 0x7e0_0000, Place::Hole),
    (0x1_0800_0000, 1, ram!(0, 1537, 0)),
    (0x1_083f_ffff, 1, ram!(0, 1538, 2_097_151)),
    (0x1_0840_0000, 1, Place::Hole),
];

const SECOND_STRADDLES: [LookUp; 8] = [
    (0x7fff_ffff, 1, ram!(0, 1023, 2_097_151)),
    (0x7fff_ffff, 2, Place::Crosses),
    (0x8000_0000, 1, ram!(1, 0, 0)),
    (0xbfff_ffff, 1, ram!(1, 511, 2_097_151)),
    (0xc000_0000, 1, Place::Hole),
    (0x1_0000_0000, 1, ram!(1, 512, 0)),
    (0x1_3fff_ffff, 1, ram!(1, 1023, 2_097_151)),
    (0x1_4000_0000, 1, Place::Hole),
];

const FIRST_STRADDLES: [LookUp; 5] = [
    (0xbfff_ffff, 1, ram!(0, 1535, 2_097_151)),
    (0x1_0000_0000, 1, ram!(0, 1536, 0)),
    (0x1_3fff_ffff, 1, ram!(0, 2047, 2_097_151)),
    (0x1_4000_0000, 1, ram!(1, 0, 0)),
    (0x1_4020_0000, 1, Place::Hole),
];

const BOTH_GROW: [LookUp; 7] = [
    (0x20_0000, 1, ram!(1, 0, 0)),
    (0x40_0000, 1, Place::Hole),
    (0x1_0000_0000, 1, ram!(0, 1, 0)),
    (0x1_0020_0000, 1, Place::Hole),
    (0x1_0800_0000, 1, ram!(1, 1, 0)),
    (0x1_0820_0000, 1, ram!(1, 2, 0)),
    (0x1_0840_0000, 1, Place::Hole),
];

const BOOT: [LookUp; 6] = [
    (0xbfff_ffff, 1, ram!(5, 255, 2_097_151)),
    (0xc000_0000, 1, Place::Hole),
    (0x1_0000_0000, 1, ram!(6, 0, 0)),
    (0x1_1fff_ffff, 1, ram!(6, 255, 2_097_151)),
    (0x1_2000_0000, 1, ram!(7, 0, 0)),
    (0x1_3fff_ffff, 1, ram!(7, 255, 2_097_151)),
];

const PLUGGED: [LookUp; 6] = [
    (0x1_4000_0000, 1, ram!(0, 256, 0)),
    (0x1_481f_ffff, 1, ram!(0, 320, 2_097_151)),
    (0x1_4820_0000, 1, Place::Hole),
    (0x1_b000_0000, 1, ram!(7, 256, 0)),
    (0x1_b81f_ffff, 1, ram!(7, 320, 2_097_151)),
    (0x1_b820_0000, 1, Place::Hole),
];

const EIGHT: [Zone; 8] = [(512 * MIB, 0); 8];

const EIGHT_THAT_GROW: [Zone; 8] = [(512 * MIB, 130 * MIB); 8];

/// Maps by name: their zones, and look-ups in them.
const MAPS: [(&str, &[Zone], &[LookUp]); 12] = [
    ("a block above the hole", &[(3_223_322_624, 0)], &WORKED),
    ("the windows of slots", &[(4 * MIB, 0)], &WINDOWS),
    ("two blocks", &[(4 * MIB, 0)], &FIXED),
    ("one zone that grows", &[(GIB, 2 * GIB)], &GROWS),
    (
        "it grows above the hole",
        &[(3 * GIB + 2 * MIB, 4 * MIB)],
        &PAST,
    ),
    (
        "the second zone straddles the hole",
        &[(2 * GIB, 0), (2 * GIB, 0)],
        &SECOND_STRADDLES,
    ),
    (
        "the first zone straddles the hole",
        &[(4 * GIB, 0), (2 * MIB, 0)],
        &FIRST_STRADDLES,
    ),
    (
        "two zones that grow",
        &[(2 * MIB, 2 * MIB), (2 * MIB, 4 * MIB)],
        &BOTH_GROW,
    ),
    ("eight zones", &EIGHT, &BOOT),
    (
        "above eight zones",
        &EIGHT,
        &[(0x1_4000_0000, 1, Place::Hole)],
    ),
    ("eight zones that grow", &EIGHT_THAT_GROW, &BOOT),
    ("where eight zones grow", &EIGHT_THAT_GROW, &PLUGGED),
];

/// Three zones, of which the second does not grow.
const THREE: [Zone; 3] = [(3 * GIB + 2 * MIB, 4 * MIB), (2 * MIB, 0), (GIB, 64 * MIB)];

const FIRST: Region = Region {
    addr: 0x1_4800_0000,
    size: 4 * MIB,
};

const THIRD: Region = Region {
    addr: 0x1_5000_0000,
    size: 64 * MIB,
};

/// Whether they have these hotplug regions.
fn has_regions(alloc: Global) -> Result<bool, Fail> {
    let checked = checked_of(alloc, &THREE)?;
    if checked.zones.len() != 3 {
        return Ok(false);
    }
    let map = AddrMap::build(alloc, &checked)?;
    Ok(map.region(0) == FIRST && map.region(1).size == 0 && map.region(2) == THIRD)
}

#[test]
fn maps(rt: HostRuntime) -> Result<(), Fail> {
    for (name, zones, wanted) in &MAPS {
        let other = other(rt.alloc(), *zones, *wanted)?;
        assert_eq!(rt; other, None, "{name}: the look-up that finds another place");
    }
    assert!(rt;
        has_regions(rt.alloc())?,
        "the hotplug regions of three zones"
    );
    Ok(())
}

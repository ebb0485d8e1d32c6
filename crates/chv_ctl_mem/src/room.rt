// Room in the zones in effect.
ghost use Rattle.std.specs.Prelude.{◌≡◌, ◌<◌, ◌≤◌, ℕ, [], true, IfOk, OnErr};
ghost use Rattle.chv_addr.specs.AddressMap.{is_within_limits};
ghost use Rattle.chv_defs_memory.specs.BankState.{banks};
ghost use Rattle.chv_defs_control.specs.Machine.{HasChecked};
ghost use Rattle.chv_defs_control.specs.OwnerCalls.{zones_of};
ghost use Rattle.chv_defs_memory.specs.Zones.{most_zones, zone_refusal};
ghost use Rattle.chv_ctl_mem.specs.BankChanges.{back_to, is_in_zone, is_in_zone_below, refusal_below, AreChanged, HasRoom, HavePlaces};
ghost use Rattle.chv_ctl_mem.specs.ZoneCalls.{AreAsBefore};

use chv_defs_api::ZoneConfig;
use chv_defs_control::Machine;
use chv_defs_memory::{Refusal, Zones};
use std::alloc::AllocError;

/// The zones in effect: without a configuration there are none.
pub fn zones_in_effect(machine: &Machine) -> &[ZoneConfig]
    requires { HasChecked machine.now.config }
    ensures zones { result.now ≡ zones_of machine.now }
    // There are at most 8, each of at most 64 GiB.
    ensures limits { is_within_limits result.now ≡ true }
{
    match &machine.config {
        None => &[],
        Some(checked) => checked.zones.as_slice(),
    }
}

/// Reserves places for further entries, and for pages, in each bank of the `count` lowest zones, while no context is lent and
/// `kept` places are reserved in each. `Full` comes exactly where a bank has no such room, and names the lowest such bank of the
/// lowest such zone; then and at an `Err` every bank is as before.
pub fn make_room<R: Copy, Z: Zones<R>>(
    rt: R,
    zones: &mut Z,
    count: u8,
    entries: u32,
    pages: u32,
    kept: u32,
) -> Result<Result<(), Refusal>, AllocError>
    requires count { count ≤ most_zones }
    requires home { Z.lent zones.old ≡ [] }
    requires rest { HavePlaces count kept (Z.known zones.old) }
    ensures room { IfOk result (HasRoom (is_in_zone_below count) entries pages (refusal_below count entries pages (Z.known zones.old)) (Z.known zones.old) (Z.known zones.new)) }
    ensures err { OnErr result (AreAsBefore (Z.known zones.old) (Z.known zones.new)) }
    ensures home { Z.lent zones.new ≡ [] }
    ensures books { Z.books zones.new ≡ Z.books zones.old }
{
    for zone in 0..count {
        match ask_room(rt, zones, zone, entries, pages) {
            Ok(Ok(())) => {}
            Ok(Err(why)) => {
                give_back_below(rt, zones, zone, kept);
                return Ok(Err(why));
            }
            Err(error) => {
                give_back_below(rt, zones, zone, kept);
                return Err(error);
            }
        }
    }
    Ok(Ok(()))
}

// Reserves places for further entries, and for pages, in each bank of a zone.
fn ask_room<R: Copy, Z: Zones<R>>(
    rt: R,
    zones: &mut Z,
    zone: u8,
    entries: u32,
    pages: u32,
) -> Result<Result<(), Refusal>, AllocError>
    requires zone { zone < most_zones }
    requires home { Z.lent zones.old ≡ [] }
    requires no_page { (b : ℕ) → b < banks → (Z.known zones.old zone b).pages ≡ 0 }
    ensures room { IfOk result (HasRoom (is_in_zone zone) entries pages (zone_refusal zone (Z.known zones.old zone) entries pages) (Z.known zones.old) (Z.known zones.new)) }
    ensures err { OnErr result (AreAsBefore (Z.known zones.old) (Z.known zones.new)) }
    ensures home { Z.lent zones.new ≡ [] }
    ensures books { Z.books zones.new ≡ Z.books zones.old }
{
    zones.room(rt, zone, entries, pages)
}

// Gives room back in each bank of the `count` lowest zones, where `kept` places were reserved before.
fn give_back_below<R: Copy, Z: Zones<R>>(rt: R, zones: &mut Z, count: u8, kept: u32)
    requires count { count ≤ most_zones }
    requires home { Z.lent zones.old ≡ [] }
    ensures back { AreChanged (is_in_zone_below count) (back_to kept) (Z.known zones.old) (Z.known zones.new) }
    ensures home { Z.lent zones.new ≡ [] }
    ensures books { Z.books zones.new ≡ Z.books zones.old }
{
    for zone in 0..count {
        zones.give_back(rt, zone, kept);
    }
}

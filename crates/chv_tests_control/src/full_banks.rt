// A boot and a wipe that a full bank refuses. A bank between control calls has no place reserved that a test could give back, so
// that its places are used up by entries.
ghost use Rattle.chv_ctl_mem.specs.ZoneCalls.{AreAsBefore, AreAtRest, IsAtRestSo};
ghost use Rattle.chv_defs_control.specs.ApiStep.{is_paused};
ghost use Rattle.chv_defs_control.specs.Machine.{HasChecked, IsWellFormed};
ghost use Rattle.chv_defs_memory.specs.BankState.{is_frozen};
ghost use Rattle.chv_defs_memory.specs.Zones.{most_zones, OtherZonesStay};
ghost use Rattle.chv_guest.specs.LentBanks.{fresh_zones, known_at};
ghost use Rattle.std.specs.Prelude.{◌≡◌, ◌<◌, [], false, true, IfOk};

use crate::ctl_api::nothing;
use crate::ctl_mem::{create_two, has_room, has_two_zones};
use chv_ctl_mem::{boot_zones, wipe_all};
use chv_defs_base::{BookId, Full};
use chv_defs_control::Machine;
use chv_defs_memory::{BankCall, Refusal, Span, Zones};
use chv_guest::LentBanks;
use chv_tests_steps::step;
use std::alloc::{AllocError, Global};
use std::test::Fail;

/// How many entries a bank holds.
const PLACES: u32 = 1_048_576;

// Unseals no block of a bank so many times, where a place is reserved for each.
fn use_places(zones: &mut LentBanks, zone: u8, count: u32)
    requires zone { zone < most_zones }
    requires home { zones.old.lent ≡ [] }
    requires thawed { is_frozen (known_at zones.old.books zone 0).history ≡ false }
    requires entries { (known_at zones.old.books zone 0).entries ≡ count }
    requires pages { (known_at zones.old.books zone 0).pages ≡ 0 }
    ensures rest { IsAtRestSo false (known_at zones.new.books zone 0) }
    ensures home { zones.new.lent ≡ [] }
    ensures others { OtherZonesStay (known_at zones.old.books) (known_at zones.new.books) zone }
{
    for done in 0..count {
        drop(zones.owner((), zone, 0, &BankCall::Unseal(Span { first: 0, count: 0 })));
    }
}

// Uses up every place of the bank of a zone.
fn fill_up(zones: &mut LentBanks, zone: u8) -> Result<bool, AllocError>
    requires zone { zone < most_zones }
    requires home { zones.old.lent ≡ [] }
    requires fresh { known_at zones.old.books zone 0 ≡ record { history = []; entries = 0; pages = 0 } }
    ensures rest { IfOk result (λ full. full ≡ true → IsAtRestSo false (known_at zones.new.books zone 0)) }
    ensures home { zones.new.lent ≡ [] }
    ensures others { OtherZonesStay (known_at zones.old.books) (known_at zones.new.books) zone }
{
    if !has_room(zones, zone, PLACES)? {
        return Ok(false);
    }
    use_places(zones, zone, PLACES);
    Ok(true)
}

// Whether the bank of the second zone has no place left.
fn is_second_full(why: &Refusal) -> bool {
    *why == Refusal::Full(Full {
        book: BookId::Bank { zone: 1, bank: 0 },
        entries: 1_048_576,
        bytes: 0,
    })
}

// Whether a boot is refused by the bank of the second zone. Then the banks are as before.
fn is_boot_refused(machine: &Machine, zones: &mut LentBanks) -> Result<bool, AllocError>
    requires checked { HasChecked machine.now.config }
    requires home { zones.old.lent ≡ [] }
    requires rest { AreAtRest false machine.now (known_at zones.old.books) }
    ensures stays { IfOk result (λ refused. refused ≡ true → AreAsBefore (known_at zones.old.books) (known_at zones.new.books)) }
    ensures home { zones.new.lent ≡ [] }
{
    match boot_zones((), machine, zones)? {
        Ok(()) => Ok(false),
        Err(why) => Ok(is_second_full(&why)),
    }
}

// Whether a wipe is.
fn is_wipe_refused(machine: &Machine, zones: &mut LentBanks) -> Result<bool, AllocError>
    requires checked { HasChecked machine.now.config }
    requires home { zones.old.lent ≡ [] }
    requires rest { AreAtRest (is_paused machine.now.life) machine.now (known_at zones.old.books) }
    ensures stays { IfOk result (λ refused. refused ≡ true → AreAsBefore (known_at zones.old.books) (known_at zones.new.books)) }
    ensures home { zones.new.lent ≡ [] }
{
    match wipe_all((), machine, zones)? {
        Ok(()) => Ok(false),
        Err(why) => Ok(is_second_full(&why)),
    }
}

// No entry was made in the first zone, and none more in the second.
fn is_unchanged(zones: &LentBanks) -> bool {
    zones.history(0, 0).is_empty() && zones.history(1, 0).len() == PLACES as usize
}

// The bank of the second zone is full, and refuses a boot and a wipe of both zones.
fn refuse(machine: &Machine, zones: &mut LentBanks) -> Result<(), Fail>
    requires machine { IsWellFormed machine.now }
    requires zones { zones.old ≡ fresh_zones }
{
    step("full: two zones", has_two_zones(machine))?;
    step("full: every place is used", fill_up(zones, 1)?)?;
    step("full: the boot", is_boot_refused(machine, zones)?)?;
    step("full: no entry of the boot", is_unchanged(zones))?;
    step("full: the wipe", is_wipe_refused(machine, zones)?)?;
    step("full: no entry of the wipe", is_unchanged(zones))
}

// Creates a machine of two zones, which is refused.
fn play_full(alloc: Global, machine: &mut Machine, zones: &mut LentBanks) -> Result<(), Fail>
    requires machine { IsWellFormed machine.old }
    requires zones { zones.old ≡ fresh_zones }
{
    create_two(alloc, machine)?;
    refuse(machine, zones)
}

#[test]
fn full_bank_refuses_a_boot_and_a_wipe(rt: HostRuntime) -> Result<(), Fail> {
    let mut zones = LentBanks::new(rt.alloc())?;
    let mut machine = nothing(rt.alloc());
    let came = play_full(rt.alloc(), &mut machine, &mut zones);
    drop(machine);
    came
}

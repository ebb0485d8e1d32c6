// A plan, carried out in every bank of the zones in effect.
ghost use Rattle.std.specs.Prelude.{◌≡◌, ◌<◌, ℕ, [], true, length, slice_get, IfOk, OnErr, MatchResult};
ghost use Rattle.chv_addr.specs.AddressMap.{is_within_limits};
ghost use Rattle.chv_defs_memory.specs.BankBook.{refused_or};
ghost use Rattle.chv_defs_memory.specs.BankState.{banks};
ghost use Rattle.chv_defs_control.specs.Machine.{HasChecked};
ghost use Rattle.chv_ctl_mem.specs.BankChanges.{is_for_frozen, is_in_zone_below, plan_where, planned, AreChanged, IsReady};
ghost use Rattle.chv_ctl_mem.specs.Plans.{plan_refusal, HaveThePlan};
ghost use Rattle.chv_ctl_mem.specs.ZoneCalls.{AreAsBefore, AreAtRest};

use crate::plan::Plan;
use crate::room::{make_room, zones_in_effect};
use chv_defs_api::ZoneConfig;
use chv_defs_control::Machine;
use chv_defs_memory::{Refusal, Zones};
use std::alloc::AllocError;

/// Carries out a plan in every bank of the zones in effect, while no context is lent and these banks are at rest, frozen where
/// the plan is for frozen ones. `Full` comes exactly where a bank has no room for its calls, and names the lowest such bank of
/// the lowest such zone; then and at an `Err` every bank is as before.
pub fn carry_out<R: Copy, Z: Zones<R>>(
    rt: R,
    machine: &Machine,
    zones: &mut Z,
    plan: Plan,
) -> Result<Result<(), Refusal>, AllocError>
    requires checked { HasChecked machine.now.config }
    requires home { Z.lent zones.old ≡ [] }
    requires rest { AreAtRest (is_for_frozen plan) machine.now (Z.known zones.old) }
    ensures answer { IfOk result (λ answer. answer ≡ refused_or (plan_refusal machine.now plan (Z.known zones.old)) tt) }
    ensures called { IfOk result (λ answer. MatchResult answer
        (λ _. HaveThePlan machine.now plan (Z.known zones.old) (Z.known zones.new))
        (λ _. AreAsBefore (Z.known zones.old) (Z.known zones.new))) }
    ensures err { OnErr result (AreAsBefore (Z.known zones.old) (Z.known zones.new)) }
    ensures home { Z.lent zones.new ≡ [] }
    ensures books { Z.books zones.new ≡ Z.books zones.old }
{
    let configs = zones_in_effect(machine);
    let count = configs.len() as u8;
    let room = make_room(rt, zones, count, plan.places(), 0, plan.kept())?;
    if room.is_ok() {
        make_in_zones(rt, zones, configs, plan);
    }
    Ok(room)
}

// Makes the calls of a plan in every bank of these zones, for which there is room.
fn make_in_zones<R: Copy, Z: Zones<R>>(rt: R, zones: &mut Z, configs: &[ZoneConfig], plan: Plan)
    requires limits { is_within_limits configs.now ≡ true }
    requires home { Z.lent zones.old ≡ [] }
    requires ready { (z b : ℕ) → z < length configs.now → b < banks
        → IsReady (is_for_frozen plan) (length (plan_where (slice_get configs.now z) plan)) (Z.known zones.old z b) }
    ensures made { AreChanged (is_in_zone_below (length configs.now)) (planned configs.now plan) (Z.known zones.old) (Z.known zones.new) }
    ensures home { Z.lent zones.new ≡ [] }
    ensures books { Z.books zones.new ≡ Z.books zones.old }
{
    for (zone, config) in configs.iter().enumerate() {
        plan.make(rt, zones, zone as u8, config);
    }
}

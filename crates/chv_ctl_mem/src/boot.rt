// The memory at a boot, at a shutdown and at a delete.
ghost use Rattle.std.specs.Prelude.{◌≡◌, [], false, IfOk, OnErr, MatchResult};
ghost use Rattle.chv_defs_api.specs.declared.control.ControlCall.TheVariants.{Begin, Boot};
ghost use Rattle.chv_defs_api.specs.declared.control.ControlReply.TheVariants.{Done};
ghost use Rattle.chv_defs_api.specs.declared.control.Goal.TheVariants.{Delete};
ghost use Rattle.chv_defs_control.specs.ApiStep.{is_paused};
ghost use Rattle.chv_defs_control.specs.Machine.{HasChecked};
ghost use Rattle.chv_defs_control.specs.OwnerCalls.{room_refusal_for, HaveTheCalls};
ghost use Rattle.chv_defs_memory.specs.BankBook.{refused_or};
ghost use Rattle.chv_ctl_mem.specs.BankChanges.{is_for_frozen};
ghost use Rattle.chv_ctl_mem.specs.Plans.{wipe_for};
ghost use Rattle.chv_ctl_mem.specs.ZoneCalls.{AreAsBefore, AreAtRest};

use crate::plan::Plan;
use crate::planned::carry_out;
use chv_defs_control::{Life, Machine};
use chv_defs_memory::{Refusal, Zones};
use std::alloc::AllocError;

/// Opens the boot blocks of each zone in effect, in every bank of it, while no context is lent, and the banks of these zones are
/// at rest and not frozen. `Full` comes exactly where a bank has no room for its entry, and names the lowest such bank of the
/// lowest such zone; then and at an `Err` every bank is as before.
pub fn boot_zones<R: Copy, Z: Zones<R>>(
    rt: R,
    machine: &Machine,
    zones: &mut Z,
) -> Result<Result<(), Refusal>, AllocError>
    requires checked { HasChecked machine.now.config }
    requires home { Z.lent zones.old ≡ [] }
    requires rest { AreAtRest false machine.now (Z.known zones.old) }
    ensures answer { IfOk result (λ answer. answer ≡ refused_or (room_refusal_for machine.now Boot Done (Z.known zones.old)) tt) }
    ensures called { IfOk result (λ answer. MatchResult answer
        (λ _. HaveTheCalls [] machine.now Boot Done (Z.known zones.old) (Z.known zones.new))
        (λ _. AreAsBefore (Z.known zones.old) (Z.known zones.new))) }
    ensures err { OnErr result (AreAsBefore (Z.known zones.old) (Z.known zones.new)) }
    ensures home { Z.lent zones.new ≡ [] }
    ensures books { Z.books zones.new ≡ Z.books zones.old }
{
    carry_out(rt, machine, zones, Plan::Shape)
}

/// Closes every block of the zones in effect, while no context is lent and the banks of these zones are at rest, frozen where the
/// machine is paused: every bank of them is wiped, and where it is frozen, thawed before. (A shutdown asks for the same calls as a
/// delete.) `Full` comes exactly where a bank has no room for the entry of its Wipe, and names the lowest such bank of the lowest
/// such zone; then and at an `Err` every bank is as before.
pub fn wipe_all<R: Copy, Z: Zones<R>>(
    rt: R,
    machine: &Machine,
    zones: &mut Z,
) -> Result<Result<(), Refusal>, AllocError>
    requires checked { HasChecked machine.now.config }
    requires home { Z.lent zones.old ≡ [] }
    requires rest { AreAtRest (is_paused machine.now.life) machine.now (Z.known zones.old) }
    ensures answer { IfOk result (λ answer. answer ≡ refused_or (room_refusal_for machine.now (Begin Delete) Done (Z.known zones.old)) tt) }
    ensures called { IfOk result (λ answer. MatchResult answer
        (λ _. HaveTheCalls [] machine.now (Begin Delete) Done (Z.known zones.old) (Z.known zones.new))
        (λ _. AreAsBefore (Z.known zones.old) (Z.known zones.new))) }
    ensures err { OnErr result (AreAsBefore (Z.known zones.old) (Z.known zones.new)) }
    ensures home { Z.lent zones.new ≡ [] }
    ensures books { Z.books zones.new ≡ Z.books zones.old }
{
    carry_out(rt, machine, zones, wipe_plan(machine.life))
}

/// The plan of a wipe: in a machine that is paused the banks are frozen.
pub fn wipe_plan(life: Life) -> Plan
    ensures plan { result ≡ wipe_for life }
    ensures frozen { is_for_frozen result ≡ is_paused life }
{
    match life {
        Life::Paused => Plan::ThawAndWipe,
        _ => Plan::Wipe,
    }
}

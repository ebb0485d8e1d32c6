// The owner's calls that a control call stands for.
ghost use Rattle.std.specs.Prelude.{◌≡◌, ℕ, [], false, Option, None, IsOk, IfOk, OnErr, MatchResult};
ghost use Rattle.chv_defs_api.specs.declared.control.ControlCall.TheVariants.{Boot};
ghost use Rattle.chv_defs_api.specs.declared.control.ControlReply.TheVariants.{Done};
ghost use Rattle.chv_defs_memory.specs.declared.bank.Refusal as bank_refusal;
ghost use Rattle.chv_defs_memory.specs.BankBook.{refused_or};
ghost use Rattle.chv_defs_control.specs.ApiStep.{is_paused};
ghost use Rattle.chv_defs_control.specs.FullBooks.{book_in};
ghost use Rattle.chv_defs_control.specs.Machine.{HasChecked};
ghost use Rattle.chv_defs_control.specs.OwnerCalls.{room_refusal_for, HaveTheCalls};
ghost use Rattle.chv_ctl_mem.specs.Plans.{plan_for, IsOnlyFull, IsSame};
ghost use Rattle.chv_ctl_mem.specs.ZoneCalls.{unless_full, AreAsBefore, AreAtRest};

use crate::boot::wipe_plan;
use crate::plan::Plan;
use crate::planned::carry_out;
use chv_defs_api::{ControlCall, ControlReply, Goal};
use chv_defs_base::Full;
use chv_defs_control::{Life, Machine};
use chv_defs_memory::{Refusal, Zones};
use std::alloc::AllocError;

/// Makes the owner's calls that a control call, answered so by this machine, stands for, in every bank of the zones in effect,
/// while no context is lent and these banks are at rest, frozen where the machine is paused. The `Err` inside is the book that is
/// full, exactly where a bank has no room for its calls; then and at an `Err` every bank is as before.
pub fn make_owner_calls<R: Copy, Z: Zones<R>>(
    rt: R,
    machine: &Machine,
    zones: &mut Z,
    call: &ControlCall,
    reply: &ControlReply,
) -> Result<Result<(), Full>, AllocError>
    requires checked { HasChecked machine.now.config }
    requires home { Z.lent zones.old ≡ [] }
    requires rest { AreAtRest (is_paused machine.now.life) machine.now (Z.known zones.old) }
    requires boot { call.now ≡ Boot → reply.now ≡ Done → is_paused machine.now.life ≡ false }
    ensures answer { IfOk result (λ answer. answer ≡ unless_full (book_in (room_refusal_for machine.now call.now reply.now (Z.known zones.old)))) }
    ensures called { IfOk result (λ answer. MatchResult answer
        (λ _. HaveTheCalls [] machine.now call.now reply.now (Z.known zones.old) (Z.known zones.new))
        (λ _. AreAsBefore (Z.known zones.old) (Z.known zones.new))) }
    ensures err { OnErr result (AreAsBefore (Z.known zones.old) (Z.known zones.new)) }
    // A call that stands for no calls of the owner takes no memory.
    ensures free { plan_for machine.now.life call.now reply.now ≡ None → IsOk result }
    ensures home { Z.lent zones.new ≡ [] }
    ensures books { Z.books zones.new ≡ Z.books zones.old }
{
    match plan_for(machine.life, call, reply) {
        Some(plan) => full_or_done(carry_out(rt, machine, zones, plan)),
        None => Ok(Ok(())),
    }
}

// The plan of a control call that is answered so, where it stands for calls of the owner.
fn plan_for(life: Life, call: &ControlCall, reply: &ControlReply) -> Option<Plan>
    ensures { result ≡ plan_for life call.now reply.now }
{
    match (call, reply) {
        (ControlCall::Boot, ControlReply::Done) => Some(Plan::Shape),
        (ControlCall::Begin(Goal::Shutdown | Goal::Delete), ControlReply::Done) => {
            Some(wipe_plan(life))
        }
        _ => None,
    }
}

// What was answered, with the book that is full where room was refused. Room is refused in no other way.
fn full_or_done(
    answer: Result<Result<(), Refusal>, AllocError>,
) -> Result<Result<(), Full>, AllocError>
    requires { IfOk answer IsOnlyFull }
    ensures answer { (due : Option bank_refusal.Refusal) → IfOk answer (λ a. a ≡ refused_or due tt) → IfOk result (λ r. r ≡ unless_full (book_in due)) }
    ensures same { IsSame answer result }
{
    match answer {
        Ok(Ok(())) => Ok(Ok(())),
        Ok(Err(Refusal::Full(full))) => Ok(Err(full)),
        Ok(Err(_)) => unreachable!(),
        Err(error) => Err(error),
    }
}

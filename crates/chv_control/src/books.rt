// Every book that an entry goes into is asked for room, and its calls are made in the banks.
ghost use Rattle.std.specs.Prelude.{◌≡◌, ◌≤◌, [], false, IfOk, OnErr, MatchResult};
ghost use Rattle.chv_defs_base.specs.Sizes.{most_entries, most_payload};
ghost use Rattle.chv_defs_api.specs.declared.control.ControlCall.TheVariants.{Boot};
ghost use Rattle.chv_defs_api.specs.declared.control.ControlReply.TheVariants.{Done};
ghost use Rattle.chv_defs_control.specs.ApiStep.{is_paused};
ghost use Rattle.chv_defs_control.specs.ControlBook.{entry_payload, payload, places};
ghost use Rattle.chv_defs_control.specs.FullBooks.{first_full};
ghost use Rattle.chv_defs_control.specs.Machine.{HasChecked};
ghost use Rattle.chv_defs_control.specs.OwnerCalls.{HaveTheCalls};
ghost use Rattle.chv_ctl_mem.specs.ZoneCalls.{unless_full, AreAsBefore, AreAtRest};

use crate::book::full_at;
use crate::made::Made;
use chv_ctl_mem::make_owner_calls;
use chv_defs_api::ControlEntry;
use chv_defs_base::Full;
use chv_defs_control::Machine;
use chv_defs_memory::Zones;
use std::alloc::AllocError;

/// Makes the calls that an entry stands for in the banks, while no context is lent and all banks are at rest. `Full` comes
/// exactly where a book has no room: the control book is asked first, and then the banks. Then and at an `Err` every bank is as
/// before.
pub fn make_calls<R: Copy, Z: Zones<R>>(
    rt: R,
    machine: &Machine,
    history: &[ControlEntry],
    bytes: u64,
    zones: &mut Z,
    made: &Made,
) -> Result<Result<(), Full>, AllocError>
    requires bytes { bytes ≡ payload history.now }
    requires entries { places machine.now history.now ≤ most_entries }
    requires within { bytes ≤ most_payload }
    requires added { made.now.added ≡ entry_payload made.now.entry }
    requires checked { HasChecked machine.now.config }
    requires home { Z.lent zones.old ≡ [] }
    requires rest { AreAtRest (is_paused machine.now.life) machine.now (Z.known zones.old) }
    requires boot { made.now.entry.call ≡ Boot → made.now.entry.reply ≡ Done → is_paused machine.now.life ≡ false }
    ensures answer { IfOk result (λ answer. answer ≡ unless_full (first_full machine.now history.now (Z.known zones.old) made.now.entry)) }
    ensures called { IfOk result (λ answer. MatchResult answer
        (λ _. HaveTheCalls [] machine.now made.now.entry.call made.now.entry.reply (Z.known zones.old) (Z.known zones.new))
        (λ _. AreAsBefore (Z.known zones.old) (Z.known zones.new))) }
    ensures err { OnErr result (AreAsBefore (Z.known zones.old) (Z.known zones.new)) }
    ensures home { Z.lent zones.new ≡ [] }
    ensures books { Z.books zones.new ≡ Z.books zones.old }
{
    if let Some(full) = full_at(machine, history, bytes, &made.entry, made.added) {
        return Ok(Err(full));
    }
    make_owner_calls(rt, machine, zones, &made.entry.call, &made.entry.reply)
}

// The list of the sessions that have ended.
ghost use Rattle.std.specs.Prelude.{◌≡◌, ◌≤◌, insert, length, IfOk, OnOk, OnErr, MatchOption};
ghost use Rattle.chv_defs_control.specs.ApiStep.{after, with_number};
ghost use Rattle.chv_defs_api.specs.declared.control.ControlCall.TheVariants.{Bye};
ghost use Rattle.chv_defs_api.specs.declared.control.ControlReply.TheVariants.{Done};
ghost use Rattle.chv_ctl_api.specs.Changed.{changed};

use crate::decided::Change;
use chv_defs_base::{Row, copy_of};
use chv_defs_control::Machine;
use std::alloc::AllocError;

/// What the Bye of a session changes.
pub fn ended_by(machine: &Machine, caller: u32) -> Result<Change, AllocError>
    ensures { IfOk result (λ change. changed machine.now change ≡ after machine.now caller Bye Done) }
{
    let mut ended = copy_of(&machine.ended)?;
    end_session(&mut ended, caller)?;
    Ok(Change::Ended(ended))
}

// Adds a session to those that have ended, which ascend. An `Err` leaves them as they were.
fn end_session(ended: &mut Row<u32>, caller: u32) -> Result<(), AllocError>
    ensures ok { OnOk result (ended.new ≡ with_number caller ended.old) }
    ensures err { OnErr result (ended.new ≡ ended.old) }
{
    match place_of(ended.as_slice(), caller) {
        None => Ok(()),
        Some(at) => ended.insert(at, caller),
    }
}

// Where a number belongs among ascending ones, if it is not there yet.
fn place_of(numbers: &[u32], number: u32) -> Option<usize>
    ensures { MatchOption result (with_number number numbers.now ≡ numbers.now)
        (λ at. (at ≤ length numbers.now) × (with_number number numbers.now ≡ insert numbers.now at number)) }
{
    let mut at = 0;
    while at < numbers.len() && numbers[at] < number {
        at += 1;
    }
    if at < numbers.len() && numbers[at] == number {
        None
    } else {
        Some(at)
    }
}

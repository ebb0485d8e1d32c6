// Plays the sessions of a scenario.
ghost use Rattle.std.specs.Prelude.{◌≡◌, ◌≤◌, [], length, map, None, Some, IfOk, MatchOption};
ghost use Rattle.chv_session.specs.Talk.{end_of};
ghost use Rattle.chv_defs_control.specs.Machine.{empty_machine};
ghost use Rattle.chv_defs.specs.Schedule.{schedule, stream_of};
ghost use Rattle.chv_control.specs.Shelf.{shelf_of, sectors_of};
ghost use Rattle.chv_guest.specs.LentBanks.{fresh_zones};
ghost use Rattle.chv_play.specs.Banks.{traced};
ghost use Rattle.chv_play.specs.Played.{AreLegalBanks, AreNewSeats, logs_at, trace_with, Gives, Comes};

use crate::banks::bank_traces;
use crate::desk::PlayDesk;
use crate::round::rounds;
use crate::seat::Seat;
use chv_control::{Control, Start};
use chv_defs::{
    Asked, BankTrace, ControlEntry, Full, Name, Row, SessionLog, SessionTrace, StopCause, Trace,
};
use chv_guest::LentBanks;
use chv_io::Disk;
use chv_store::AnyDisk;
use std::alloc::{AllocError, Global};

/// What playing sessions came to: the trace, or why there is none; and the disks that stand by. (The histories of the banks are
/// moved into the trace.)
#[derive(Drop)]
pub struct Played<D> {
    /// Everything that happened.
    pub trace: Option<Trace>,
    /// Why there is no trace.
    pub cause: Option<StopCause>,
    /// The disks that stand by.
    pub disks: Vec<(Name, AnyDisk<D>)>,
}

/// A seat for each session, by its requests.
fn seats_of(alloc: Global, sessions: &[Row<Asked>]) -> Result<Vec<Seat>, AllocError>
    ensures { IfOk result (λ seats. AreNewSeats (map stream_of sessions.now) seats.items) }
{
    let mut seats = Vec::new(alloc);
    for requests in sessions {
        seats.push(Seat::new(alloc, requests.as_slice())?)?;
    }
    Ok(seats)
}

/// The log of a seat's session.
fn log_of(seat: Seat) -> SessionLog
    ensures { result ≡ record { asked = seat.session.asked; replied = seat.session.replied; end = end_of seat.session.state } }
{
    seat.session.log()
}

/// The logs of the sessions, in the order of their numbers.
fn logs_of(alloc: Global, seats: Vec<Seat>) -> Result<Row<SessionTrace>, AllocError>
    requires { length seats.items ≤ 16 }
    ensures { IfOk result (λ logs. logs ≡ logs_at 1 seats.items) }
{
    let mut logs = Row::empty(alloc);
    let mut session: u8 = 1;
    for seat in seats {
        let log = log_of(seat);
        logs.push(SessionTrace { session, log })?;
        session += 1;
    }
    Ok(logs)
}

/// Plays sessions at a desk where nothing happened yet: what they leave, or the book that was full.
fn run<D: Disk>(
    alloc: Global,
    desk: &mut PlayDesk<D>,
    sessions: &[Row<Asked>],
) -> Result<Result<Row<SessionTrace>, Full>, AllocError>
    requires machine { desk.old.control.machine ≡ empty_machine }
    requires history { desk.old.control.history ≡ [] }
    requires zones { desk.old.control.zones ≡ fresh_zones }
    requires few { length sessions.now ≤ 16 }
    ensures gives { IfOk result (λ logs. Gives
        (schedule (shelf_of (sectors_of D.sector_count) desk.old.control.disks) sessions.now) desk.new.control logs) }
    ensures disks { desk.new.control.disks ≡ desk.old.control.disks }
{
    let mut seats = seats_of(alloc, sessions)?;
    match rounds(desk, seats.as_mut_slice())? {
        Some(full) => Ok(Err(full)),
        None => Ok(Ok(logs_of(alloc, seats)?)),
    }
}

/// The trace with this control history, these banks and these logs.
fn trace_with(
    alloc: Global,
    control: Row<ControlEntry>,
    banks: Row<BankTrace>,
    sessions: Row<SessionTrace>,
) -> Trace
    ensures { result ≡ record { disks = []; vcpus = []; control = control; banks = banks; sessions = sessions } }
{
    Trace {
        disks: Row::empty(alloc),
        vcpus: Row::empty(alloc),
        control,
        banks,
        sessions,
    }
}

/// Why there is no trace, with the disks that stand by.
fn stopped<D>(cause: StopCause, disks: Vec<(Name, AnyDisk<D>)>) -> Played<D>
    ensures { result ≡ record { trace = None; cause = Some cause; disks = disks } }
{
    Played {
        trace: None,
        cause: Some(cause),
        disks,
    }
}

/// The disks that stand by at a control value.
fn disks_of<D: Disk>(control: Control<D, LentBanks>) -> Vec<(Name, AnyDisk<D>)>
    ensures { result.items ≡ control.disks }
{
    let (_history, start) = control.into_parts();
    start.disks
}

/// The trace of a control value whose sessions left these logs.
fn trace_of<D: Disk>(
    alloc: Global,
    control: Control<D, LentBanks>,
    logs: Row<SessionTrace>,
) -> Played<D>
    ensures traced { MatchOption result.trace (result.cause ≡ Some StopCause.Memory) (λ trace. (result.cause ≡ None)
        × (trace ≡ trace_with control.history (traced control.zones) logs) × AreLegalBanks trace.banks) }
    ensures disks { result.disks.items ≡ control.disks }
{
    let (history, start) = control.into_parts();
    match bank_traces(alloc, start.zones) {
        Ok(banks) => Played {
            trace: Some(trace_with(alloc, history, banks, logs)),
            cause: None,
            disks: start.disks,
        },
        Err(_) => stopped(StopCause::Memory, start.disks),
    }
}

/// Plays sessions on a control value to which nothing happened yet.
fn play_on<D: Disk>(
    alloc: Global,
    control: Control<D, LentBanks>,
    sessions: &[Row<Asked>],
) -> Played<D>
    requires machine { control.machine ≡ empty_machine }
    requires history { control.history ≡ [] }
    requires zones { control.zones ≡ fresh_zones }
    requires few { length sessions.now ≤ 16 }
    ensures comes { Comes (shelf_of (sectors_of D.sector_count) control.disks)
        (schedule (shelf_of (sectors_of D.sector_count) control.disks) sessions.now) result.trace result.cause }
    ensures disks { result.disks.items ≡ control.disks }
{
    let mut desk = PlayDesk::new(control);
    let outcome = run(alloc, &mut desk, sessions);
    let control = desk.into_control();
    control.history();
    control.zones().recall();
    match outcome {
        Ok(Ok(logs)) => trace_of(alloc, control, logs),
        Ok(Err(full)) => stopped(StopCause::Full(full), disks_of(control)),
        Err(AllocError) => stopped(StopCause::Memory, disks_of(control)),
    }
}

/// Plays the sessions of a scenario by the serial schedule: the trace, which is legal, or why there is none: the book that is
/// full first, or want of memory. The disks come back.
pub fn play<D: Disk>(
    alloc: Global,
    start: Start<D, LentBanks>,
    sessions: &[Row<Asked>],
) -> Played<D>
    requires number { start.sessions ≡ length sessions.now }
    requires few { length sessions.now ≤ 16 }
    requires fresh { start.zones ≡ fresh_zones }
    ensures comes { Comes (shelf_of (sectors_of D.sector_count) start.disks.items)
        (schedule (shelf_of (sectors_of D.sector_count) start.disks.items) sessions.now) result.trace result.cause }
    ensures disks { result.disks.items ≡ start.disks.items }
{
    match Control::new(alloc, start) {
        Ok(control) => play_on(alloc, control, sessions),
        Err(start) => stopped(StopCause::Memory, start.disks),
    }
}

// A full book, what a machine shows, a boot and a delete with their calls in the banks, and the laws.
ghost use Rattle.std.specs.Prelude.{◌≡◌, true, IfOk};
ghost use Rattle.chv_defs_control.specs.declared.machine.Life.TheVariants as life;
ghost use Rattle.chv_defs_api.specs.Desks.{is_session_call};

use chv_control::{Control, Inner, Start, refusals_change_nothing};
use chv_ctl_api::{answers_fit, refused_calls_change_nothing, states_stay_well_formed};
use chv_defs_api::{ControlCall, ControlReply, Goal, ShownState};
use chv_defs_base::{BookId, Full, Row};
use chv_guest::LentBanks;
use chv_store::{AnyDisk, MemDisk};
use chv_tests_samples::{name, plain_config};
use chv_tests_steps::step;
use std::alloc::{AllocError, Global};
use std::test::Fail;

// The control value of two sessions with the disk `focal.raw`, to which nothing happened yet.
fn fresh(alloc: Global) -> Result<Control<MemDisk, LentBanks>, Fail> {
    let disk = MemDisk::new(alloc, 8, Row::empty(alloc))?;
    let mut disks = Vec::new(alloc);
    disks.push((name(alloc, "focal.raw")?, AnyDisk::Given(disk)))?;
    let zones = LentBanks::new(alloc)?;
    let start = Start {
        disks,
        zones,
        sessions: 2,
    };
    match Control::new(alloc, start) {
        Ok(control) => Ok(control),
        Err(_) => Err(Fail::from("no memory")),
    }
}

// How full the book is: no room is left but the place for a Stop.
const FULL: Inner = Inner::Full(Full {
    book: BookId::Control,
    entries: 1_048_576,
    bytes: 0,
});

// A Ping of a session: why it makes no entry, where it makes none.
fn ping(control: &mut Control<MemDisk, LentBanks>) -> Result<Option<Inner>, AllocError> {
    Ok(control.apply((), 1, &ControlCall::Ping)?.err())
}

// Whether a Stop is entered.
fn stops(control: &mut Control<MemDisk, LentBanks>) -> Result<bool, AllocError> {
    if control.stopped() {
        return Ok(false);
    }
    let answer = control.apply((), 0, &ControlCall::Stop)?;
    Ok(matches!(answer, Ok(ControlReply::Done)))
}

fn fill_up(control: &mut Control<MemDisk, LentBanks>) -> Result<(), Fail> {
    for _ in 0..1_048_575 {
        step("a ping while there is room", ping(control)?.is_none())?;
    }
    step("a ping with one place left", ping(control)? == Some(FULL))?;
    step("a stop in the last place", stops(control)?)?;
    step("all entries", control.history().len() == 1_048_576)
}

// Whether a control value falls into so many entries, two sessions and one disk.
fn falls_into(control: Control<MemDisk, LentBanks>, entries: usize) -> bool {
    let (history, start) = control.into_parts();
    history.len() == entries && start.sessions == 2 && start.disks.len() == 1
}

// They have no bodies.
fn laws() {
    refusals_change_nothing();
    answers_fit();
    refused_calls_change_nothing();
    states_stay_well_formed();
}

#[test]
fn a_full_book_keeps_a_place_for_the_stop(rt: HostRuntime) -> Result<(), Fail> {
    let mut control = fresh(rt.alloc())?;
    fill_up(&mut control)?;
    assert!(rt;
        falls_into(control, 1_048_576),
        "the parts: entries, sessions and disks"
    );
    laws();
    Ok(())
}

// Whether session 1 creates a plain machine.
fn creates(alloc: Global, control: &mut Control<MemDisk, LentBanks>) -> Result<bool, AllocError>
    ensures { IfOk result (λ done. done ≡ true → control.new.machine.life ≡ life.Created) }
{
    let create = ControlCall::Create(plain_config(alloc));
    let answer = control.apply((), 1, &create);
    drop(create);
    Ok(matches!(answer?, Ok(ControlReply::Done)))
}

// Whether a plain machine is shown as created.
fn shows(alloc: Global, control: &Control<MemDisk, LentBanks>) -> Result<bool, AllocError>
    requires { control.now.machine.life ≡ life.Created }
{
    let info = control.shown()?;
    let plain = plain_config(alloc);
    let is_so = info.config == plain
        && info.state == ShownState::Created
        && info.actual_size == 536_870_912;
    drop(plain);
    drop(info);
    Ok(is_so)
}

// A machine that was created is shown, and that asks for no entry.
fn create_and_show(alloc: Global, control: &mut Control<MemDisk, LentBanks>) -> Result<(), Fail> {
    step("create", creates(alloc, control)?)?;
    step("what is shown", shows(alloc, control)?)?;
    step("one entry", control.history().len() == 1)
}

// Whether this call of session 1 is answered Done.
fn is_done(
    control: &mut Control<MemDisk, LentBanks>,
    call: &ControlCall,
) -> Result<bool, AllocError>
    requires { is_session_call call.now ≡ true }
{
    let answer = control.apply((), 1, call)?;
    Ok(matches!(answer, Ok(ControlReply::Done)))
}

// A machine that was created is booted, which is refused from then on, and deleted.
fn boot_and_delete(control: &mut Control<MemDisk, LentBanks>) -> Result<(), Fail> {
    step("boot", is_done(control, &ControlCall::Boot)?)?;
    step("a second boot", !is_done(control, &ControlCall::Boot)?)?;
    step(
        "delete",
        is_done(control, &ControlCall::Begin(Goal::Delete))?,
    )
}

// How many entries the bank of a plain machine's zone has then: a Shape and a Wipe; and that of a zone that it does not have.
fn have_their_calls(control: Control<MemDisk, LentBanks>) -> bool {
    let (history, start) = control.into_parts();
    history.len() == 4
        && start.zones.history(0, 0).len() == 2
        && start.zones.history(1, 0).is_empty()
}

#[test]
fn a_machine_boots_and_is_deleted(rt: HostRuntime) -> Result<(), Fail> {
    let mut control = fresh(rt.alloc())?;
    create_and_show(rt.alloc(), &mut control)?;
    boot_and_delete(&mut control)?;
    assert!(rt; have_their_calls(control), "the calls in the banks");
    Ok(())
}

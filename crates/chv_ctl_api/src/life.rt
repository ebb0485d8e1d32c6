// Calls on a machine's life.
ghost use Rattle.std.specs.Prelude.{◌≡◌, ℕ, List};
ghost use Rattle.chv_defs_api.specs.declared.shelf.OnShelf.{OnShelf};
ghost use Rattle.chv_defs_control.specs.Machine.{IsWellFormed};
ghost use Rattle.chv_defs_control.specs.ApiStep.{after, is_running, reply_to};
ghost use Rattle.chv_defs_api.specs.declared.control.ControlCall.TheVariants.{Begin, Boot, Restore};
ghost use Rattle.chv_defs_api.specs.declared.control.Goal.TheVariants.{Delete, Pause, Shutdown};
ghost use Rattle.chv_ctl_api.specs.ApiCalls.{refused_by};
ghost use Rattle.chv_ctl_api.specs.Changed.{changed};

use crate::decided::{Change, Decided, done, refused, stays};
use crate::devices::has_devices;
use chv_defs_api::{ControlReply, Goal};
use chv_defs_base::Rule;
use chv_defs_control::{Life, Machine};

/// A refusal: there is no machine, or else this rule is broken.
pub fn refuse(machine: &Machine, rule: Rule) -> ControlReply
    ensures { result ≡ refused_by machine.now rule }
{
    match &machine.config {
        Some(_) => ControlReply::Ruled(rule),
        None => ControlReply::Ruled(Rule::NotCreated),
    }
}

/// Whether the machine runs.
pub fn is_running(life: Life) -> bool
    ensures { result ≡ is_running life }
{
    matches!(life, Life::Running)
}

/// What a Boot comes to. So far only a machine that has no device boots.
pub fn decide_boot(machine: &Machine) -> Decided
    requires { IsWellFormed machine.now }
    ensures reply { (shelf : List OnShelf) → result.reply ≡ reply_to shelf machine.now Boot }
    ensures change { (caller : ℕ) → changed machine.now result.change ≡ after machine.now caller Boot result.reply }
{
    match &machine.config {
        None => refused(Rule::NotCreated),
        Some(_) if is_running(machine.life) => refused(Rule::AlreadyBooted),
        Some(checked) if has_devices(checked) => refused(Rule::NotBuilt),
        Some(_) => done(Change::Booted),
    }
}

/// What a Begin comes to. No context is out so far, so that a shutdown or a delete reaches its goal at once; a pause is not
/// built.
pub fn decide_begin(machine: &Machine, goal: Goal) -> Decided
    requires { IsWellFormed machine.now }
    ensures reply { (shelf : List OnShelf) → result.reply ≡ reply_to shelf machine.now (Begin goal) }
    ensures change { (caller : ℕ) → changed machine.now result.change ≡ after machine.now caller (Begin goal) result.reply }
{
    match goal {
        Goal::Pause => stays(answer_pause(machine)),
        Goal::Shutdown => decide_shutdown(machine),
        Goal::Delete => decide_delete(machine),
    }
}

fn answer_pause(machine: &Machine) -> ControlReply
    requires { IsWellFormed machine.now }
    ensures { (shelf : List OnShelf) → result ≡ reply_to shelf machine.now (Begin Pause) }
{
    if is_running(machine.life) {
        return refuse(machine, Rule::NotBuilt);
    }
    refuse(machine, Rule::NotRunning)
}

fn decide_shutdown(machine: &Machine) -> Decided
    requires { IsWellFormed machine.now }
    ensures reply { (shelf : List OnShelf) → result.reply ≡ reply_to shelf machine.now (Begin Shutdown) }
    ensures change { (caller : ℕ) → changed machine.now result.change ≡ after machine.now caller (Begin Shutdown) result.reply }
{
    if is_running(machine.life) {
        return done(Change::ShutDown);
    }
    stays(refuse(machine, Rule::NotBooted))
}

fn decide_delete(machine: &Machine) -> Decided
    requires { IsWellFormed machine.now }
    ensures reply { (shelf : List OnShelf) → result.reply ≡ reply_to shelf machine.now (Begin Delete) }
    ensures change { (caller : ℕ) → changed machine.now result.change ≡ after machine.now caller (Begin Delete) result.reply }
{
    if machine.config.is_none() {
        return refused(Rule::NotCreated);
    }
    done(Change::Deleted)
}

/// The answer to a Restore.
pub fn answer_restore(machine: &Machine) -> ControlReply
    ensures { (shelf : List OnShelf) (name : List ℕ) → result ≡ reply_to shelf machine.now (Restore name) }
{
    if machine.config.is_some() {
        return ControlReply::Ruled(Rule::AlreadyCreated);
    }
    ControlReply::Ruled(Rule::NotBuilt)
}

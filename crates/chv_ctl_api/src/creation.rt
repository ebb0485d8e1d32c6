// A machine is created.
ghost use Rattle.std.specs.Prelude.{◌≡◌, ℕ, IfOk};
ghost use Rattle.chv_defs_api.specs.declared.control.ControlCall.TheVariants.{Create};
ghost use Rattle.chv_defs_control.specs.ApiStep.{after, names_of, reply_to};
ghost use Rattle.chv_defs_api.specs.ConfigRules.{checked_of, verdict};
ghost use Rattle.chv_ctl_api.specs.declared.decided.Change.TheVariants as change;
ghost use Rattle.chv_ctl_api.specs.Changed.{changed, done_unless};

use crate::decided::{Change, Decided, done, refused};
use crate::shelf::names_of;
use chv_config::check;
use chv_defs_api::{OnShelf, VmConfig};
use chv_defs_base::{Row, Rule};
use chv_defs_control::Machine;
use std::alloc::{AllocError, Global};

/// What a Create comes to.
pub fn decide_create(
    alloc: Global,
    machine: &Machine,
    shelf: &Row<OnShelf>,
    config: &VmConfig,
) -> Result<Decided, AllocError>
    ensures reply { IfOk result (λ decided. decided.reply ≡ reply_to shelf.now machine.now (Create config.now)) }
    ensures change { IfOk result (λ decided. (caller : ℕ) → changed machine.now decided.change ≡ after machine.now caller (Create config.now) decided.reply) }
{
    match &machine.config {
        Some(_) => Ok(refused(Rule::AlreadyCreated)),
        None => decide_config(alloc, shelf, config),
    }
}

// What a Create of this configuration comes to, where there is no machine.
fn decide_config(
    alloc: Global,
    shelf: &Row<OnShelf>,
    config: &VmConfig,
) -> Result<Decided, AllocError>
    ensures { IfOk result (λ decided. decided ≡ done_unless (verdict (names_of shelf.now) config.now) (change.Created (checked_of config.now))) }
{
    let names = names_of(alloc, shelf)?;
    match check(alloc, config, &names)? {
        Ok(checked) => Ok(done(Change::Created(checked))),
        Err(rule) => Ok(refused(rule)),
    }
}

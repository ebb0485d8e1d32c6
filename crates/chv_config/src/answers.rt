// The answers to a configuration and to one further disk.
ghost use Rattle.std.specs.Prelude.{◌≡◌, ◌++◌, IfOk};
ghost use Rattle.chv_defs_api.specs.ConfigRules.{check_answer, check_disk_answer, checked_of, device_rules, first_broken, memory_rules, verdict};

use crate::cpus::cpu_rule;
use crate::devices::{device_rule, further_disk_rule};
use crate::ids::{known_ids, with_id, with_ids};
use crate::memory::{memory_rule, zones_in_effect};
use chv_defs_api::{Checked, DiskConfig, VmConfig};
use chv_defs_base::{Name, Row, Rule, copy_of};
use std::alloc::{AllocError, Global};

/// Checks a configuration where disks of these names stand by: the lowest rule that it breaks, or else the
/// configuration that is kept, with each disk's id set and with the zones in effect.
pub fn check(
    alloc: Global,
    config: &VmConfig,
    disks: &Row<Name>,
) -> Result<Result<Checked, Rule>, AllocError>
    ensures { IfOk result (λ answer. answer ≡ check_answer disks.now config.now) }
{
    match broken_rule(alloc, config, disks)? {
        Some(rule) => Ok(Err(rule)),
        None => Ok(Ok(checked(alloc, config)?)),
    }
}

/// Checks one further disk beside a configuration that is kept: the lowest rule that it breaks, or else the
/// disk with its id set.
pub fn check_disk(
    alloc: Global,
    now: &Checked,
    disk: &DiskConfig,
    disks: &Row<Name>,
) -> Result<Result<DiskConfig, Rule>, AllocError>
    ensures { IfOk result (λ answer. answer ≡ check_disk_answer disks.now now.now disk.now) }
{
    let ids = known_ids(alloc, now.zones.as_slice(), now.config.disks.as_slice())?;
    match further_disk_rule(alloc, now, ids.as_slice(), disk, disks)? {
        Some(rule) => Ok(Err(rule)),
        None => Ok(Ok(with_id(alloc, ids.as_slice(), disk)?)),
    }
}

fn broken_rule(
    alloc: Global,
    config: &VmConfig,
    disks: &Row<Name>,
) -> Result<Option<Rule>, AllocError>
    ensures { IfOk result (λ rule. rule ≡ verdict disks.now config.now) }
{
    match cpu_rule(config) {
        Some(rule) => Ok(Some(rule)),
        None => later_rule(alloc, config, disks),
    }
}

fn later_rule(
    alloc: Global,
    config: &VmConfig,
    disks: &Row<Name>,
) -> Result<Option<Rule>, AllocError>
    ensures { IfOk result (λ rule. rule ≡ first_broken (memory_rules config.now ++ device_rules disks.now config.now)) }
{
    match memory_rule(alloc, config)? {
        Some(rule) => Ok(Some(rule)),
        None => device_rule(alloc, config, disks),
    }
}

fn checked(alloc: Global, config: &VmConfig) -> Result<Checked, AllocError>
    ensures { IfOk result (λ checked. checked ≡ checked_of config.now) }
{
    let zones = zones_in_effect(alloc, &config.memory)?;
    let ids = known_ids(alloc, zones.as_slice(), config.disks.as_slice())?;
    let disks = with_ids(alloc, ids, config.disks.as_slice())?;
    let mut config = copy_of(config)?;
    config.disks = disks;
    Ok(Checked { config, zones })
}

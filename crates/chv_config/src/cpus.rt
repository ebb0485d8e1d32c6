// The rules on vCPUs.
ghost use Rattle.std.specs.Prelude.{◌≡◌};
ghost use Rattle.chv_defs_api.specs.ConfigRules.{cpu_rules, first_broken};

use chv_defs_api::VmConfig;
use chv_defs_base::Rule;

/// How many vCPUs a machine has at most.
const CPU_LIMIT: u64 = 16;

/// The first rule on vCPUs that a configuration breaks.
pub fn cpu_rule(config: &VmConfig) -> Option<Rule>
    ensures { result ≡ first_broken (cpu_rules config.now) }
{
    let cpus = config.cpus;
    if cpus.boot == 0 {
        return Some(Rule::BootZero);
    }
    if cpus.boot > cpus.max {
        return Some(Rule::BootAboveMax);
    }
    if cpus.max > CPU_LIMIT {
        return Some(Rule::VcpusAboveLimit);
    }
    None
}

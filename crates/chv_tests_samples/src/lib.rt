//! What the rows of several crates begin with: names, numbers, a plain disk and a plain configuration.
#![tactic(auto)]

use chv_defs_api::{CpuConfig, DiskConfig, Hotplug, MemConfig, VmConfig};
use chv_defs_base::{Name, Row, Text};
use std::alloc::{AllocError, Global};
use std::test::Fail;

/// The name that a text spells.
pub fn name(alloc: Global, text: &str) -> Result<Name, Fail> {
    Ok(Name::of(Text::of(alloc, text)?).ok().ok_or("no name")?)
}

/// A row of numbers: those of the calls that fail.
pub fn numbers(alloc: Global, numbers: &[u64]) -> Result<Row<u64>, AllocError> {
    Ok(Row::new(numbers.to_vec(alloc)?))
}

/// A disk with what is taken where a body gives its path alone.
pub fn plain_disk(alloc: Global, path: &str) -> Result<DiskConfig, AllocError> {
    Ok(DiskConfig {
        path: Text::of(alloc, path)?,
        id: None,
        readonly: false,
        queues: 1,
        queue_size: 128,
    })
}

/// The configuration of an empty body.
pub fn plain_config(alloc: Global) -> VmConfig {
    VmConfig {
        cpus: CpuConfig { boot: 1, max: 1 },
        memory: MemConfig {
            size: 536_870_912,
            hotplug: 0,
            hotplugged: 0,
            way: Hotplug::Acpi,
            zones: Row::empty(alloc),
        },
        disks: Row::empty(alloc),
    }
}

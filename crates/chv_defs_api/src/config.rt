// A machine's configuration, as a request gives it and as it is checked.
ghost use Rattle.std.specs.Prelude.{◌≡◌};

use chv_defs_base::{Row, Text};
use std::alloc::AllocError;

/// The configuration that `vm.create` takes. All sizes are in bytes.
#[derive(Clone, PartialEq, Eq, Drop)]
pub struct VmConfig {
    pub cpus: CpuConfig,
    pub memory: MemConfig,
    pub disks: Row<DiskConfig>,
}

/// How many vCPUs are present at boot, and how many there may be.
#[derive(Clone, Copy, PartialEq, Eq)]
pub struct CpuConfig {
    pub boot: u64,
    pub max: u64,
}

/// The memory. `size`, `hotplug` and `hotplugged` are those of the zone `mem0`, which is in effect where `zones` is
/// empty; else they have to be 0.
#[derive(PartialEq, Eq, Drop)]
pub struct MemConfig {
    /// Bytes of boot memory.
    pub size: u64,
    /// Bytes that can be plugged beyond `size` (`hotplug_size`).
    pub hotplug: u64,
    /// Bytes of these that are asked for at boot (`hotplugged_size`).
    pub hotplugged: u64,
    /// How memory is plugged (`hotplug_method`).
    pub way: Hotplug,
    pub zones: Row<ZoneConfig>,
}

impl Clone for MemConfig {
    ghost is_clone = { λ a b. b ≡ a };

    fn clone(&self) -> Result<MemConfig, AllocError> {
        Ok(MemConfig {
            size: self.size,
            hotplug: self.hotplug,
            hotplugged: self.hotplugged,
            way: self.way,
            zones: self.zones.clone()?,
        })
    }
}

/// How memory is plugged: by ACPI memory modules, or by a virtio-mem device (VIRTIO 1.2, 5.15).
#[derive(Clone, Copy, PartialEq, Eq)]
pub enum Hotplug {
    Acpi,
    VirtioMem,
}

/// A memory zone, with sizes in bytes as in `MemConfig`.
#[derive(PartialEq, Eq, Drop)]
pub struct ZoneConfig {
    pub id: Text,
    pub size: u64,
    pub hotplug: u64,
    pub hotplugged: u64,
}

impl Clone for ZoneConfig {
    ghost is_clone = { λ a b. b ≡ a };

    fn clone(&self) -> Result<ZoneConfig, AllocError> {
        Ok(ZoneConfig {
            id: self.id.clone()?,
            size: self.size,
            hotplug: self.hotplug,
            hotplugged: self.hotplugged,
        })
    }
}

/// A disk: the last component of `path` names one of the disks that stand by.
#[derive(PartialEq, Eq, Drop)]
pub struct DiskConfig {
    pub path: Text,
    pub id: Option<Text>,
    pub readonly: bool,
    /// `num_queues`, which has to be 1.
    pub queues: u64,
    /// The largest size of its queue, in descriptors.
    pub queue_size: u64,
}

impl Clone for DiskConfig {
    ghost is_clone = { λ a b. b ≡ a };

    fn clone(&self) -> Result<DiskConfig, AllocError> {
        Ok(DiskConfig {
            path: self.path.clone()?,
            id: self.id.clone()?,
            readonly: self.readonly,
            queues: self.queues,
            queue_size: self.queue_size,
        })
    }
}

/// A configuration that breaks no rule: each disk has an id, and `zones` are the zones in effect, which are
/// the configured ones, or the one zone `mem0` with the memory's own sizes.
#[derive(PartialEq, Eq, Drop)]
pub struct Checked {
    pub config: VmConfig,
    pub zones: Row<ZoneConfig>,
}

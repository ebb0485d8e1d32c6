// What `vm.info` shows.
ghost use Rattle.std.specs.Prelude.{◌≡◌};

use crate::VmConfig;
use chv_defs_base::{Row, Text};
use std::alloc::AllocError;

/// The value of `vm.info`.
#[derive(PartialEq, Eq, Drop)]
pub struct Info {
    pub config: VmConfig,
    pub devices: Row<DeviceInfo>,
    /// Bytes of boot memory and of plugged blocks.
    pub actual_size: u64,
    pub state: ShownState,
    /// The numbers of the vCPUs that are present, ascending.
    pub vcpus: Row<u8>,
    pub zones: Row<ZoneInfo>,
}

impl Clone for Info {
    ghost is_clone = { λ a b. b ≡ a };

    fn clone(&self) -> Result<Info, AllocError> {
        Ok(Info {
            config: self.config.clone()?,
            devices: self.devices.clone()?,
            actual_size: self.actual_size,
            state: self.state,
            vcpus: self.vcpus.clone()?,
            zones: self.zones.clone()?,
        })
    }
}

/// A device and its PCI slot.
#[derive(Clone, PartialEq, Eq, Drop)]
pub struct DeviceInfo {
    pub slot: u8,
    pub id: Text,
}

/// A zone in effect, with the bytes that are plugged and the bytes that are asked for.
#[derive(PartialEq, Eq, Drop)]
pub struct ZoneInfo {
    pub id: Text,
    pub plugged_size: u64,
    pub requested_size: u64,
}

impl Clone for ZoneInfo {
    ghost is_clone = { λ a b. b ≡ a };

    fn clone(&self) -> Result<ZoneInfo, AllocError> {
        Ok(ZoneInfo {
            id: self.id.clone()?,
            plugged_size: self.plugged_size,
            requested_size: self.requested_size,
        })
    }
}

/// The state that is shown. While a pause, shutdown or delete is under way it is `Running`.
#[derive(Clone, Copy, PartialEq, Eq)]
pub enum ShownState {
    Created,
    Running,
    Paused,
    Shutdown,
}

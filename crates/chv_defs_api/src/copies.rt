// Clones of configurations, calls and replies are equal to their source.
ghost use Rattle.std.proofs.Common.{rules};

use crate::{
    ControlCall, ControlReply, CountOf, DeviceInfo, DiskConfig, Info, VmConfig, ZoneConfig,
    ZoneInfo,
};
use chv_defs_base::Exact;

impl Exact for ZoneConfig {
    ghost exact = { λ x y h. h };
}

impl Exact for DiskConfig {
    ghost exact = { λ x y h. h };
}

impl Exact for VmConfig {
    ghost exact = { λ x y h. Prim.search rules };
}

impl Exact for CountOf {
    ghost exact = { λ x y h. Prim.search rules };
}

impl Exact for DeviceInfo {
    ghost exact = { λ x y h. Prim.search rules };
}

impl Exact for ZoneInfo {
    ghost exact = { λ x y h. h };
}

impl Exact for Info {
    ghost exact = { λ x y h. h };
}

impl Exact for ControlCall {
    ghost exact = { λ x y h. h };
}

impl Exact for ControlReply {
    ghost exact = { λ x y h. h };
}

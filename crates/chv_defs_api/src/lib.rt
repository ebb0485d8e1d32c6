//! Configurations, control calls and their answers, requests and replies, and the definitions that their contracts cite.
#![tactic(auto)]

mod config;
mod context;
mod control;
mod copies;
mod desk;
mod info;
mod path;
mod register;
mod request;
mod session;
mod shelf;

pub use config::{Checked, CpuConfig, DiskConfig, Hotplug, MemConfig, VmConfig, ZoneConfig};
pub use context::{
    ContextNote, CountOf, CpuNote, DeviceKind, DiskCount, HandNote, QueueFault, QueueNote,
    SliceEnd, StopCause,
};
pub use control::{
    BusyAt, ControlCall, ControlEntry, ControlReply, Goal, MemAnswer, MemRequest, Role,
};
pub use desk::{Desk, Stopped};
pub use info::{DeviceInfo, Info, ShownState, ZoneInfo};
pub use path::last_component;
pub use register::RegAccess;
pub use request::{Request, Took};
pub use session::{SessionEnd, SessionLog};
pub use shelf::OnShelf;

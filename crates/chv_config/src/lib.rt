//! The rules of a machine's configuration: which one it breaks first, and the configuration that is kept.
#![tactic(auto)]

mod answers;
mod cpus;
mod devices;
mod disks;
mod ids;
mod laws;
mod memory;
mod texts;

pub use answers::{check, check_disk};
pub use laws::{default_id_is_lowest, kept_devices_are_distinct};

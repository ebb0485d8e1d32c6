//! The disks that chv works on: one in memory, and a choice of two kinds.
#![tactic(auto)]

mod any_disk;
mod mem_disk;

pub use any_disk::AnyDisk;
pub use mem_disk::MemDisk;

// Everything that happened in a run.
use chv_defs_api::{ControlEntry, SessionLog};
use chv_defs_base::Row;
use chv_defs_memory::BankEntry;
use chv_defs_scene::{MadeDisk, VcpuSection};

/// A run: the disks and scripts of its scenario, the history of the control book and of each bank that
/// has entries, zones and banks ascending, and what each session took and put.
#[derive(Drop)]
pub struct Trace {
    pub disks: Row<MadeDisk>,
    pub vcpus: Row<VcpuSection>,
    pub control: Row<ControlEntry>,
    pub banks: Row<BankTrace>,
    pub sessions: Row<SessionTrace>,
}

/// The history of one bank.
#[derive(Drop)]
pub struct BankTrace {
    pub zone: u8,
    pub bank: u8,
    pub entries: Row<BankEntry>,
}

/// The log of one session.
#[derive(Drop)]
pub struct SessionTrace {
    /// From 1 on.
    pub session: u8,
    pub log: SessionLog,
}

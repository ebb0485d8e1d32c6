// The control machine's state.
use chv_defs_api::{Checked, Goal};
use chv_defs_base::Row;

/// The control state: how far the machine's life is, its configuration, and the sessions that have ended.
#[derive(Drop)]
pub struct Machine {
    pub life: Life,
    pub config: Option<Checked>,
    /// The callers of the sessions that have ended, ascending.
    pub ended: Row<u32>,
    /// Whether a `Stop` was entered.
    pub stopped: bool,
}

/// How far a machine's life is.
#[derive(Clone, Copy, PartialEq, Eq)]
pub enum Life {
    /// There is no machine.
    None,
    Created,
    Running,
    /// A pause, shutdown or delete waits until every context is home.
    Hold { holder: u32, goal: Goal },
    Paused,
    Shutdown,
}

//! Guest memory: the banks of all zones, as their owner reaches them, and the contexts to which they are lent.
#![tactic(auto)]

mod callers;
mod laws;
mod lent_banks;
mod lent_caller;
mod room;

pub use laws::{none_finds_it_frozen, sealed_is_seen, unpins_are_done, who_acts_is_lent};
pub use lent_banks::LentBanks;
pub use lent_caller::LentCaller;

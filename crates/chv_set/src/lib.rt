//! Sets of blocks.
#![tactic(auto)]

mod block_set;
mod laws;
mod runs;

pub use block_set::BlockSet;
pub use laws::ranges_are_maximal_runs;

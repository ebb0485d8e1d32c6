//! The search by bisection in a list that ascends.
#![tactic(auto)]

mod search;
mod stretch;

pub use search::locate;
pub use stretch::Stretch;

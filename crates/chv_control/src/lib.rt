//! The control value: the control machine, its history, which is legal by the value's type, the disks that stand by, and the
//! banks of all zones.
#![tactic(auto)]

mod book;
mod books;
mod control;
mod entries;
mod inner;
mod laws;
mod made;
mod shelf;
mod start;

pub use control::Control;
pub use inner::Inner;
pub use laws::{open_are_the_boot_blocks, refusals_change_nothing};
pub use start::Start;

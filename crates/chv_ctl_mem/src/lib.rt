//! What control calls do to the memory: the owner's calls that they stand for, over any banks.
#![tactic(auto)]

mod boot;
mod each;
mod laws;
mod owner;
mod plan;
mod planned;
mod room;

pub use boot::{boot_zones, wipe_all};
pub use laws::{boot_opens_the_boot_blocks, wipe_closes_all};
pub use owner::make_owner_calls;

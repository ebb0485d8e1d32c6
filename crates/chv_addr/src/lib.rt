//! The guest's addresses: RAM of zones, the devices' windows, and what is neither.
#![tactic(auto)]

mod laws;
mod layout;
mod map;
mod place;
mod region;
mod run;
mod search;
mod windows;

pub use laws::{
    blocks_have_one_address, boot_blocks_lie_in_order, bytes_lie_together, checked_zones_fit,
    intervals_never_overlap, plug_blocks_lie_in_regions, regions_lie_in_order,
};
pub use layout::blocks_in;
pub use map::AddrMap;
pub use place::Place;
pub use region::Region;
pub use run::Run;

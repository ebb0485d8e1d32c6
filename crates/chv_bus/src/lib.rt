//! Where an access of an instruction goes: to a block of memory, to the control machine, or nowhere.
#![tactic(auto)]

mod decode;
mod laws;

pub use chv_defs_guest::Route;
pub use decode::route;
pub use laws::pieces_can_be_made;

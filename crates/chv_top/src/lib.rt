//! The top call: all that the program `chv` does, over any input and output.
#![tactic(auto)]

mod disks;
mod input;
mod lines;
mod program;
mod status;
mod top;

pub use status::{Ended, Status};
pub use top::{play_program, run_program};

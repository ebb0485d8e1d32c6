//! What a processor is, apart from when it runs: one instruction, and where its access goes; and the definitions of both.
#![tactic(auto)]

mod route;
mod want;

pub use route::Route;
pub use want::{Got, Want};

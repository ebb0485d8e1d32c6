//! The calls of the API on a machine that is not booted, or runs and has no device: what each is answered, and what it leaves.
//! A call is decided first, which may want memory and changes nothing, and what was decided is committed, which never fails.
#![tactic(auto)]

mod creation;
mod decided;
mod devices;
mod ended;
mod laws;
mod life;
mod queries;
mod resize;
mod shelf;
mod step;

pub use decided::{Change, Decided};
pub use laws::{answers_fit, refused_calls_change_nothing, states_stay_well_formed};
pub use queries::show;
pub use step::{api_commit, api_decide, api_step};

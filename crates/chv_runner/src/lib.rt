//! Slices of vCPUs: what a vCPU that was taken does until it is handed back.
#![tactic(auto)]

mod answers;
mod calls;
mod cut;
mod instruction;
mod laws;
mod pair;
mod slice;

pub use laws::{
    answers_tell, few_calls, hand_tells, hands_a_slice, order_tells, sealed_tells, world_gives_one,
};
pub use pair::vcpu_slice;
pub use slice::{SliceDone, vcpu_slice_on};

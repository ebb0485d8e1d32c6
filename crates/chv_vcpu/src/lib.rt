//! One instruction of a vCPU: what it asks of the world, and the state behind the answer.
#![tactic(auto)]

mod answer;
mod instruction;
mod laws;
mod moves;
mod registers;
mod values;

pub use answer::settle;
pub use chv_defs_guest::{Got, Want};
pub use instruction::step;
pub use laws::{
    asked_can_settle, cut_is_asked_again, each_costs_one, other_registers_stay, stays_in_script,
};

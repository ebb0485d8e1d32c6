//! The control machine, its steps, its history and its book, and the owner's calls that its entries stand for.
#![tactic(auto)]

mod machine;

pub use machine::{Life, Machine};

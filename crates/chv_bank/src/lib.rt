//! The bank: the locked value of one share of guest memory. By its type its history is legal.
#![tactic(auto)]

mod access;
mod bank;
mod blocks;
mod entries;
mod kept_bank;
mod laws;
mod owner;
mod pins;
mod sheets;
mod state;
mod steps;

pub use bank::Bank;
pub use laws::{
    closed_blocks_are_not_reached, opened_blocks_are_zero, pinned_bank_is_left,
    pinned_blocks_stay_open, reads_give_the_last_write, unwritten_bytes_are_zero,
};

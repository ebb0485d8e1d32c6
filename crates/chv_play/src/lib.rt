//! Plays the sessions of a scenario by the serial schedule.
#![tactic(auto)]

mod asked;
mod banks;
mod desk;
mod player;
mod round;
mod seat;
mod stream;

pub use player::{Played, play};

//! Callers that take turns at a book, and the tests of `chv_book`.
//!
//! The module `tally` has a kept value of the plainest kind, `turns` a turn with an entry and one that is left, `threads` callers
//! on threads of their own, and `tests` what comes out, compared.
#![tactic(auto)]

mod tally;
#[cfg(test)]
mod tests;
mod threads;
mod turns;

pub use tally::{Entered, Tally};
pub use threads::{four_callers, two_callers};
pub use turns::{enter, enter_all, look};

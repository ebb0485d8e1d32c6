//! A book: a lock round a value that keeps a history. Callers have passes to it and take turns at the value; each turn begins
//! with all that its pass has seen.
#![tactic(auto)]

mod book;
mod kept;
mod pass;
mod turn;
mod turn_value;
mod view;

pub use book::Book;
pub use kept::Kept;
pub use pass::Pass;
pub use turn::Turn;

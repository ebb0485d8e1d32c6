//! One connection: its requests, the control calls that these make, and the replies.
#![tactic(auto)]

mod fill;
mod laws;
mod next;
mod respond;
mod send;
mod session;
mod state;

pub use laws::{answers_without_bye, puts_its_replies, steps_make_a_session};
pub use next::Next;
pub use session::Session;
pub use state::State;

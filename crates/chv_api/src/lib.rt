//! The routes of the API: which control call a request makes, and which reply the answer to it is.
#![tactic(auto)]

mod call;
mod reply;
mod route;
mod snapshot;

pub use call::calls_of;
pub use reply::{refusal_of, reply_of};

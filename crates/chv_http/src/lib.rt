//! HTTP for a control connection: requests cut from a stream in any pieces, and the bytes of replies.
#![tactic(auto)]

mod fields;
mod front;
mod head;
mod laws;
mod parser;
mod reply;
mod stage;

pub use chv_defs_api::{Request, Took};
pub use laws::{any_pieces, cut_computes, decided_by_bytes};
pub use parser::Parser;
pub use reply::reply_bytes;

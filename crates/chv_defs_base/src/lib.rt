//! Texts, bytes, rows, names, numbers, rules and sizes, on which all crates stand.
#![tactic(auto)]

mod book;
mod bytes;
mod exact;
mod kept;
mod name;
mod row;
mod rule;
mod sizes;
mod text;

pub use book::{BookId, Full};
pub use bytes::Bytes;
pub use exact::{Exact, copy_of};
pub use kept::beside;
pub use name::{Name, is_name};
pub use row::Row;
pub use rule::{Reason, Rule};
pub use sizes::{BLOCK_BYTES, MOST_ENTRIES, MOST_PAYLOAD, MOST_ZONES, PAGE_BYTES, SLOTS};
pub use text::Text;

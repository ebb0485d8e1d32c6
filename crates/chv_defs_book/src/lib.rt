//! What a value keeps of what its callers did, and the definitions that contracts on a book cite.
#![tactic(auto)]

mod entry;

pub use entry::HistoryEntry;

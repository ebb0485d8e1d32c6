//! Calls on banks and their histories, and the definitions that their contracts cite.
#![tactic(auto)]

mod bank;
mod bank_history;
mod lends;
mod zones;

pub use bank::{BankCall, BankEntry, BankReply, PageAt, Refusal, Span};
pub use lends::{Lends, Lent, Reach, Told};
pub use zones::{BANKS, Banked, Zones};

//! What guest memory holds, in pages that are made where they are written.
#![tactic(auto)]

mod copies;
mod edits;
mod held;
mod lists;
mod page;
mod pages;
mod reads;

pub use pages::Pages;

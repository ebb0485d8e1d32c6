//! The text of a trace: everything that happened in a run, put into an output piece by piece.
#![tactic(auto)]

mod accesses;
mod bank_texts;
mod banks;
mod calls;
mod fields;
mod lines;
mod notes;
mod pieces;
mod print_error;
mod printer;
mod replies;
mod scene;
mod sessions;

pub use print_error::PrintError;
pub use printer::print;

//! Scripts of vCPUs: read from their lines, each refusal with its line and reason, and printed.
#![tactic(auto)]

mod fields;
mod kinds;
mod labels;
mod laws;
mod lines;
mod printing;
mod reading;
mod state;
mod stop;

pub use labels::add_label;
pub use laws::{
    printed_is_read_back, reads_exactly_the_scripts, refusal_names_the_first_fault,
    refusal_names_the_first_reason, script_has_one_spelling,
};
pub use printing::{line_text, print, vcpu_line};
pub use reading::{ScriptFault, read};
pub use state::checked_line;

//! Scenarios: the scene that a text spells, or its first line that fails; and the text of a scene.
#![tactic(auto)]

mod fields;
mod laws;
mod lines;
mod meaning;
mod outside;
mod played;
mod printing;
mod reading;
mod scenario;
mod script;
mod section;
mod steps;

pub use laws::{
    reads_exactly_the_scenarios, refusal_names_the_first_reason, refusal_names_the_lowest_line,
};
pub use played::read_played;
pub use printing::print;
pub use scenario::{SceneFault, read};

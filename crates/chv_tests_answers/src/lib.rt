//! The answers to cases of calls that know nothing of the machine, those of `chv_num`, `chv_json`, `chv_config`, `chv_api`,
//! `chv_http`, `chv_script`, `chv_scene`, `chv_vcpu`, `chv_bus` and `chv_runner`; and what every kind of case is read and shown by. The cases themselves are those of
//! `chv_cases`.
//!
//! `kinds` lists the kinds of cases. `numbers`, `json`, `configs`, `calls`, `replies`, `streams`, `scripts`, `scenes`, `steps`,
//! `routes` and `slices` answer them.
//! `words` and `escapes` read what a case gives, and `answers` shows what comes.
#![tactic(auto)]

mod answers;
mod calls;
mod configs;
mod escapes;
mod json;
mod kinds;
mod numbers;
mod replies;
mod routes;
mod scenes;
mod scripts;
mod slices;
mod steps;
mod streams;
mod words;

pub use answers::allocated;
pub use configs::names_of;
pub use escapes::bytes_of;
pub use kinds::answer_to;
pub use words::{cut, found};

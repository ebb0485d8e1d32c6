//! Tests of `chv_trace` and `chv_top`, the printer of traces and the whole program: what no contract says by itself, and no
//! scenario and no case of `chv_cases` shows.
//!
//! `trace`: outputs that fail while a trace is printed. `top`: words that are not the program's, inputs and outputs that
//! fail, and an input that is too long.
#![tactic(auto)]

#[cfg(test)]
mod top;
#[cfg(test)]
mod trace;

//! Tests of `chv_set`, `chv_pages`, `chv_bank` and `chv_guest`, the crates of guest memory: what no contract says by
//! itself, and each public call once.
//!
//! `set`: small sets of blocks. `pages`: reads and writes across the edges of pages, and which pages are listed. `bank`: an
//! unplug from its pin to the next plug, and the refusals in their order; its calls are in `bank_calls`. `guest`: the banks
//! of all zones, as their owner reaches them. `lending`: two contexts to which they are lent.
#![tactic(auto)]

#[cfg(test)]
mod bank;
#[cfg(test)]
mod bank_calls;
#[cfg(test)]
mod guest;
#[cfg(test)]
mod lending;
#[cfg(test)]
mod pages;
#[cfg(test)]
mod set;

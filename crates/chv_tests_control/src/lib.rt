//! Tests of `chv_ctl_api`, `chv_ctl_mem` and `chv_control`, the crates of the control machine: what no contract says by
//! itself, and each public call once.
//!
//! `ctl_api`: calls of the API on one machine, step by step. `ctl_mem`: what a boot and a delete do to the banks of all
//! zones (those of `chv_guest`). `full_banks`: a boot and a wipe that a full bank refuses. `control`: a full book, what a
//! machine shows, a boot and a delete, and the laws.
#![tactic(auto)]

#[cfg(test)]
mod control;
#[cfg(test)]
mod ctl_api;
#[cfg(test)]
mod ctl_mem;
#[cfg(test)]
mod full_banks;

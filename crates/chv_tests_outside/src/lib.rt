//! Tests of `chv_addr`, `chv_io`, `chv_store` and `chv_session`, the crates of the outside, which know nothing of the
//! machine: what no contract says by itself, and each public call once.
//!
//! `addr`: places at the edges of runs, blocks and windows (its configurations go through `chv_config`). `io`: inputs,
//! outputs, connections and listeners, in memory and over the standard library's, with calls that fail. `streams`: the
//! latter over a reader and a writer of which each call in turn fails, is interrupted, or takes a part. `store`: a disk of
//! either kind. `session`: the replies and the end of a session, where the stream, the connection and the run end.
#![tactic(auto)]

#[cfg(test)]
mod addr;
#[cfg(test)]
mod io;
#[cfg(test)]
mod session;
#[cfg(test)]
mod store;
#[cfg(test)]
mod streams;

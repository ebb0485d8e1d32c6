//! What chv reads and writes outside: traits with a written meaning, objects in memory, and adapters of std's.
#![tactic(auto)]

mod calls;
mod disk;
mod failed;
mod link;
mod listener;
mod mem_link;
mod mem_listener;
mod mem_sink;
mod mem_source;
mod sink;
mod source;
mod std_call;
mod std_reader;
mod std_sink;
mod std_source;
mod std_writer;

pub use calls::Calls;
pub use disk::Disk;
pub use failed::Failed;
pub use link::{Link, read_from, write_to};
pub use listener::Listener;
pub use mem_link::MemLink;
pub use mem_listener::MemListener;
pub use mem_sink::MemSink;
pub use mem_source::{MemSource, copy_front};
pub use sink::Sink;
pub use source::Source;
pub use std_sink::StdSink;
pub use std_source::StdSource;

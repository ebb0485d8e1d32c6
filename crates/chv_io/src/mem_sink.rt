// A sink in memory.
ghost use Rattle.std.specs.Prelude.{◌≡◌, ◌↔◌, [], false, IsOk, IfOk};
ghost use Rattle.chv_io.specs.Outside.{Puts, HasCause};
ghost use Rattle.chv_io.specs.FailingCalls.{no_calls};
ghost use Rattle.chv_io.specs.MemSink.{put_fails, after_put};

use crate::{Calls, Failed, Sink};
use chv_defs_base::Row;
use std::alloc::{AllocError, Global};
use std::marker::Model;

/// A sink into memory, which tells what was put. Its listed calls fail, and those that would pass its room, and no
/// others. A failing call puts nothing.
#[derive(Drop)]
pub struct MemSink {
    bytes: Vec<u8>,
    room: usize,
    calls: Calls,
}

impl Model for MemSink {
    ghost use Rattle.std.specs.Prelude.{◌≤◌, vec_len, vec_capacity};
    ghost use Rattle.chv_io.specs.MemSink.{Jar};

    ghost Value = { Jar };

    ghost view = { λ s. record { written = s.bytes.items; room = s.room; calls = s.calls } };

    ghost invariant = { λ s. (vec_len s.bytes ≤ s.room) × (s.room ≤ vec_capacity s.bytes) };
}

impl MemSink {
    /// A sink with room for so many bytes in all, which is reserved here. `fail` has the numbers of its calls, counted
    /// from 1, that fail.
    pub fn new(alloc: Global, room: usize, fail: Row<u64>) -> Result<MemSink, AllocError>
        ensures { IfOk result (λ sink. sink ≡ record { written = []; room = room; calls = no_calls fail }) }
    {
        Ok(MemSink {
            bytes: Vec::with_capacity(alloc, room)?,
            room,
            calls: Calls::new(fail),
        })
    }

    /// The bytes that were put.
    pub fn written(&self) -> &[u8]
        ensures { result.now ≡ self.now.written }
    {
        self.bytes.as_slice()
    }
}

impl Sink for MemSink {
    ghost use Rattle.std.specs.Prelude.{Some};

    ghost written = { λ s. Some s.written };

    ghost write_faults = { λ s. s.calls.faults };

    fn put(&mut self, bytes: &[u8]) -> Result<(), Failed>
        ensures bytes { Puts (Some self.old.written) (Some self.new.written) bytes.now result }
        ensures cause { HasCause self.old.calls.faults self.new.calls.faults result }

        // Exactly the listed calls fail, and those that would pass the room.
        ensures answered { IsOk result ↔ (put_fails self.old bytes.now ≡ false) }
        ensures after { self.new ≡ after_put self.old bytes.now }
    {
        let failed = self.calls.is_listed() || bytes.len() > self.room - self.bytes.len();
        self.calls.count(failed);
        if failed {
            return Err(Failed);
        }
        match self.bytes.extend_from_slice(bytes) {
            Ok(()) => Ok(()),
            Err(_) => unreachable!(),
        }
    }

    fn sink_faults(&self) -> u64 {
        self.calls.faults()
    }
}

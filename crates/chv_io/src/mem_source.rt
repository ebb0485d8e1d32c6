// A source in memory.
ghost use Rattle.std.specs.Prelude.{◌≡◌, ◌<◌, ◌↔◌, ◌++◌, length, take, drop, min, false, IsOk, IfOk};
ghost use Rattle.std.specs.Io.{ReadsAtMost};
ghost use Rattle.chv_io.specs.Outside.{Takes, HasCause};
ghost use Rattle.chv_io.specs.FailingCalls.{no_calls, is_listed};
ghost use Rattle.chv_io.specs.MemSource.{after_take};

use crate::{Calls, Failed, Source};
use chv_defs_base::{Bytes, Row};
use std::marker::Model;

/// A source over bytes in memory, which tells what is left. Its listed calls fail, and no others.
#[derive(Drop)]
pub struct MemSource {
    bytes: Bytes,
    taken: usize,
    calls: Calls,
}

impl Model for MemSource {
    ghost use Rattle.std.specs.Prelude.{◌≤◌, length, drop};
    ghost use Rattle.chv_io.specs.MemSource.{Feed};

    ghost Value = { Feed };

    ghost view = { λ s. record { left = drop s.taken s.bytes; calls = s.calls } };

    ghost invariant = { λ s. s.taken ≤ length s.bytes };
}

/// Copies what fits to the front of a buffer, and says how many bytes that is: what a `take` of a source that holds its
/// bytes does. Takes no memory.
pub fn copy_front(from: &[u8], to: &mut [u8]) -> usize
    ensures count { result ≡ min (length to.old) (length from.now) }
    ensures copied { to.new ≡ take result from.now ++ drop result to.old }
{
    let count = to.len().min(from.len());
    to[..count].copy_from_slice(&from[..count]);
    count
}

impl MemSource {
    /// A source of these bytes. `fail` has the numbers of its calls, counted from 1, that fail. Takes no memory.
    pub fn new(bytes: Bytes, fail: Row<u64>) -> MemSource
        ensures { result ≡ record { left = bytes; calls = no_calls fail } }
    {
        MemSource {
            bytes,
            taken: 0,
            calls: Calls::new(fail),
        }
    }
}

impl Source for MemSource {
    ghost use Rattle.std.specs.Prelude.{Some};

    ghost left = { λ s. Some s.left };

    ghost read_faults = { λ s. s.calls.faults };

    fn take(&mut self, buf: &mut [u8]) -> Result<usize, Failed>
        requires { 0 < length buf.old }
        ensures bytes { Takes (Some self.old.left) (Some self.new.left) buf.new result }
        ensures bound { ReadsAtMost result buf.new }
        ensures cause { HasCause self.old.calls.faults self.new.calls.faults result }

        // Exactly the listed calls fail, and every other gives as much as fits.
        ensures answered { IsOk result ↔ (is_listed self.old.calls ≡ false) }
        ensures count { IfOk result (λ n. n ≡ min (length buf.old) (length self.old.left)) }
        ensures after { self.new ≡ after_take self.old (length buf.old) }
    {
        self.calls.answer()?;
        let count = copy_front(&self.bytes.as_slice()[self.taken..], buf);
        self.taken += count;
        Ok(count)
    }

    fn source_faults(&self) -> u64 {
        self.calls.faults()
    }
}

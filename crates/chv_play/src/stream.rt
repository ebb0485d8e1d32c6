// The stream of a session that is played.
ghost use Rattle.std.specs.Prelude.{◌≡◌, ◌<◌, ◌-◌, ◌^◌, length, drop, min, false, None, Some, IsOk, IfOk};
ghost use Rattle.std.specs.Io.{ReadsAtMost};
ghost use Rattle.chv_io.specs.Outside.{Takes, Puts, HasCause};
ghost use Rattle.chv_io.specs.Links.{ReadLeaves, WriteLeaves, KeepsOther, Fills};

use chv_io::{Failed, Link, Sink, Source, copy_front};
use std::marker::Model;

/// The connection of a session that is played: the bytes of its requests are there from the start, a read gives as much
/// as fits, and what is put is not kept. It never fails, and takes no memory.
#[derive(Drop)]
pub(crate) struct StreamLink {
    bytes: Vec<u8>,
    taken: usize,
    is_closed: bool,
}

impl Model for StreamLink {
    ghost use Rattle.std.specs.Prelude.{◌≤◌, vec_len, drop};
    ghost use Rattle.chv_play.specs.Stream.{Stream};

    ghost Value = { Stream };

    ghost view = { λ s. record { left = drop s.taken s.bytes.items; closed = s.is_closed } };

    ghost invariant = { λ s. s.taken ≤ vec_len s.bytes };
}

impl StreamLink {
    /// A stream of these bytes.
    pub(crate) fn new(bytes: Vec<u8>) -> StreamLink
        ensures { result ≡ record { left = bytes.items; closed = false } }
    {
        StreamLink {
            bytes,
            taken: 0,
            is_closed: false,
        }
    }
}

impl Source for StreamLink {
    ghost use Rattle.std.specs.Prelude.{◌-◌, ◌^◌, None, Some, length};
    ghost use Rattle.chv_io.specs.Links.{ReadLeaves, KeepsOther, Fills};

    ghost left = { λ s. Some s.left };

    ghost read_faults = { λ _. 0 };

    ghost on_take = { λ a b buffer result. ReadLeaves None None a.closed b.closed 0 0 × KeepsOther 0 0 result
        × Fills (Some a.left) (Some (2 ^ 64 - 1)) (Some (2 ^ 64 - 1)) (length buffer) result };

    fn take(&mut self, buf: &mut [u8]) -> Result<usize, Failed>
        requires { 0 < length buf.old }
        ensures bytes { Takes (Some self.old.left) (Some self.new.left) buf.new result }
        ensures bound { ReadsAtMost result buf.new }
        ensures cause { HasCause 0 0 result }
        ensures also { ReadLeaves None None self.old.closed self.new.closed 0 0 × KeepsOther 0 0 result
            × Fills (Some self.old.left) (Some (2 ^ 64 - 1)) (Some (2 ^ 64 - 1)) (length buf.new) result }
        ensures answered { IsOk result }
        ensures count { IfOk result (λ n. n ≡ min (length buf.old) (length self.old.left)) }
    {
        let count = copy_front(&self.bytes.as_slice()[self.taken..], buf);
        self.taken += count;
        Ok(count)
    }

    fn source_faults(&self) -> u64 {
        0
    }
}

impl Sink for StreamLink {
    ghost use Rattle.std.specs.Prelude.{None, Some};
    ghost use Rattle.chv_io.specs.Links.{WriteLeaves, KeepsOther};

    ghost written = { λ _. None };

    ghost write_faults = { λ _. 0 };

    ghost on_put = { λ a b result. WriteLeaves (Some a.left) (Some b.left) None None a.closed b.closed 0 0
        × KeepsOther 0 0 result };

    fn put(&mut self, _bytes: &[u8]) -> Result<(), Failed>
        ensures bytes { Puts None None _bytes.now result }
        ensures cause { HasCause 0 0 result }
        ensures also { WriteLeaves (Some self.old.left) (Some self.new.left) None None self.old.closed self.new.closed 0 0
            × KeepsOther 0 0 result }
        ensures answered { IsOk result }
    {
        Ok(())
    }

    fn sink_faults(&self) -> u64 {
        0
    }
}

impl Link for StreamLink {
    ghost use Rattle.std.specs.Prelude.{◌≡◌, ◌-◌, ◌^◌, None, Some, true};
    ghost use Rattle.std.proofs.Common.{refl};

    ghost gave = { λ _. None };

    ghost closed = { λ s. s.closed };

    ghost most = { λ _. Some (2 ^ 64 - 1) };

    ghost gives = { λ before after buffer result also. refl };

    ghost read_leaves = { λ before after buffer result also. also.0 };

    ghost read_keeps = { λ before after buffer result also. also.1 };

    ghost fills = { λ before after buffer result also. also.2 };

    ghost write_leaves = { λ before after result also. also.0 };

    ghost write_keeps = { λ before after result also. also.1 };

    ghost most_stays = { λ before after result also. refl };

    fn close(&mut self)
        ensures { self.new ≡ record self.old { closed = true } }
    {
        self.is_closed = true;
    }
}

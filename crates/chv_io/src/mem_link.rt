// A connection in memory.
ghost use Rattle.std.specs.Prelude.{◌≡◌, ◌<◌, ◌≤◌, ◌↔◌, [], length, take, min, false, IsOk, IfOk, OnErr};
ghost use Rattle.std.specs.Io.{ReadsAtMost};
ghost use Rattle.chv_io.specs.Outside.{Takes, Puts, HasCause};
ghost use Rattle.chv_io.specs.Links.{Gives, ReadLeaves, WriteLeaves, KeepsOther, Fills};
ghost use Rattle.chv_io.specs.FailingCalls.{no_calls, is_listed};
ghost use Rattle.chv_io.specs.MemSink.{put_fails};
ghost use Rattle.chv_io.specs.MemLink.{after_read, after_write, jar_of};

use crate::mem_source::copy_front;
use crate::{Calls, Failed, Link, Sink, Source};
use chv_defs_base::{Bytes, Row};
use std::alloc::{AllocError, Global};
use std::marker::Model;

/// A connection in memory, which tells all. A read gives at most one piece. The listed ones of its reads and writes
/// fail, and writes that would pass its room, and no others; its two counts of faults are one count of both. A failing
/// call gives and puts nothing.
#[derive(Drop)]
pub struct MemLink {
    incoming: Bytes,
    taken: usize,
    outgoing: Vec<u8>,
    piece: usize,
    room: usize,
    is_closed: bool,
    calls: Calls,
}

impl Model for MemLink {
    ghost use Rattle.std.specs.Prelude.{◌<◌, ◌≤◌, length, take, drop, vec_len, vec_capacity};
    ghost use Rattle.chv_io.specs.MemLink.{Wire};

    ghost Value = { Wire };

    ghost view = { λ l. record {
      left = drop l.taken l.incoming;
      gave = take l.taken l.incoming;
      written = l.outgoing.items;
      piece = l.piece;
      room = l.room;
      closed = l.is_closed;
      calls = l.calls;
    } };

    ghost invariant = { λ l. (0 < l.piece) × (l.taken ≤ length l.incoming) × (vec_len l.outgoing ≤ l.room)
        × (l.room ≤ vec_capacity l.outgoing) };
}

/// Copies what fits to the front of a buffer, but at most so many bytes, and says how many that is.
fn copy_piece(from: &[u8], most: usize, to: &mut [u8]) -> usize
    ensures count { result ≡ min (min most (length to.old)) (length from.now) }
    ensures copied { take result to.new ≡ take result from.now }
{
    let size = most.min(to.len());
    copy_front(from, &mut to[..size])
}

impl MemLink {
    /// A connection that has these bytes to give, at most `piece` in one read, and room for so many bytes in all, which
    /// is reserved here. `fail` has the numbers of those reads and writes, counted from 1, that fail.
    pub fn new(
        alloc: Global,
        bytes: Bytes,
        piece: usize,
        room: usize,
        fail: Row<u64>,
    ) -> Result<MemLink, AllocError>
        requires { 0 < piece }
        ensures { IfOk result (λ link. link ≡ record {
          left = bytes;
          gave = [];
          written = [];
          piece = piece;
          room = room;
          closed = false;
          calls = no_calls fail;
        }) }
    {
        Ok(MemLink {
            incoming: bytes,
            taken: 0,
            outgoing: Vec::with_capacity(alloc, room)?,
            piece,
            room,
            is_closed: false,
            calls: Calls::new(fail),
        })
    }

    /// The bytes that were put.
    pub fn written(&self) -> &[u8]
        ensures { result.now ≡ self.now.written }
    {
        self.outgoing.as_slice()
    }

    /// Whether the connection was closed.
    pub fn is_closed(&self) -> bool
        ensures { result ≡ self.now.closed }
    {
        self.is_closed
    }
}

impl Source for MemLink {
    ghost use Rattle.std.specs.Prelude.{Some, length};
    ghost use Rattle.chv_io.specs.Links.{Gives, ReadLeaves, KeepsOther, Fills};

    ghost left = { λ l. Some l.left };

    ghost read_faults = { λ l. l.calls.faults };

    ghost on_take = { λ a b buffer result. Gives (Some a.gave) (Some b.gave) buffer result
        × ReadLeaves (Some a.written) (Some b.written) a.closed b.closed a.calls.faults b.calls.faults
        × KeepsOther a.calls.faults b.calls.faults result
        × Fills (Some a.left) (Some a.piece) (Some b.piece) (length buffer) result };

    fn take(&mut self, buf: &mut [u8]) -> Result<usize, Failed>
        requires { 0 < length buf.old }
        ensures bytes { Takes (Some self.old.left) (Some self.new.left) buf.new result }
        ensures bound { ReadsAtMost result buf.new }
        ensures cause { HasCause self.old.calls.faults self.new.calls.faults result }
        ensures also { Gives (Some self.old.gave) (Some self.new.gave) buf.new result
            × ReadLeaves (Some self.old.written) (Some self.new.written) self.old.closed self.new.closed
            self.old.calls.faults self.new.calls.faults
            × KeepsOther self.old.calls.faults self.new.calls.faults result
            × Fills (Some self.old.left) (Some self.old.piece) (Some self.new.piece) (length buf.new) result }

        // Exactly the listed calls fail, and every other gives as much as fits and one piece has.
        ensures answered { IsOk result ↔ (is_listed self.old.calls ≡ false) }
        ensures count { IfOk result (λ n. n ≡ min (min self.old.piece (length buf.old)) (length self.old.left)) }
        ensures after { self.new ≡ after_read self.old (length buf.old) }
    {
        self.calls.answer()?;
        let count = copy_piece(&self.incoming.as_slice()[self.taken..], self.piece, buf);
        self.taken += count;
        Ok(count)
    }

    fn source_faults(&self) -> u64 {
        self.calls.faults()
    }
}

impl Sink for MemLink {
    ghost use Rattle.std.specs.Prelude.{◌≡◌, Some};
    ghost use Rattle.chv_io.specs.Links.{WriteLeaves, KeepsOther};

    ghost written = { λ l. Some l.written };

    ghost write_faults = { λ l. l.calls.faults };

    ghost on_put = { λ a b result. WriteLeaves (Some a.left) (Some b.left) (Some a.gave) (Some b.gave) a.closed b.closed
        a.calls.faults b.calls.faults × KeepsOther a.calls.faults b.calls.faults result
        × (Some b.piece ≡ Some a.piece) };

    fn put(&mut self, bytes: &[u8]) -> Result<(), Failed>
        ensures bytes { Puts (Some self.old.written) (Some self.new.written) bytes.now result }
        ensures cause { HasCause self.old.calls.faults self.new.calls.faults result }
        ensures also { WriteLeaves (Some self.old.left) (Some self.new.left) (Some self.old.gave) (Some self.new.gave)
            self.old.closed self.new.closed self.old.calls.faults self.new.calls.faults
            × KeepsOther self.old.calls.faults self.new.calls.faults result
            × (Some self.new.piece ≡ Some self.old.piece) }

        // Exactly the listed calls fail, and those that would pass the room.
        ensures answered { IsOk result ↔ (put_fails (jar_of self.old) bytes.now ≡ false) }
        ensures after { self.new ≡ after_write self.old bytes.now }
    {
        let failed = self.calls.is_listed() || bytes.len() > self.room - self.outgoing.len();
        self.calls.count(failed);
        if failed {
            return Err(Failed);
        }
        match self.outgoing.extend_from_slice(bytes) {
            Ok(()) => Ok(()),
            Err(_) => unreachable!(),
        }
    }

    fn sink_faults(&self) -> u64 {
        self.calls.faults()
    }
}

impl Link for MemLink {
    ghost use Rattle.std.specs.Prelude.{◌≡◌, Some, true};

    ghost gave = { λ l. Some l.gave };

    ghost closed = { λ l. l.closed };

    ghost most = { λ l. Some l.piece };

    ghost gives = { λ before after buffer result also. also.0 };

    ghost read_leaves = { λ before after buffer result also. also.1 };

    ghost read_keeps = { λ before after buffer result also. also.2 };

    ghost fills = { λ before after buffer result also. also.3 };

    ghost write_leaves = { λ before after result also. also.0 };

    ghost write_keeps = { λ before after result also. also.1 };

    ghost most_stays = { λ before after result also. also.2 };

    fn close(&mut self)
        ensures { self.new ≡ record self.old { closed = true } }
    {
        self.is_closed = true;
    }
}

// Connections.
ghost use Rattle.std.specs.Prelude.{◌≡◌, ◌<◌, ℕ, List, Bool, true, Option, Result, length};
ghost use Rattle.std.specs.Io.{ReadsAtMost};
ghost use Rattle.chv_io.specs.Outside.{Takes, Puts, HasCause};
ghost use Rattle.chv_io.specs.Links.{Gives, ReadLeaves, WriteLeaves, KeepsOther, Fills};
ghost use Rattle.chv_io.specs.declared.failed.Failed.{Failed};

use crate::{Failed, Sink, Source};

/// A connection: bytes that come, bytes that go, and an end. Its calls are those of a source and of a sink, and
/// `read_from` and `write_to` say all that these do to a connection.
pub trait Link: Source + Sink {
    /// The bytes that it gave, where it tells them.
    ghost gave: { Self → Option (List ℕ) };

    /// Whether it was closed.
    ghost closed: { Self → Bool };

    /// The most bytes that one read gives, where it tells that.
    ghost most: { Self → Option ℕ };

    /// Ends the connection. This cannot fail, and changes nothing else that the connection tells.
    fn close(&mut self)
        ensures closed { closed self.new ≡ true }
        ensures left { Self.left self.new ≡ Self.left self.old }
        ensures gave { gave self.new ≡ gave self.old }
        ensures most { most self.new ≡ most self.old }
        ensures written { Self.written self.new ≡ Self.written self.old }
        ensures read_faults { Self.read_faults self.new ≡ Self.read_faults self.old }
        ensures write_faults { Self.write_faults self.new ≡ Self.write_faults self.old };

    /// A read adds its bytes to those that were given.
    ghost gives: { (before after : Self) (buffer : List ℕ) (result : Result ℕ Failed)
        → Self.on_take before after buffer result → Gives (gave before) (gave after) buffer result };

    /// A read leaves what was put, and whether the connection is closed.
    ghost read_leaves: { (before after : Self) (buffer : List ℕ) (result : Result ℕ Failed)
        → Self.on_take before after buffer result
        → ReadLeaves (Self.written before) (Self.written after) (closed before) (closed after)
        (Self.write_faults before) (Self.write_faults after) };

    /// An answered read leaves the count of write faults.
    ghost read_keeps: { (before after : Self) (buffer : List ℕ) (result : Result ℕ Failed)
        → Self.on_take before after buffer result
        → KeepsOther (Self.write_faults before) (Self.write_faults after) result };

    /// A read gives as much as fits, and as one read gives, where the connection tells that, and leaves how much that is.
    ghost fills: { (before after : Self) (buffer : List ℕ) (result : Result ℕ Failed)
        → Self.on_take before after buffer result
        → Fills (Self.left before) (most before) (most after) (length buffer) result };

    /// A write leaves what is left and what was given, and whether the connection is closed.
    ghost write_leaves: { (before after : Self) (result : Result (Unit {0}) Failed) → Self.on_put before after result
        → WriteLeaves (Self.left before) (Self.left after) (gave before) (gave after) (closed before) (closed after)
        (Self.read_faults before) (Self.read_faults after) };

    /// An answered write leaves the count of read faults.
    ghost write_keeps: { (before after : Self) (result : Result (Unit {0}) Failed) → Self.on_put before after result
        → KeepsOther (Self.read_faults before) (Self.read_faults after) result };

    /// A write leaves how much one read gives.
    ghost most_stays: { (before after : Self) (result : Result (Unit {0}) Failed) → Self.on_put before after result
        → most after ≡ most before };
}

/// `take` of a connection, with all that it does to one.
pub fn read_from<L: Link>(link: &mut L, buf: &mut [u8]) -> Result<usize, Failed>
    requires { 0 < length buf.old }
    ensures bytes { Takes (L.left link.old) (L.left link.new) buf.new result }
    ensures bound { ReadsAtMost result buf.new }
    ensures cause { HasCause (L.read_faults link.old) (L.read_faults link.new) result }
    ensures gives { Gives (L.gave link.old) (L.gave link.new) buf.new result }
    ensures fills { Fills (L.left link.old) (L.most link.old) (L.most link.new) (length buf.old) result }
    ensures leaves { ReadLeaves (L.written link.old) (L.written link.new) (L.closed link.old) (L.closed link.new)
        (L.write_faults link.old) (L.write_faults link.new) }
    ensures kept { KeepsOther (L.write_faults link.old) (L.write_faults link.new) result }
{
    link.take(buf)
}

/// `put` of a connection, with all that it does to one.
pub fn write_to<L: Link>(link: &mut L, bytes: &[u8]) -> Result<(), Failed>
    ensures bytes { Puts (L.written link.old) (L.written link.new) bytes.now result }
    ensures cause { HasCause (L.write_faults link.old) (L.write_faults link.new) result }
    ensures leaves { WriteLeaves (L.left link.old) (L.left link.new) (L.gave link.old) (L.gave link.new)
        (L.closed link.old) (L.closed link.new) (L.read_faults link.old) (L.read_faults link.new) }
    ensures kept { KeepsOther (L.read_faults link.old) (L.read_faults link.new) result }
    ensures most { L.most link.new ≡ L.most link.old }
{
    link.put(bytes)
}

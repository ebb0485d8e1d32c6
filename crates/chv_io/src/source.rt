// Where bytes come from.
ghost use Rattle.std.specs.Prelude.{◌≡◌, ◌<◌, ℕ, List, Option, Result, length};
ghost use Rattle.std.specs.Io.{ReadsAtMost};
ghost use Rattle.chv_io.specs.Outside.{Takes, HasCause};
ghost use Rattle.chv_io.specs.declared.failed.Failed.{Failed};

use crate::Failed;

/// An input of bytes, which counts its faults.
pub trait Source {
    /// The bytes that are left to take, where the object tells them.
    ghost left: { Self → Option (List ℕ) };

    /// How many faults there were.
    ghost read_faults: { Self → ℕ };

    /// What else a read does, for an object that is more than a source: before, after, buffer and answer.
    ghost on_take: { Self → Self → List ℕ → Result ℕ Failed → Type 0 } = { λ _ _ _ _. Unit {0} };

    /// Moves the first bytes of what is left into the front of the buffer, says how many, and leaves the count of faults.
    /// 0 comes exactly where nothing is left. After `Failed` the count rose, and what is left is as before.
    fn take(&mut self, buf: &mut [u8]) -> Result<usize, Failed>
        requires { 0 < length buf.old }
        ensures bytes { Takes (left self.old) (left self.new) buf.new result }
        ensures bound { ReadsAtMost result buf.new }
        ensures cause { HasCause (read_faults self.old) (read_faults self.new) result }
        ensures also { on_take self.old self.new buf.new result };

    /// How many faults there were. The count stands still at its type's end.
    fn source_faults(&self) -> u64
        ensures { result ≡ read_faults self.now };
}

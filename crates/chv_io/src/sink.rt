// Where bytes go.
ghost use Rattle.std.specs.Prelude.{◌≡◌, ℕ, List, Option, Result};
ghost use Rattle.chv_io.specs.Outside.{Puts, HasCause};
ghost use Rattle.chv_io.specs.declared.failed.Failed.{Failed};

use crate::Failed;

/// An output of bytes, which counts its faults.
pub trait Sink {
    /// The bytes that were put, where the object tells them.
    ghost written: { Self → Option (List ℕ) };

    /// How many faults there were.
    ghost write_faults: { Self → ℕ };

    /// What else a write leaves, for an object that is more than a sink: before, after and answer.
    ghost on_put: { Self → Self → Result (Unit {0}) Failed → Type 0 } = { λ _ _ _. Unit {0} };

    /// Appends all bytes, and leaves the count of faults. After `Failed` that rose, and a first part of the bytes was
    /// appended.
    fn put(&mut self, bytes: &[u8]) -> Result<(), Failed>
        ensures bytes { Puts (written self.old) (written self.new) bytes.now result }
        ensures cause { HasCause (write_faults self.old) (write_faults self.new) result }
        ensures also { on_put self.old self.new result };

    /// How many faults there were. The count stands still at its type's end.
    fn sink_faults(&self) -> u64
        ensures { result ≡ write_faults self.now };
}

// A writer of std whose faults are counted.
ghost use Rattle.std.specs.Prelude.{◌≡◌, ◌≤◌, true, false, length, IfOk, IfSome};
ghost use Rattle.std.specs.Io.KnownBytes.{Keeps};
ghost use Rattle.chv_io.specs.Wrapped.{CountsFault, CountsOne, WritesOnce};

use crate::Failed;
use crate::std_call::{fault, judge};
use std::io::Write;
use std::marker::Model;

/// A writer, each of whose errors is counted where it comes, but for interruptions. Nothing else reaches the writer.
#[derive(Drop)]
pub(crate) struct CountedWriter<W> {
    inner: W,
    faults: u64,
    /// Whether it was written to since the last flush that was answered.
    waits: bool,
}

impl<W> Model for CountedWriter<W> {
    ghost use Rattle.chv_io.specs.Wrapped.{Writing};

    ghost Value = { Writing W };

    ghost view = { λ w. record { inner = w.inner; faults = w.faults; waits = w.waits } };
}

impl<W> CountedWriter<W> {
    /// A writer with no faults yet, to which nothing was written.
    pub(crate) fn new(inner: W) -> CountedWriter<W>
        ensures { result ≡ record { inner = inner; faults = 0; waits = false } }
    {
        CountedWriter {
            inner,
            faults: 0,
            waits: false,
        }
    }

    /// Counts a fault that no error told of.
    pub(crate) fn fail(&mut self) -> Failed
        ensures inner { self.new.inner ≡ self.old.inner }
        ensures counted { CountsOne self.old.faults self.new.faults }
    {
        fault(&mut self.faults)
    }

    /// How many faults there were.
    pub(crate) fn faults(&self) -> u64
        ensures { result ≡ self.now.faults }
    {
        self.faults
    }
}

impl<W: Write> CountedWriter<W> {
    /// One write: how many bytes were taken, or none where it was interrupted. They may wait in the writer then.
    pub(crate) fn write(&mut self, piece: &[u8]) -> Result<Option<usize>, Failed>
        ensures bound { IfOk result (λ came. IfSome came (λ n. n ≤ length piece.now)) }
        ensures given { WritesOnce (W.contents self.old.inner) (W.contents self.new.inner) result piece.now }
        ensures counted { CountsFault self.old.faults self.new.faults result }
        ensures waits { self.new.waits ≡ true }
    {
        self.waits = true;
        judge(self.inner.write(piece), &mut self.faults)
    }

    /// One flush: whether it was answered, and not interrupted. Nothing waits in the writer behind one that was answered.
    pub(crate) fn flush(&mut self) -> Result<bool, Failed>
        ensures given { Keeps (W.contents self.old.inner) (W.contents self.new.inner) }
        ensures counted { CountsFault self.old.faults self.new.faults result }
        ensures flushed { IfOk result (λ answered. answered ≡ true → self.new.waits ≡ false) }
    {
        let answered = judge(self.inner.flush(), &mut self.faults)?.is_some();
        if answered {
            self.waits = false;
        }
        Ok(answered)
    }
}

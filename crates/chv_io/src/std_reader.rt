// A reader of std whose faults are counted.
ghost use Rattle.std.specs.Prelude.{◌≡◌, ◌≤◌, length, IfOk, IfSome};
ghost use Rattle.chv_io.specs.Wrapped.{CountsFault, CountsOne, ReadsOnce};

use crate::Failed;
use crate::std_call::{fault, judge};
use std::io::Read;
use std::marker::Model;

/// A reader, each of whose errors is counted where it comes, but for interruptions. Nothing else reaches the reader.
#[derive(Drop)]
pub(crate) struct CountedReader<R> {
    inner: R,
    faults: u64,
}

impl<R> Model for CountedReader<R> {
    ghost use Rattle.chv_io.specs.Wrapped.{Reading};

    ghost Value = { Reading R };

    ghost view = { λ r. record { inner = r.inner; faults = r.faults } };
}

impl<R> CountedReader<R> {
    /// A reader with no faults yet.
    pub(crate) fn new(inner: R) -> CountedReader<R>
        ensures { result ≡ record { inner = inner; faults = 0 } }
    {
        CountedReader { inner, faults: 0 }
    }

    /// Counts a fault that no error told of.
    pub(crate) fn fail(&mut self) -> Failed
        ensures inner { self.new.inner ≡ self.old.inner }
        ensures counted { CountsOne self.old.faults self.new.faults }
    {
        fault(&mut self.faults)
    }

    /// How many faults there were.
    pub(crate) fn faults(&self) -> u64
        ensures { result ≡ self.now.faults }
    {
        self.faults
    }
}

impl<R: Read> CountedReader<R> {
    /// One read: how many bytes came, or none where it was interrupted.
    pub(crate) fn read(&mut self, buf: &mut [u8]) -> Result<Option<usize>, Failed>
        ensures bound { IfOk result (λ came. IfSome came (λ n. n ≤ length buf.new)) }
        ensures given { ReadsOnce (R.remaining self.old.inner) (R.remaining self.new.inner) result buf.new }
        ensures counted { CountsFault self.old.faults self.new.faults result }
    {
        judge(self.inner.read(buf), &mut self.faults)
    }
}

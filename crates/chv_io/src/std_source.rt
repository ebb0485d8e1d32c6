// A source over a reader of std.
ghost use Rattle.std.specs.Prelude.{◌≡◌, ◌<◌, None, length};
ghost use Rattle.std.specs.Io.{ReadsAtMost};
ghost use Rattle.std.specs.Io.KnownBytes.{ReadConsumes};
ghost use Rattle.chv_io.specs.Outside.{Takes, HasCause};
ghost use Rattle.chv_io.specs.Wrapped.{CountsFault};

use crate::std_call::TRIES;
use crate::std_reader::CountedReader;
use crate::{Failed, Source};
use std::io::Read;
use std::marker::Model;

/// A source over a reader, such as standard input or a file. It tells nothing of what is left. A read that was interrupted
/// is tried again; every other error is a fault at once, and so is a read that is interrupted too often.
#[derive(Drop)]
pub struct StdSource<R> {
    reader: CountedReader<R>,
}

impl<R> Model for StdSource<R> {
    ghost use Rattle.chv_io.specs.Wrapped.{Reading};

    ghost Value = { Reading R };

    ghost view = { λ s. s.reader };
}

/// One read, tried again where it was interrupted.
fn read_retrying<R: Read>(reader: &mut CountedReader<R>, buf: &mut [u8]) -> Result<usize, Failed>
    ensures bound { ReadsAtMost result buf.new }
    ensures given { ReadConsumes (R.remaining reader.old.inner) (R.remaining reader.new.inner) result buf.new }
    ensures counted { CountsFault reader.old.faults reader.new.faults result }
{
    for _ in 0..TRIES {
        if let Some(count) = reader.read(buf)? {
            return Ok(count);
        }
    }
    Err(reader.fail())
}

impl<R> StdSource<R> {
    /// A source over a reader, with no faults yet.
    pub fn new(inner: R) -> StdSource<R>
        ensures { result ≡ record { inner = inner; faults = 0 } }
    {
        StdSource {
            reader: CountedReader::new(inner),
        }
    }
}

impl<R: Read> Source for StdSource<R> {
    ghost left = { λ _. None };

    ghost read_faults = { λ s. s.faults };

    fn take(&mut self, buf: &mut [u8]) -> Result<usize, Failed>
        requires { 0 < length buf.old }
        ensures bytes { Takes None None buf.new result }
        ensures bound { ReadsAtMost result buf.new }
        ensures cause { HasCause self.old.faults self.new.faults result }

        // A failure is one fault, and an answer none.
        ensures counted { CountsFault self.old.faults self.new.faults result }

        // Where the reader tells its bytes, these are they.
        ensures given { ReadConsumes (R.remaining self.old.inner) (R.remaining self.new.inner) result buf.new }
    {
        read_retrying(&mut self.reader, buf)
    }

    fn source_faults(&self) -> u64 {
        self.reader.faults()
    }
}

// A sink over a writer of std.
ghost use Rattle.std.specs.Prelude.{◌≡◌, ◌<◌, ◌≤◌, false, None, IfOk, OnOk, length};
ghost use Rattle.std.specs.Io.KnownBytes.{Keeps, WriteAppends};
ghost use Rattle.chv_io.specs.Outside.{Puts, HasCause};
ghost use Rattle.chv_io.specs.Wrapped.{CountsFault, WritesThrough};

use crate::std_call::TRIES;
use crate::std_writer::CountedWriter;
use crate::{Failed, Sink};
use std::io::Write;
use std::marker::Model;

/// A sink over a writer, such as standard output or a file. It tells nothing of what was put. Each `put` also flushes the
/// writer, so that bytes answered `Ok` do not wait in its buffer. A write or a flush that was interrupted is tried again;
/// every other error is a fault at once, and so is a call that is interrupted too often, or a write that takes nothing.
#[derive(Drop)]
pub struct StdSink<W> {
    writer: CountedWriter<W>,
}

impl<W> Model for StdSink<W> {
    ghost use Rattle.chv_io.specs.Wrapped.{Writing};

    ghost Value = { Writing W };

    ghost view = { λ s. s.writer };
}

/// Writes some bytes of a piece that is not empty, and says how many.
fn write_some<W: Write>(writer: &mut CountedWriter<W>, piece: &[u8]) -> Result<usize, Failed>
    ensures progress { IfOk result (λ n. 0 < n) }
    ensures bound { IfOk result (λ n. n ≤ length piece.now) }
    ensures given { WriteAppends (W.contents writer.old.inner) (W.contents writer.new.inner) result piece.now }
    ensures counted { CountsFault writer.old.faults writer.new.faults result }
{
    for _ in 0..TRIES {
        match writer.write(piece)? {
            Some(0) => return Err(writer.fail()),
            Some(count) => return Ok(count),
            None => {}
        }
    }
    Err(writer.fail())
}

/// Hands on what waits in the writer's buffer.
fn flush<W: Write>(writer: &mut CountedWriter<W>) -> Result<(), Failed>
    ensures given { Keeps (W.contents writer.old.inner) (W.contents writer.new.inner) }
    ensures counted { CountsFault writer.old.faults writer.new.faults result }
    ensures flushed { OnOk result (writer.new.waits ≡ false) }
{
    for _ in 0..TRIES {
        if writer.flush()? {
            return Ok(());
        }
    }
    Err(writer.fail())
}

/// Writes all bytes, and flushes.
fn write_through<W: Write>(writer: &mut CountedWriter<W>, bytes: &[u8]) -> Result<(), Failed>
    ensures given { WritesThrough (W.contents writer.old.inner) (W.contents writer.new.inner) bytes.now result }
    ensures counted { CountsFault writer.old.faults writer.new.faults result }
    ensures flushed { OnOk result (writer.new.waits ≡ false) }
{
    let mut done = 0;
    while done < bytes.len() {
        done += write_some(writer, &bytes[done..])?;
    }
    flush(writer)
}

impl<W> StdSink<W> {
    /// A sink over a writer, with no faults yet.
    pub fn new(inner: W) -> StdSink<W>
        ensures { result ≡ record { inner = inner; faults = 0; waits = false } }
    {
        StdSink {
            writer: CountedWriter::new(inner),
        }
    }
}

impl<W: Write> Sink for StdSink<W> {
    ghost written = { λ _. None };

    ghost write_faults = { λ s. s.faults };

    fn put(&mut self, bytes: &[u8]) -> Result<(), Failed>
        ensures bytes { Puts None None bytes.now result }
        ensures cause { HasCause self.old.faults self.new.faults result }

        // A failure is one fault, and an answer none.
        ensures counted { CountsFault self.old.faults self.new.faults result }

        // Where the writer tells what it holds, that grows by these bytes.
        ensures given { WritesThrough (W.contents self.old.inner) (W.contents self.new.inner) bytes.now result }

        // A flush behind the last write was answered.
        ensures flushed { OnOk result (self.new.waits ≡ false) }
    {
        write_through(&mut self.writer, bytes)
    }

    fn sink_faults(&self) -> u64 {
        self.writer.faults()
    }
}

ghost use Rattle.std.specs.Prelude.{◌≡◌, All, IfOk, None};
ghost use Rattle.chv_io.specs.MemListener.{IsFresh};

use chv_defs_base::{Bytes, Row};
use chv_io::{
    Failed, Link, Listener, MemLink, MemListener, MemSink, MemSource, Sink, Source, StdSink,
    StdSource, read_from, write_to,
};
use chv_tests_samples::numbers;
use chv_tests_steps::step;
use std::alloc::{AllocError, Global};
use std::io::{Error, ErrorKind, Read, Write};
use std::test::Fail;

/// Whether a read came so: with these bytes, of which there are none at the end, or as a fault.
fn is_piece(came: Result<usize, Failed>, buf: &[u8], piece: Option<&[u8]>) -> bool {
    match (came, piece) {
        (Ok(count), Some(bytes)) => bytes.len() == count && buf.starts_with(bytes),
        (Err(Failed), None) => true,
        _ => false,
    }
}

/// Whether reads of up to three bytes come so, one after another.
fn gives<S: Source>(source: &mut S, pieces: &[Option<&[u8]>]) -> bool {
    let mut buf = [0; 3];
    for piece in pieces {
        let came = source.take(&mut buf);
        if !is_piece(came, &buf, *piece) {
            return false;
        }
    }
    true
}

/// Puts three pieces, says for each whether it was taken, and then how many faults there were.
fn fill<K: Sink>(sink: &mut K) -> ([bool; 3], u64) {
    let first = sink.put(b"ab").is_ok();
    let second = sink.put(b"cdef").is_ok();
    let third = sink.put(b"g").is_ok();
    ([first, second, third], sink.sink_faults())
}

/// Listens, and asks for two connections; says for each call whether it was answered, and then how many faults there were.
fn accept<L: Listener>(listener: &mut L) -> ([bool; 3], u64)
    requires { L.listens_on listener.old ≡ None }
{
    if listener.listen(80).is_err() {
        return ([false; 3], listener.listen_faults());
    }
    let first = listener.accept().is_ok();
    let second = listener.accept().is_ok();
    ([true, first, second], listener.listen_faults())
}

/// One connection.
fn links(alloc: Global) -> Result<Vec<MemLink>, AllocError>
    ensures { IfOk result (λ links. All IsFresh links.items) }
{
    let mut links = Vec::new(alloc);
    links.push(MemLink::new(alloc, Bytes::of(alloc, b"x")?, 1, 0, Row::empty(alloc))?)?;
    Ok(links)
}

/// The same of a listener with one connection to give. The numbers are those of the calls that fail.
fn serve(alloc: Global, fail: &[u64]) -> Result<([bool; 3], u64), AllocError> {
    let mut listener = MemListener::new(links(alloc)?, numbers(alloc, fail)?);
    Ok(accept(&mut listener))
}

/// Interrupted, then one byte, then an error.
#[derive(Drop)]
struct Shaky {
    calls: u32,
}

impl Read for Shaky {
    fn read(&mut self, buf: &mut [u8]) -> std::io::Result<usize> {
        self.calls = self.calls.saturating_add(1);
        match self.calls {
            1 => Err(Error::from(ErrorKind::Interrupted)),
            2 if !buf.is_empty() => {
                buf[0] = b'x';
                Ok(1)
            }
            _ => Err(Error::from(ErrorKind::Other)),
        }
    }
}

/// Takes one byte at each call up to a number of calls, and then none.
#[derive(Drop)]
struct Narrow {
    left: u32,
}

impl Write for Narrow {
    fn write(&mut self, buf: &[u8]) -> std::io::Result<usize> {
        if self.left == 0 || buf.is_empty() {
            return Ok(0);
        }
        self.left -= 1;
        Ok(1)
    }

    fn flush(&mut self) -> std::io::Result<()> {
        Ok(())
    }
}

fn source_in_memory(alloc: Global) -> Result<(), Fail> {
    let mut source = MemSource::new(Bytes::of(alloc, b"hello")?, numbers(alloc, &[2, 3])?);
    let pieces = [Some(b"hel".as_slice()), None, None, Some(b"lo"), Some(b"")];
    step("input in memory: pieces", gives(&mut source, &pieces))?;
    step("input in memory: faults", source.source_faults() == 2)
}

/// Whether an output with so much room, whose call of this number fails (0 is none), takes these of the three pieces, so
/// that these bytes are written and there is one fault.
fn takes(
    alloc: Global,
    room: usize,
    fail: u64,
    pieces: [bool; 3],
    written: &[u8],
) -> Result<bool, AllocError> {
    let mut sink = MemSink::new(alloc, room, numbers(alloc, &[fail])?)?;
    Ok(fill(&mut sink) == (pieces, 1) && sink.written() == written)
}

fn talk_over(link: &mut MemLink) -> Result<(), Fail> {
    let mut buf = [0; 4];
    step("connection: read", read_from(link, &mut buf) == Ok(2))?;
    step(
        "connection: read that fails",
        read_from(link, &mut buf) == Err(Failed),
    )?;
    step("connection: write", write_to(link, b"abc") == Ok(()))?;
    step(
        "connection: write past the room",
        write_to(link, b"d") == Err(Failed),
    )?;
    step("connection: not closed", !link.is_closed())?;
    link.close();
    step("connection: closed", link.is_closed())?;
    step(
        "connection: what was written",
        link.written() == b"abc".as_slice(),
    )
}

/// A connection that has two of five bytes a read, whose second fails, and room for three.
fn link_in_memory(alloc: Global) -> Result<(), Fail> {
    let hello = Bytes::of(alloc, b"hello")?;
    let mut link = MemLink::new(alloc, hello, 2, 3, numbers(alloc, &[2])?)?;
    talk_over(&mut link)?;
    let pieces = [Some(b"ll".as_slice()), Some(b"o"), Some(b"")];
    step("connection: pieces", gives(&mut link, &pieces))?;
    step("connection: faults", link.source_faults() == 2)
}

/// An interrupted read is tried again, and an error is a fault and no end.
fn source_over_a_reader() -> Result<(), Fail> {
    let mut hello = StdSource::new(b"hello".as_slice());
    let pieces = [Some(b"hel".as_slice()), Some(b"lo"), Some(b"")];
    step("reader: pieces", gives(&mut hello, &pieces))?;
    step("reader: no fault", hello.source_faults() == 0)?;
    let mut shaky = StdSource::new(Shaky { calls: 0 });
    step(
        "shaky reader: pieces",
        gives(&mut shaky, &[Some(b"x"), None]),
    )?;
    step("shaky reader: fault", shaky.source_faults() == 1)
}

fn sink_over_a_writer(alloc: Global) -> Result<(), Fail> {
    let mut written = Vec::new(alloc);
    let mut sink = StdSink::new(&mut written);
    let filled = fill(&mut sink);
    step("writer: pieces", filled == ([true, true, true], 0))?;
    step(
        "writer: what is written",
        written.as_slice() == b"abcdefg".as_slice(),
    )
}

#[test]
fn inputs_and_outputs(rt: HostRuntime) -> Result<(), Fail> {
    source_in_memory(rt.alloc())?;
    link_in_memory(rt.alloc())?;
    source_over_a_reader()?;
    sink_over_a_writer(rt.alloc())?;
    let narrow = fill(&mut StdSink::new(Narrow { left: 4 }));
    step(
        "a writer that takes nothing at last",
        narrow == ([true, false, false], 2),
    )?;
    // The second piece would pass the room by one.
    let takes_five = takes(rt.alloc(), 5, 0, [true, false, true], b"abg")?;
    step("output with room for five bytes", takes_five)?;
    let takes_two = takes(rt.alloc(), 100, 3, [true, true, false], b"abcdef")?;
    step("output whose third call fails", takes_two)
}

#[test]
fn listener_in_memory(rt: HostRuntime) -> Result<(), Fail> {
    let came = serve(rt.alloc(), &[])?;
    step(
        "listener with no connection left",
        came == ([true, true, false], 1),
    )?;
    let came = serve(rt.alloc(), &[1])?;
    step(
        "listener that does not listen",
        came == ([false, false, false], 1),
    )?;
    let came = serve(rt.alloc(), &[2])?;
    step(
        "a call that fails keeps the connection",
        came == ([true, false, true], 1),
    )
}

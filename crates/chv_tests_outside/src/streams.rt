// The adapters over a reader and a writer of std of which one call comes otherwise.
use chv_io::{Failed, Sink, Source, StdSink, StdSource, copy_front};
use std::alloc::{AllocError, Global};
use std::io::{Error, ErrorKind, Read, Write};
use std::test::Fail;

/// How the one call comes.
#[derive(Clone, Copy, PartialEq, Eq)]
enum Odd {
    /// It fails.
    Fails,
    /// It is interrupted.
    Interrupted,
    /// It moves one byte. A flush moves none, and comes as the others.
    Part,
}

const ODD: [(Odd, &'static str); 3] = [
    (Odd::Fails, "fails"),
    (Odd::Interrupted, "is interrupted"),
    (Odd::Part, "takes a part"),
];

/// The calls of a reader or a writer, counted from 1, of which this one comes otherwise.
#[derive(Drop)]
struct Turns {
    at: u32,
    odd: Odd,
    calls: u32,
}

impl Turns {
    /// The most bytes that the next call moves: three, or one.
    fn next(&mut self) -> std::io::Result<usize> {
        self.calls = self.calls.saturating_add(1);
        if self.calls != self.at {
            return Ok(3);
        }
        match self.odd {
            Odd::Fails => Err(Error::from(ErrorKind::Other)),
            Odd::Interrupted => Err(Error::from(ErrorKind::Interrupted)),
            Odd::Part => Ok(1),
        }
    }
}

const TEXT: &str = "abcdefgh";

/// Gives the bytes of `TEXT`.
#[derive(Drop)]
struct Reader {
    turns: Turns,
    place: usize,
}

impl Read for Reader {
    fn read(&mut self, buf: &mut [u8]) -> std::io::Result<usize> {
        let most = self.turns.next()?;
        let room = most.min(buf.len());
        let bytes = TEXT.as_bytes();
        let count = copy_front(&bytes[self.place.min(bytes.len())..], &mut buf[..room]);
        self.place = self.place.saturating_add(count);
        Ok(count)
    }
}

/// Keeps up to 16 bytes, and knows how many of them wait for a flush.
#[derive(Drop)]
struct Writer {
    turns: Turns,
    held: [u8; 16],
    len: usize,
    waiting: usize,
}

impl Writer {
    fn keep(&mut self, byte: u8) {
        if self.len < 16 {
            self.held[self.len] = byte;
            self.len += 1;
            self.waiting = self.waiting.saturating_add(1);
        }
    }
}

impl Write for Writer {
    fn write(&mut self, buf: &[u8]) -> std::io::Result<usize> {
        let most = self.turns.next()?;
        let count = most.min(buf.len());
        for byte in &buf[..count] {
            self.keep(*byte);
        }
        Ok(count)
    }

    fn flush(&mut self) -> std::io::Result<()> {
        self.turns.next()?;
        self.waiting = 0;
        Ok(())
    }
}

/// What a source gives up to its end, and how many of its reads failed.
fn read_all<S: Source>(alloc: Global, source: &mut S) -> Result<(Vec<u8>, u64), AllocError> {
    let mut bytes = Vec::new(alloc);
    let mut failed: u64 = 0;
    for _ in 0..16 {
        let mut buf = [0; 3];
        match source.take(&mut buf) {
            Ok(0) => break,
            Ok(count) => bytes.extend_from_slice(&buf[..count])?,
            Err(Failed) => failed = failed.saturating_add(1),
        }
    }
    Ok((bytes, failed))
}

/// What of a source differs from what it should be, over a reader of which this call comes so: it gives all bytes once,
/// and counts a fault at a call that fails, and at no other.
fn other_reads(alloc: Global, at: u32, odd: Odd) -> Result<&'static str, AllocError> {
    let turns = Turns { at, odd, calls: 0 };
    let mut source = StdSource::new(Reader { turns, place: 0 });
    let (bytes, failed) = read_all(alloc, &mut source)?;
    let faults = if odd == Odd::Fails { 1 } else { 0 };
    Ok(if bytes.as_slice() != TEXT.as_bytes() {
        "the bytes"
    } else if failed != faults {
        "the answers"
    } else if source.source_faults() != faults {
        "the count"
    } else {
        "nothing"
    })
}

/// Puts a piece, and says whether it was taken. One that was taken waits for no flush, and is no fault; one that was not is
/// one fault: else there is no answer.
fn put(writer: &mut Writer, piece: &str) -> Option<bool> {
    let mut sink = StdSink::new(&mut *writer);
    let taken = sink.put(piece.as_bytes()).is_ok();
    let faults = sink.sink_faults();
    drop(sink);
    match (taken, faults) {
        (true, 0) if writer.waiting == 0 => Some(true),
        (false, 1) => Some(false),
        _ => None,
    }
}

/// The number of the piece that is not taken, counted from 1 (0 is none), and what is written of the three pieces.
type Written = (usize, &'static str);

/// Where the call of this number fails: the first piece is written in one call and flushed, the second in two, the third
/// in one.
const WHERE_FAILED: [Written; 7] = [
    (1, "cdefg"),
    (1, "abcdefg"),
    (2, "abg"),
    (2, "abcdeg"),
    (2, "abcdefg"),
    (3, "abcdef"),
    (3, "abcdefg"),
];

/// What of three puts differs from what it should be, over a writer of which this call comes so.
fn other_writes(at: u32, odd: Odd, wanted: Written) -> &'static str {
    let (refused, text) = wanted;
    let mut writer = Writer {
        turns: Turns { at, odd, calls: 0 },
        held: [0; 16],
        len: 0,
        waiting: 0,
    };
    let first = put(&mut writer, "ab");
    let second = put(&mut writer, "cdef");
    let third = put(&mut writer, "g");
    if first != Some(refused != 1) || second != Some(refused != 2) || third != Some(refused != 3) {
        "an answer, its count, or what waits"
    } else if &writer.held[..writer.len.min(16)] != text.as_bytes() {
        "what is written"
    } else {
        "nothing"
    }
}

#[test]
fn each_read_in_turn(rt: HostRuntime) -> Result<(), Fail> {
    for (odd, how) in &ODD {
        for at in 1..5 {
            let other = other_reads(rt.alloc(), at, *odd)?;
            assert_eq!(rt; other, "nothing", "read {at} {how}");
        }
    }
    Ok(())
}

#[test]
fn each_write_and_flush_in_turn(rt: HostRuntime) -> Result<(), Fail> {
    for (odd, how) in &ODD {
        let mut at: u32 = 0;
        for failed in &WHERE_FAILED {
            at = at.saturating_add(1);
            let wanted = if *odd == Odd::Fails {
                *failed
            } else {
                (0, "abcdefg")
            };
            assert_eq!(rt;
                other_writes(at, *odd, wanted),
                "nothing",
                "call {at} {how}"
            );
        }
    }
    Ok(())
}

// Words that are not the program's, and each fault of the outside.
use chv_defs_base::{Bytes, Name, Row};
use chv_io::{MemSink, MemSource};
use chv_store::MemDisk;
use chv_tests_samples::{name, numbers};
use chv_top::{play_program, run_program};
use std::alloc::{AllocError, Global};
use std::test::Fail;

const INFO: &str = "session\nget vm.info\nend\n";

// These words, separated by spaces.
fn words_of(alloc: Global, text: &str) -> Result<Vec<String>, AllocError> {
    let mut words = Vec::new(alloc);
    for word in text.split(' ') {
        words.push(String::from_str(alloc, word)?)?;
    }
    Ok(words)
}

// The disk of this name.
fn disks_of(alloc: Global, text: &str) -> Result<Vec<(Name, MemDisk)>, Fail> {
    let mut disks = Vec::new(alloc);
    let disk = MemDisk::new(alloc, 64, Row::empty(alloc))?;
    disks.push((name(alloc, text)?, disk))?;
    Ok(disks)
}

// The text as an input, whose read of this number fails; 0 is none.
fn input_of(alloc: Global, text: &str, read: u64) -> Result<MemSource, AllocError> {
    let fail = numbers(alloc, &[read])?;
    Ok(MemSource::new(Bytes::of(alloc, text.as_bytes())?, fail))
}

/// A run: its words, the numbers of its read and of its write that fail (0 is none), its status, and what it writes.
type Run<'a> = (&'a str, u64, u64, u8, &'a str);

const RUNS: [Run<'static>; 9] = [
    ("run", 0, 0, 1, "chv: usage\n"),
    ("serve 0 8080", 0, 0, 1, "chv: usage\n"),
    ("serve 1 8080", 0, 0, 1, "chv: usage\n"),
    ("demo 7", 0, 0, 1, "chv: usage\n"),
    ("play play", 0, 0, 1, "chv: usage\n"),
    ("--help", 0, 0, 1, "chv: usage\n"),
    ("play", 1, 0, 3, "chv: read fault\n"),
    ("play", 0, 1, 4, ""),
    ("run", 0, 1, 4, ""),
];

// What of a run differs from what it should be: its status, the disk that comes back, or nothing.
fn other_end(
    alloc: Global,
    run: &Run,
    input: &mut MemSource,
    out: &mut MemSink,
) -> Result<&'static str, Fail> {
    let words = words_of(alloc, run.0)?;
    let ended = run_program(alloc, words.as_slice(), input, out, disks_of(alloc, "a")?);
    Ok(if ended.status.code() != run.3 {
        "the status"
    } else if ended.disks.len() != 1 {
        "the disk"
    } else {
        "nothing"
    })
}

// What of a run differs from what it should be: also what it writes.
fn other(alloc: Global, run: &Run) -> Result<&'static str, Fail> {
    let mut input = input_of(alloc, INFO, run.1)?;
    let mut out = MemSink::new(alloc, 100_000, numbers(alloc, &[run.2])?)?;
    let end = other_end(alloc, run, &mut input, &mut out)?;
    Ok(if out.written() == run.4.as_bytes() {
        end
    } else {
        "what is written"
    })
}

#[test]
fn words_and_faults(rt: HostRuntime) -> Result<(), Fail> {
    for run in &RUNS {
        let (words, read, write, _, _) = run;
        assert_eq!(rt;
            other(rt.alloc(), run)?,
            "nothing",
            "words {words}, read {read} and write {write} fail"
        );
    }
    Ok(())
}

// Whether a text of this many bytes is too long, and the disk comes back.
fn is_too_long(alloc: Global, length: usize, out: &mut MemSink) -> Result<bool, Fail> {
    let text = vec![in alloc; b'a'; length]?;
    let mut input = MemSource::new(Bytes::new(text), Row::empty(alloc));
    let ended = play_program(alloc, &mut input, out, disks_of(alloc, "root")?);
    Ok(ended.status.code() == 9 && ended.disks.len() == 1)
}

#[test]
fn an_input_that_is_too_long(rt: HostRuntime) -> Result<(), Fail> {
    let mut out = MemSink::new(rt.alloc(), 100, Row::empty(rt.alloc()))?;
    assert!(rt;
        is_too_long(rt.alloc(), 16_777_217, &mut out)?,
        "the status, or the disk"
    );
    assert!(rt;
        out.written() == "chv: too long\n".as_bytes(),
        "what is written"
    );
    Ok(())
}

// Whole runs (`chv_top`) where disks stand by, which no scenario names so far.
use crate::lines::with_lines;
use chv_defs_base::{Bytes, Name, Row, beside, copy_of};
use chv_io::{MemSink, MemSource};
use chv_store::MemDisk;
use chv_tests_answers::{allocated, bytes_of, cut, names_of};
use chv_top::run_program;
use std::alloc::{AllocError, Global};
use std::io;

/// `play NAMES SCENARIO`: the status of the word `play` where disks of these names stand by, how many of them come back, and
/// the lines that are written.
pub fn play(alloc: Global, words: &str) -> io::Result<String> {
    let (names, scenario) = cut(words, ' ');
    let scenario = bytes_of(alloc, scenario)?;
    let mut input = MemSource::new(Bytes::new(scenario), Row::empty(alloc));
    let mut out = MemSink::new(alloc, 100_000, Row::empty(alloc))?;
    let first = ended(alloc, names, &mut input, &mut out);
    drop(input);
    let first = first?;
    with_lines(alloc, first.as_str(), out.written())
}

// The status of a run, and how many disks come back.
fn ended(
    alloc: Global,
    names: &str,
    input: &mut MemSource,
    out: &mut MemSink,
) -> io::Result<String> {
    let disks = disks_of(alloc, names)?;
    let word = String::from_str(alloc, "play")?;
    let ended = run_program(alloc, &[word], input, out, disks);
    let code = ended.status.code();
    let count = ended.disks.len();
    drop(ended);
    Ok(format!(in alloc; "status {code}, disks back: {count}")?)
}

// Disks of these names, with commas between them; `-` is none.
fn disks_of(alloc: Global, names: &str) -> io::Result<Vec<(Name, MemDisk)>> {
    let names = names_of(alloc, names)?;
    let mut disks = Vec::new(alloc);
    for name in names.as_slice() {
        allocated(push_disk(alloc, &mut disks, name))?;
    }
    Ok(disks)
}

fn push_disk(
    alloc: Global,
    disks: &mut Vec<(Name, MemDisk)>,
    name: &Name,
) -> Result<(), AllocError> {
    let disk = MemDisk::new(alloc, 64, Row::empty(alloc))?;
    let (name, disk) = beside(copy_of(name), disk)?;
    disks.push((name, disk))?;
    Ok(())
}

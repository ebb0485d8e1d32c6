// Answers of many lines.
use chv_tests_answers::found;
use std::alloc::Global;
use std::io;
use std::str::from_utf8;

/// A first line, and behind it the lines that were written.
pub fn with_lines(alloc: Global, first: &str, written: &[u8]) -> io::Result<String> {
    let lines = found(from_utf8(written).ok())?;
    Ok(format!(in alloc; "{first}\n{lines}")?)
}

//! Answers cases: a line of standard input names a public call and what it is given, and behind it stands what the call
//! answers. Blank lines, and lines whose first word is `#`, are written as they are. `traces` and `plays` answer the cases of
//! `chv_trace` and `chv_top`; all others are answered by `chv_tests_answers`, whose head names the crates.
#![tactic(auto)]

mod kinds;
mod lines;
mod plays;
mod trace_banks;
mod trace_scenes;
mod traces;

use chv_tests_answers::cut;
use std::io;

fn main(rt: HostRuntime) -> io::Result<()> {
    for line in rt.lines(rt.alloc()) {
        write_line(&rt, line?.as_str())?;
    }
    Ok(())
}

// Writes a line, and the answer where it is a case.
fn write_line(rt: &(impl Print + AllocGlobal), line: &str) -> io::Result<()> {
    println!(rt; "{line}")?;
    let (kind, words) = cut(line, ' ');
    if kind == "" || kind == "#" {
        return Ok(());
    }
    let answer = kinds::answer_to(rt.alloc(), kind, words)?;
    println!(rt; "-> {answer}")
}

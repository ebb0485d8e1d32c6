// The kinds of cases: those of the calls that know the machine, and those of `chv_tests_answers`.
use crate::{plays, traces};
use std::alloc::Global;
use std::io;

/// The answer to a case: its first word is its kind, and behind it stand its words, or one text.
pub fn answer_to(alloc: Global, kind: &str, words: &str) -> io::Result<String> {
    match kind {
        "trace" => traces::trace(alloc, words),
        "play" => plays::play(alloc, words),
        _ => chv_tests_answers::answer_to(alloc, kind, words),
    }
}

// Scripts (`chv_script`).
use crate::answers::{Shown, answer};
use crate::escapes::shown;
use chv_defs_base::{Bytes, Row};
use chv_defs_scene::Script;
use chv_script::{ScriptFault, print, read};
use std::alloc::{AllocError, Global};

const MOST: usize = 1 << 24;

const LINE_FEED: u8 = b'\n';

/// `script LINES`: the script that lines are, each ended by a line feed, printed again; or its first line that fails.
pub fn script(alloc: Global, text: &[u8]) -> Result<String, AllocError> {
    let lines = Row::new(lines_of(alloc, text)?);
    if MOST < lines.len() {
        return String::from_str(alloc, "too long");
    }
    answer(alloc, read(alloc, &lines))
}

/// The lines of a text, without their line feeds. What stands behind the last line feed is no line.
pub fn lines_of(alloc: Global, text: &[u8]) -> Result<Vec<Bytes>, AllocError> {
    let mut lines = Vec::new(alloc);
    let mut line = Vec::new(alloc);
    for byte in text {
        if *byte == LINE_FEED {
            lines.push(Bytes::of(alloc, line.as_slice())?)?;
            line.clear();
        } else {
            line.push(*byte)?;
        }
    }
    Ok(lines)
}

impl Shown for ScriptFault {
    fn shown(&self, alloc: Global) -> Result<String, AllocError> {
        let line = self.line;
        let reason = self.reason.name();
        format!(in alloc; "line {line}: {reason}")
    }
}

impl Shown for Script {
    fn shown(&self, alloc: Global) -> Result<String, AllocError> {
        if self.lines.is_empty() {
            return String::from_str(alloc, "no lines");
        }
        shown(alloc, print(alloc, self)?.as_str().as_bytes())
    }
}

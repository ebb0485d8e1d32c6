// Scripts, read from their lines.
ghost use Rattle.std.specs.Prelude.{◌≡◌, ◌<◌, ◌≤◌, ◌^◌, length, IfOk, IfErr};
ghost use Rattle.chv_defs_scene.specs.ScriptReading.{labels_of, read_script};
ghost use Rattle.chv_script.specs.Labels.{SameLabels};
ghost use Rattle.chv_script.specs.Reads.{answer_of};

use crate::labels::all_labels;
use crate::state::Reading;
use chv_defs_base::{Bytes, Reason, Row, Text};
use chv_defs_scene::Script;
use std::alloc::{AllocError, Global};
use std::collections::HashSet;

/// The first line of a script that fails, counted from 1, and why.
#[derive(Clone, Copy, PartialEq, Eq)]
pub struct ScriptFault {
    pub line: u32,
    pub reason: Reason,
}

/// Reads a script from the lines of its section, without their line feeds, or says which of them is the first that fails, and
/// why. Each byte is looked at a bounded number of times, and each label is looked up once.
pub fn read(alloc: Global, lines: &Row<Bytes>) -> Result<Result<Script, ScriptFault>, AllocError>
    requires { length lines.now < 2 ^ 32 }
    ensures answer { IfOk result (λ answer. answer ≡ answer_of (read_script lines.now)) }
    ensures line { IfOk result (λ answer. IfErr answer (λ fault. (1 ≤ fault.line) × (fault.line ≤ length lines.now))) }
{
    let all = all_labels(alloc, lines.as_slice())?;
    read_lines(alloc, &all, lines.as_slice())
}

// The same where these are the labels of all lines.
fn read_lines(
    alloc: Global,
    all: &HashSet<Text>,
    lines: &[Bytes],
) -> Result<Result<Script, ScriptFault>, AllocError>
    requires few { length lines.now < 2 ^ 32 }
    requires labels { SameLabels all.now.keys (labels_of lines.now) }
    ensures { IfOk result (λ answer. answer ≡ answer_of (read_script lines.now)) }
{
    let mut reading = Reading::new(alloc);
    for (i, text) in lines.iter().enumerate() {
        if let Some(reason) = reading.take(alloc, all, text.as_slice())? {
            let line = i as u32 + 1;
            return Ok(Err(ScriptFault { line, reason }));
        }
    }
    Ok(Ok(Script {
        lines: reading.lines,
    }))
}

// What was read of a script so far.
ghost use Rattle.std.specs.Prelude.{◌≡◌, ◌+◌, ℕ, [], ◌∷◌, ◌++◌, List, length, IfOk, IsNone};
ghost use Rattle.chv_defs_scene.specs.ScriptReading.{labels_of, unless};
ghost use Rattle.chv_script.specs.Labels.{SameLabels};
ghost use Rattle.chv_script.specs.Steps.{checked, resumed, after_line};

use crate::labels::{add_label, label_fault};
use crate::lines::line;
use crate::stop::Stop;
use chv_defs_base::{Reason, Row, Text};
use chv_defs_scene::Line;
use std::alloc::{AllocError, Global};
use std::collections::HashSet;

/// The instructions of the lines that were passed, and their labels.
#[derive(Drop)]
pub(crate) struct Reading {
    pub(crate) lines: Row<Line>,
    pub(crate) labels: HashSet<Text>,
}

impl Reading {
    /// No line was passed.
    pub(crate) fn new(alloc: Global) -> Reading
        ensures lines { result.lines ≡ [] }
        ensures labels { SameLabels result.labels.keys [] }
    {
        Reading {
            lines: Row::empty(alloc),
            labels: HashSet::new(alloc),
        }
    }

    /// Reads the next line, where these are the labels of all lines, or says why it fails.
    pub(crate) fn take(
        &mut self,
        alloc: Global,
        all: &HashSet<Text>,
        text: &[u8],
    ) -> Result<Option<Reason>, AllocError>
        ensures reads { IfOk result (λ fault. (passed behind : List (List ℕ)) →
            SameLabels self.old.labels.keys (labels_of passed) → SameLabels all.now.keys (labels_of (passed ++ text.now ∷ behind)) →
            resumed self.old.lines passed (text.now ∷ behind)
            ≡ after_line (length passed + 1) fault (resumed self.new.lines (passed ++ text.now ∷ []) behind)) }
        ensures labels { IfOk result (λ fault. IsNone fault → SameLabels self.new.labels.keys (self.old.labels.keys ++ labels_of (text.now ∷ []))) }
    {
        match checked_line(alloc, &self.labels, all, text)? {
            Ok(line) => {
                self.lines.push(line)?;
                add_label(alloc, &mut self.labels, text)?;
                Ok(None)
            }
            Err(reason) => Ok(Some(reason)),
        }
    }
}

/// The instruction that a line is, or why it fails, behind lines of these labels and among lines of those.
pub fn checked_line(
    alloc: Global,
    before: &HashSet<Text>,
    all: &HashSet<Text>,
    text: &[u8],
) -> Result<Result<Line, Reason>, AllocError>
    ensures { IfOk result (λ answer. answer ≡ checked before.now.keys all.now.keys text.now) }
{
    match line(alloc, text) {
        Ok(line) => {
            let fault = label_fault(before, all, &line);
            Ok(kept_unless(fault, line))
        }
        Err(Stop::Refused(reason)) => Ok(Err(reason)),
        Err(Stop::Memory) => Err(AllocError),
    }
}

// The value, unless something is wrong with it.
fn kept_unless<T: Drop>(fault: Option<Reason>, value: T) -> Result<T, Reason>
    ensures { result ≡ unless fault value }
{
    match fault {
        None => Ok(value),
        Some(reason) => Err(reason),
    }
}

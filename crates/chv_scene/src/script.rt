// A vCPU's section.
ghost use Rattle.std.specs.Prelude.{◌≡◌, ◌∷◌, [], ◌++◌, IfOk, OnOk};
ghost use Rattle.chv_defs_scene.specs.ScenarioLines.{lines_of, script_lines};
ghost use Rattle.chv_defs_scene.specs.ScenarioLines as line;
ghost use Rattle.chv_defs_scene.specs.ScriptReading.{labels_of};
ghost use Rattle.chv_script.specs.Labels.{SameLabels};
ghost use Rattle.chv_scene.specs.Meanings.{part_of};
ghost use Rattle.chv_scene.specs.Scripts.{checked_word, script_part, WentScript, IsOpened};

use crate::fields::{at_space, is_word};
use crate::lines::next_line;
use crate::meaning::{at_most, end_line};
use chv_defs_base::{Reason, Row, Text};
use chv_defs_scene::{Line, Script, VcpuSection};
use chv_script::{add_label, checked_line};
use std::alloc::{AllocError, Global};
use std::collections::HashSet;

/// How many lines a script may have.
const MOST_LINES: usize = 4096;

/// A vCPU's section that is open: its instructions so far, the labels of those, and the labels of all its lines.
#[derive(Drop)]
pub(crate) struct OpenScript {
    pub(crate) vcpu: u8,
    pub(crate) fuel: u64,
    pub(crate) lines: Row<Line>,
    pub(crate) passed: HashSet<Text>,
    pub(crate) all: HashSet<Text>,
}

impl OpenScript {
    /// The section of this vCPU, whose lines stand behind.
    pub(crate) fn new(
        alloc: Global,
        vcpu: u8,
        fuel: u64,
        behind: &[u8],
    ) -> Result<OpenScript, AllocError>
        ensures { IfOk result (λ script. IsOpened vcpu fuel script (lines_of behind.now)) }
    {
        let all = section_labels(alloc, behind)?;
        Ok(OpenScript {
            vcpu,
            fuel,
            lines: Row::empty(alloc),
            passed: HashSet::new(alloc),
            all,
        })
    }

    /// Reads the next line. Whether the section goes on, or why the line fails.
    pub(crate) fn take(
        &mut self,
        alloc: Global,
        text: &[u8],
    ) -> Result<Result<bool, Reason>, AllocError>
        ensures { IfOk result (λ went. WentScript self.old self.new went text.now) }
    {
        match self.line(alloc, text)? {
            Ok(Some(line)) => {
                self.push(alloc, line, text)?;
                Ok(Ok(true))
            }
            Ok(None) => Ok(Ok(false)),
            Err(reason) => Ok(Err(reason)),
        }
    }

    // What a line means, or why it fails: an instruction, or none where it ends the section.
    fn line(&self, alloc: Global, text: &[u8]) -> Result<Result<Option<Line>, Reason>, AllocError>
        ensures { IfOk result (λ answer. part_of answer ≡ script_part self.now text.now) }
    {
        let answer = any_line(alloc, &self.passed, &self.all, text)?;
        Ok(at_most(MOST_LINES, self.lines.len(), answer))
    }

    // An instruction more.
    fn push(&mut self, alloc: Global, line: Line, text: &[u8]) -> Result<(), AllocError>
        ensures vcpu { self.new.vcpu ≡ self.old.vcpu }
        ensures fuel { self.new.fuel ≡ self.old.fuel }
        ensures all { self.new.all ≡ self.old.all }
        ensures lines { OnOk result (self.new.lines ≡ self.old.lines ++ line ∷ []) }
        ensures labels { OnOk result (SameLabels self.new.passed.keys (self.old.passed.keys ++ labels_of (text.now ∷ []))) }
    {
        self.lines.push(line)?;
        add_label(alloc, &mut self.passed, text)
    }

    /// What was read.
    pub(crate) fn section(self) -> VcpuSection
        ensures vcpu { result.vcpu ≡ self.vcpu }
        ensures fuel { result.fuel ≡ self.fuel }
        ensures lines { result.script.lines ≡ self.lines }
    {
        VcpuSection {
            vcpu: self.vcpu,
            fuel: self.fuel,
            script: Script { lines: self.lines },
        }
    }
}

// What a line means, however many stand before it, behind lines of these labels and among lines of those.
fn any_line(
    alloc: Global,
    passed: &HashSet<Text>,
    all: &HashSet<Text>,
    text: &[u8],
) -> Result<Result<Option<Line>, Reason>, AllocError>
    ensures { IfOk result (λ answer. part_of answer ≡ checked_word passed.now.keys all.now.keys text.now (line.at_space text.now).0 (line.at_space text.now).1) }
{
    let (word, fields) = at_space(text);
    if is_word(word, "end") {
        return Ok(end_line(fields));
    }
    match checked_line(alloc, passed, all, text)? {
        Ok(line) => Ok(Ok(Some(line))),
        Err(reason) => Ok(Err(reason)),
    }
}

// The labels of the lines up to the end of the section.
fn section_labels(alloc: Global, text: &[u8]) -> Result<HashSet<Text>, AllocError>
    ensures { IfOk result (λ labels. SameLabels labels.keys (labels_of (script_lines (lines_of text.now)))) }
{
    let mut labels = HashSet::new(alloc);
    let mut rest = text;
    while !rest.is_empty() {
        let (line, _, behind) = next_line(rest);
        if is_word(line, "end") {
            return Ok(labels);
        }
        add_label(alloc, &mut labels, line)?;
        rest = behind;
    }
    Ok(labels)
}

// The labels of a section.
ghost use Rattle.std.specs.Prelude.{◌≡◌, [], ◌∷◌, ◌++◌, IfOk, OnOk, Some, None, if◌then◌else◌, not, option_map};
ghost use Rattle.chv_defs_scene.specs.ScriptReading.{fields_of, label_in, labels_of};
ghost use Rattle.chv_defs_scene.specs.ScriptReading as script;
ghost use Rattle.chv_script.specs.Labels.{SameLabels};

use crate::fields::{is_word, next_field};
use crate::kinds::id;
use chv_defs_base::{Bytes, Reason, Text};
use chv_defs_scene::Line;
use std::alloc::{AllocError, Global};
use std::collections::HashSet;

// The label that a line is, where it is one.
fn label(text: &[u8]) -> Option<&str>
    ensures { option_map (λ s. s.now) result ≡ label_in (fields_of text.now) }
{
    let (word, fields) = next_field(text);
    let (name, more) = next_field(fields?);
    if more.is_none() {
        label_behind(word, name)
    } else {
        None
    }
}

// The same by a word and the one field behind it.
fn label_behind<'a>(word: &[u8], name: &'a [u8]) -> Option<&'a str>
    ensures { option_map (λ s. s.now) result ≡ label_in (word.now ∷ name.now ∷ []) }
{
    if is_word(word, "at") { id(name) } else { None }
}

/// Adds the label that a line is, where it is one, to the labels of the lines before.
pub fn add_label(alloc: Global, labels: &mut HashSet<Text>, text: &[u8]) -> Result<(), AllocError>
    ensures { OnOk result (SameLabels labels.new.keys (labels.old.keys ++ labels_of (text.now ∷ []))) }
{
    if let Some(name) = label(text) {
        let name = Text::of(alloc, name)?;
        labels.insert(name)?;
    }
    Ok(())
}

/// The labels of all lines, whatever else stands in them.
pub(crate) fn all_labels(alloc: Global, lines: &[Bytes]) -> Result<HashSet<Text>, AllocError>
    ensures { IfOk result (λ labels. SameLabels labels.keys (labels_of lines.now)) }
{
    let mut labels = HashSet::new(alloc);
    for line in lines {
        add_label(alloc, &mut labels, line.as_slice())?;
    }
    Ok(labels)
}

/// What is wrong with the label of an instruction, or with the one that it jumps to, by the labels of the lines before and
/// by those of all lines.
pub(crate) fn label_fault(
    before: &HashSet<Text>,
    all: &HashSet<Text>,
    line: &Line,
) -> Option<Reason>
    ensures { result ≡ script.label_fault before.now.keys all.now.keys line.now }
{
    match line {
        Line::At(name) => twice(before, name),
        Line::Jmp(to) | Line::Jz { to, .. } | Line::Jnz { to, .. } | Line::Jlt { to, .. } => {
            unknown(all, to)
        }
        _ => None,
    }
}

// Why a label is refused that stands behind these.
fn twice(before: &HashSet<Text>, name: &Text) -> Option<Reason>
    ensures { result ≡ (if script.has_label before.now.keys name.now then Some Reason.LabelTwice else None) }
{
    if before.contains(name) {
        Some(Reason::LabelTwice)
    } else {
        None
    }
}

// Why a jump is refused where these are all labels.
fn unknown(all: &HashSet<Text>, to: &Text) -> Option<Reason>
    ensures { result ≡ (if not (script.has_label all.now.keys to.now) then Some Reason.UnknownLabel else None) }
{
    if all.contains(to) {
        None
    } else {
        Some(Reason::UnknownLabel)
    }
}

// Control replies.
ghost use Rattle.std.specs.Prelude.{◌≡◌, IfOk, string_bytes};
ghost use Rattle.chv_defs_api.specs.JsonTexts.{device_text};
ghost use Rattle.chv_defs.specs.TraceText as text;

use crate::fields::{after_text, after_word};
use crate::notes::note_text;
use chv_defs::{BusyAt, ControlReply, DeviceInfo, MemAnswer, Rule, Text};
use chv_json::{counters_text, device_text, info_text};
use chv_num::hex_of;
use std::alloc::{AllocError, Global};

/// The text of a control reply.
pub(crate) fn reply_text(alloc: Global, reply: &ControlReply) -> Result<String, AllocError>
    ensures { IfOk result (λ shown. string_bytes shown ≡ text.reply_text reply.now) }
{
    match reply {
        ControlReply::Done => String::from_str(alloc, "done"),
        ControlReply::Shown(info) => after_text(alloc, "shown ", info_text(alloc, info)),
        ControlReply::Counted(counts) => after_text(
            alloc,
            "counted ",
            counters_text(alloc, counts),
        ),
        ControlReply::Added { id, slot } => added_text(alloc, id, *slot),
        ControlReply::Holding => String::from_str(alloc, "holding"),
        ControlReply::Ruled(rule) => ruled_text(alloc, *rule),
        ControlReply::Taken(note) => after_word(alloc, "taken ", note_text(alloc, note)?.as_str()),
        ControlReply::Value(value) => value_text(alloc, *value),
        ControlReply::Answer(answer) => answer_text(alloc, *answer),
        ControlReply::Restored(image) => after_word(
            alloc,
            "restored ",
            hex_of(alloc, image.as_slice())?.as_str(),
        ),
    }
}

fn added_text(alloc: Global, id: &Text, slot: u8) -> Result<String, AllocError>
    ensures { IfOk result (λ shown. string_bytes shown ≡ text.reply_text (ControlReply.Added id.now slot)) }
{
    after_text(alloc, "added ", device(alloc, id, slot))
}

fn device(alloc: Global, id: &Text, slot: u8) -> Result<Text, AllocError>
    ensures { IfOk result (λ shown. shown ≡ device_text (record { slot = slot; id = id.now })) }
{
    let id = id.clone()?;
    device_text(alloc, &DeviceInfo { slot, id })
}

// A rule, with the place for an image that is refused.
fn ruled_text(alloc: Global, rule: Rule) -> Result<String, AllocError>
    ensures { IfOk result (λ shown. string_bytes shown ≡ text.reply_text (ControlReply.Ruled rule)) }
{
    match rule {
        Rule::BadImage(place) => format!(in alloc; "rule BadImage {place}"),
        rule => after_word(alloc, "rule ", rule.name()),
    }
}

fn value_text(alloc: Global, value: u64) -> Result<String, AllocError>
    ensures { IfOk result (λ shown. string_bytes shown ≡ text.reply_text (ControlReply.Value value)) }
{
    format!(in alloc; "value 0x{value:x}")
}

fn answer_text(alloc: Global, answer: MemAnswer) -> Result<String, AllocError>
    ensures { IfOk result (λ shown. string_bytes shown ≡ text.reply_text (ControlReply.Answer answer)) }
{
    let kind = answer.kind;
    let state = answer.state;
    let busy = busy_fields(alloc, answer.busy)?;
    format!(in alloc; "answer {kind} {state}{busy}")
}

// The block and its caller, where an answer names them.
#[tactic(auto, using(crate::proofs::Joined::regrouped))]
fn busy_fields(alloc: Global, busy: Option<BusyAt>) -> Result<String, AllocError>
    ensures { IfOk result (λ shown. string_bytes shown ≡ text.busy_fields busy) }
{
    match busy {
        Some(BusyAt { block, caller }) => format!(in alloc; " {block} {caller}"),
        None => Ok(String::new(alloc)),
    }
}

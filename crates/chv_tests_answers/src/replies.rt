// The bytes of replies (`chv_api`, `chv_http`).
use crate::answers::{allocated, written};
use crate::calls::call_of;
use crate::json::counts_of;
use crate::words::{cut, found, is_last};
use chv_api::{refusal_of, reply_of};
use chv_defs_api::ControlReply;
use chv_defs_base::{Rule, Text, beside};
use chv_http::reply_bytes;
use std::alloc::{AllocError, Global};
use std::io;

/// `reply LAST ANSWER METHOD TARGET BODY`: the reply to a request whose call is answered so.
pub fn reply(alloc: Global, words: &str) -> io::Result<String> {
    let (last, behind) = cut(words, ' ');
    let (answer, request) = cut(behind, ' ');
    let last = found(is_last(last))?;
    let call = call_of(alloc, request)?;
    let (answer, call) = beside(answer_of(alloc, answer), call)?;
    let reply = reply_of(alloc, &answer, &call, last);
    drop(answer);
    drop(call);
    allocated(written(alloc, reply))
}

// `done`, `added,ID,SLOT`, `counted,COUNT`, or the name of a rule.
fn answer_of(alloc: Global, word: &str) -> io::Result<ControlReply> {
    let (kind, value) = cut(word, ',');
    match kind {
        "done" => Ok(ControlReply::Done),
        "added" => added(alloc, value),
        "counted" => Ok(ControlReply::Counted(counts_of(alloc, value)?)),
        _ => Ok(ControlReply::Ruled(found(rule_of(kind))?)),
    }
}

fn added(alloc: Global, words: &str) -> io::Result<ControlReply> {
    let (id, slot) = cut(words, ',');
    let slot = found(slot.parse().ok())?;
    let id = Text::of(alloc, id)?;
    Ok(ControlReply::Added { id, slot })
}

/// `refusal LAST RULE`: the reply that a rule refuses a request by before it makes a call.
pub fn refusal(alloc: Global, words: &str) -> io::Result<String> {
    let (last, rule) = cut(words, ' ');
    let rule = found(rule_of(rule))?;
    let last = found(is_last(last))?;
    allocated(written(alloc, refusal_of(alloc, rule, last)))
}

// The rules that cases name.
const RULES: [Rule; 5] = [
    Rule::BadHead,
    Rule::BadImage(7),
    Rule::NoRoute,
    Rule::NotJson,
    Rule::SlotsFull,
];

fn rule_of(name: &str) -> Option<Rule> {
    for rule in &RULES {
        if rule.name() == name {
            return Some(*rule);
        }
    }
    None
}

/// `status LAST STATUS BODY`: the reply of a status, with a body where there is one.
pub fn status(alloc: Global, words: &str) -> io::Result<String> {
    let (last, behind) = cut(words, ' ');
    let (status, body) = cut(behind, ' ');
    let status = found(status.parse().ok())?;
    let last = found(is_last(last))?;
    allocated(reply_with(alloc, status, body, last))
}

fn reply_with(alloc: Global, status: u16, body: &str, last: bool) -> Result<String, AllocError> {
    let body = Text::of(alloc, body)?;
    let body = if body.as_str().is_empty() {
        None
    } else {
        Some(&body)
    };
    written(alloc, reply_bytes(alloc, status, body, last))
}

// The bytes of replies.
ghost use Rattle.std.specs.Prelude.{◌≡◌, IfOk};
ghost use Rattle.chv_defs_api.specs.JsonTexts as texts;
ghost use Rattle.chv_defs_api.specs.Routes as routes;

use chv_defs_api::{ControlCall, ControlReply, DeviceInfo};
use chv_defs_base::{Bytes, Rule, Text};
use chv_http::reply_bytes;
use chv_json::{counters_text, device_text, info_text};
use std::alloc::{AllocError, Global};

/// The bytes of the reply to a request of which the last control call was answered so: those of its rule where it is
/// refused, and else those of its route. The `last` reply of a connection says so.
pub fn reply_of(
    alloc: Global,
    reply: &ControlReply,
    call: &ControlCall,
    last: bool,
) -> Result<Bytes, AllocError>
    ensures { IfOk result (λ bytes. bytes ≡ routes.reply_to_call call.now reply.now last) }
{
    let (status, body) = status_and_body(alloc, call, reply)?;
    reply_bytes(alloc, status, body.as_ref(), last)
}

/// The bytes of the reply to a request, or to bytes that are none, that a rule refuses before the control machine is
/// asked. The `last` reply of a connection says so.
pub fn refusal_of(alloc: Global, rule: Rule, last: bool) -> Result<Bytes, AllocError>
    ensures { IfOk result (λ bytes. bytes ≡ routes.refusal_bytes rule last) }
{
    let body = rule_body(alloc, rule)?;
    reply_bytes(alloc, rule.status(), Some(&body), last)
}

// The status and the body of the answer to a call.
fn status_and_body(
    alloc: Global,
    call: &ControlCall,
    reply: &ControlReply,
) -> Result<(u16, Option<Text>), AllocError>
    ensures { IfOk result (λ answer. answer ≡ routes.status_and_body call.now reply.now) }
{
    match (reply, call) {
        (ControlReply::Ruled(rule), _) => Ok((rule.status(), Some(rule_body(alloc, *rule)?))),
        (ControlReply::Shown(info), _) => Ok((200, Some(info_text(alloc, info)?))),
        (ControlReply::Counted(counts), _) => Ok((200, Some(counters_text(alloc, counts)?))),
        (ControlReply::Added { id, slot }, _) => Ok((200, Some(added_body(alloc, id, *slot)?))),
        (_, ControlCall::Ping) => Ok((200, Some(ping_body(alloc)?))),
        _ => Ok((204, None)),
    }
}

fn rule_body(alloc: Global, rule: Rule) -> Result<Text, AllocError>
    ensures { IfOk result (λ body. body ≡ routes.rule_body rule) }
{
    let name = rule.name();
    Ok(Text::new(format!(in alloc; "{{\"rule\":\"{name}\"}}")?))
}

#[tactic(auto, unfolding(chv_defs_api::specs::Routes::ping_body))]
fn ping_body(alloc: Global) -> Result<Text, AllocError>
    ensures { IfOk result (λ body. body ≡ routes.ping_body) }
{
    Text::of(alloc, "{\"version\":\"chv 1\"}")
}

// A device that was added, and where it stands.
fn added_body(alloc: Global, id: &Text, slot: u8) -> Result<Text, AllocError>
    ensures { IfOk result (λ body. body ≡ texts.device_text (record { slot = slot; id = id.now })) }
{
    let id = Text::of(alloc, id.as_str())?;
    device_text(alloc, &DeviceInfo { slot, id })
}

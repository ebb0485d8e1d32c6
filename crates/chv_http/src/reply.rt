// The bytes of replies.
ghost use Rattle.std.specs.Prelude.{◌≡◌, ◌↔◌, ◌++◌, IsTrue, IfOk, OnOk, option_copied, string_bytes};
ghost use Rattle.chv_defs_api.specs.Replies as replies;
ghost use Rattle.chv_http.specs.Reply.{IsSent};

use chv_defs_base::{Bytes, Text};
use http::StatusCode;
use std::alloc::{AllocError, Global};

/// Whether this server sends the status.
fn is_sent(status: u16) -> bool
    ensures { IsTrue result ↔ IsSent status }
{
    matches!(status, 200 | 204 | 400 | 404 | 500)
}

/// The phrase of a status that this server sends. Any other has none.
fn phrase(status: u16) -> &'static str
    ensures { result.now ≡ replies.phrase status }
{
    if !is_sent(status) {
        return "";
    }
    match StatusCode::from_u16(status) {
        Ok(code) => code.canonical_reason().unwrap_or(""),
        Err(_) => "",
    }
}

/// Appends the status line.
#[tactic(auto, unfolding(chv_defs_api::specs::Replies::version_text))]
fn push_status(reply: &mut String, status: u16) -> Result<(), AllocError>
    ensures { OnOk result (string_bytes reply.new ≡ string_bytes reply.old ++ replies.status_line status) }
{
    let phrase = phrase(status);
    write!(reply, "HTTP/1.1 {status} {phrase}\r\n")?;
    Ok(())
}

/// Appends the field of the last reply.
#[tactic(auto, unfolding(chv_defs_api::specs::Replies::close_text))]
fn push_close(reply: &mut String, last: bool) -> Result<(), AllocError>
    ensures { OnOk result (string_bytes reply.new ≡ string_bytes reply.old ++ replies.close_line last) }
{
    if last {
        reply.push_str("Connection: close\r\n")?;
    }
    Ok(())
}

/// Appends the fields of a body, the empty line and the body.
#[tactic(auto, unfolding(chv_defs_api::specs::Replies::type_text, chv_defs_api::specs::Replies::length_text))]
fn push_json(reply: &mut String, body: &str) -> Result<(), AllocError>
    ensures { OnOk result (string_bytes reply.new ≡ string_bytes reply.old ++ replies.body_part (Some body.now)) }
{
    let length = body.len();
    write!(
        reply,
        "Content-Type: application/json\r\nContent-Length: {length}\r\n\r\n{body}"
    )?;
    Ok(())
}

/// Appends what stands behind the status line and the field of the last reply.
fn push_body(reply: &mut String, body: Option<&Text>) -> Result<(), AllocError>
    ensures { OnOk result (string_bytes reply.new ≡ string_bytes reply.old ++ replies.body_part (option_copied body.entry)) }
{
    match body {
        Some(body) => push_json(reply, body.as_str()),
        None => reply.push_str("\r\n"),
    }
}

/// The bytes of a reply: its status line, its fields, and its body, which is JSON. The `last` reply of a connection
/// says so.
pub fn reply_bytes(
    alloc: Global,
    status: u16,
    body: Option<&Text>,
    last: bool,
) -> Result<Bytes, AllocError>
    ensures { IfOk result (λ bytes. bytes ≡ replies.reply_of_status status (option_copied body.entry) last) }
{
    let mut reply = String::new(alloc);
    push_status(&mut reply, status)?;
    push_close(&mut reply, last)?;
    push_body(&mut reply, body)?;
    Ok(Bytes::new(reply.into_bytes()))
}

// Requests and the control calls that they make (`chv_api`).
use crate::answers::{Shown, allocated, allowed, answer, written};
use crate::escapes::bytes_of;
use crate::json::{resized, zoned};
use crate::words::cut;
use chv_api::calls_of;
use chv_defs_api::{ControlCall, Goal, Request};
use chv_defs_base::{Bytes, Text, beside};
use chv_json::{config_text, disk_text};
use std::alloc::{AllocError, Global};
use std::io;

/// `call METHOD TARGET BODY`: the control call that a request makes.
pub fn call(alloc: Global, words: &str) -> io::Result<String> {
    let request = request_of(alloc, words)?;
    let answer = answer(alloc, calls_of(alloc, &request));
    drop(request);
    allocated(answer)
}

/// The control call of the request `METHOD TARGET BODY` that no rule refuses.
pub fn call_of(alloc: Global, words: &str) -> io::Result<ControlCall> {
    let request = request_of(alloc, words)?;
    let call = allowed(calls_of(alloc, &request));
    drop(request);
    call
}

fn request_of(alloc: Global, words: &str) -> io::Result<Request> {
    let (method, behind) = cut(words, ' ');
    let (target, body) = cut(behind, ' ');
    let body = bytes_of(alloc, body)?;
    let (target, body) = beside(allocated(Text::of(alloc, target)), body)?;
    Ok(Request {
        put: method == "PUT",
        get: method == "GET",
        target,
        body: Bytes::new(body),
        last: false,
    })
}

// A control call: its word, and what it is given.
impl Shown for ControlCall {
    fn shown(&self, alloc: Global) -> Result<String, AllocError> {
        match self {
            ControlCall::Create(config) => {
                behind(alloc, "create", written(alloc, config_text(alloc, config)))
            }
            ControlCall::Resize { vcpus, ram } => resized(alloc, *vcpus, *ram),
            ControlCall::ResizeZone { zone, ram } => zoned(alloc, zone, *ram),
            ControlCall::AddDisk(disk) => {
                behind(alloc, "add", written(alloc, disk_text(alloc, disk)))
            }
            ControlCall::Remove(id) => behind(alloc, "remove", id.shown(alloc)),
            ControlCall::Snapshot(name) => {
                behind(alloc, "snapshot", String::from_str(alloc, name.as_str()))
            }
            ControlCall::Restore(name) => {
                behind(alloc, "restore", String::from_str(alloc, name.as_str()))
            }
            _ => String::from_str(alloc, bare(self)),
        }
    }
}

// A call that has no value.
fn bare(call: &ControlCall) -> &'static str {
    match call {
        ControlCall::Ping => "ping",
        ControlCall::Info => "info",
        ControlCall::Counters => "counters",
        ControlCall::Boot => "boot",
        ControlCall::Begin(Goal::Pause) => "begin pause",
        ControlCall::Begin(Goal::Shutdown) => "begin shutdown",
        ControlCall::Begin(Goal::Delete) => "begin delete",
        ControlCall::Resume => "resume",
        _ => "another",
    }
}

// A word, and the value behind it.
fn behind(
    alloc: Global,
    word: &str,
    value: Result<String, AllocError>,
) -> Result<String, AllocError> {
    let value = value?;
    format!(in alloc; "{word} {value}")
}

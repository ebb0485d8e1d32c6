// Scenarios (`chv_scene`).
use crate::answers::{Shown, answer};
use crate::escapes::shown;
use chv_defs_base::Row;
use chv_defs_scene::{Asked, Scene};
use chv_scene::{SceneFault, read};
use std::alloc::{AllocError, Global};

const MOST: usize = 1 << 24;

/// `scene TEXT`: what a scenario has, or its first line that fails.
pub fn scene(alloc: Global, text: &[u8]) -> Result<String, AllocError> {
    if MOST < text.len() {
        return String::from_str(alloc, "too long");
    }
    answer(alloc, read(alloc, text))
}

impl Shown for SceneFault {
    fn shown(&self, alloc: Global) -> Result<String, AllocError> {
        let line = self.line;
        let reason = self.reason.name();
        format!(in alloc; "line {line}: {reason}")
    }
}

// How many of each section there are, and the requests of each session.
impl Shown for Scene {
    fn shown(&self, alloc: Global) -> Result<String, AllocError> {
        let sessions = self.sessions.len();
        let disks = self.disks.len();
        let vcpus = self.vcpus.len();
        let order = if self.order.is_some() { "an" } else { "no" };
        let mut text = format!(in alloc;
            "{sessions} sessions, {disks} disks, {vcpus} vcpus, {order} order"
        )?;
        for session in self.sessions.as_slice() {
            push_session(alloc, &mut text, session)?;
        }
        Ok(text)
    }
}

fn push_session(alloc: Global, text: &mut String, session: &Row<Asked>) -> Result<(), AllocError> {
    text.push_str(" [")?;
    for request in session.as_slice() {
        push_request(alloc, text, request)?;
    }
    text.push_str("]")
}

fn push_request(alloc: Global, text: &mut String, request: &Asked) -> Result<(), AllocError> {
    match request {
        Asked::Get(name) => push(alloc, text, "get ", name.as_str().as_bytes()),
        Asked::Put { name, body } => {
            push(alloc, text, "put ", name.as_str().as_bytes())?;
            match body {
                Some(body) => push(alloc, text, "with ", body.as_slice()),
                None => Ok(()),
            }
        }
        Asked::Raw(bytes) => push(alloc, text, "raw ", bytes.as_slice()),
    }
}

fn push(alloc: Global, text: &mut String, word: &str, bytes: &[u8]) -> Result<(), AllocError> {
    let bytes = shown(alloc, bytes)?;
    write!(text, " {word}{bytes};")
}

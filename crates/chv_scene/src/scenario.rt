// Scenarios, read from their text.
ghost use Rattle.std.specs.Prelude.{◌≡◌, ◌+◌, ◌^◌, ◌<◌, ◌≤◌, [], length, IfOk};
ghost use Rattle.chv_defs_scene.specs.ScenarioText.{read_scenario};
ghost use Rattle.chv_scene.specs.Answer.{answer_of};
ghost use Rattle.chv_scene.specs.Reading.{resumed};

use crate::lines::next_line;
use crate::reading::Reading;
use chv_defs_base::{Reason, Row};
use chv_defs_scene::Scene;
use std::alloc::{AllocError, Global};

/// The first line of a scenario that fails, counted from 1, and why. Where a section has no end, it is the line behind
/// the last one.
#[derive(Clone, Copy, PartialEq, Eq)]
pub struct SceneFault {
    pub line: u32,
    pub reason: Reason,
}

/// Reads a scenario, or says which of its lines is the first that fails, and why. Each byte is looked at a bounded number
/// of times, and a body is copied once. So far a scenario makes no disk.
pub fn read(alloc: Global, text: &[u8]) -> Result<Result<Scene, SceneFault>, AllocError>
    requires { length text.now + 1 < 2 ^ 32 }
    ensures answer { IfOk result (λ answer. answer ≡ answer_of (read_scenario text.now)) }
    ensures few { IfOk result (λ answer. IfOk answer (λ scene. length scene.sessions ≤ 16)) }
{
    let mut reading = Reading::new(alloc);
    let mut line: u32 = 1;
    let mut rest = text;
    while !rest.is_empty() {
        let (text, is_ended, behind) = next_line(rest);
        if let Some(reason) = reading.take(alloc, text, is_ended, behind)? {
            return Ok(Err(SceneFault { line, reason }));
        }
        line += 1;
        rest = behind;
    }
    Ok(finish(alloc, reading, line))
}

// The answer where this is the line behind the last one.
fn finish(alloc: Global, reading: Reading, line: u32) -> Result<Scene, SceneFault>
    ensures { result ≡ answer_of (resumed reading line []) }
{
    if !reading.open.is_outside() {
        return Err(SceneFault {
            line,
            reason: Reason::Unclosed,
        });
    }
    Ok(Scene {
        disks: Row::empty(alloc),
        vcpus: reading.done.vcpus,
        sessions: reading.done.sessions,
        order: reading.done.order,
    })
}

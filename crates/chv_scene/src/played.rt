// What of a scenario is played so far.
ghost use Rattle.std.specs.Prelude.{◌≡◌, ◌+◌, ◌^◌, ◌<◌, ◌≤◌, length, IfOk};
ghost use Rattle.chv_scene.specs.Played.{session_lines, unless_ordered, unless_scripted, played_answer};
ghost use Rattle.chv_scene.specs.Played as played_of;

use crate::scenario::{SceneFault, read};
use chv_defs_base::{Reason, Row};
use chv_defs_scene::{Asked, OrderStep, Scene};
use std::alloc::{AllocError, Global};

/// Reads a scenario as far as it is played so far: its sessions. One that has a vCPU's section or an order is refused as not
/// built, at the first line of these.
pub fn read_played(alloc: Global, text: &[u8]) -> Result<Result<Scene, SceneFault>, AllocError>
    requires { length text.now + 1 < 2 ^ 32 }
    ensures answer { IfOk result (λ answer. answer ≡ played_answer (played_of.read_played text.now)) }
    ensures few { IfOk result (λ answer. IfOk answer (λ scene. length scene.sessions ≤ 16)) }
{
    match read(alloc, text)? {
        Ok(scene) => Ok(of_scene(alloc, scene)),
        Err(fault) => Ok(Err(fault)),
    }
}

fn of_scene(alloc: Global, scene: Scene) -> Result<Scene, SceneFault>
    requires { session_lines scene.sessions + 1 < 2 ^ 32 }
    ensures { result ≡ played_answer (unless_scripted scene scene.vcpus) }
{
    if !scene.vcpus.is_empty() {
        return Err(SceneFault {
            line: 1,
            reason: Reason::NotBuilt,
        });
    }
    of_sessions(alloc, scene.sessions, scene.order)
}

fn of_sessions(
    alloc: Global,
    sessions: Row<Row<Asked>>,
    order: Option<Row<OrderStep>>,
) -> Result<Scene, SceneFault>
    requires { session_lines sessions + 1 < 2 ^ 32 }
    ensures { result ≡ played_answer (unless_ordered sessions order) }
{
    match order {
        Some(_) => Err(SceneFault {
            line: line_behind(sessions.as_slice()),
            reason: Reason::NotBuilt,
        }),
        None => Ok(Scene {
            disks: Row::empty(alloc),
            vcpus: Row::empty(alloc),
            sessions,
            order: None,
        }),
    }
}

// The line behind the sections of these sessions.
fn line_behind(sessions: &[Row<Asked>]) -> u32
    requires { session_lines sessions.now + 1 < 2 ^ 32 }
    ensures { result ≡ session_lines sessions.now + 1 }
{
    let mut line: u32 = 1;
    let mut rest = sessions;
    while let [requests, behind @ ..] = rest {
        line += requests.len() as u32 + 2;
        rest = behind;
    }
    line
}

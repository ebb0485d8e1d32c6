// Scenarios, printed.
ghost use Rattle.std.specs.Prelude.{◌≡◌, ◌++◌, IfOk, OnOk, flat_map, codes, string_bytes};
ghost use Rattle.chv_defs_scene.specs.ScriptText.{field};
ghost use Rattle.chv_defs_base.specs.Numbers.{dec_text};
ghost use Rattle.chv_defs_scene.specs.SceneText as text;

use chv_defs_base::{Bytes, Row};
use chv_defs_scene::{Asked, MadeDisk, OrderStep, Scene, VcpuSection};
use chv_num::hex_of;
use std::alloc::{AllocError, Global};

/// The text of a scenario: its disks, vCPUs, sessions, and order. A body is any bytes, and so is the text.
#[tactic(auto, using(crate::proofs::Printed::regrouped))]
pub fn print(alloc: Global, scene: &Scene) -> Result<Bytes, AllocError>
    ensures { IfOk result (λ printed. printed ≡ text.scene_text scene.now) }
{
    let mut shown = Vec::new(alloc);
    push_disks(alloc, &mut shown, scene.disks.as_slice())?;
    push_vcpus(alloc, &mut shown, scene.vcpus.as_slice())?;
    push_sessions(alloc, &mut shown, scene.sessions.as_slice())?;
    push_order(alloc, &mut shown, &scene.order)?;
    Ok(Bytes::new(shown))
}

fn push_disks(alloc: Global, shown: &mut Vec<u8>, disks: &[MadeDisk]) -> Result<(), AllocError>
    ensures { OnOk result (shown.new.items ≡ shown.old.items ++ flat_map text.disk_line disks.now) }
{
    for disk in disks {
        push_disk(alloc, shown, disk)?;
    }
    Ok(())
}

fn push_disk(alloc: Global, shown: &mut Vec<u8>, disk: &MadeDisk) -> Result<(), AllocError>
    ensures { OnOk result (shown.new.items ≡ shown.old.items ++ text.disk_line disk.now) }
{
    let line = disk_line(alloc, disk.name.as_str(), disk.sectors)?;
    shown.extend_from_slice(line.as_bytes())
}

#[tactic(auto, using(crate::proofs::Printed::regrouped))]
fn disk_line(alloc: Global, name: &str, sectors: u64) -> Result<String, AllocError>
    ensures { IfOk result (λ line. string_bytes line ≡ codes "disk" ++ field name.now ++ field (dec_text sectors) ++ codes "\n") }
{
    format!(in alloc; "disk {name} {sectors}\n")
}

fn push_vcpus(alloc: Global, shown: &mut Vec<u8>, vcpus: &[VcpuSection]) -> Result<(), AllocError>
    ensures { OnOk result (shown.new.items ≡ shown.old.items ++ flat_map text.vcpu_section vcpus.now) }
{
    for vcpu in vcpus {
        push_vcpu(alloc, shown, vcpu)?;
    }
    Ok(())
}

#[tactic(auto, using(crate::proofs::Printed::regrouped))]
fn push_vcpu(alloc: Global, shown: &mut Vec<u8>, section: &VcpuSection) -> Result<(), AllocError>
    ensures { OnOk result (shown.new.items ≡ shown.old.items ++ text.vcpu_section section.now) }
{
    let head = chv_script::vcpu_line(alloc, section.vcpu, section.fuel)?;
    let script = chv_script::print(alloc, &section.script)?;
    shown.extend_from_slice(head.as_bytes())?;
    shown.extend_from_slice(script.as_str().as_bytes())?;
    shown.extend_from_slice(b"end\n")
}

fn push_sessions(
    alloc: Global,
    shown: &mut Vec<u8>,
    sessions: &[Row<Asked>],
) -> Result<(), AllocError>
    ensures { OnOk result (shown.new.items ≡ shown.old.items ++ flat_map text.session_section sessions.now) }
{
    for requests in sessions {
        push_session(alloc, shown, requests.as_slice())?;
    }
    Ok(())
}

#[tactic(auto, using(crate::proofs::Printed::regrouped))]
fn push_session(alloc: Global, shown: &mut Vec<u8>, requests: &[Asked]) -> Result<(), AllocError>
    ensures { OnOk result (shown.new.items ≡ shown.old.items ++ text.session_section requests.now) }
{
    shown.extend_from_slice(b"session\n")?;
    push_requests(alloc, shown, requests)?;
    shown.extend_from_slice(b"end\n")
}

fn push_requests(alloc: Global, shown: &mut Vec<u8>, requests: &[Asked]) -> Result<(), AllocError>
    ensures { OnOk result (shown.new.items ≡ shown.old.items ++ flat_map text.request_line requests.now) }
{
    for request in requests {
        push_request(alloc, shown, request)?;
    }
    Ok(())
}

fn push_request(alloc: Global, shown: &mut Vec<u8>, request: &Asked) -> Result<(), AllocError>
    ensures { OnOk result (shown.new.items ≡ shown.old.items ++ text.request_line request.now) }
{
    match request {
        Asked::Get(name) => push_line(shown, b"get ", name.as_str().as_bytes()),
        Asked::Put { name, body: None } => push_line(shown, b"put ", name.as_str().as_bytes()),
        Asked::Put {
            name,
            body: Some(body),
        } => push_put(shown, name.as_str().as_bytes(), body.as_slice()),
        Asked::Raw(bytes) => {
            let pairs = hex_of(alloc, bytes.as_slice())?;
            push_line(shown, b"raw ", pairs.as_bytes())
        }
    }
}

// A line of a word, with the space behind it, and a field.
#[tactic(auto, using(crate::proofs::Printed::regrouped))]
fn push_line(shown: &mut Vec<u8>, word: &[u8], rest: &[u8]) -> Result<(), AllocError>
    ensures { OnOk result (shown.new.items ≡ shown.old.items ++ ((word.now ++ rest.now) ++ codes "\n")) }
{
    shown.extend_from_slice(word)?;
    shown.extend_from_slice(rest)?;
    shown.extend_from_slice(b"\n")
}

#[tactic(auto, using(crate::proofs::Printed::regrouped))]
fn push_put(shown: &mut Vec<u8>, name: &[u8], body: &[u8]) -> Result<(), AllocError>
    ensures { OnOk result (shown.new.items ≡ shown.old.items ++ (codes "put" ++ field name.now ++ field body.now ++ codes "\n")) }
{
    shown.extend_from_slice(b"put ")?;
    shown.extend_from_slice(name)?;
    push_line(shown, b" ", body)
}

#[tactic(auto, using(crate::proofs::Printed::regrouped))]
fn push_order(
    alloc: Global,
    shown: &mut Vec<u8>,
    order: &Option<Row<OrderStep>>,
) -> Result<(), AllocError>
    ensures { OnOk result (shown.new.items ≡ shown.old.items ++ text.order_section order.now) }
{
    match order {
        None => Ok(()),
        Some(steps) => {
            shown.extend_from_slice(b"order\n")?;
            push_steps(alloc, shown, steps.as_slice())?;
            shown.extend_from_slice(b"end\n")
        }
    }
}

fn push_steps(alloc: Global, shown: &mut Vec<u8>, steps: &[OrderStep]) -> Result<(), AllocError>
    ensures { OnOk result (shown.new.items ≡ shown.old.items ++ flat_map text.step_line steps.now) }
{
    for step in steps {
        push_step(alloc, shown, *step)?;
    }
    Ok(())
}

fn push_step(alloc: Global, shown: &mut Vec<u8>, step: OrderStep) -> Result<(), AllocError>
    ensures { OnOk result (shown.new.items ≡ shown.old.items ++ text.step_line step) }
{
    let line = step_line(alloc, step)?;
    shown.extend_from_slice(line.as_bytes())
}

#[tactic(auto, using(crate::proofs::Printed::regrouped))]
fn step_line(alloc: Global, step: OrderStep) -> Result<String, AllocError>
    ensures { IfOk result (λ line. string_bytes line ≡ text.step_line step) }
{
    match step {
        OrderStep::Session(session) => format!(in alloc; "s {session}\n"),
        OrderStep::Vcpu(vcpu) => format!(in alloc; "v {vcpu}\n"),
        OrderStep::Queue => String::from_str(alloc, "q\n"),
    }
}

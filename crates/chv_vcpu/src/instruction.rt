// One instruction, up to what it asks.
ghost use Rattle.std.specs.Prelude.{◌≡◌, ◌+◌, ◌<◌, ◌^◌, List, length, true, IfOk, OnOk, OnErr};
ghost use Rattle.chv_defs_guest.specs.Instruction.{CanBeRun, CanStep, instruction, moved, step_of, with_register};
ghost use Rattle.chv_defs_scene.specs.ScriptReading.{is_instruction, is_register};
ghost use Rattle.chv_defs_scene.specs.declared.scene.Line.{Line};
ghost use Rattle.chv_vcpu.specs.Stores.{is_store};

use crate::moves::{jump_if, move_on};
use crate::registers::{register, set_register};
use crate::values::{calculated, lowest, lowest_bytes};
use chv_defs_api::CpuNote;
use chv_defs_base::Bytes;
use chv_defs_guest::Want;
use chv_defs_scene::{Line, Script};
use std::alloc::{AllocError, Global};

/// What a vCPU does next: an instruction that asks for nothing is executed; one that asks for something is not yet, and
/// leaves the vCPU as it is until it is settled; and past the last line the vCPU halts. Takes memory for the bytes of a store
/// alone, and where there is none the vCPU stays as it was. A jump takes time that grows with the number of the lines before
/// its label.
pub fn step(alloc: Global, cpu: &mut CpuNote, script: &Script) -> Result<Want, AllocError>
    requires can { CanStep cpu.old }
    requires script { CanBeRun script.now.lines }
    ensures state { OnOk result (cpu.new ≡ (step_of script.now.lines cpu.old).0) }
    ensures wanted { IfOk result (λ asked. asked ≡ (step_of script.now.lines cpu.old).1) }
    ensures memory { OnErr result (is_store (step_of script.now.lines cpu.old).1 ≡ true) }
    ensures err { OnErr result (cpu.new ≡ cpu.old) }
{
    let lines = script.lines.as_slice();
    match lines.get(cpu.pos as usize) {
        Some(line) => execute(alloc, cpu, lines, line),
        None => {
            cpu.halted = true;
            Ok(Want::Halted)
        }
    }
}

// What an instruction does.
fn execute(
    alloc: Global,
    cpu: &mut CpuNote,
    script: &[Line],
    line: &Line,
) -> Result<Want, AllocError>
    requires line { is_instruction line.now ≡ true }
    requires short { length script.now < 2 ^ 32 }
    requires fuel { 0 < cpu.old.fuel }
    requires place { cpu.old.pos + 1 < 2 ^ 32 }
    ensures state { OnOk result (cpu.new ≡ (instruction script.now line.now cpu.old).0) }
    ensures wanted { IfOk result (λ asked. asked ≡ (instruction script.now line.now cpu.old).1) }
    ensures memory { OnErr result (is_store (instruction script.now line.now cpu.old).1 ≡ true) }
    ensures err { OnErr result (cpu.new ≡ cpu.old) }
{
    let asked = asked(alloc, cpu, line)?;
    advance(cpu, script, line);
    Ok(asked)
}

// What an instruction asks of the world, in a script whatever.
fn asked(alloc: Global, cpu: &CpuNote, line: &Line) -> Result<Want, AllocError>
    requires { is_instruction line.now ≡ true }
    ensures wanted { IfOk result (λ asked. (script : List Line) → asked ≡ (instruction script line.now cpu.now).1) }
    ensures memory { OnErr result ((script : List Line) → is_store (instruction script line.now cpu.now).1 ≡ true) }
{
    match line {
        Line::Ld {
            width,
            rd,
            ra,
            offset,
        } => Ok(Want::Load {
            addr: register(cpu, *ra).wrapping_add(*offset),
            width: *width,
            reg: *rd,
        }),
        Line::St {
            width,
            rs,
            ra,
            offset,
        } => Ok(Want::Store {
            addr: register(cpu, *ra).wrapping_add(*offset),
            bytes: lowest_bytes(alloc, *width, register(cpu, *rs))?,
            put: false,
        }),
        Line::Put { ra, bytes } => Ok(Want::Store {
            addr: register(cpu, *ra),
            bytes: Bytes::of(alloc, bytes.as_slice())?,
            put: true,
        }),
        Line::In { width, rd, port } => Ok(Want::In {
            width: *width,
            port: *port,
            reg: *rd,
        }),
        Line::Out { width, rs, port } => Ok(Want::Out {
            width: *width,
            port: *port,
            value: lowest(*width, register(cpu, *rs)),
        }),
        _ => Ok(Want::Nothing),
    }
}

// The state behind an instruction that asks for nothing. One that asks for something leaves the state.
fn advance(cpu: &mut CpuNote, script: &[Line], line: &Line)
    requires line { is_instruction line.now ≡ true }
    requires short { length script.now < 2 ^ 32 }
    requires fuel { 0 < cpu.old.fuel }
    requires place { cpu.old.pos + 1 < 2 ^ 32 }
    ensures { cpu.new ≡ (instruction script.now line.now cpu.old).0 }
{
    match line {
        Line::At(_) => move_on(cpu),
        Line::Set { rd, value } => write(cpu, *rd, *value),
        Line::Mov { rd, ra } => {
            let value = register(cpu, *ra);
            write(cpu, *rd, value)
        }
        Line::Math { op, rd, ra, rb } => {
            let value = calculated(*op, register(cpu, *ra), register(cpu, *rb));
            write(cpu, *rd, value)
        }
        Line::Jmp(to) => jump_if(cpu, true, script, to),
        Line::Jz { ra, to } => {
            let made = register(cpu, *ra) == 0;
            jump_if(cpu, made, script, to)
        }
        Line::Jnz { ra, to } => {
            let made = register(cpu, *ra) != 0;
            jump_if(cpu, made, script, to)
        }
        Line::Jlt { ra, rb, to } => {
            let made = register(cpu, *ra) < register(cpu, *rb);
            jump_if(cpu, made, script, to)
        }
        Line::Halt => halt(cpu),
        Line::Ld { .. } | Line::St { .. } | Line::Put { .. } | Line::In { .. } | Line::Out { .. } =>
            {}
    }
}

// Puts a value into a register and goes to the next line, for one fuel.
fn write(cpu: &mut CpuNote, rd: u8, value: u64)
    requires register { is_register rd ≡ true }
    requires fuel { 0 < cpu.old.fuel }
    requires place { cpu.old.pos + 1 < 2 ^ 32 }
    ensures { cpu.new ≡ moved (with_register rd value cpu.old) }
{
    set_register(cpu, rd, value);
    move_on(cpu);
}

// Halts and goes to the next line, for one fuel.
fn halt(cpu: &mut CpuNote)
    requires fuel { 0 < cpu.old.fuel }
    requires place { cpu.old.pos + 1 < 2 ^ 32 }
    ensures { cpu.new ≡ moved (record cpu.old { halted = true }) }
{
    cpu.halted = true;
    move_on(cpu);
}

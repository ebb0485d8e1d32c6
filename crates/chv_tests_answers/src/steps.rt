// Instructions of a vCPU (`chv_vcpu`).
ghost use Rattle.std.specs.Prelude.{◌≡◌, ◌+◌, ◌<◌, ◌≤◌, ◌^◌, length, true, IfOk};
ghost use Rattle.chv_defs_guest.specs.Instruction.{CanBeRun, CanSettle, CanStep};
ghost use Rattle.chv_defs_scene.specs.ScriptReading.{is_register};

use crate::answers::allocated;
use crate::escapes::bytes_of;
use crate::scripts::lines_of;
use crate::words::{cut, found, number};
use chv_defs_api::CpuNote;
use chv_defs_base::{Bytes, Row};
use chv_defs_scene::Script;
use chv_num::hex_of;
use chv_script::{read, reads_exactly_the_scripts};
use chv_vcpu::{Got, Want, settle, step};
use std::alloc::{AllocError, Global};
use std::io;

/// The most lines of a script that is run.
const MOST: usize = 4096;

/// `step POSITION FUEL REGISTERS GOT LINES`: what a vCPU of this script asks for at a position, and its state then, or where the
/// world answered (a value, `done` or `fault`) behind the answer. Registers that are 0 are not told.
pub fn instruction(alloc: Global, words: &str) -> io::Result<String> {
    let (position, behind) = cut(words, ' ');
    let (fuel, behind) = cut(behind, ' ');
    let (registers, behind) = cut(behind, ' ');
    let (got, lines) = cut(behind, ' ');
    let mut cpu = cpu_of(position, fuel, registers)?;
    let got = got_of(got)?;
    let script = script_of(alloc, lines)?;
    let shown = went(alloc, &mut cpu, &script, got);
    drop(script);
    allocated(shown)
}

fn went(
    alloc: Global,
    cpu: &mut CpuNote,
    script: &Script,
    got: Option<Got>,
) -> Result<String, AllocError>
    requires { CanBeRun script.now.lines }
{
    if !can_step(cpu) {
        return String::from_str(alloc, "cannot step");
    }
    let want = step(alloc, cpu, script)?;
    if let Some(got) = got {
        answered(cpu, &want, got);
    }
    let shown = want_text(alloc, &want);
    drop(want);
    with_state(shown?, cpu)
}

/// Whether a vCPU can take a step.
pub fn can_step(cpu: &CpuNote) -> bool
    ensures { result ≡ true → CanStep cpu.now }
{
    !cpu.halted && cpu.fuel > 0
}

// Gives a vCPU what it asked for, where it asked.
fn answered(cpu: &mut CpuNote, want: &Want, got: Got) {
    if can_settle(cpu, want) {
        settle(cpu, want, got);
    }
}

fn can_settle(cpu: &CpuNote, want: &Want) -> bool
    ensures { result ≡ true → CanSettle want.now cpu.now }
{
    match want {
        Want::Load { reg, .. } => can_go_on(cpu, *reg),
        Want::In { reg, .. } => can_go_on(cpu, *reg),
        Want::Store { .. } => can_go_on(cpu, 0),
        Want::Out { .. } => can_go_on(cpu, 0),
        Want::Nothing => false,
        Want::Halted => false,
    }
}

fn can_go_on(cpu: &CpuNote, reg: u8) -> bool
    ensures register { result ≡ true → is_register reg ≡ true }
    ensures fuel { result ≡ true → 0 < cpu.now.fuel }
    ensures place { result ≡ true → cpu.now.pos + 1 < 2 ^ 32 }
{
    reg <= 15 && cpu.fuel > 0 && cpu.pos < u32::MAX
}

/// The script that lines are, each ended by a line feed.
pub fn script_of(alloc: Global, lines: &str) -> io::Result<Script>
    ensures { IfOk result (λ script. CanBeRun script.lines) }
{
    let text = bytes_of(alloc, lines)?;
    let lines = Row::new(lines_of(alloc, text.as_slice())?);
    drop(text);
    if MOST < lines.len() {
        return Err(io::Error::other("the script is too long"));
    }
    script_in(alloc, &lines)
}

fn script_in(alloc: Global, lines: &Row<Bytes>) -> io::Result<Script>
    requires { length lines.now ≤ 4096 }
    ensures { IfOk result (λ script. CanBeRun script.lines) }
{
    match read(alloc, lines)? {
        Ok(script) => {
            reads_exactly_the_scripts();
            Ok(script)
        }
        Err(_) => Err(io::Error::other("the lines are no script")),
    }
}

/// A vCPU at a position, with fuel and registers: `r1=0x10,r2=5`, or `-` where all are 0.
pub fn cpu_of(position: &str, fuel: &str, registers: &str) -> io::Result<CpuNote> {
    let mut cpu = CpuNote {
        vcpu: 0,
        pos: found(position.parse().ok())?,
        fuel: found(number(fuel))?,
        halted: false,
        regs: [0; 16],
    };
    for word in registers.split(',') {
        if word != "-" {
            set_register(&mut cpu, word)?;
        }
    }
    Ok(cpu)
}

fn set_register(cpu: &mut CpuNote, word: &str) -> io::Result<()> {
    let (name, value) = cut(word, '=');
    let value = found(number(value))?;
    match number(cut(name, 'r').1) {
        Some(r) if r < 16 => cpu.regs[r as usize] = value,
        _ => return Err(io::Error::other("no register")),
    }
    Ok(())
}

// What the world answers: nothing yet (`-`), that it is done, that it faulted, or a value.
fn got_of(word: &str) -> io::Result<Option<Got>> {
    match word {
        "-" => Ok(None),
        "done" => Ok(Some(Got::Done)),
        "fault" => Ok(Some(Got::Fault)),
        _ => Ok(Some(Got::Value(found(number(word))?))),
    }
}

/// What a vCPU asks for.
pub fn want_text(alloc: Global, want: &Want) -> Result<String, AllocError> {
    match want {
        Want::Nothing => String::from_str(alloc, "nothing"),
        Want::Halted => String::from_str(alloc, "halted"),
        Want::Load { addr, width, reg } => format!(in alloc; "load 0x{addr:x} {width} r{reg}"),
        Want::Store { addr, bytes, put } => store_text(alloc, *addr, bytes, *put),
        Want::In { width, port, reg } => format!(in alloc; "in {width} 0x{port:x} r{reg}"),
        Want::Out { width, port, value } => {
            format!(in alloc; "out {width} 0x{port:x} 0x{value:x}")
        }
    }
}

fn store_text(alloc: Global, addr: u64, bytes: &Bytes, put: bool) -> Result<String, AllocError> {
    let word = if put { "put" } else { "store" };
    let pairs = hex_of(alloc, bytes.as_slice())?;
    format!(in alloc; "{word} 0x{addr:x} {pairs}")
}

// A text, and the state of a vCPU behind it.
pub fn with_state(mut text: String, cpu: &CpuNote) -> Result<String, AllocError> {
    let position = cpu.pos;
    let fuel = cpu.fuel;
    let halted = if cpu.halted { " halted" } else { "" };
    write!(text, "; at {position}, fuel {fuel}{halted}")?;
    for r in 0..16 {
        push_register(&mut text, r, cpu.regs[r])?;
    }
    Ok(text)
}

fn push_register(text: &mut String, r: usize, value: u64) -> Result<(), AllocError> {
    if value != 0 {
        write!(text, " r{r}=0x{value:x}")?;
    }
    Ok(())
}

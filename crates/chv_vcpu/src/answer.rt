// What the world's answer leaves of a vCPU.
ghost use Rattle.std.specs.Prelude.{◌≡◌, ◌+◌, ◌<◌, ◌^◌, ℕ, Bool, List, true};
ghost use Rattle.chv_defs_guest.specs.Instruction.{CanSettle, flagged, settled, with_register};
ghost use Rattle.chv_defs_guest.specs.declared.want.Want.TheVariants as want;
ghost use Rattle.chv_defs_scene.specs.ScriptReading.{is_register};

use crate::moves::move_on;
use crate::registers::set_register;
use chv_defs_api::CpuNote;
use chv_defs_guest::{Got, Want};

/// The register that tells whether the last access to memory faulted.
const FLAG: u8 = 15;

/// Completes an instruction that asked for something, by what it got. Takes no memory. An answer that does not fit what was
/// asked, as a value for a store, leaves the vCPU as it is.
pub fn settle(cpu: &mut CpuNote, want: &Want, got: Got)
    requires { CanSettle want.now cpu.old }
    ensures { cpu.new ≡ settled cpu.old want.now got }
{
    match want {
        Want::Load { reg, .. } => loaded(cpu, *reg, got),
        Want::Store { .. } => stored(cpu, got),
        Want::In { reg, .. } => read(cpu, *reg, got),
        Want::Out { .. } => written(cpu, got),
        Want::Nothing | Want::Halted => {}
    }
}

// The end of a load.
fn loaded(cpu: &mut CpuNote, reg: u8, got: Got)
    requires register { is_register reg ≡ true }
    requires fuel { 0 < cpu.old.fuel }
    requires place { cpu.old.pos + 1 < 2 ^ 32 }
    ensures { (addr width : ℕ) → cpu.new ≡ settled cpu.old (want.Load addr width reg) got }
{
    match got {
        Got::Value(value) => {
            set_register(cpu, reg, value);
            end_access(cpu, 0);
        }
        Got::Fault => end_access(cpu, 1),
        Got::Done => {}
    }
}

// The end of a store.
fn stored(cpu: &mut CpuNote, got: Got)
    requires fuel { 0 < cpu.old.fuel }
    requires place { cpu.old.pos + 1 < 2 ^ 32 }
    ensures { (addr : ℕ) (bytes : List ℕ) (put : Bool) → cpu.new ≡ settled cpu.old (want.Store addr bytes put) got }
{
    match got {
        Got::Done => end_access(cpu, 0),
        Got::Fault => end_access(cpu, 1),
        Got::Value(_) => {}
    }
}

// The end of a read of a port.
fn read(cpu: &mut CpuNote, reg: u8, got: Got)
    requires register { is_register reg ≡ true }
    requires fuel { 0 < cpu.old.fuel }
    requires place { cpu.old.pos + 1 < 2 ^ 32 }
    ensures { (width port : ℕ) → cpu.new ≡ settled cpu.old (want.In width port reg) got }
{
    if let Got::Value(value) = got {
        set_register(cpu, reg, value);
        move_on(cpu);
    }
}

// The end of a write to a port.
fn written(cpu: &mut CpuNote, got: Got)
    requires fuel { 0 < cpu.old.fuel }
    requires place { cpu.old.pos + 1 < 2 ^ 32 }
    ensures { (width port value : ℕ) → cpu.new ≡ settled cpu.old (want.Out width port value) got }
{
    if let Got::Done = got {
        move_on(cpu);
    }
}

// The end of an access to memory: the flag says whether it faulted, and the vCPU goes to the next line, for one fuel.
fn end_access(cpu: &mut CpuNote, fault: u64)
    requires fuel { 0 < cpu.old.fuel }
    requires place { cpu.old.pos + 1 < 2 ^ 32 }
    ensures { cpu.new ≡ flagged fault cpu.old }
{
    set_register(cpu, FLAG, fault);
    move_on(cpu);
}

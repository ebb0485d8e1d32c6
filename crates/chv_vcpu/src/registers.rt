// The registers.
ghost use Rattle.std.specs.Prelude.{◌≡◌, ◌<◌, true};
ghost use Rattle.chv_defs_guest.specs.Instruction.{register, with_register};
ghost use Rattle.chv_defs_scene.specs.ScriptReading.{is_register};

use chv_defs_api::CpuNote;

/// What a register holds.
pub(crate) fn register(cpu: &CpuNote, r: u8) -> u64
    requires { is_register r ≡ true }
    ensures { result ≡ register cpu.now r }
{
    cpu.regs[r as usize]
}

/// Puts a value into a register.
pub(crate) fn set_register(cpu: &mut CpuNote, r: u8, value: u64)
    requires { is_register r ≡ true }
    ensures { cpu.new ≡ with_register r value cpu.old }
{
    cpu.regs[r as usize] = value;
}

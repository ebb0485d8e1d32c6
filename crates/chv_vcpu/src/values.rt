// Values of registers: what operations make of them, and their lowest bytes.
ghost use Rattle.std.specs.Prelude.{◌≡◌, IfOk, true};
ghost use Rattle.chv_defs_base.specs.Numbers.{is_width, le_bytes};
ghost use Rattle.chv_defs_guest.specs.Instruction.{calculated, lowest, wrapped};

use chv_defs_base::Bytes;
use chv_defs_scene::MathOp;
use chv_num::put_le;
use std::alloc::{AllocError, Global};

/// What an operation makes of two values.
pub(crate) fn calculated(op: MathOp, a: u64, b: u64) -> u64
    ensures { result ≡ calculated op a b }
{
    match op {
        MathOp::Add => a.wrapping_add(b),
        MathOp::Sub => a.wrapping_sub(b),
        MathOp::And => a & b,
        MathOp::Or => a | b,
        MathOp::Xor => a ^ b,
    }
}

/// The lowest bytes of a value, as a number.
pub(crate) fn lowest(width: u8, value: u64) -> u64
    requires { is_width width ≡ true }
    ensures { result ≡ lowest width value }
{
    match width {
        1 => value % 0x100,
        2 => value % 0x1_0000,
        4 => value % 0x1_0000_0000,
        _ => value,
    }
}

/// The lowest bytes of a value, the lowest first.
pub(crate) fn lowest_bytes(alloc: Global, width: u8, value: u64) -> Result<Bytes, AllocError>
    requires { is_width width ≡ true }
    ensures { IfOk result (λ bytes. bytes ≡ le_bytes width value) }
{
    let mut bytes = Vec::new(alloc);
    put_le(&mut bytes, lowest(width, value), width as usize)?;
    Ok(Bytes::new(bytes))
}

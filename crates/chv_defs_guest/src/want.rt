// What an instruction asks of the world outside of the processor, and what it gets.
use chv_defs_base::Bytes;

/// What an instruction asks of the world. Addresses are the guest's; widths are in bytes; `reg` is the number of the register
/// that a loaded value goes to.
#[derive(Drop)]
pub enum Want {
    /// Nothing: the instruction was executed.
    Nothing,
    /// There is no further line: the vCPU has halted, and no instruction was executed.
    Halted,
    /// A load (`ld`).
    Load { addr: u64, width: u8, reg: u8 },
    /// A store of these bytes: a `put`, or else an `st`.
    Store { addr: u64, bytes: Bytes, put: bool },
    /// A read of a port (`in`).
    In { width: u8, port: u16, reg: u8 },
    /// A write of a value to a port (`out`).
    Out { width: u8, port: u16, value: u64 },
}

/// What the world gives an instruction that asked for something.
#[derive(Clone, Copy, PartialEq, Eq)]
pub enum Got {
    /// The value that was loaded from memory, or read from a port or a device's window.
    Value(u64),
    /// A store or a write was done, or dropped.
    Done,
    /// The access was not done.
    Fault,
}

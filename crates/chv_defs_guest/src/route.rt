// Where an access of an instruction goes.
use chv_defs_api::RegAccess;

/// Where an access goes.
#[derive(Clone, Copy, PartialEq, Eq)]
pub enum Route {
    /// To this block of a zone's memory, at this offset in bytes; all bytes of the access lie in the block.
    Ram { zone: u8, block: u32, offset: u32 },
    /// To the control machine: a port, or a device's window, in which all bytes of the access lie.
    Control(RegAccess),
    /// A load where nothing is: it gives all ones.
    Ones,
    /// A store of an `st` where nothing is: it is dropped.
    Drop,
    /// An access that faults: it crosses the edge of a block, of a window or of the address space, or is a `put` outside of
    /// memory.
    Bad,
}

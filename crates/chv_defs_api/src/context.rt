// Contexts, which are the saved state of a vCPU or of a device's queue, and how a slice of one ends.
use chv_defs_base::{BookId, Full, Row, Text};

/// The saved state of a context.
#[derive(Clone, Copy, PartialEq, Eq)]
pub enum ContextNote {
    Cpu(CpuNote),
    Queue(QueueNote),
}

/// A vCPU: the script line that it executes next, counted from 0, the instructions that it may still
/// execute, and its registers r0 to r15.
#[derive(Clone, Copy, PartialEq, Eq)]
pub struct CpuNote {
    pub vcpu: u8,
    pub pos: u32,
    pub fuel: u64,
    pub halted: bool,
    pub regs: [u64; 16],
}

/// A device's queue (VIRTIO 1.2, 2.7): the next index of the driver ring and of the device ring.
#[derive(Clone, Copy, PartialEq, Eq)]
pub struct QueueNote {
    pub slot: u8,
    pub last: u16,
    pub used: u16,
    pub counts: DiskCount,
}

/// What a disk has done: requests and bytes.
#[derive(Clone, Copy, PartialEq, Eq)]
pub struct DiskCount {
    pub reads: u64,
    pub writes: u64,
    pub read_bytes: u64,
    pub write_bytes: u64,
}

/// The counts of the disk with this id.
#[derive(Clone, PartialEq, Eq, Drop)]
pub struct CountOf {
    pub id: Text,
    pub count: DiskCount,
}

/// What a device is, with its place among the configuration's disks or zones.
#[derive(Clone, Copy, PartialEq, Eq)]
pub enum DeviceKind {
    Disk(u8),
    Memory(u8),
}

/// How a context comes home: its state, how its slice ended, and the books of its entries in order.
#[derive(Clone, PartialEq, Eq, Drop)]
pub struct HandNote {
    pub note: ContextNote,
    pub end: SliceEnd,
    pub order: Row<BookId>,
}

/// How a slice ends.
#[derive(Clone, Copy, PartialEq, Eq)]
pub enum SliceEnd {
    /// It did as much as one slice may.
    Full,
    /// There was nothing more to do.
    Idle,
    /// A block of its next access is sealed; `seen` is a place of that bank's history.
    Sealed { book: BookId, block: u32, seen: u64 },
    Broken(QueueFault),
    /// The run ends.
    Stopped,
}

/// What is wrong with a queue or a chain of it. Addresses are the guest's.
#[derive(Clone, Copy, PartialEq, Eq)]
pub enum QueueFault {
    BadIndex,
    Loop,
    Indirect,
    Order,
    TooLong,
    Short,
    RingClosed(u64),
    BufferClosed(u64),
}

/// Why a run stops before its end.
#[derive(Clone, Copy, PartialEq, Eq)]
pub enum StopCause {
    Memory,
    Full(Full),
    Listen,
}

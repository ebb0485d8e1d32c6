// Runs of RAM.

/// Blocks of a zone that follow each other in guest addresses: `count` of them from the block `first` on, of which the
/// first one begins at the guest address `addr`.
#[derive(Clone, Copy, PartialEq, Eq)]
pub struct Run {
    pub zone: u8,
    pub first: u32,
    pub count: u32,
    pub addr: u64,
}

// In what a stretch of guest addresses lies.

/// The place of a stretch of guest addresses. Offsets are in bytes.
#[derive(Clone, Copy, PartialEq, Eq)]
pub enum Place {
    /// All bytes lie in one block of 2 MiB of a zone; `offset` is the first one's in it.
    Ram { zone: u8, block: u32, offset: u32 },
    /// All bytes lie in the window of one slot.
    Bar { slot: u8, offset: u32 },
    /// All bytes lie neither in RAM nor in a window.
    Hole,
    /// None of these, no bytes at all, or bytes past the end of the address space.
    Crosses,
}

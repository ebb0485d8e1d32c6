// The sizes and limits in which several crates count.

/// Bytes of a block (2 MiB), the unit in which memory is plugged and unplugged.
pub const BLOCK_BYTES: u64 = 2_097_152;

/// Bytes of a page.
pub const PAGE_BYTES: usize = 4096;

/// How many entries a book has at most, that of the control calls and that of a bank; reserved ones count.
pub const MOST_ENTRIES: u64 = 1_048_576;

/// How many bytes of payload a book has at most.
pub const MOST_PAYLOAD: u64 = 16_777_216;

/// How many slots there are for devices.
pub const SLOTS: usize = 31;

/// How many zones there are at most.
pub const MOST_ZONES: u8 = 8;

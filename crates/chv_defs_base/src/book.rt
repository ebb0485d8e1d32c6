// Books, and that one is full.

/// A book whose next entry would pass a limit, and what it holds, reserved places counted.
#[derive(Clone, Copy, PartialEq, Eq, Debug)]
pub struct Full {
    pub book: BookId,
    pub entries: u64,
    /// Bytes of payload.
    pub bytes: u64,
}

/// A book: the control book, or a bank of a zone.
#[derive(Clone, Copy, PartialEq, Eq, Debug)]
pub enum BookId {
    Control,
    Bank { zone: u8, bank: u8 },
}

// Regions of guest addresses.

/// A zone's region of guest addresses for memory that is plugged: of `size` 0 bytes where the zone does not grow.
#[derive(Clone, Copy, PartialEq, Eq)]
pub struct Region {
    pub addr: u64,
    pub size: u64,
}

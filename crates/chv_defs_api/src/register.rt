// Accesses of a vCPU to ports and device windows.

/// An access to a port, or to a device's BAR window at a guest address. Widths are in bytes.
#[derive(Clone, Copy, PartialEq, Eq)]
pub enum RegAccess {
    In { width: u8, port: u16 },
    Out { width: u8, port: u16, value: u64 },
    MmioRead { width: u8, addr: u64 },
    MmioWrite { width: u8, addr: u64, value: u64 },
}

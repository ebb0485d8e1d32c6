// Disks that stand by.
use chv_defs_base::Name;

/// A disk that stands by, in sectors of 512 bytes.
#[derive(Drop)]
pub struct OnShelf {
    pub name: Name,
    pub sectors: u64,
}

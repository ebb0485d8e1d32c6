// What a control value is made of.
use chv_defs_base::Name;
use chv_store::AnyDisk;

/// What a control value is made of.
#[derive(Drop)]
pub struct Start<D, Z> {
    /// The disks that stand by, each behind its name.
    pub disks: Vec<(Name, AnyDisk<D>)>,
    /// The banks of all zones.
    pub zones: Z,
    /// How many sessions there are, at most 16. Their callers are 1, 2, and so on.
    pub sessions: u32,
}

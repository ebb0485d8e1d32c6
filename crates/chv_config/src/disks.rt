// What is asked of a disk by itself.
ghost use Rattle.std.specs.Prelude.{◌≡◌, IfOk, map};
ghost use Rattle.chv_defs_api.specs.ConfigRules.{disk_name, has_bad_id, has_odd_queue};

use crate::texts::is_id;
use chv_defs_api::{DiskConfig, last_component};
use chv_defs_base::{Name, Row, Text};
use std::alloc::{AllocError, Global};

/// The sizes that a queue can have: the powers of two up to 1,024.
const QUEUE_SIZES: [u64; 11] = [1, 2, 4, 8, 16, 32, 64, 128, 256, 512, 1024];

/// The name of a disk: the last component of its path.
pub fn disk_name(alloc: Global, disk: &DiskConfig) -> Result<Text, AllocError>
    ensures { IfOk result (λ name. name ≡ disk_name disk.now) }
{
    Text::of(alloc, last_component(disk.path.as_str()))
}

/// The names of disks, in order.
pub fn disk_names(alloc: Global, disks: &[DiskConfig]) -> Result<Vec<Text>, AllocError>
    ensures { IfOk result (λ names. names.items ≡ map disk_name disks.now) }
{
    let mut names = Vec::new(alloc);
    for disk in disks {
        names.push(disk_name(alloc, disk)?)?;
    }
    Ok(names)
}

/// Names as texts, in order.
pub fn texts_of(alloc: Global, names: &Row<Name>) -> Result<Vec<Text>, AllocError>
    ensures { IfOk result (λ texts. texts.items ≡ names.now) }
{
    let mut texts = Vec::new(alloc);
    for name in names.as_slice() {
        texts.push(Text::of(alloc, name.as_str())?)?;
    }
    Ok(texts)
}

/// Whether the id that a disk is given is no identifier.
pub fn has_bad_id(disk: &DiskConfig) -> bool
    ensures { result ≡ has_bad_id disk.now }
{
    match &disk.id {
        Some(id) => !is_id(id.as_str()),
        None => false,
    }
}

/// Whether the queue of a disk has a shape that is not served.
pub fn has_odd_queue(disk: &DiskConfig) -> bool
    ensures { result ≡ has_odd_queue disk.now }
{
    disk.queues != 1 || !QUEUE_SIZES.contains(&disk.queue_size)
}

use chv_io::Disk;
use chv_store::{AnyDisk, MemDisk};
use chv_tests_samples::numbers;
use std::alloc::{AllocError, Global};
use std::test::Fail;

/// A sector of one byte's copies.
const ONES: [u8; 512] = [1; 512];

/// Whether each call was done, the last bytes of the sectors that were read, and how many faults there were.
type Came = ([bool; 4], [u8; 2], u64);

/// Writes ones to a sector, reads it and the next one, and flushes.
fn work(disk: &mut AnyDisk<MemDisk>) -> Came {
    if disk.sectors() < 3 {
        return ([false; 4], [0; 2], 0);
    }
    let mut here = [0; 512];
    let mut next = [2; 512];
    let wrote = disk.write(1, &ONES).is_ok();
    let read = disk.read(1, &mut here).is_ok();
    let read_next = disk.read(2, &mut next).is_ok();
    let flushed = disk.flush().is_ok();
    (
        [wrote, read, read_next, flushed],
        [here[511], next[511]],
        disk.disk_faults(),
    )
}

/// What comes of a disk of zeros, as one of two kinds, whose calls of these numbers fail.
fn came(alloc: Global, is_made: bool, fail: &[u64]) -> Result<Came, AllocError> {
    let disk = MemDisk::new(alloc, 3, numbers(alloc, fail)?)?;
    let mut disk = if is_made {
        AnyDisk::Made(disk)
    } else {
        AnyDisk::Given(disk)
    };
    Ok(work(&mut disk))
}

/// Disks by name: whether the disk is made, its calls that fail, and what comes of it. A write that fails leaves zeros.
const DISKS: [(&str, bool, &[u64], Came); 4] = [
    ("a given disk", false, &[], ([true; 4], [1, 0], 0)),
    ("a made disk", true, &[], ([true; 4], [1, 0], 0)),
    (
        "its write and its flush fail",
        true,
        &[1, 4],
        ([false, true, true, false], [0, 0], 2),
    ),
    (
        "its second read fails",
        false,
        &[3],
        ([true, true, false, true], [1, 2], 1),
    ),
];

#[test]
fn disks_of_either_kind(rt: HostRuntime) -> Result<(), Fail> {
    for (name, is_made, fail, expected) in &DISKS {
        assert!(rt; came(rt.alloc(), *is_made, *fail)? == *expected, "{name}");
    }
    Ok(())
}

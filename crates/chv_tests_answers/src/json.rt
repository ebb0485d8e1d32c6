// Bodies that are read, and texts that are written (`chv_json`).
use crate::answers::{Shown, allocated, allowed, answer, written};
use crate::escapes::bytes_of;
use crate::words::{cut, found, number};
use chv_defs_api::{
    CountOf, DeviceInfo, DiskConfig, DiskCount, Info, ShownState, VmConfig, ZoneInfo,
};
use chv_defs_base::{Row, Text, beside};
use chv_json::{
    config_of, config_text, counters_text, device_text, disk_of, disk_text, info_text, text_of,
};
use std::alloc::{AllocError, Global};
use std::io;

// A configuration, written again.
impl Shown for VmConfig {
    fn shown(&self, alloc: Global) -> Result<String, AllocError> {
        written(alloc, config_text(alloc, self))
    }
}

// A disk, written again.
impl Shown for DiskConfig {
    fn shown(&self, alloc: Global) -> Result<String, AllocError> {
        written(alloc, disk_text(alloc, self))
    }
}

// What a resize asks for.
impl Shown for (Option<u64>, Option<u64>) {
    fn shown(&self, alloc: Global) -> Result<String, AllocError> {
        resized(alloc, self.0, self.1)
    }
}

// The zone and the memory that a resize of a zone asks for.
impl Shown for (Text, u64) {
    fn shown(&self, alloc: Global) -> Result<String, AllocError> {
        zoned(alloc, &self.0, self.1)
    }
}

/// The vCPUs and the memory that a resize asks for, `-` where none are.
pub fn resized(alloc: Global, vcpus: Option<u64>, ram: Option<u64>) -> Result<String, AllocError> {
    let mut shown = String::from_str(alloc, "resize")?;
    push_number(&mut shown, vcpus)?;
    push_number(&mut shown, ram)?;
    Ok(shown)
}

fn push_number(shown: &mut String, found: Option<u64>) -> Result<(), AllocError> {
    match found {
        Some(number) => write!(shown, " {number}"),
        None => shown.push_str(" -"),
    }
}

/// The zone that a resize of a zone names, and the memory that it asks for.
pub fn zoned(alloc: Global, id: &Text, ram: u64) -> Result<String, AllocError> {
    let id = id.shown(alloc)?;
    format!(in alloc; "zone {id} {ram}")
}

/// `text KEY BODY`: the text at a key of a body.
pub fn text_at(alloc: Global, words: &str) -> io::Result<String> {
    let (key, body) = cut(words, ' ');
    let body = bytes_of(alloc, body)?;
    allocated(answer(alloc, text_of(alloc, body.as_slice(), key)))
}

/// The configuration in a body that no rule refuses.
pub fn read_config(alloc: Global, body: &str) -> io::Result<VmConfig> {
    let body = bytes_of(alloc, body)?;
    allowed(config_of(alloc, body.as_slice()))
}

/// The disk in a body that no rule refuses.
pub fn read_disk(alloc: Global, body: &str) -> io::Result<DiskConfig> {
    let body = bytes_of(alloc, body)?;
    allowed(disk_of(alloc, body.as_slice()))
}

/// `device SLOT ID`: a device as it is written.
pub fn device(alloc: Global, words: &str) -> io::Result<String> {
    let (slot, id) = cut(words, ' ');
    let slot = found(slot.parse().ok())?;
    let id = Text::of(alloc, id)?;
    let device = DeviceInfo { slot, id };
    let text = device_text(alloc, &device);
    drop(device);
    allocated(written(alloc, text))
}

/// `info SIZE ZONE BODY`: what is shown of a machine that was created with the configuration in a body, where this is
/// its size and its one zone.
pub fn info(alloc: Global, words: &str) -> io::Result<String> {
    let (size, behind) = cut(words, ' ');
    let (zone, body) = cut(behind, ' ');
    let actual_size = found(number(size))?;
    let config = read_config(alloc, body)?;
    let (zones, config) = beside(allocated(zones_of(alloc, zone)), config)?;
    let info = Info {
        config,
        devices: Row::empty(alloc),
        actual_size,
        state: ShownState::Created,
        vcpus: Row::empty(alloc),
        zones,
    };
    let text = info_text(alloc, &info);
    drop(info);
    allocated(written(alloc, text))
}

fn zones_of(alloc: Global, id: &str) -> Result<Row<ZoneInfo>, AllocError> {
    let id = Text::of(alloc, id)?;
    let mut zones = Row::empty(alloc);
    zones.push(ZoneInfo {
        id,
        plugged_size: 0,
        requested_size: 0,
    })?;
    Ok(zones)
}

/// `counters COUNT ..`: counters as they are written.
pub fn counters(alloc: Global, words: &str) -> io::Result<String> {
    let counts = counts_of(alloc, words)?;
    let text = counters_text(alloc, &counts);
    drop(counts);
    allocated(written(alloc, text))
}

/// Counters, each `ID,READS,READ_BYTES,WRITES,WRITE_BYTES`.
pub fn counts_of(alloc: Global, words: &str) -> io::Result<Row<CountOf>> {
    let mut counts = Row::empty(alloc);
    for word in words.split(' ') {
        push_count(alloc, &mut counts, word)?;
    }
    Ok(counts)
}

fn push_count(alloc: Global, counts: &mut Row<CountOf>, word: &str) -> io::Result<()> {
    let (id, numbers) = cut(word, ',');
    if id.is_empty() {
        return Ok(());
    }
    let count = found(disk_count(numbers))?;
    let id = Text::of(alloc, id)?;
    allocated(counts.push(CountOf { id, count }))
}

fn disk_count(words: &str) -> Option<DiskCount> {
    let (reads, behind) = cut(words, ',');
    let (read_bytes, behind) = cut(behind, ',');
    let (writes, write_bytes) = cut(behind, ',');
    Some(DiskCount {
        reads: number(reads)?,
        writes: number(writes)?,
        read_bytes: number(read_bytes)?,
        write_bytes: number(write_bytes)?,
    })
}

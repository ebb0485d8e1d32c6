// A disk in memory.
ghost use Rattle.std.specs.Prelude.{◌≡◌, ◌<◌, length, replicate, IfOk};
ghost use Rattle.chv_io.specs.Outside.{HasCause};
ghost use Rattle.chv_io.specs.Disks.{IsWhole, GivesSector, WritesSector};
ghost use Rattle.chv_io.specs.FailingCalls.{FailsAsListed};
ghost use Rattle.chv_store.specs.MemDisk.{blank_disk, after_look, after_write};

use chv_defs_base::Row;
use chv_io::{Calls, Disk, Failed};
use std::alloc::{AllocError, Global};
use std::marker::Model;

/// A disk in memory, which tells its sectors. Its listed calls of `read`, `write` and `flush` fail, and no others. A
/// failing call changes no sector.
#[derive(Drop)]
pub struct MemDisk {
    sectors: Vec<[u8; 512]>,
    calls: Calls,
}

impl Model for MemDisk {
    ghost use Rattle.std.specs.Prelude.{◌≡◌, All, length};
    ghost use Rattle.chv_store.specs.MemDisk.{Platter};

    ghost Value = { Platter };

    ghost view = { λ d. record { sectors = d.sectors.items; calls = d.calls } };

    ghost invariant = { λ d. All (λ sector. length sector ≡ 512) d.sectors.items };
}

/// So many sectors of zeros.
fn blank_sectors(alloc: Global, count: usize) -> Result<Vec<[u8; 512]>, AllocError>
    ensures { IfOk result (λ sectors. sectors.items ≡ replicate count (replicate 512 0)) }
{
    let mut sectors = Vec::with_capacity(alloc, count)?;
    for _ in 0..count {
        sectors.push([0; 512])?;
    }
    Ok(sectors)
}

impl MemDisk {
    /// A disk of so many sectors of zeros. `fail` has the numbers of its calls, counted from 1, that fail.
    pub fn new(alloc: Global, sectors: u64, fail: Row<u64>) -> Result<MemDisk, AllocError>
        ensures { IfOk result (λ disk. disk ≡ blank_disk sectors fail) }
    {
        Ok(MemDisk {
            sectors: blank_sectors(alloc, sectors as usize)?,
            calls: Calls::new(fail),
        })
    }
}

impl Disk for MemDisk {
    ghost use Rattle.std.specs.Prelude.{Some, length};

    ghost contents = { λ d. Some d.sectors };

    ghost sector_count = { λ d. length d.sectors };

    ghost faults = { λ d. d.calls.faults };

    ghost calls = { λ d. Some d.calls };

    fn sectors(&self) -> u64
        ensures count { result ≡ length self.now.sectors }
        ensures whole { IsWhole self.now.sectors (length self.now.sectors) }
    {
        self.sectors.len() as u64
    }

    fn read(&mut self, sector: u64, into: &mut [u8; 512]) -> Result<(), Failed>
        requires { sector < length self.old.sectors }
        ensures gives { GivesSector (Some self.old.sectors) sector into.new result }
        ensures contents { Some self.new.sectors ≡ Some self.old.sectors }
        ensures count { length self.new.sectors ≡ length self.old.sectors }
        ensures cause { HasCause self.old.calls.faults self.new.calls.faults result }
        ensures listed { FailsAsListed (Some self.old.calls) (Some self.new.calls) result }
        ensures after { self.new ≡ after_look self.old }
    {
        self.calls.answer()?;
        *into = self.sectors[sector as usize];
        Ok(())
    }

    fn write(&mut self, sector: u64, from: &[u8; 512]) -> Result<(), Failed>
        requires { sector < length self.old.sectors }
        ensures contents { WritesSector (Some self.old.sectors) (Some self.new.sectors) sector from.now result }
        ensures count { length self.new.sectors ≡ length self.old.sectors }
        ensures cause { HasCause self.old.calls.faults self.new.calls.faults result }
        ensures listed { FailsAsListed (Some self.old.calls) (Some self.new.calls) result }
        ensures after { self.new ≡ after_write self.old sector from.now }
    {
        self.calls.answer()?;
        self.sectors[sector as usize] = *from;
        Ok(())
    }

    fn flush(&mut self) -> Result<(), Failed>
        ensures contents { Some self.new.sectors ≡ Some self.old.sectors }
        ensures count { length self.new.sectors ≡ length self.old.sectors }
        ensures cause { HasCause self.old.calls.faults self.new.calls.faults result }
        ensures listed { FailsAsListed (Some self.old.calls) (Some self.new.calls) result }
        ensures after { self.new ≡ after_look self.old }
    {
        self.calls.answer()
    }

    fn disk_faults(&self) -> u64 {
        self.calls.faults()
    }
}

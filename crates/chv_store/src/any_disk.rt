// One of two kinds of disk.
ghost use Rattle.std.specs.Prelude.{◌≡◌, ◌<◌};
ghost use Rattle.chv_io.specs.Disks.{GivesSector, WritesSector};
ghost use Rattle.chv_io.specs.FailingCalls.{FailsAsListed};
ghost use Rattle.chv_io.specs.Outside.{HasCause};

use crate::MemDisk;
use chv_io::{Disk, Failed};

/// A disk that was handed in, or one that was made in memory. It is the disk that it holds.
#[derive(Drop)]
pub enum AnyDisk<D> {
    /// A disk that was handed in.
    Given(D),
    /// A disk in memory.
    Made(MemDisk),
}

impl<D: Disk> Disk for AnyDisk<D> {
    ghost use Rattle.chv_store.specs.AnyDisk.{calls_by, contents_by, faults_by, is_given, sector_count_by};

    ghost contents = { contents_by D.contents };

    ghost sector_count = { sector_count_by D.sector_count };

    ghost faults = { faults_by D.faults };

    ghost calls = { calls_by D.calls };

    fn sectors(&self) -> u64 {
        match self {
            AnyDisk::Given(disk) => disk.sectors(),
            AnyDisk::Made(disk) => disk.sectors(),
        }
    }

    fn read(&mut self, sector: u64, into: &mut [u8; 512]) -> Result<(), Failed>
        requires { sector < sector_count_by D.sector_count self.old }
        ensures gives { GivesSector (contents_by D.contents self.old) sector into.new result }
        ensures contents { contents_by D.contents self.new ≡ contents_by D.contents self.old }
        ensures count { sector_count_by D.sector_count self.new ≡ sector_count_by D.sector_count self.old }
        ensures cause { HasCause (faults_by D.faults self.old) (faults_by D.faults self.new) result }
        ensures listed { FailsAsListed (calls_by D.calls self.old) (calls_by D.calls self.new) result }
        // It stays a disk that was handed in, or one in memory.
        ensures kind { is_given self.new ≡ is_given self.old }
    {
        match self {
            AnyDisk::Given(disk) => disk.read(sector, into),
            AnyDisk::Made(disk) => disk.read(sector, into),
        }
    }

    fn write(&mut self, sector: u64, from: &[u8; 512]) -> Result<(), Failed>
        requires { sector < sector_count_by D.sector_count self.old }
        ensures contents { WritesSector (contents_by D.contents self.old) (contents_by D.contents self.new) sector from.now result }
        ensures count { sector_count_by D.sector_count self.new ≡ sector_count_by D.sector_count self.old }
        ensures cause { HasCause (faults_by D.faults self.old) (faults_by D.faults self.new) result }
        ensures listed { FailsAsListed (calls_by D.calls self.old) (calls_by D.calls self.new) result }
        // It stays a disk that was handed in, or one in memory.
        ensures kind { is_given self.new ≡ is_given self.old }
    {
        match self {
            AnyDisk::Given(disk) => disk.write(sector, from),
            AnyDisk::Made(disk) => disk.write(sector, from),
        }
    }

    fn flush(&mut self) -> Result<(), Failed>
        ensures contents { contents_by D.contents self.new ≡ contents_by D.contents self.old }
        ensures count { sector_count_by D.sector_count self.new ≡ sector_count_by D.sector_count self.old }
        ensures cause { HasCause (faults_by D.faults self.old) (faults_by D.faults self.new) result }
        ensures listed { FailsAsListed (calls_by D.calls self.old) (calls_by D.calls self.new) result }
        // It stays a disk that was handed in, or one in memory.
        ensures kind { is_given self.new ≡ is_given self.old }
    {
        match self {
            AnyDisk::Given(disk) => disk.flush(),
            AnyDisk::Made(disk) => disk.flush(),
        }
    }

    fn disk_faults(&self) -> u64 {
        match self {
            AnyDisk::Given(disk) => disk.disk_faults(),
            AnyDisk::Made(disk) => disk.disk_faults(),
        }
    }
}

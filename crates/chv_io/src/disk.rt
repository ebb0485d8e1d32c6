// Disks.
ghost use Rattle.std.specs.Prelude.{◌≡◌, ◌<◌, ℕ, List, Option, None, IfSome};
ghost use Rattle.chv_io.specs.Outside.{HasCause};
ghost use Rattle.chv_io.specs.FailingCalls.{Calls, FailsAsListed};
ghost use Rattle.chv_io.specs.Disks.{IsWhole, GivesSector, WritesSector};

use crate::Failed;

/// A disk of sectors of 512 bytes, which counts its faults. Sectors are numbered from 0, and their number never
/// changes.
pub trait Disk {
    /// The sectors in order, where the disk tells them.
    ghost contents: { Self → Option (List (List ℕ)) };

    /// How many sectors there are.
    ghost sector_count: { Self → ℕ };

    /// How many faults there were.
    ghost faults: { Self → ℕ };

    /// Its calls of `read`, `write` and `flush`, where the disk tells which of them fail.
    ghost calls: { Self → Option Calls } = { λ _. None };

    /// How many sectors there are.
    fn sectors(&self) -> u64
        ensures count { result ≡ sector_count self.now }
        ensures whole { IfSome (contents self.now) (λ sectors. IsWhole sectors (sector_count self.now)) };

    /// Copies a sector into the buffer. It changes no sector, whatever it answers. The count of faults rises at `Failed`,
    /// here as below, and only there.
    fn read(&mut self, sector: u64, into: &mut [u8; 512]) -> Result<(), Failed>
        requires { sector < sector_count self.old }
        ensures gives { GivesSector (contents self.old) sector into.new result }
        ensures contents { contents self.new ≡ contents self.old }
        ensures count { sector_count self.new ≡ sector_count self.old }
        ensures cause { HasCause (faults self.old) (faults self.new) result }
        ensures listed { FailsAsListed (calls self.old) (calls self.new) result };

    /// Replaces a sector, and no other. After `Failed` it is the old one or the new one.
    fn write(&mut self, sector: u64, from: &[u8; 512]) -> Result<(), Failed>
        requires { sector < sector_count self.old }
        ensures contents { WritesSector (contents self.old) (contents self.new) sector from.now result }
        ensures count { sector_count self.new ≡ sector_count self.old }
        ensures cause { HasCause (faults self.old) (faults self.new) result }
        ensures listed { FailsAsListed (calls self.old) (calls self.new) result };

    /// Hands on what was written. It changes no sector, whatever it answers.
    fn flush(&mut self) -> Result<(), Failed>
        ensures contents { contents self.new ≡ contents self.old }
        ensures count { sector_count self.new ≡ sector_count self.old }
        ensures cause { HasCause (faults self.old) (faults self.new) result }
        ensures listed { FailsAsListed (calls self.old) (calls self.new) result };

    /// How many faults there were. The count stands still at its type's end.
    fn disk_faults(&self) -> u64
        ensures { result ≡ faults self.now };
}

// The search for a run.
ghost use Rattle.std.specs.Prelude.{◌≡◌, ◌+◌, ◌-◌, ◌<◌, ◌≤◌, ◌^◌, not, nat_le, slice_get, true};
ghost use Rattle.std.specs.List.{prefix_len};
ghost use Rattle.chv_addr.specs.AddressMap.{AreInOrder, holds, no_ram, ram_place, run_at, run_bytes};
ghost use Rattle.chv_addr.specs.Search.{next_run};

use crate::{Place, Run};
use chv_defs_base::BLOCK_BYTES;
use chv_lists::{Stretch, locate};

/// The run that holds an address.
pub fn run_at(runs: &[Run], addr: u64) -> Option<Run>
    requires { AreInOrder 0 runs.now }
    ensures { result ≡ run_at runs.now addr }
{
    match locate(runs, addr) {
        Ok(place) => Some(runs[place]),
        Err(_) => None,
    }
}

/// Whether some of the bytes from an address to the last one lie in RAM.
pub fn touches_ram(runs: &[Run], addr: u64, last: u64) -> bool
    requires { AreInOrder 0 runs.now }
    ensures { result ≡ not (no_ram runs.now addr (last + 1)) }
{
    match next_run(runs, addr) {
        Some(run) => run.addr <= last,
        None => false,
    }
}

/// The place of bytes of which the first lies in a run.
pub fn ram_place(run: Run, addr: u64, len: u64) -> Place
    requires held { holds run.addr (run_bytes run) addr ≡ true }
    requires small { run.first + run.count ≤ 2 ^ 32 }
    ensures { result ≡ ram_place run addr len }
{
    let from = addr - run.addr;
    let offset = from % BLOCK_BYTES;
    let room = BLOCK_BYTES - offset;
    if len <= room {
        Place::Ram {
            zone: run.zone,
            block: run.first + (from / BLOCK_BYTES) as u32,
            offset: offset as u32,
        }
    } else {
        Place::Crosses
    }
}

// The first run that ends above an address.
fn next_run(runs: &[Run], addr: u64) -> Option<Run>
    requires { AreInOrder 0 runs.now }
    ensures { result ≡ next_run runs.now addr }
{
    match runs.get(next_place(runs, addr)) {
        Some(run) => Some(*run),
        None => None,
    }
}

// The place of the first run that ends above an address.
fn next_place(runs: &[Run], addr: u64) -> usize
    requires { AreInOrder 0 runs.now }
    ensures { result ≡ prefix_len (λ run. nat_le (run.addr + run_bytes run) addr) runs.now }
{
    match locate(runs, addr) {
        Ok(place) => place,
        Err(place) => place,
    }
}

// A run is the stretch of its addresses.
impl Stretch for Run {
    ghost start = { λ run. run.addr };

    ghost end = { λ run. run.addr + run_bytes run };

    fn begins_by(&self, at: u64) -> bool {
        self.addr <= at
    }

    fn ends_by(&self, at: u64) -> bool {
        self.addr <= at && u64::from(self.count) * BLOCK_BYTES <= at - self.addr
    }
}

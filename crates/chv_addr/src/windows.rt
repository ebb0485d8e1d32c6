// The windows of devices.
ghost use Rattle.std.specs.Prelude.{◌≡◌, ◌+◌, ◌≤◌, not, true};
ghost use Rattle.chv_defs_api.specs.Registers.{window_bytes, window_start};
ghost use Rattle.chv_addr.specs.AddressMap.{bar_place, holds, no_window, slot_at};

use crate::Place;

/// Where the window of slot 0 would begin.
const WINDOWS: u64 = 0xe000_0000;

/// The bytes of a window.
const WINDOW_BYTES: u64 = 0x1_0000;

/// Where the window of slot 1 begins.
const FIRST: u64 = WINDOWS + WINDOW_BYTES;

/// Where the window of slot 31 ends.
const END: u64 = WINDOWS + 32 * WINDOW_BYTES;

/// The slot whose window holds an address.
pub fn slot_at(addr: u64) -> Option<u8>
    ensures { result ≡ slot_at addr }
{
    if addr < FIRST || addr >= END {
        return None;
    }
    Some(((addr - WINDOWS) / WINDOW_BYTES) as u8)
}

/// Whether some of the bytes from an address to the last one lie in a window.
pub fn touches_window(addr: u64, last: u64) -> bool
    requires { addr ≤ last }
    ensures { result ≡ not (no_window addr (last + 1)) }
{
    addr < END && last >= FIRST
}

/// The place of bytes of which the first lies in the window of a slot.
pub fn bar_place(slot: u8, addr: u64, len: u64) -> Place
    requires { holds (window_start slot) window_bytes addr ≡ true }
    ensures { result ≡ bar_place slot addr len }
{
    let offset = addr - (WINDOWS + u64::from(slot) * WINDOW_BYTES);
    if len <= WINDOW_BYTES - offset {
        Place::Bar {
            slot,
            offset: offset as u32,
        }
    } else {
        Place::Crosses
    }
}

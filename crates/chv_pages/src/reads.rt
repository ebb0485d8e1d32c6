// Looking pages up, and reading them.
ghost use Rattle.std.specs.Prelude.{◌≡◌, ◌==◌, ◌+◌, ◌-◌, ◌*◌, ◌<◌, ◌≤◌, ◌/◌, ◌%◌, ℕ, nat_lt, false, length, min, slice_index, MatchOption};
ghost use Rattle.chv_defs_memory.specs.PageContents.{is_inside};
ghost use Rattle.chv_pages.specs.HeldPages.{has_number, held_at, IsAt};
ghost use Rattle.chv_pages.specs.Order.{AreInOrder};

use crate::copies::{clear_at, copy_at};
use crate::held::Held;
use chv_defs_base::PAGE_BYTES;
use chv_lists::{Stretch, locate};

const BLOCK_PAGES: u64 = 512;

/// The number of the page that holds an offset of a block.
pub fn number_of(block: u32, offset: usize) -> u64
    requires { offset < 2097152 }
    ensures { result ≡ block * 512 + offset / 4096 }
{
    block as u64 * BLOCK_PAGES + (offset / PAGE_BYTES) as u64
}

// A page is the stretch of its number alone.
impl Stretch for Held {
    ghost start = { λ h. h.number };

    ghost end = { λ h. h.number + 1 };

    fn begins_by(&self, at: u64) -> bool {
        self.number <= at
    }

    fn ends_by(&self, at: u64) -> bool {
        self.number < at
    }
}

/// The place of the page with a number.
pub fn find(held: &[Held], number: u64) -> Option<usize>
    requires { AreInOrder held.now }
    ensures { MatchOption result (has_number held.now number ≡ false) (λ place. (place < length held.now) × IsAt held.now place number) }
{
    locate(held, number).ok()
}

/// Whether the page with a number is held.
pub fn has_page(held: &[Held], number: u64) -> bool
    requires { AreInOrder held.now }
    ensures { result ≡ has_number held.now number }
{
    locate(held, number).is_ok()
}

/// How many of `len` bytes from an offset on lie in its page.
pub fn piece_len(offset: usize, len: usize) -> usize
    ensures { result ≡ min len (4096 - offset % 4096) }
{
    len.min(PAGE_BYTES - offset % PAGE_BYTES)
}

/// Reads a block from an offset on.
pub fn read_held(held: &[Held], block: u32, offset: usize, into: &mut [u8])
    requires order { AreInOrder held.now }
    requires inside { offset + length into.old ≤ 2097152 }
    ensures len { length into.new ≡ length into.old }
    ensures read { (k : ℕ) → k < length into.old → slice_index into.new k ≡ held_at held.now block (offset + k) }
{
    let mut done = 0;
    while done < into.len() {
        let len = piece_len(offset + done, into.len() - done);
        read_piece(held, block, offset, into, done, len);
        done += len;
    }
}

// Reads a part of the bytes that lies in one page.
fn read_piece(held: &[Held], block: u32, offset: usize, into: &mut [u8], done: usize, len: usize)
    requires order { AreInOrder held.now }
    requires inside { offset + length into.old ≤ 2097152 }
    requires part { done + len ≤ length into.old }
    requires some { 0 < len }
    requires page { (offset + done) % 4096 + len ≤ 4096 }
    ensures len { length into.new ≡ length into.old }
    ensures read { (k : ℕ) → done ≤ k → k < done + len → slice_index into.new k ≡ held_at held.now block (offset + k) }
    ensures before { (k : ℕ) → k < done → slice_index into.new k ≡ slice_index into.old k }
{
    let start = (offset + done) % PAGE_BYTES;
    match find(held, number_of(block, offset + done)) {
        Some(place) => {
            let page = held[place].page.as_slice();
            copy_at(into, done, &page[start..start + len]);
        }
        None => clear_at(into, done, len),
    }
}

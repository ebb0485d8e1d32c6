// Putting pages in, and writing them.
ghost use Rattle.std.specs.Prelude.{◌≡◌, ◌==◌, ◌+◌, ◌-◌, ◌*◌, ◌/◌, ◌%◌, ◌<◌, ◌≤◌, ◌^◌, ◌&&◌, ℕ, Bool, true, false, not, if◌then◌else◌, filter, OnOk, OnErr, length, map, slice_index, vec_len};
ghost use Rattle.std.specs.Vec.{vec_capacity};
ghost use Rattle.chv_defs_memory.specs.PageContents.{is_inside};
ghost use Rattle.chv_pages.specs.HeldPages.{has_number, held_at, is_address, put, visible, AreHeld, MakesRoom, WritesHeld};
ghost use Rattle.chv_pages.specs.Order.{AreInOrder};

use crate::held::Held;
use crate::page::Page;
use crate::reads::{find, has_page, number_of, piece_len};
use chv_defs_base::PAGE_BYTES;
use chv_lists::locate;
use std::alloc::{AllocError, Global};

/// Puts a page at its number, in place of the one that has it. Takes no memory.
pub fn put_page(held: &mut Vec<Held>, number: u64, page: Page)
    requires order { AreInOrder held.old.items }
    requires room { vec_len held.old < vec_capacity held.old }
    ensures items { held.new.items ≡ put held.old.items number page }
    ensures len { vec_len held.new ≤ vec_len held.old + 1 }
    ensures room { vec_capacity held.old ≤ vec_capacity held.new }
{
    match locate(held.as_slice(), number) {
        Ok(place) => held[place] = Held { number, page },
        Err(place) => match held.insert(place, Held { number, page }) {
            Ok(()) => {}
            Err(_) => unreachable!(),
        },
    }
}

/// Makes the page with a number where it is not held yet, and keeps room for `spare` further pages.
pub fn hold_page(
    alloc: Global,
    held: &mut Vec<Held>,
    number: u64,
    spare: usize,
) -> Result<(), AllocError>
    requires order { AreInOrder held.old.items }
    requires fits { vec_len held.old + spare ≤ vec_capacity held.old }
    requires small { spare < 2 ^ 62 }
    ensures order { AreInOrder held.new.items }
    ensures room { vec_len held.new + spare ≤ vec_capacity held.new }
    ensures same { MakesRoom held.old.items held.new.items }
    ensures keeps { (high : ℕ) → number < high → AreHeld 0 high held.old.items → AreHeld 0 high held.new.items }
    ensures ok { OnOk result (has_number held.new.items number ≡ true) }
{
    if has_page(held.as_slice(), number) {
        return Ok(());
    }
    let page = Page::blank(alloc)?;
    held.reserve(spare + 1)?;
    put_page(held, number, page);
    Ok(())
}

/// Makes the pages of the bytes of a block from an offset on.
pub fn hold_range(
    alloc: Global,
    held: &mut Vec<Held>,
    block: u32,
    offset: usize,
    len: usize,
    spare: usize,
) -> Result<(), AllocError>
    requires inside { offset + len ≤ 2097152 }
    requires order { AreInOrder held.old.items }
    requires fits { vec_len held.old + spare ≤ vec_capacity held.old }
    requires small { spare < 2 ^ 62 }
    ensures order { AreInOrder held.new.items }
    ensures room { vec_len held.new + spare ≤ vec_capacity held.new }
    ensures same { MakesRoom held.old.items held.new.items }
    ensures keeps { (high : ℕ) → block * 512 + 512 ≤ high → AreHeld 0 high held.old.items → AreHeld 0 high held.new.items }
    ensures ok { OnOk result ((k : ℕ) → k < len → has_number held.new.items (block * 512 + (offset + k) / 4096) ≡ true) }
{
    let mut done = 0;
    while done < len {
        hold_page(alloc, held, number_of(block, offset + done), spare)?;
        done += piece_len(offset + done, len - done);
    }
    Ok(())
}

/// Writes bytes into a block from an offset on, where the pages are held. Takes no memory.
pub fn write_held(held: &mut [Held], block: u32, offset: usize, from: &[u8])
    requires order { AreInOrder held.old }
    requires inside { offset + length from.now ≤ 2097152 }
    requires there { (k : ℕ) → k < length from.now → has_number held.old (block * 512 + (offset + k) / 4096) ≡ true }
    ensures { WritesHeld held.old held.new block offset from.now }
{
    let mut done = 0;
    while done < from.len() {
        let len = piece_len(offset + done, from.len() - done);
        write_piece(held, block, offset + done, &from[done..done + len]);
        done += len;
    }
}

// Writes bytes that lie in one page.
fn write_piece(held: &mut [Held], block: u32, offset: usize, from: &[u8])
    requires order { AreInOrder held.old }
    requires inside { offset < 2097152 }
    requires page { offset % 4096 + length from.now ≤ 4096 }
    requires there { has_number held.old (block * 512 + offset / 4096) ≡ true }
    ensures { WritesHeld held.old held.new block offset from.now }
{
    match find(held, number_of(block, offset)) {
        Some(place) => held[place].page.write(offset % PAGE_BYTES, from),
        None => unreachable!(),
    }
}

/// Drops the pages of a block.
pub fn drop_block(held: &mut Vec<Held>, block: u32)
    ensures items { held.new.items ≡ filter (λ h. not (h.number / 512 == block)) held.old.items }
    ensures len { vec_len held.new ≤ vec_len held.old }
    ensures room { vec_capacity held.new ≡ vec_capacity held.old }
{
    let block = block as u64;
    held.retain(
        |h: &Held| -> bool
            ensures { result ≡ not (h.now.number / 512 == block) }
        { h.number / 512 != block },
    );
}

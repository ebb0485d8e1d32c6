// The blocks of a bank in sets, and the search for the first one of a span.
ghost use Rattle.std.specs.Prelude.{◌≡◌, ℕ, ◌<◌, ◌≤◌, ◌+◌, ◌==◌, not, nat_lt, false, if◌then◌else◌, length, find, unwrap_or};
ghost use Rattle.std.specs.List.{list_any};
ghost use Rattle.chv_defs_memory.specs.BankState.{belongs, blocks_in, if_named, most_blocks, names, IsInZone};
ghost use Rattle.chv_defs_memory.specs.BlockSets.{has};
ghost use Rattle.chv_defs_memory.specs.PageContents.{byte_at};
ghost use Rattle.chv_bank.specs.CallerPins.{has_pinned};

use crate::pins::Pins;
use crate::state::MOST_BLOCKS;
use chv_defs_memory::{BANKS, Span};
use chv_pages::Pages;
use chv_set::BlockSet;

/// Whether a block of the zone belongs to the bank.
pub fn belongs(bank: u8, block: u32) -> bool
    ensures { result ≡ belongs bank block }
{
    block % BANKS as u32 == bank as u32
}

/// Leaves the numbers below `n` in the set, and no others.
pub fn put_below(set: &mut BlockSet, n: u32)
    requires size { length set.old ≡ most_blocks }
    requires small { n ≤ most_blocks }
    ensures len { length set.new ≡ most_blocks }
    ensures below { (k : ℕ) → k < most_blocks → has set.new k ≡ nat_lt k n }
{
    set.remove_range(Span {
        first: 0,
        count: MOST_BLOCKS,
    });
    set.insert_range(Span { first: 0, count: n });
}

// Puts one number in, or takes it out.
fn put_block(set: &mut BlockSet, block: u32, there: bool)
    requires size { length set.old ≡ most_blocks }
    requires small { block < most_blocks }
    ensures len { length set.new ≡ most_blocks }
    ensures here { has set.new block ≡ there }
    ensures others { (k : ℕ) → k < most_blocks → (k == block) ≡ false → has set.new k ≡ has set.old k }
{
    let one = Span {
        first: block,
        count: 1,
    };
    if there {
        set.insert_range(one);
    } else {
        set.remove_range(one);
    }
}

/// Puts the bank's blocks of a span in, or takes them out.
pub fn put_blocks(set: &mut BlockSet, bank: u8, span: Span, there: bool)
    requires size { length set.old ≡ most_blocks }
    requires zone { IsInZone span }
    ensures len { length set.new ≡ most_blocks }
    ensures put { (k : ℕ) → k < most_blocks → has set.new k ≡ unwrap_or (if_named (names bank span k) there) (has set.old k) }
{
    for block in span.first..span.first + span.count {
        if belongs(bank, block) {
            put_block(set, block, there);
        }
    }
}

/// Makes every byte of the bank's blocks of a span 0.
pub fn clear_blocks(memory: &mut Pages, bank: u8, span: Span)
    requires size { memory.old.blocks ≡ most_blocks }
    requires zone { IsInZone span }
    ensures size { memory.new.blocks ≡ most_blocks }
    ensures reserved { memory.new.reserved ≡ memory.old.reserved }
    ensures cleared { (k at : ℕ) → byte_at memory.new k at ≡ unwrap_or (if_named (names bank span k) 0) (byte_at memory.old k at) }
{
    for block in span.first..span.first + span.count {
        if belongs(bank, block) {
            memory.clear_block(block);
        }
    }
}

/// The lowest of the bank's blocks of a span that is in the set.
pub fn first_in(set: &BlockSet, bank: u8, span: Span) -> Option<u32>
    requires { IsInZone span }
    ensures { result ≡ find (has set.now) (blocks_in bank span) }
{
    for block in span.first..span.first + span.count {
        if belongs(bank, block) && set.has(block) {
            return Some(block);
        }
    }
    None
}

/// The lowest of the bank's blocks of a span that is not in the set.
pub fn first_not_in(set: &BlockSet, bank: u8, span: Span) -> Option<u32>
    requires { IsInZone span }
    ensures { result ≡ find (λ block. not (has set.now block)) (blocks_in bank span) }
{
    for block in span.first..span.first + span.count {
        if belongs(bank, block) && !set.has(block) {
            return Some(block);
        }
    }
    None
}

/// The lowest of the bank's blocks of a span that a pin pins.
pub fn first_pinned(pins: &Pins, bank: u8, span: Span) -> Option<u32>
    requires { IsInZone span }
    ensures { result ≡ find (λ block. list_any (has_pinned bank block) pins.now) (blocks_in bank span) }
{
    for block in span.first..span.first + span.count {
        if belongs(bank, block) && pins.pins_block(bank, block) {
            return Some(block);
        }
    }
    None
}

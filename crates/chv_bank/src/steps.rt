// What each entry does to what is kept beside the history.
ghost use Rattle.std.specs.Prelude.{◌≡◌, ◌+◌, ◌<◌, ◌≤◌, ◌^◌, OnOk, OnErr, length};
ghost use Rattle.chv_defs_memory.specs.declared.bank.BankCall.TheVariants as call;
ghost use Rattle.chv_defs_memory.specs.declared.bank.BankReply.TheVariants as reply;
ghost use Rattle.chv_defs_memory.specs.BankState.{most_blocks, IsCall, IsInBlock, IsInZone};
ghost use Rattle.chv_bank.specs.Caches.{IsFormed, Steps};
ghost use Rattle.chv_bank.specs.CallerPins.{total};

use crate::blocks::{clear_blocks, put_below, put_blocks};
use crate::state::State;
use chv_defs_memory::Span;
use std::alloc::AllocError;

/// Shape: the blocks below a number are open, none is sealed, every byte is 0.
pub fn shape(state: &mut State, bank: u8, n: u32)
    requires formed { IsFormed state.old }
    requires small { n ≤ most_blocks }
    ensures steps { Steps bank state.old state.new 0 (call.Shape n) reply.Done }
    ensures reserved { state.new.memory.reserved ≡ state.old.memory.reserved }
{
    put_below(&mut state.open_blocks, n);
    put_below(&mut state.sealed_blocks, 0);
    state.memory.clear();
}

/// Wipe: no block is open or sealed, every byte is 0.
pub fn wipe(state: &mut State, bank: u8)
    requires formed { IsFormed state.old }
    ensures steps { Steps bank state.old state.new 0 call.Wipe reply.Done }
    ensures reserved { state.new.memory.reserved ≡ state.old.memory.reserved }
{
    put_below(&mut state.open_blocks, 0);
    put_below(&mut state.sealed_blocks, 0);
    state.memory.clear();
}

/// Open: the blocks are open, and their bytes are 0.
pub fn open(state: &mut State, bank: u8, span: Span)
    requires formed { IsFormed state.old }
    requires zone { IsInZone span }
    ensures steps { Steps bank state.old state.new 0 (call.Open span) reply.Done }
    ensures reserved { state.new.memory.reserved ≡ state.old.memory.reserved }
{
    put_blocks(&mut state.open_blocks, bank, span, true);
    clear_blocks(&mut state.memory, bank, span);
}

/// Seal, where no block is pinned: the blocks are sealed.
pub fn seal(state: &mut State, bank: u8, span: Span)
    requires formed { IsFormed state.old }
    requires zone { IsInZone span }
    ensures steps { Steps bank state.old state.new 0 (call.Seal span) reply.Sealed }
    ensures reserved { state.new.memory.reserved ≡ state.old.memory.reserved }
{
    put_blocks(&mut state.sealed_blocks, bank, span, true);
}

/// Unseal: the blocks are not sealed.
pub fn unseal(state: &mut State, bank: u8, span: Span)
    requires formed { IsFormed state.old }
    requires zone { IsInZone span }
    ensures steps { Steps bank state.old state.new 0 (call.Unseal span) reply.Done }
    ensures reserved { state.new.memory.reserved ≡ state.old.memory.reserved }
{
    put_blocks(&mut state.sealed_blocks, bank, span, false);
}

/// Close: the blocks are neither open nor sealed, and their bytes are 0.
pub fn close(state: &mut State, bank: u8, span: Span)
    requires formed { IsFormed state.old }
    requires zone { IsInZone span }
    ensures steps { Steps bank state.old state.new 0 (call.Close span) reply.Closed }
    ensures reserved { state.new.memory.reserved ≡ state.old.memory.reserved }
{
    put_blocks(&mut state.open_blocks, bank, span, false);
    put_blocks(&mut state.sealed_blocks, bank, span, false);
    clear_blocks(&mut state.memory, bank, span);
}

/// Fill: the bytes stand in the page, for which a reserved page is used.
pub fn fill(state: &mut State, bank: u8, block: u32, page: u16, bytes: &[u8])
    requires formed { IsFormed state.old }
    requires call { IsCall bank (call.Fill block page bytes.now) }
    requires whole { length bytes.now ≡ 4096 }
    requires reserved { 0 < state.old.memory.reserved }
    ensures steps { Steps bank state.old state.new 0 (call.Fill block page bytes.now) reply.Done }
    ensures reserved { state.new.memory.reserved + 1 ≡ state.old.memory.reserved }
{
    state.memory.fill(block, page, bytes);
}

/// Write: the bytes stand in the block. An `Err` leaves all as it was.
pub fn write(
    state: &mut State,
    bank: u8,
    caller: u32,
    block: u32,
    offset: u32,
    bytes: &[u8],
) -> Result<(), AllocError>
    requires formed { IsFormed state.old }
    requires call { IsInBlock bank block offset (length bytes.now) }
    ensures ok { OnOk result (Steps bank state.old state.new caller (call.Write block offset bytes.now) reply.Done) }
    ensures reserved { state.new.memory.reserved ≡ state.old.memory.reserved }
    ensures err { OnErr result (state.new ≡ state.old) }
{
    state.memory.write(block, offset, bytes)
}

/// Pin: the pin is outstanding. An `Err` leaves all as it was.
pub fn pin(
    state: &mut State,
    bank: u8,
    caller: u32,
    number: u32,
    span: Span,
) -> Result<(), AllocError>
    requires formed { IsFormed state.old }
    requires few { total state.old.pins < 2 ^ 32 }
    ensures ok { OnOk result (Steps bank state.old state.new caller (call.Pin number span) reply.Pinned) }
    ensures reserved { state.new.memory.reserved ≡ state.old.memory.reserved }
    ensures err { OnErr result (state.new ≡ state.old) }
{
    state.pins.push(caller, number, span)
}

/// Unpin: the pin is not outstanding. Takes no memory.
pub fn unpin(state: &mut State, bank: u8, caller: u32, number: u32)
    requires formed { IsFormed state.old }
    ensures steps { Steps bank state.old state.new caller (call.Unpin number) reply.Done }
    ensures reserved { state.new.memory.reserved ≡ state.old.memory.reserved }
{
    state.pins.remove(caller, number);
}

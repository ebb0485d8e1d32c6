// The calls of the cases of `bank`.
ghost use Rattle.chv_defs_memory.specs.BankBook.{fresh, owner_reply, pages_used, with_entry, HasItsNumber};
ghost use Rattle.chv_defs_memory.specs.BankState.{is_owner_call, IsCall};
ghost use Rattle.chv_defs_memory.specs.LegalBank.{access_reply, OwnerMay};
ghost use Rattle.chv_defs_memory.specs.declared.bank.BankCall.TheVariants as call;
ghost use Rattle.chv_defs_memory.specs.declared.bank.BankReply.TheVariants as reply;
ghost use Rattle.std.specs.Prelude.{◌≡◌, ◌-◌, ◌<◌, ◌≤◌, [], ◌∷◌, true, false, IfOk};

use chv_bank::Bank;
use chv_defs_base::Bytes;
use chv_defs_memory::{BankCall, BankReply, Refusal, Span};
use std::alloc::{AllocError, Global};

// A proof is cheap where a bank, calls and replies are lent or given away, and dear where they are owned. So each of these
// takes the call and the reply that it should have, and says whether it had it.

/// Opens the blocks below a number, and leaves places for further entries of the owner.
pub fn shape(bank: &mut Bank, places: u32, blocks: u32) -> Result<bool, AllocError>
    requires fresh { bank.old ≡ fresh 0 0 }
    requires places { places < 1048576 }
    requires blocks { blocks ≤ 32768 }
    ensures { IfOk result (λ done. done ≡ true → bank.new ≡ record {
      zone = 0;
      bank = 0;
      history = record { caller = 0; call = call.Shape blocks; reply = reply.Done } ∷ [];
      entries = places;
      pages = 0;
    }) }
{
    if bank.room(places + 1, 0)?.is_err() {
        return Ok(false);
    }
    bank.owner(&BankCall::Shape(blocks));
    Ok(true)
}

/// A call of the owner.
pub fn owner(bank: &mut Bank, call: BankCall, expected: BankReply) -> bool
    requires call { IsCall bank.old.bank call }
    requires owner { is_owner_call call ≡ true }
    requires condition { OwnerMay bank.old.bank bank.old.history call }
    requires entry { 0 < bank.old.entries }
    requires page { pages_used call ≤ bank.old.pages }
    ensures { bank.new ≡ record bank.old {
      history = with_entry bank.old.history 0 call (owner_reply bank.old.bank bank.old.history call);
      entries = bank.old.entries - 1;
      pages = bank.old.pages - pages_used call;
    } }
{
    bank.owner(&call) == expected
}

/// An access that is answered.
pub fn access(
    bank: &mut Bank,
    caller: u32,
    call: BankCall,
    expected: BankReply,
) -> Result<bool, AllocError>
    requires caller { 0 < caller }
    requires call { IsCall bank.old.bank call }
    requires access { is_owner_call call ≡ false }
    requires number { HasItsNumber bank.old.history caller call }
    ensures { IfOk result (λ answered. answered ≡ true → bank.new ≡ record bank.old {
      history =
          with_entry bank.old.history caller call (access_reply bank.old.bank bank.old.history call);
    }) }
{
    match bank.access(caller, &call)? {
        Ok(reply) => Ok(reply == expected),
        Err(_) => Ok(false),
    }
}

/// An access that is refused.
pub fn refuses(
    bank: &mut Bank,
    caller: u32,
    call: BankCall,
    expected: Refusal,
) -> Result<bool, AllocError>
    requires caller { 0 < caller }
    requires call { IsCall bank.old.bank call }
    requires access { is_owner_call call ≡ false }
    requires number { HasItsNumber bank.old.history caller call }
    ensures { IfOk result (λ refused. refused ≡ true → bank.new ≡ bank.old) }
{
    match bank.access(caller, &call)? {
        Ok(_) => Ok(false),
        Err(why) => Ok(why == expected),
    }
}

/// A Read of the first bytes of a block.
pub fn read_of(block: u32, len: u32) -> BankCall
    ensures { result ≡ call.Read block 0 len }
{
    BankCall::Read {
        block,
        offset: 0,
        len,
    }
}

/// A Pin of blocks.
pub fn pin_of(first: u32, count: u32) -> BankCall
    ensures { result ≡ call.Pin 7 (record { first = first; count = count }) }
{
    BankCall::Pin {
        number: 7,
        span: Span { first, count },
    }
}

/// What is read.
pub fn got(alloc: Global, bytes: &[u8]) -> Result<BankReply, AllocError> {
    Ok(BankReply::Got(Bytes::of(alloc, bytes)?))
}

/// A Write of one byte into block 0.
pub fn write(alloc: Global, bank: &mut Bank, offset: u32, byte: u8) -> Result<bool, AllocError>
    requires here { bank.old.bank ≡ 0 }
    requires offset { offset < 2097152 }
    ensures { IfOk result (λ done. done ≡ true → bank.new ≡ record bank.old {
      history =
          with_entry bank.old.history 1 (call.Write 0 offset (byte ∷ [])) (access_reply 0 bank.old.history (call.Write 0 offset (byte ∷ [])));
    }) }
{
    let write = BankCall::Write {
        block: 0,
        offset,
        bytes: Bytes::of(alloc, &[byte])?,
    };
    access(bank, 1, write, BankReply::Done)
}

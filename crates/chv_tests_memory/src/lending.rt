// Two contexts to which the banks are lent: what each does in turn, what the owner does meanwhile, and that both come back.
ghost use Rattle.chv_defs_memory.specs.BankBook.{owner_reply, pages_used, with_entry, HasItsNumber};
ghost use Rattle.chv_defs_memory.specs.BankState.{is_owner_call, pins_of, IsCall};
ghost use Rattle.chv_defs_memory.specs.LegalBank.{access_reply};
ghost use Rattle.chv_defs_memory.specs.Lending.{is_in};
ghost use Rattle.chv_defs_memory.specs.LentHistory.{made_by};
ghost use Rattle.chv_defs_memory.specs.Zones.{OwnerMayAsk};
ghost use Rattle.chv_guest.specs.LentBanks.{fresh_zones, known_at};
ghost use Rattle.chv_tests_memory.specs.LentZones.{IsOnlyFirst};
ghost use Rattle.std.specs.Prelude.{◌≡◌, ◌-◌, ◌<◌, [], true, false, IfOk};

use crate::bank_calls::{got, pin_of, read_of};
use chv_defs_base::Bytes;
use chv_defs_memory::{BankCall, BankReply, Lends, Reach, Refusal, Span, Zones};
use chv_guest::LentBanks;
use chv_tests_steps::step;
use std::alloc::{AllocError, Global};
use std::test::Fail;

// The two contexts.
const THREE: u32 = 3;

const FIVE: u32 = 5;

// Lends the banks to both.
fn lend_both(zones: &mut LentBanks)
    requires { zones.old ≡ fresh_zones }
    ensures here { known_at zones.new.books 0 0 ≡ record { history = []; entries = 0; pages = 0 } }
    ensures first { IsOnlyFirst zones.new }
    ensures three { is_in 3 zones.new.lent ≡ true }
    ensures five { is_in 5 zones.new.lent ≡ true }
{
    zones.lend(THREE, &mut ());
    zones.lend(FIVE, &mut ());
}

// Makes room for three entries of the owner.
fn has_room(zones: &mut LentBanks) -> Result<bool, AllocError>
    requires here { known_at zones.old.books 0 0 ≡ record { history = []; entries = 0; pages = 0 } }
    requires first { IsOnlyFirst zones.old }
    ensures here { IfOk result (λ made. made ≡ true → known_at zones.new.books 0 0 ≡ record { history = []; entries = 3; pages = 0 }) }
    ensures first { IsOnlyFirst zones.new }
    ensures lent { zones.new.lent ≡ zones.old.lent }
{
    Ok(zones.room((), 0, 3, 0)?.is_ok())
}

// A call of the owner, which finds the bank as it was left: no context does anything meanwhile.
fn owner(zones: &mut LentBanks, call: BankCall, expected: BankReply) -> bool
    requires first { IsOnlyFirst zones.old }
    requires call { IsCall 0 call }
    requires owner { is_owner_call call ≡ true }
    requires condition { OwnerMayAsk zones.old.lent 0 (known_at zones.old.books 0 0).history call }
    requires entry { 0 < (known_at zones.old.books 0 0).entries }
    requires no_page { pages_used call ≡ 0 }
    ensures here { known_at zones.new.books 0 0 ≡ record (known_at zones.old.books 0 0) {
      history = with_entry (known_at zones.old.books 0 0).history 0 call (owner_reply 0 (known_at zones.old.books 0 0).history call);
      entries = (known_at zones.old.books 0 0).entries - 1;
    } }
    ensures first { IsOnlyFirst zones.new }
    ensures lent { zones.new.lent ≡ zones.old.lent }
{
    zones.owner((), 0, 0, &call) == expected
}

// An access of a context that is answered.
fn access(
    zones: &mut LentBanks,
    caller: u32,
    call: BankCall,
    expected: BankReply,
) -> Result<bool, AllocError>
    requires first { IsOnlyFirst zones.old }
    requires lent { is_in caller zones.old.lent ≡ true }
    requires call { IsCall 0 call }
    requires access { is_owner_call call ≡ false }
    requires number { HasItsNumber (made_by caller (known_at zones.old.books 0 0).history) caller call }
    ensures here { IfOk result (λ answered. answered ≡ true → known_at zones.new.books 0 0 ≡ record (known_at zones.old.books 0 0) {
      history =
          with_entry (known_at zones.old.books 0 0).history caller call (access_reply 0 (known_at zones.old.books 0 0).history call);
    }) }
    ensures first { IsOnlyFirst zones.new }
    ensures lent { zones.new.lent ≡ zones.old.lent }
{
    let mut reach = zones.as_caller(caller);
    match reach.access((), 0, 0, &call)? {
        Ok(reply) => Ok(reply == expected),
        Err(_) => Ok(false),
    }
}

// An access of a context that is refused.
fn refuses(
    zones: &mut LentBanks,
    caller: u32,
    call: BankCall,
    expected: Refusal,
) -> Result<bool, AllocError>
    requires first { IsOnlyFirst zones.old }
    requires lent { is_in caller zones.old.lent ≡ true }
    requires call { IsCall 0 call }
    requires access { is_owner_call call ≡ false }
    requires number { HasItsNumber (made_by caller (known_at zones.old.books 0 0).history) caller call }
    ensures here { IfOk result (λ refused. refused ≡ true → known_at zones.new.books 0 0 ≡ known_at zones.old.books 0 0) }
    ensures first { IsOnlyFirst zones.new }
    ensures lent { zones.new.lent ≡ zones.old.lent }
{
    let mut reach = zones.as_caller(caller);
    match reach.access((), 0, 0, &call)? {
        Ok(_) => Ok(false),
        Err(why) => Ok(why == expected),
    }
}

// Takes the banks back from both, which have no pin.
fn take_back(zones: &mut LentBanks)
    requires first { IsOnlyFirst zones.old }
    requires three { is_in 3 zones.old.lent ≡ true }
    requires five { is_in 5 zones.old.lent ≡ true }
    requires pins { pins_of (known_at zones.old.books 0 0).history ≡ [] }
{
    zones.back(THREE, &mut ());
    zones.back(FIVE, &mut ());
    zones.recall();
}

// What one context writes into a block that another has pinned, this one reads.
fn share_a_block(alloc: Global, zones: &mut LentBanks) -> Result<(), Fail>
    requires { zones.old ≡ fresh_zones }
{
    let blocks = Span { first: 0, count: 4 };
    let one = Span { first: 1, count: 1 };
    lend_both(zones);
    step("lent: room", has_room(zones)?)?;
    let opened = owner(zones, BankCall::Open(blocks), BankReply::Done);
    step("lent: the owner opens blocks", opened)?;
    let pinned = access(zones, FIVE, pin_of(1, 1), BankReply::Pinned)?;
    step("lent: a pin", pinned)?;
    let bytes = Bytes::of(alloc, b"x")?;
    let write = BankCall::Write {
        block: 1,
        offset: 0,
        bytes,
    };
    let written = access(zones, THREE, write, BankReply::Done)?;
    step("lent: another's write", written)?;
    let read = access(zones, FIVE, read_of(1, 1), got(alloc, b"x")?)?;
    step("lent: what it wrote", read)?;
    let faulted = access(zones, THREE, read_of(9, 1), BankReply::Fault(9))?;
    step("lent: a block that is closed", faulted)?;
    let busy = BankReply::Busy {
        block: 1,
        caller: FIVE,
    };
    let kept = owner(zones, BankCall::Seal(one), busy);
    step("lent: the owner seals no block that is pinned", kept)?;
    let unpinned = access(zones, FIVE, BankCall::Unpin { number: 7 }, BankReply::Done)?;
    step("lent: the unpin", unpinned)?;
    let sealed = owner(zones, BankCall::Seal(one), BankReply::Sealed);
    step("lent: the owner seals it then", sealed)?;
    let why = Refusal::Sealed { block: 1, seen: 8 };
    let refused = refuses(zones, THREE, read_of(1, 1), why)?;
    step("lent: a block that is sealed", refused)?;
    take_back(zones);
    step("lent: all entries", zones.history(0, 0).len() == 8)
}

#[test]
fn lending(rt: HostRuntime) -> Result<(), Fail> {
    let mut zones = LentBanks::new(rt.alloc())?;
    share_a_block(rt.alloc(), &mut zones)
}

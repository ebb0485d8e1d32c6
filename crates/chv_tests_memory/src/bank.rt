// An unplug from its pin to the next plug, the refusals in their order, and each call once with ample memory.
ghost use Rattle.chv_defs_memory.specs.BankBook.{fresh};
ghost use Rattle.chv_defs_memory.specs.declared.bank.BankCall.TheVariants as call;
ghost use Rattle.chv_defs_memory.specs.declared.bank.BankReply.TheVariants as reply;
ghost use Rattle.std.specs.Prelude.{◌≡◌, [], ◌∷◌, true, IfOk, length};

use crate::bank_calls::{access, got, owner, pin_of, read_of, refuses, shape, write};
use chv_bank::Bank;
use chv_defs_base::{BookId, Bytes, Full};
use chv_defs_memory::{BankCall, BankReply, Refusal, Span};
use chv_tests_steps::step;
use std::alloc::{AllocError, Global};
use std::test::Fail;

// A pinned block is busy. One that is not pinned any more is sealed and closed, and faults then.
fn unplugged(bank: &mut Bank) -> Result<(), Fail>
    requires { bank.old ≡ fresh 0 0 }
{
    let span = Span {
        first: 512,
        count: 1,
    };
    let busy = BankReply::Busy {
        block: 512,
        caller: 18,
    };
    step("unplug: shape", shape(bank, 3, 513)?)?;
    let pinned = access(bank, 18, pin_of(512, 1), BankReply::Pinned)?;
    step("unplug: pin", pinned)?;
    step(
        "unplug: seal while pinned",
        owner(bank, BankCall::Seal(span), busy),
    )?;
    let unpinned = access(bank, 18, BankCall::Unpin { number: 7 }, BankReply::Done)?;
    step("unplug: unpin", unpinned)?;
    step(
        "unplug: seal",
        owner(bank, BankCall::Seal(span), BankReply::Sealed),
    )?;
    step(
        "unplug: close",
        owner(bank, BankCall::Close(span), BankReply::Closed),
    )?;
    let faulted = access(bank, 18, read_of(512, 1), BankReply::Fault(512))?;
    step("unplug: read of a closed block", faulted)
}

// A block is reached after an unseal, and reads as zero where it was plugged again.
fn plugged_again(alloc: Global, bank: &mut Bank) -> Result<(), Fail>
    requires { bank.old ≡ fresh 0 0 }
{
    let span = Span { first: 0, count: 1 };
    step("plug again: shape", shape(bank, 5, 1)?)?;
    step("plug again: write", write(alloc, bank, 0, b'x')?)?;
    step(
        "plug again: seal",
        owner(bank, BankCall::Seal(span), BankReply::Sealed),
    )?;
    step(
        "plug again: unseal",
        owner(bank, BankCall::Unseal(span), BankReply::Done),
    )?;
    let kept = access(bank, 1, read_of(0, 1), got(alloc, b"x")?)?;
    step("plug again: read after the unseal", kept)?;
    step(
        "plug again: second seal",
        owner(bank, BankCall::Seal(span), BankReply::Sealed),
    )?;
    step(
        "plug again: close",
        owner(bank, BankCall::Close(span), BankReply::Closed),
    )?;
    step(
        "plug again: open",
        owner(bank, BankCall::Open(span), BankReply::Done),
    )?;
    let zero = access(bank, 1, read_of(0, 1), got(alloc, b"\0")?)?;
    step("plug again: read after the open", zero)
}

// A pin on the last block seals none.
fn pinned_last(alloc: Global, bank: &mut Bank) -> Result<(), Fail>
    requires { bank.old ≡ fresh 0 0 }
{
    let span = Span {
        first: 512,
        count: 4,
    };
    let busy = BankReply::Busy {
        block: 515,
        caller: 18,
    };
    step("last block: shape", shape(bank, 1, 516)?)?;
    let pinned = access(bank, 18, pin_of(515, 1), BankReply::Pinned)?;
    step("last block: pin", pinned)?;
    step(
        "last block: seal of four",
        owner(bank, BankCall::Seal(span), busy),
    )?;
    let open = access(bank, 1, read_of(512, 1), got(alloc, b"\0")?)?;
    step("last block: read of the first of the four", open)
}

// A byte and the zeros behind it.
fn written(alloc: Global, bank: &mut Bank) -> Result<(), Fail>
    requires { bank.old ≡ fresh 0 0 }
{
    let read = BankCall::Read {
        block: 0,
        offset: 4096,
        len: 8,
    };
    step("one byte: shape", shape(bank, 0, 256)?)?;
    step("one byte: write", write(alloc, bank, 4096, 0xab)?)?;
    let eight = access(bank, 2, read, got(alloc, &[0xab, 0, 0, 0, 0, 0, 0, 0])?)?;
    step("one byte: read of eight", eight)
}

// Frozen comes before Sealed, and that before Full.
fn refused(bank: &mut Bank) -> Result<(), Fail>
    requires { bank.old ≡ fresh 0 0 }
{
    let sealed = BankCall::Seal(Span { first: 0, count: 1 });
    step("refusals: shape", shape(bank, 1_048_575, 1)?)?;
    step("refusals: seal", owner(bank, sealed, BankReply::Sealed))?;
    let why = Refusal::Sealed { block: 0, seen: 2 };
    step(
        "refusals: read of a sealed block",
        refuses(bank, 1, read_of(0, 1), why)?,
    )?;
    step(
        "refusals: freeze",
        owner(bank, BankCall::Freeze, BankReply::Done),
    )?;
    let why = Refusal::Frozen { seen: 3 };
    step(
        "refusals: read while frozen",
        refuses(bank, 1, read_of(0, 1), why)?,
    )
}

// A bank that is full, with so many entries and bytes.
fn full(entries: u64, bytes: u64) -> Refusal {
    Refusal::Full(Full {
        book: BookId::Bank { zone: 0, bank: 0 },
        entries,
        bytes,
    })
}

// A Pin needs two places, and an Unpin has its place.
fn pinned(alloc: Global, bank: &mut Bank) -> Result<(), Fail>
    requires { bank.old ≡ fresh 0 0 }
{
    step("last places: shape", shape(bank, 1_048_572, 1)?)?;
    step(
        "last places: pin",
        access(bank, 1, pin_of(0, 1), BankReply::Pinned)?,
    )?;
    let one_left = refuses(bank, 2, pin_of(0, 1), full(1_048_575, 0))?;
    step("last places: pin with one place left", one_left)?;
    let read = access(bank, 2, read_of(0, 1), got(alloc, b"\0")?)?;
    step("last places: read in the last place", read)?;
    let none_left = refuses(bank, 2, read_of(0, 1), full(1_048_576, 1))?;
    step("last places: read with no place left", none_left)?;
    let unpinned = access(bank, 1, BankCall::Unpin { number: 7 }, BankReply::Done)?;
    step("last places: unpin", unpinned)
}

// No room beyond the limits, and no access where all bytes are reserved.
fn filled_up(bank: &mut Bank) -> Result<(), Fail>
    requires { bank.old ≡ fresh 0 0 }
{
    step(
        "limits: one entry too many",
        bank.room(1_048_577, 0)?.is_err(),
    )?;
    step("limits: all pages", bank.room(1, 4096)?.is_ok())?;
    let is_full = refuses(bank, 1, read_of(0, 1), full(1, 16_777_216))?;
    step("limits: read while all bytes are reserved", is_full)?;
    bank.give_back(0);
    step("limits: no entry", bank.history().is_empty())
}

// A page of sevens.
fn sevens(alloc: Global) -> Result<Bytes, AllocError>
    ensures { IfOk result (λ bytes. length bytes ≡ 4096) }
{
    Ok(Bytes::new(vec![in alloc; 7; 4096]?))
}

// Fills a page of a bank that is shaped.
fn fill(bank: &mut Bank, bytes: Bytes) -> Result<bool, AllocError>
    requires fresh { bank.old ≡ fresh 0 0 }
    requires page { length bytes ≡ 4096 }
    ensures { IfOk result (λ done. done ≡ true → bank.new ≡ record {
      zone = 0;
      bank = 0;
      history = record { caller = 0; call = call.Shape 1; reply = reply.Done }
          ∷ record { caller = 0; call = call.Fill 0 3 bytes; reply = reply.Done }
          ∷ [];
      entries = 4;
      pages = 0;
    }) }
{
    let fill = BankCall::Fill {
        block: 0,
        page: 3,
        bytes,
    };
    if bank.room(6, 1)?.is_err() {
        return Ok(false);
    }
    bank.owner(&BankCall::Shape(1));
    bank.owner(&fill);
    Ok(true)
}

// Pages are filled and shown.
fn shown(alloc: Global, bank: &mut Bank) -> Result<(), Fail>
    requires { bank.old ≡ fresh 0 0 }
{
    step("pages: fill", fill(bank, sevens(alloc)?)?)?;
    step(
        "pages: freeze",
        owner(bank, BankCall::Freeze, BankReply::Done),
    )?;
    step(
        "pages: show",
        owner(bank, BankCall::Show, BankReply::Pages(1)),
    )?;
    step("pages: list of one", bank.pages()?.len() == 1)?;
    step("pages: thaw", owner(bank, BankCall::Thaw, BankReply::Done))?;
    step("pages: wipe", owner(bank, BankCall::Wipe, BankReply::Done))?;
    step("pages: empty list", bank.pages()?.is_empty())
}

// Plays the case of this number on a bank that it is lent, to which nothing happened yet.
fn play(alloc: Global, bank: &mut Bank, case: u32) -> Result<(), Fail>
    requires { bank.old ≡ fresh 0 0 }
{
    match case {
        0 => unplugged(bank),
        1 => plugged_again(alloc, bank),
        2 => pinned_last(alloc, bank),
        3 => written(alloc, bank),
        4 => refused(bank),
        5 => pinned(alloc, bank),
        6 => filled_up(bank),
        _ => shown(alloc, bank),
    }
}

#[test]
fn banks(rt: HostRuntime) -> Result<(), Fail> {
    for case in 0..8 {
        let mut bank = Bank::new(rt.alloc(), 0, 0)?;
        play(rt.alloc(), &mut bank, case)?;
    }
    Ok(())
}

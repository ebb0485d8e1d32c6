// Two banks of a trace, whose lines stand in the text of `trace`.
use chv_defs::{BankCall, BankEntry, BankReply, BankTrace, Bytes, Row, Span};
use std::alloc::{AllocError, Global};

fn push_bank_entry(
    entries: &mut Row<BankEntry>,
    caller: u32,
    call: BankCall,
    reply: BankReply,
) -> Result<(), AllocError> {
    entries.push(BankEntry {
        caller,
        call,
        reply,
    })
}

fn push_write(alloc: Global, entries: &mut Row<BankEntry>) -> Result<(), AllocError> {
    let call = BankCall::Write {
        block: 0,
        offset: 4096,
        bytes: Bytes::of(alloc, b"\xab")?,
    };
    push_bank_entry(entries, 1, call, BankReply::Done)
}

// A read of 8 bytes, of which the first is not 0.
fn push_read(alloc: Global, entries: &mut Row<BankEntry>) -> Result<(), AllocError> {
    let bytes = Bytes::of(alloc, b"\xab\0\0\0\0\0\0\0")?;
    let call = BankCall::Read {
        block: 0,
        offset: 4096,
        len: 8,
    };
    push_bank_entry(entries, 1, call, BankReply::Got(bytes))
}

// A read of a block that is not open.
fn push_fault(entries: &mut Row<BankEntry>) -> Result<(), AllocError> {
    let call = BankCall::Read {
        block: 512,
        offset: 0,
        len: 1,
    };
    push_bank_entry(entries, 1, call, BankReply::Fault(512))
}

fn push_fill(alloc: Global, entries: &mut Row<BankEntry>) -> Result<(), AllocError> {
    let call = BankCall::Fill {
        block: 513,
        page: 511,
        bytes: Bytes::of(alloc, b"\xc0\x0f")?,
    };
    push_bank_entry(entries, 0, call, BankReply::Done)
}

// A pin, a seal that it keeps off, and its end.
fn push_pinned(entries: &mut Row<BankEntry>) -> Result<(), AllocError> {
    let pinned = Span { first: 5, count: 2 };
    let pin = BankCall::Pin {
        number: 3,
        span: pinned,
    };
    push_bank_entry(entries, 18, pin, BankReply::Pinned)?;
    let sealed = Span { first: 5, count: 1 };
    let busy = BankReply::Busy {
        block: 5,
        caller: 18,
    };
    push_bank_entry(entries, 0, BankCall::Seal(sealed), busy)?;
    push_bank_entry(entries, 18, BankCall::Unpin { number: 3 }, BankReply::Done)
}

fn push_first(alloc: Global, entries: &mut Row<BankEntry>) -> Result<(), AllocError> {
    push_bank_entry(entries, 0, BankCall::Shape(256), BankReply::Done)?;
    push_write(alloc, entries)?;
    push_read(alloc, entries)?;
    push_pinned(entries)?;
    push_fault(entries)?;
    push_bank_entry(entries, 0, BankCall::Show, BankReply::Pages(1))?;
    push_bank_entry(entries, 0, BankCall::Wipe, BankReply::Done)
}

// Blocks are sealed, and one of them is closed.
fn push_closed(entries: &mut Row<BankEntry>) -> Result<(), AllocError> {
    let sealed = Span {
        first: 512,
        count: 2,
    };
    push_bank_entry(entries, 0, BankCall::Seal(sealed), BankReply::Sealed)?;
    let kept = Span {
        first: 512,
        count: 1,
    };
    push_bank_entry(entries, 0, BankCall::Unseal(kept), BankReply::Done)?;
    let closed = Span {
        first: 513,
        count: 1,
    };
    push_bank_entry(entries, 0, BankCall::Close(closed), BankReply::Closed)
}

fn push_second(alloc: Global, entries: &mut Row<BankEntry>) -> Result<(), AllocError> {
    let opened = Span {
        first: 512,
        count: 4,
    };
    push_bank_entry(entries, 0, BankCall::Open(opened), BankReply::Done)?;
    push_fill(alloc, entries)?;
    push_closed(entries)?;
    push_bank_entry(entries, 0, BankCall::Freeze, BankReply::Done)?;
    push_bank_entry(entries, 0, BankCall::Thaw, BankReply::Done)
}

fn push_bank(
    banks: &mut Row<BankTrace>,
    zone: u8,
    bank: u8,
    entries: Row<BankEntry>,
) -> Result<(), AllocError> {
    banks.push(BankTrace {
        zone,
        bank,
        entries,
    })
}

/// Two banks, with each call and each reply.
pub(crate) fn push_banks(alloc: Global, banks: &mut Row<BankTrace>) -> Result<(), AllocError> {
    let mut first = Row::empty(alloc);
    let filled = push_first(alloc, &mut first);
    push_bank(banks, 0, 0, first)?;
    filled?;
    let mut second = Row::empty(alloc);
    let filled = push_second(alloc, &mut second);
    push_bank(banks, 1, 2, second)?;
    filled
}

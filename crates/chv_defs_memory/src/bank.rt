// Calls on a bank, which is one lock's share of a memory zone, and its history.
ghost use Rattle.std.specs.Prelude.{◌≡◌};

use chv_defs_base::{Bytes, Full};
use std::alloc::AllocError;

/// Blocks of 2 MiB that follow each other: `count` of them from `first` on.
#[derive(Clone, Copy, PartialEq, Eq)]
pub struct Span {
    pub first: u32,
    pub count: u32,
}

/// A call on a bank. Numbers of blocks are the zone's; offsets and lengths are in bytes.
#[derive(Drop)]
pub enum BankCall {
    /// Opens the blocks below a number, and no others; every byte is 0.
    Shape(u32),
    /// Closes every block.
    Wipe,
    Open(Span),
    Seal(Span),
    Unseal(Span),
    Close(Span),
    Freeze,
    Thaw,
    /// Writes a page of 4,096 bytes.
    Fill {
        block: u32,
        page: u16,
        bytes: Bytes,
    },
    /// Counts the pages that are not all zero.
    Show,
    Read {
        block: u32,
        offset: u32,
        len: u32,
    },
    Write {
        block: u32,
        offset: u32,
        bytes: Bytes,
    },
    Pin {
        number: u32,
        span: Span,
    },
    Unpin {
        number: u32,
    },
}

impl Clone for BankCall {
    ghost is_clone = { λ a b. b ≡ a };

    fn clone(&self) -> Result<BankCall, AllocError> {
        Ok(match self {
            BankCall::Shape(blocks) => BankCall::Shape(*blocks),
            BankCall::Wipe => BankCall::Wipe,
            BankCall::Open(span) => BankCall::Open(*span),
            BankCall::Seal(span) => BankCall::Seal(*span),
            BankCall::Unseal(span) => BankCall::Unseal(*span),
            BankCall::Close(span) => BankCall::Close(*span),
            BankCall::Freeze => BankCall::Freeze,
            BankCall::Thaw => BankCall::Thaw,
            BankCall::Fill { block, page, bytes } => BankCall::Fill {
                block: *block,
                page: *page,
                bytes: bytes.clone()?,
            },
            BankCall::Show => BankCall::Show,
            BankCall::Read { block, offset, len } => BankCall::Read {
                block: *block,
                offset: *offset,
                len: *len,
            },
            BankCall::Write {
                block,
                offset,
                bytes,
            } => BankCall::Write {
                block: *block,
                offset: *offset,
                bytes: bytes.clone()?,
            },
            BankCall::Pin { number, span } => BankCall::Pin {
                number: *number,
                span: *span,
            },
            BankCall::Unpin { number } => BankCall::Unpin { number: *number },
        })
    }
}

/// The answer of a bank.
#[derive(PartialEq, Eq, Drop)]
pub enum BankReply {
    Done,
    Got(Bytes),
    Sealed,
    /// The lowest pinned block, and the lowest caller that pins it.
    Busy { block: u32, caller: u32 },
    Closed,
    Pages(u32),
    Pinned,
    /// The lowest block of the call that is not open.
    Fault(u32),
}

impl Clone for BankReply {
    ghost is_clone = { λ a b. b ≡ a };

    fn clone(&self) -> Result<BankReply, AllocError> {
        Ok(match self {
            BankReply::Done => BankReply::Done,
            BankReply::Got(bytes) => BankReply::Got(bytes.clone()?),
            BankReply::Sealed => BankReply::Sealed,
            BankReply::Busy { block, caller } => BankReply::Busy {
                block: *block,
                caller: *caller,
            },
            BankReply::Closed => BankReply::Closed,
            BankReply::Pages(count) => BankReply::Pages(*count),
            BankReply::Pinned => BankReply::Pinned,
            BankReply::Fault(block) => BankReply::Fault(*block),
        })
    }
}

/// One entry of a bank's history.
#[derive(Drop)]
pub struct BankEntry {
    /// 0 is the owner, 1 + n the context of vCPU n, 16 + s that of the device in slot s.
    pub caller: u32,
    pub call: BankCall,
    pub reply: BankReply,
}

/// Why a bank makes no entry. `seen` is the length of its history then.
#[derive(Clone, Copy, PartialEq, Eq, Debug)]
pub enum Refusal {
    /// The lowest sealed block of the call.
    Sealed { block: u32, seen: u64 },
    Frozen { seen: u64 },
    Full(Full),
}

/// A page of 4,096 bytes in a block of 512 pages.
#[derive(Drop)]
pub struct PageAt {
    pub block: u32,
    pub page: u16,
    pub bytes: Bytes,
}

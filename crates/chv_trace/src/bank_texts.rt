// Calls on a bank, and its replies.
ghost use Rattle.std.specs.Prelude.{◌≡◌, ◌++◌, IfOk, string_bytes};
ghost use Rattle.chv_defs_base.specs.Numbers.{dec_text, pairs};
ghost use Rattle.chv_defs_scene.specs.ScriptText.{field};
ghost use Rattle.chv_defs.specs.TraceText as text;

use crate::fields::after_word;
use chv_defs::{BankCall, BankReply, Bytes, Span};
use chv_num::hex_of;
use std::alloc::{AllocError, Global};

/// The text of a call on a bank.
pub(crate) fn call_text(alloc: Global, call: &BankCall) -> Result<String, AllocError>
    ensures { IfOk result (λ shown. string_bytes shown ≡ text.bank_call_text call.now) }
{
    match call {
        BankCall::Shape(blocks) => one_number(alloc, "shape", *blocks),
        BankCall::Wipe => String::from_str(alloc, "wipe"),
        BankCall::Open(span) => two_numbers(alloc, "open", span.first, span.count),
        BankCall::Seal(span) => two_numbers(alloc, "seal", span.first, span.count),
        BankCall::Unseal(span) => two_numbers(alloc, "unseal", span.first, span.count),
        BankCall::Close(span) => two_numbers(alloc, "close", span.first, span.count),
        BankCall::Freeze => String::from_str(alloc, "freeze"),
        BankCall::Thaw => String::from_str(alloc, "thaw"),
        BankCall::Fill { block, page, bytes } => place_and_bytes(
            alloc,
            "fill",
            *block,
            u32::from(*page),
            bytes,
        ),
        BankCall::Show => String::from_str(alloc, "show"),
        BankCall::Read { block, offset, len } => three_numbers(
            alloc, "read", *block, *offset, *len,
        ),
        BankCall::Write {
            block,
            offset,
            bytes,
        } => place_and_bytes(alloc, "write", *block, *offset, bytes),
        BankCall::Pin { number, span } => three_numbers(
            alloc, "pin", *number, span.first, span.count,
        ),
        BankCall::Unpin { number } => one_number(alloc, "unpin", *number),
    }
}

/// The text of a bank's reply.
pub(crate) fn reply_text(alloc: Global, reply: &BankReply) -> Result<String, AllocError>
    ensures { IfOk result (λ shown. string_bytes shown ≡ text.bank_reply_text reply.now) }
{
    match reply {
        BankReply::Done => String::from_str(alloc, "done"),
        BankReply::Got(bytes) => after_word(
            alloc,
            "got ",
            hex_of(alloc, bytes.as_slice())?.as_str(),
        ),
        BankReply::Sealed => String::from_str(alloc, "sealed"),
        BankReply::Busy { block, caller } => two_numbers(alloc, "busy", *block, *caller),
        BankReply::Closed => String::from_str(alloc, "closed"),
        BankReply::Pages(count) => one_number(alloc, "pages", *count),
        BankReply::Pinned => String::from_str(alloc, "pinned"),
        BankReply::Fault(block) => one_number(alloc, "fault", *block),
    }
}

fn one_number(alloc: Global, word: &str, number: u32) -> Result<String, AllocError>
    ensures { IfOk result (λ shown. string_bytes shown ≡ word.now ++ field (dec_text number)) }
{
    format!(in alloc; "{word} {number}")
}

fn two_numbers(alloc: Global, word: &str, first: u32, second: u32) -> Result<String, AllocError>
    ensures { IfOk result (λ shown. string_bytes shown ≡ word.now ++ (field (dec_text first) ++ field (dec_text second))) }
{
    format!(in alloc; "{word} {first} {second}")
}

fn three_numbers(
    alloc: Global,
    word: &str,
    first: u32,
    second: u32,
    third: u32,
) -> Result<String, AllocError>
    ensures { IfOk result (λ shown. string_bytes shown ≡ word.now ++ (field (dec_text first) ++ (field (dec_text second) ++ field (dec_text third)))) }
{
    format!(in alloc; "{word} {first} {second} {third}")
}

// A place of two numbers, and the bytes there in pairs of hexadecimal digits.
fn place_and_bytes(
    alloc: Global,
    word: &str,
    block: u32,
    within: u32,
    bytes: &Bytes,
) -> Result<String, AllocError>
    ensures { IfOk result (λ shown. string_bytes shown ≡ word.now ++ (field (dec_text block) ++ (field (dec_text within) ++ field (pairs bytes.now)))) }
{
    let pairs = hex_of(alloc, bytes.as_slice())?;
    format!(in alloc; "{word} {block} {within} {pairs}")
}

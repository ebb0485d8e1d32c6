// The kinds of cases, but those that `chv_cases` adds.
use crate::answers::{allocated, answer};
use crate::escapes::bytes_of;
use crate::numbers::number_or_none;
use crate::words::found;
use crate::{
    calls, configs, json, numbers, replies, routes, scenes, scripts, slices, steps, streams,
};
use chv_json::{config_of, disk_of, resize_of, zone_of};
use chv_num::{hex_of, read_dec, read_hex};
use std::alloc::{AllocError, Global};
use std::io;

/// The answer to a case: its first word is its kind, and behind it stand its words, or one text.
pub fn answer_to(alloc: Global, kind: &str, words: &str) -> io::Result<String> {
    match kind {
        "put" => numbers::put(alloc, words),
        "field" => numbers::field(alloc, words),
        "text" => json::text_at(alloc, words),
        "device" => json::device(alloc, words),
        "info" => json::info(alloc, words),
        "counters" => json::counters(alloc, words),
        "check" => configs::checked(alloc, words),
        "further" => configs::further(alloc, words),
        "call" => calls::call(alloc, words),
        "reply" => replies::reply(alloc, words),
        "refusal" => replies::refusal(alloc, words),
        "status" => replies::status(alloc, words),
        "stream" => streams::stream(alloc, words),
        "pieces" => streams::pieces(alloc, words),
        "step" => steps::instruction(alloc, words),
        "route" => routes::access(alloc, words),
        "slice" => slices::slice(alloc, words),
        _ => answer_to_bytes(alloc, kind, words),
    }
}

// The answer to a case that has one text and no other words.
fn answer_to_bytes(alloc: Global, kind: &str, words: &str) -> io::Result<String> {
    let text = bytes_of(alloc, words)?;
    let answer = found(answer_to_text(alloc, kind, text.as_slice()));
    drop(text);
    allocated(answer?)
}

fn answer_to_text(alloc: Global, kind: &str, text: &[u8]) -> Option<Result<String, AllocError>> {
    match kind {
        // How many bytes there are.
        "length" => Some(text.len().to_string(alloc)),
        // The number that decimal digits spell.
        "decimal" => Some(number_or_none(alloc, read_dec(text))),
        // The number that hexadecimal digits behind `0x` spell.
        "hexadecimal" => Some(number_or_none(alloc, read_hex(text))),
        // The text as pairs of digits.
        "pairs" => Some(hex_of(alloc, text)),
        "bytes" => Some(numbers::bytes(alloc, text)),
        // The configuration in a body, written again.
        "config" => Some(answer(alloc, config_of(alloc, text))),
        // The disk in a body, written again.
        "disk" => Some(answer(alloc, disk_of(alloc, text))),
        // The vCPUs and the memory that a body asks for, `-` where none are.
        "resize" => Some(answer(alloc, resize_of(alloc, text))),
        // The zone and the memory that a body asks for.
        "zone" => Some(answer(alloc, zone_of(alloc, text))),
        "script" => Some(scripts::script(alloc, text)),
        "scene" => Some(scenes::scene(alloc, text)),
        _ => None,
    }
}

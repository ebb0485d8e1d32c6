// Takes from a connection until something is at hand.
ghost use Rattle.std.specs.Prelude.{◌≡◌, ◌<◌, ◌≤◌, ◌+◌, ◌++◌, length, vec_len, vec_capacity, IfOk, OnOk, OnErr, MatchResult};
ghost use Rattle.chv_io.specs.Links.{ReadLeaves};
ghost use Rattle.chv_defs_api.specs.Requests.{IsShort};
ghost use Rattle.chv_defs_api.specs.SessionBytes.{session_limit, asks_for};
ghost use Rattle.chv_session.specs.Taking.{intake, TakesPiece, TakesPieces};
ghost use Rattle.chv_session.specs.Found.{Finds, IsDrained, IsCaused};
ghost use Rattle.chv_session.specs.Counts.{CountsStay, StaysUnlessFound};
ghost use Rattle.chv_session.specs.Moment.{faults};

use chv_defs_api::{Request, Took};
use chv_defs_base::Rule;
use chv_http::Parser;
use chv_io::{Failed, Link, read_from};
use std::alloc::AllocError;

/// How many bytes are asked for at a time.
const PIECE: usize = 4_096;

/// How many bytes a session takes in all.
const LIMIT: usize = 67_108_864;

/// What is in front of the bytes at hand.
#[derive(Drop)]
pub(crate) enum Found {
    /// A whole request, which is taken away.
    Request(Request),
    /// Bytes that a rule refuses.
    Bad(Rule),
    /// The stream ended; there is a part of a request, or nothing.
    End,
    /// A read failed.
    Fault,
    /// As many bytes were taken as a session takes.
    Limit,
}

/// Appends a piece for which there is room.
pub(crate) fn keep(asked: &mut Vec<u8>, piece: &[u8])
    requires { vec_len asked.old + length piece.now ≤ vec_capacity asked.old }
    ensures kept { asked.new.items ≡ asked.old.items ++ piece.now }
    ensures len { vec_len asked.new ≡ vec_len asked.old + length piece.now }
{
    match asked.extend_from_slice(piece) {
        Ok(()) => (),
        Err(_) => unreachable!(),
    }
}

/// Takes one piece, of at most so many bytes as the buffer has. What was asked has it, whatever the answer.
fn take_into<K: Link>(
    parser: &mut Parser,
    asked: &mut Vec<u8>,
    link: &mut K,
    buffer: &mut [u8],
) -> Result<Result<usize, Failed>, AllocError>
    requires asks { length buffer.old ≡ asks_for (length asked.old.items) }
    requires some { 0 < length buffer.old }
    requires room { vec_len asked.old + length buffer.old ≤ vec_capacity asked.old }
    requires short { IsShort parser.old }
    ensures takes { TakesPiece result
        (intake asked.old.items parser.old (K.left link.old) (K.gave link.old) (K.most link.old) (K.read_faults link.old))
        (intake asked.new.items parser.new (K.left link.new) (K.gave link.new) (K.most link.new) (K.read_faults link.new)) }
    ensures within { vec_len asked.new ≤ vec_len asked.old + length buffer.old }
    ensures leaves { ReadLeaves (K.written link.old) (K.written link.new) (K.closed link.old) (K.closed link.new)
        (K.write_faults link.old) (K.write_faults link.new) }
    ensures counts { MatchResult result (λ answer. OnOk answer (CountsStay (faults (K.read_faults link.old) (K.read_faults link.new)
        (K.write_faults link.old) (K.write_faults link.new)))) (λ _. CountsStay (faults (K.read_faults link.old) (K.read_faults link.new)
        (K.write_faults link.old) (K.write_faults link.new))) }
{
    match read_from(link, buffer) {
        Ok(count) => {
            keep(asked, &buffer[..count]);
            parser.feed(&buffer[..count])?;
            Ok(Ok(count))
        }
        Err(failed) => Ok(Err(failed)),
    }
}

/// Takes one piece, where one is to be taken. What was asked has it, whatever the answer.
fn take_piece<K: Link>(
    parser: &mut Parser,
    asked: &mut Vec<u8>,
    link: &mut K,
) -> Result<Result<usize, Failed>, AllocError>
    requires room { vec_len asked.old < session_limit }
    requires short { IsShort parser.old }
    ensures takes { TakesPiece result
        (intake asked.old.items parser.old (K.left link.old) (K.gave link.old) (K.most link.old) (K.read_faults link.old))
        (intake asked.new.items parser.new (K.left link.new) (K.gave link.new) (K.most link.new) (K.read_faults link.new)) }
    ensures within { vec_len asked.new ≤ session_limit }
    ensures leaves { ReadLeaves (K.written link.old) (K.written link.new) (K.closed link.old) (K.closed link.new)
        (K.write_faults link.old) (K.write_faults link.new) }
    ensures counts { MatchResult result (λ answer. OnOk answer (CountsStay (faults (K.read_faults link.old) (K.read_faults link.new)
        (K.write_faults link.old) (K.write_faults link.new)))) (λ _. CountsStay (faults (K.read_faults link.old) (K.read_faults link.new)
        (K.write_faults link.old) (K.write_faults link.new))) }
{
    asked.reserve(PIECE)?;
    let mut buffer = [0u8; PIECE];
    let room = PIECE.min(LIMIT - asked.len());
    take_into(parser, asked, link, &mut buffer[..room])
}

/// Takes pieces until a request or a refusal is in front, or no more can come.
pub(crate) fn fill<K: Link>(
    parser: &mut Parser,
    asked: &mut Vec<u8>,
    link: &mut K,
) -> Result<Found, AllocError>
    requires { vec_len asked.old ≤ session_limit }
    ensures taken { TakesPieces
        (intake asked.old.items parser.old (K.left link.old) (K.gave link.old) (K.most link.old) (K.read_faults link.old))
        (intake asked.new.items parser.new (K.left link.new) (K.gave link.new) (K.most link.new) (K.read_faults link.new)) }
    ensures within { vec_len asked.new ≤ session_limit }
    ensures found { IfOk result (λ found. Finds found asked.old.items asked.new.items parser.old parser.new) }
    ensures drained { IfOk result (λ found. IsDrained found (K.left link.new)) }
    ensures cause { IfOk result (λ found. IsCaused found (K.read_faults link.old) (K.read_faults link.new)) }
    ensures leaves { ReadLeaves (K.written link.old) (K.written link.new) (K.closed link.old) (K.closed link.new)
        (K.write_faults link.old) (K.write_faults link.new) }
    ensures most { K.most link.new ≡ K.most link.old }
    ensures later { K.read_faults link.old ≤ K.read_faults link.new }
    ensures counts { IfOk result (λ found. StaysUnlessFound found (faults (K.read_faults link.old) (K.read_faults link.new)
        (K.write_faults link.old) (K.write_faults link.new))) }
    ensures err_counts { OnErr result (CountsStay (faults (K.read_faults link.old) (K.read_faults link.new)
        (K.write_faults link.old) (K.write_faults link.new))) }
{
    loop {
        match parser.take()? {
            Took::Request(request) => return Ok(Found::Request(request)),
            Took::Bad(rule) => return Ok(Found::Bad(rule)),
            Took::NotYet => {}
        }
        if asked.len() >= LIMIT {
            return Ok(Found::Limit);
        }
        match take_piece(parser, asked, link)? {
            Ok(0) => return Ok(Found::End),
            Ok(_) => {}
            Err(Failed) => return Ok(Found::Fault),
        }
    }
}

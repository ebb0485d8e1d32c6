// Streams of bytes and the requests that are cut from them (`chv_http`).
use crate::answers::allocated;
use crate::escapes::{bytes_of, shown};
use crate::words::{cut, found};
use chv_defs_api::{Request, Took};
use chv_defs_base::beside;
use chv_http::Parser;
use std::alloc::{AllocError, Global};
use std::io;

/// `stream SIZE,.. TEXT`: what is taken from a text up to the first refusal, where it comes in pieces of so many bytes.
pub fn stream(alloc: Global, words: &str) -> io::Result<String> {
    let (sizes, text) = cut(words, ' ');
    let stream = bytes_of(alloc, text)?;
    let mut answer = String::new(alloc);
    let taken = push_all_taken(alloc, &mut answer, stream.as_slice(), sizes);
    drop(stream);
    Ok(beside(taken, answer)?.1)
}

fn push_all_taken(
    alloc: Global,
    answer: &mut String,
    stream: &[u8],
    sizes: &str,
) -> io::Result<()> {
    answer.push_str("taken")?;
    for size in sizes.split(',') {
        push_taken(alloc, answer, stream, size)?;
    }
    Ok(())
}

fn push_taken(alloc: Global, answer: &mut String, stream: &[u8], size: &str) -> io::Result<()> {
    let taken = cut_by(alloc, stream, found(size.parse().ok())?)?;
    allocated(write!(answer, " | by {size}:{taken}"))
}

fn cut_by(alloc: Global, stream: &[u8], size: usize) -> io::Result<String> {
    let mut parser = Parser::new(alloc)?;
    let mut taken = String::new(alloc);
    let fed = feed_by(&mut parser, &mut taken, stream, size);
    drop(parser);
    let (_, taken) = beside(fed, taken)?;
    allocated(shown(alloc, taken.as_bytes()))
}

fn feed_by(parser: &mut Parser, taken: &mut String, stream: &[u8], size: usize) -> io::Result<()> {
    if size == 0 {
        return Err(io::Error::other("the case has pieces of no bytes"));
    }
    for piece in stream.chunks(size) {
        if !feed(parser, taken, piece)? {
            break;
        }
    }
    Ok(())
}

/// `pieces PIECE|PIECE|..`: what is taken from a text that comes in these pieces, also behind a refusal.
pub fn pieces(alloc: Global, words: &str) -> io::Result<String> {
    let mut parser = Parser::new(alloc)?;
    let mut taken = String::new(alloc);
    let fed = feed_pieces(alloc, &mut parser, &mut taken, words);
    drop(parser);
    Ok(beside(fed, taken)?.1)
}

fn feed_pieces(
    alloc: Global,
    parser: &mut Parser,
    taken: &mut String,
    words: &str,
) -> io::Result<()> {
    taken.push_str("taken:")?;
    for piece in words.split('|') {
        let piece = bytes_of(alloc, piece)?;
        let fed = feed(parser, taken, piece.as_slice());
        drop(piece);
        let _ = fed?;
    }
    Ok(())
}

// Feeds a piece, and takes what can be taken then. Whether nothing was refused.
fn feed(parser: &mut Parser, taken: &mut String, piece: &[u8]) -> Result<bool, AllocError> {
    parser.feed(piece)?;
    for _ in 0..100 {
        match parser.take()? {
            Took::NotYet => return Ok(true),
            Took::Bad(rule) => {
                note(taken, rule.name())?;
                return Ok(false);
            }
            Took::Request(request) => {
                let noted = note_request(taken, &request);
                drop(request);
                noted?;
            }
        }
    }
    Ok(true)
}

fn note(taken: &mut String, rule: &str) -> Result<(), AllocError> {
    write!(taken, " {rule};")
}

// Notes a request: its method, target and length of body, and whether it is the last.
fn note_request(taken: &mut String, request: &Request) -> Result<(), AllocError> {
    let method = method(request);
    let target = request.target.as_str();
    write!(taken, " {method} {target}")?;
    let length = request.body.len();
    let last = if request.last { " last" } else { "" };
    write!(taken, " {length}{last};")
}

fn method(request: &Request) -> &'static str {
    match (request.put, request.get) {
        (true, false) => "PUT",
        (false, true) => "GET",
        _ => "-",
    }
}

// Requests cut from a stream that comes in pieces.
ghost use Rattle.std.specs.Prelude.{◌≡◌, ◌≤◌, ◌+◌, ◌==◌, [], ◌++◌, length, drop, take, IfOk, OnOk, OnErr, vec_len};
ghost use Rattle.chv_defs_api.specs.Requests.{BeginsWith, Cuts};
ghost use Rattle.chv_http.specs.Head.{Awaits};
ghost use Rattle.chv_http.specs.Parser.{IsWithinTwice};

use crate::head::Head;
use crate::stage::Stage;
use chv_defs_api::{Request, Took};
use std::alloc::{AllocError, Global};
use std::marker::Model;

/// How many bytes a new parser has room for.
const ROOM: usize = 4_096;

/// Cuts the requests of one stream. Contracts see the bytes that were fed and not yet given.
#[derive(Drop)]
pub struct Parser {
    alloc: Global,
    /// What was fed, without a part that was given before: at most twice as long as what was not yet given.
    buffer: Vec<u8>,
    /// Where the bytes begin that were not yet given.
    start: usize,
    /// How far these bytes were looked at.
    stage: Stage,
}

impl Model for Parser {
    ghost use Rattle.std.specs.Prelude.{List, ℕ, drop};

    ghost Value = { List ℕ };

    ghost use Rattle.chv_http.specs.Parser.{IsParser};

    ghost view = { λ p. drop p.start p.buffer.items };

    ghost invariant = { IsParser };
}

impl Parser {
    /// A parser of a stream of which nothing came so far.
    pub fn new(alloc: Global) -> Result<Parser, AllocError>
        ensures { IfOk result (λ parser. parser ≡ []) }
    {
        Ok(Parser {
            alloc,
            buffer: Vec::with_capacity(alloc, ROOM)?,
            start: 0,
            stage: Stage::UNSEEN,
        })
    }

    /// Whether all that was fed was given.
    pub fn is_empty(&self) -> bool
        ensures { result ≡ (length self.now == 0) }
    {
        self.start == self.buffer.len()
    }

    /// Appends a piece of the stream. After want of memory nothing has changed.
    pub fn feed(&mut self, piece: &[u8]) -> Result<(), AllocError>
        ensures fed { OnOk result (self.new ≡ self.old ++ piece.now) }
        ensures err { OnErr result (self.new ≡ self.old) }
    {
        self.buffer.extend_from_slice(piece)?;
        Ok(())
    }

    /// The next request of the stream, whole, or why there is none. A request is taken away, and nothing else is: so
    /// after `Bad` every call answers the same `Bad`. After want of memory nothing has changed.
    pub fn take(&mut self) -> Result<Took, AllocError>
        ensures took { IfOk result (λ took. Cuts self.old took self.new) }
        ensures err { OnErr result (self.new ≡ self.old) }
    {
        let rest = from(self.buffer.as_slice(), self.start);
        self.stage = self.stage.look_on(rest);
        match self.stage {
            Stage::Front { .. } => Ok(Took::NotYet),
            Stage::Bad(rule) => Ok(Took::Bad(rule)),
            Stage::Body(head) if rest.len() - head.len < head.body => Ok(Took::NotYet),
            Stage::Body(head) => Ok(Took::Request(self.give(head)?)),
        }
    }

    /// The request of this head, whose body is there whole, taken away. After want of memory nothing has changed.
    fn give(&mut self, head: Head) -> Result<Request, AllocError>
        requires head { Awaits self.old head }
        requires whole { head.len + head.body ≤ length self.old }
        ensures given { IfOk result (λ request. BeginsWith self.old request self.new) }
        ensures err { OnErr result (self.new ≡ self.old) }
    {
        let request = head.request(self.alloc, from(self.buffer.as_slice(), self.start))?;
        self.start = release(&mut self.buffer, self.start + head.len + head.body);
        self.stage = Stage::UNSEEN;
        Ok(request)
    }
}

/// The bytes from `start` on.
fn from(buffer: &[u8], start: usize) -> &[u8]
    requires { start ≤ length buffer.now }
    ensures { result.now ≡ drop start buffer.now }
{
    &buffer[start..]
}

/// Removes the bytes before `start` where they are half of all at least, and answers where the bytes from `start` on
/// stand then. So each byte is moved once at most for each byte that is removed, and the buffer stays within twice what is
/// left.
fn release(buffer: &mut Vec<u8>, start: usize) -> usize
    requires { start ≤ vec_len buffer.old }
    ensures kept { drop result buffer.new.items ≡ drop start buffer.old.items }
    ensures within { IsWithinTwice result (vec_len buffer.new) }
{
    if start < buffer.len() - start {
        return start;
    }
    let _ = buffer.drain(..start);
    0
}

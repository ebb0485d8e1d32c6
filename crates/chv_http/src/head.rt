// The head of a request, read from a whole front.
ghost use Rattle.std.specs.Prelude.{◌≡◌, ◌+◌, ◌≤◌, length, drop, IfOk, IfErr};
ghost use Rattle.httparse.specs.Grammar.{RequestHead};
ghost use Rattle.chv_defs_api.specs.Requests.{BeginsWith};

use crate::fields::{asks_to_close, body_length};
use chv_defs_api::Request;
use chv_defs_base::{Bytes, Rule, Text};
use httparse::Status;
use httparse::spans::{EMPTY_HEADER_SPAN, Span, parse_request};
use std::alloc::{AllocError, Global};

/// The most fields of a head.
const MOST_FIELDS: usize = 32;

/// What a head says, and where its target stands.
#[derive(Clone, Copy)]
pub struct Head {
    /// The bytes of the head.
    pub len: usize,
    pub put: bool,
    pub get: bool,
    pub target: Span,
    pub last: bool,
    /// The bytes of the body that is to follow.
    pub body: usize,
}

impl Head {
    ghost use Rattle.chv_http.specs.Head.{IsHeadOf, RefusesFront, Awaits};

    /// The head that a whole front is, or the rule that refuses it.
    pub fn of(front: &[u8]) -> Result<Head, Rule>
        ensures head { IfOk result (λ head. (h : RequestHead) × IsHeadOf front.now head h) }
        ensures refused { IfErr result (λ rule. RefusesFront front.now rule) }
    {
        let mut spans = [EMPTY_HEADER_SPAN; MOST_FIELDS];
        let Ok(Status::Complete(parts)) = parse_request(front, &mut spans) else {
            return Err(Rule::BadHead);
        };
        if parts.len != front.len() {
            return Err(Rule::BadHead);
        }
        let fields = &spans[..parts.headers];
        let body = body_length(front, fields)?;
        let method = parts.method.of(front);
        Ok(Head {
            len: parts.len,
            put: method == b"PUT".as_slice(),
            get: method == b"GET".as_slice(),
            target: parts.path,
            last: parts.version == 0 || asks_to_close(front, fields),
            body,
        })
    }

    /// The request of this head and of the body behind it.
    pub fn request(self, alloc: Global, bytes: &[u8]) -> Result<Request, AllocError>
        requires head { Awaits bytes.now self }
        requires whole { self.len + self.body ≤ length bytes.now }
        ensures { IfOk result (λ request. BeginsWith bytes.now request (drop (self.len + self.body) bytes.now)) }
    {
        let Ok(target) = str::from_utf8(self.target.of(bytes)) else {
            unreachable!()
        };
        Ok(Request {
            put: self.put,
            get: self.get,
            target: Text::of(alloc, target)?,
            body: Bytes::of(alloc, &bytes[self.len..self.len + self.body])?,
            last: self.last,
        })
    }
}

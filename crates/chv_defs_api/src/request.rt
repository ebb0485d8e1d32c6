// The requests of a stream.
use chv_defs_base::{Bytes, Rule, Text};

/// A request of a control connection: an HTTP/1.0 or HTTP/1.1 head, and its body (RFC 9112).
#[derive(PartialEq, Eq, Drop)]
pub struct Request {
    /// The method is `PUT`.
    pub put: bool,
    /// The method is `GET`.
    pub get: bool,
    /// The request target, as it stands in the head.
    pub target: Text,
    /// As many bytes as `Content-Length` says; none where it is absent.
    pub body: Bytes,
    /// No request behind this one is answered: its version is 1.0, or it asks to close.
    pub last: bool,
}

/// What the rest of a stream begins with.
#[derive(PartialEq, Eq, Drop)]
pub enum Took {
    /// A whole request.
    Request(Request),
    /// A part of a request, or nothing.
    NotYet,
    /// Bytes that no request begins with: `BadHead`, `Coded`, `BadLength` or `BodyTooLong`.
    Bad(Rule),
}

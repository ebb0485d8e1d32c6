ghost use Rattle.std.specs.Prelude.{◌≡◌, ◌++◌, ◌∷◌, [], true, false, IfOk, IfSome, OnErr, OnOk};
ghost use Rattle.chv_defs_api.specs.Desks.{IsSession};
ghost use Rattle.chv_defs_api.specs.Desks.{can_have, is_held};

use chv_defs_api::{ControlCall, ControlReply, Desk, SessionEnd, SessionLog, Stopped};
use chv_defs_base::{Bytes, beside, copy_of};
use chv_io::{Link, MemLink};
use chv_session::{Next, Session};
use chv_tests_samples::numbers;
use std::alloc::{AllocError, Global};
use std::marker::Model;
use std::test::Fail;

/// A ping, and a pause with a body, which holds and is settled.
const TWO: &[u8] =
    b"GET /api/v1/vmm.ping HTTP/1.1\r\n\r\nPUT /api/v1/vm.pause HTTP/1.1\r\nContent-Length: 2\r\n\r\n{}";

/// The replies to them.
const TWO_REPLIES: &[u8] =
    b"HTTP/1.1 200 OK\r\nContent-Type: application/json\r\nContent-Length: 19\r\n\r\n{\"version\":\"chv 1\"}HTTP/1.1 204 No Content\r\n\r\n";

/// A last ping, and bytes behind it.
const LAST: &[u8] =
    b"GET /api/v1/vmm.ping HTTP/1.1\r\nConnection: close\r\n\r\nGET /api/v1/vmm.ping HTTP/1.1\r\n\r\n";

/// A call with its answer.
#[derive(Drop)]
struct Made {
    call: ControlCall,
    reply: ControlReply,
}

impl Model for Made {
    ghost use Rattle.chv_defs_api.specs.Desks.{Answer};

    ghost Value = { Answer };

    ghost view = { λ m. record { call = m.call; reply = m.reply } };
}

/// A desk of session 1, which keeps what it is asked, and stops behind so many calls.
#[derive(Drop)]
struct TestDesk {
    made: Vec<Made>,
    stops_behind: usize,
    refused: Option<ControlCall>,
}

impl TestDesk {
    /// Ping, Settle and Bye are done, and a Begin holds; the run stops behind so many calls, and at any other one.
    fn reply_to(&self, call: &ControlCall) -> Option<ControlReply>
        ensures { IfSome result (λ reply. can_have call.now reply ≡ true) }
    {
        if self.made.len() >= self.stops_behind {
            return None;
        }
        match call {
            ControlCall::Ping | ControlCall::Settle | ControlCall::Bye => Some(ControlReply::Done),
            ControlCall::Begin(_) => Some(ControlReply::Holding),
            _ => None,
        }
    }

    /// Keeps a call with its answer. An `Err` keeps none.
    fn keep(&mut self, call: &ControlCall, reply: &ControlReply) -> Result<(), AllocError>
        ensures ok { OnOk result (self.new.made.items ≡ self.old.made.items ++ record { call = call.now; reply = reply.now } ∷ []) }
        ensures err { OnErr result (self.new.made.items ≡ self.old.made.items) }
        ensures refused { self.new.refused ≡ self.old.refused }
    {
        let made = Made {
            call: copy_of(call)?,
            reply: copy_of(reply)?,
        };
        self.made.push(made)?;
        Ok(())
    }
}

impl Desk<()> for TestDesk {
    ghost use Rattle.std.specs.Prelude.{None};

    ghost caller = { λ d. 1 };

    ghost context = { λ _. None };

    ghost answers = { λ d. d.made.items };

    ghost refused = { λ d. d.refused };

    ghost asks = { λ before call after. Unit {0} };

    fn ask(
        &mut self,
        _rt: (),
        call: &ControlCall,
    ) -> Result<Result<ControlReply, Stopped>, AllocError> {
        match self.reply_to(call) {
            Some(reply) => {
                let ((), reply) = beside(self.keep(call, &reply), reply)?;
                Ok(Ok(reply))
            }
            None => {
                drop(self.refused.replace(copy_of(call)?));
                Ok(Err(Stopped))
            }
        }
    }
}

/// Makes one turn of a session; whether it answered a request.
fn answers<K: Link, T: Desk<()>>(
    session: &mut Session,
    link: &mut K,
    desk: &mut T,
) -> Result<bool, AllocError>
    requires session { IsSession (T.caller desk.old) }
    requires settled { is_held (T.answers desk.old) ≡ false }
    ensures caller { T.caller desk.new ≡ T.caller desk.old }
    ensures settled { IfOk result (λ answered. answered ≡ true → is_held (T.answers desk.new) ≡ false) }
{
    match session.next((), link, desk)? {
        Next::Answered => Ok(true),
        Next::Ended(_) => Ok(false),
    }
}

/// Makes so many turns of a session, or as many as it has.
fn run<K: Link, T: Desk<()>>(
    session: &mut Session,
    link: &mut K,
    desk: &mut T,
    turns: usize,
) -> Result<(), AllocError>
    requires session { IsSession (T.caller desk.old) }
    requires settled { is_held (T.answers desk.old) ≡ false }
{
    for _ in 0..turns {
        if !answers(session, link, desk)? {
            return Ok(());
        }
    }
    Ok(())
}

/// What a session leaves: its log, what was put, whether the connection was closed, and how many calls were made.
#[derive(Drop)]
struct Left {
    log: SessionLog,
    put: Vec<u8>,
    is_closed: bool,
    calls: usize,
}

/// A connection with a stream, byte by byte or in large pieces, of which the call with the number `fail` fails.
fn link_of(alloc: Global, stream: &[u8], by_bytes: bool, fail: u64) -> Result<MemLink, AllocError> {
    let size = if by_bytes { 1 } else { 4096 };
    MemLink::new(
        alloc,
        Bytes::of(alloc, stream)?,
        size,
        4096,
        numbers(alloc, &[fail])?,
    )
}

/// The log of a session over a connection.
fn log_of(
    alloc: Global,
    link: &mut MemLink,
    desk: &mut TestDesk,
    turns: usize,
) -> Result<SessionLog, AllocError>
    requires { desk.old.made.items ≡ [] }
{
    let mut session = Session::new(alloc)?;
    run(&mut session, link, desk, turns)?;
    Ok(session.log())
}

/// What a session over a connection leaves, where the run stops behind so many calls.
fn left_over(
    alloc: Global,
    link: &mut MemLink,
    stops_behind: usize,
    turns: usize,
) -> Result<Left, AllocError> {
    let mut desk = TestDesk {
        made: Vec::new(alloc),
        stops_behind,
        refused: None,
    };
    let log = log_of(alloc, link, &mut desk, turns);
    let calls = desk.made.len();
    drop(desk);
    let (put, log) = beside(Vec::from_slice(alloc, link.written()), log?)?;
    Ok(Left {
        log,
        put,
        is_closed: link.is_closed(),
        calls,
    })
}

/// What of a session differs from what it should be, where two requests come byte by byte or in large pieces: its replies,
/// the number of its calls (a ping, a begin, a settle and a bye), or nothing.
fn other_replies(alloc: Global, by_bytes: bool) -> Result<&'static str, AllocError> {
    let mut link = link_of(alloc, TWO, by_bytes, 0)?;
    let left = left_over(alloc, &mut link, 9, 9)?;
    Ok(if left.put.as_slice() != TWO_REPLIES {
        "the replies"
    } else if left.calls != 4 {
        "the number of calls"
    } else {
        "nothing"
    })
}

/// The end of a session, by name: a stream, the call of the connection that fails (0 is none), the calls behind which the run
/// stops, and the turns; then the end, and the number of calls.
type End<'a> = (&'a str, &'a [u8], u64, usize, usize, SessionEnd, usize);

const ENDS: [End<'static>; 17] = [
    ("no bytes", b"", 0, 9, 9, SessionEnd::Ended, 1),
    (
        "a part of a request",
        b"PUT /api/v1/vm.boot HTTP/1.1\r\nContent-Length: 5\r\n\r\nhel",
        0,
        9,
        9,
        SessionEnd::Cut,
        1,
    ),
    // The Bye has a turn of its own behind a last request, and behind bytes that are refused.
    (
        "one turn of a last request",
        LAST,
        0,
        9,
        1,
        SessionEnd::Stopped,
        1,
    ),
    (
        "two turns of a last request",
        LAST,
        0,
        9,
        2,
        SessionEnd::Closed,
        2,
    ),
    (
        "a stop at the bye of a last request",
        LAST,
        0,
        1,
        9,
        SessionEnd::Stopped,
        1,
    ),
    (
        "one turn of a bad head",
        b"no head\r\n\r\n",
        0,
        9,
        1,
        SessionEnd::Stopped,
        0,
    ),
    (
        "two turns of a bad head",
        b"no head\r\n\r\n",
        0,
        9,
        2,
        SessionEnd::Bad,
        1,
    ),
    (
        "a request in HTTP/1.0",
        b"GET /nowhere HTTP/1.0\r\n\r\n",
        0,
        9,
        9,
        SessionEnd::Closed,
        1,
    ),
    ("a stop at the ping", TWO, 0, 0, 9, SessionEnd::Stopped, 0),
    ("a stop at the begin", TWO, 0, 1, 9, SessionEnd::Stopped, 1),
    ("a stop at the settle", TWO, 0, 2, 9, SessionEnd::Stopped, 2),
    ("a stop at the bye", TWO, 0, 3, 9, SessionEnd::Stopped, 3),
    ("the first read fails", TWO, 1, 9, 9, SessionEnd::Fault, 1),
    ("the first write fails", TWO, 2, 9, 9, SessionEnd::Fault, 2),
    ("the second write fails", TWO, 3, 9, 9, SessionEnd::Fault, 4),
    (
        "the read of the end fails",
        TWO,
        4,
        9,
        9,
        SessionEnd::Fault,
        4,
    ),
    ("no call fails", TWO, 5, 9, 9, SessionEnd::Ended, 4),
];

/// What of a session differs from what it should be, or nothing.
fn other_end(left: &Left, end: &End) -> &'static str {
    if left.log.end != end.5 {
        "the end"
    } else if left.calls != end.6 {
        "the number of calls"
    } else if left.put.as_slice() != left.log.replied.as_slice() {
        "the replies in the log"
    } else if left.is_closed != (end.4 > 1) {
        "whether the connection was closed"
    } else {
        "nothing"
    }
}

fn other(alloc: Global, end: &End) -> Result<&'static str, AllocError> {
    let mut link = link_of(alloc, end.1, false, end.2)?;
    Ok(other_end(&left_over(alloc, &mut link, end.3, end.4)?, end))
}

#[test]
fn sessions(rt: HostRuntime) -> Result<(), Fail> {
    for by_bytes in [false, true] {
        let other = other_replies(rt.alloc(), by_bytes)?;
        assert_eq!(rt; other, "nothing", "two requests, byte by byte: {by_bytes}");
    }
    for end in &ENDS {
        let (name, ..) = end;
        assert_eq!(rt; other(rt.alloc(), end)?, "nothing", "{name}");
    }
    Ok(())
}

// Outputs that fail while a trace is printed. How each line is printed is shown by scenarios and by the cases of `chv_cases`.
ghost use Rattle.std.specs.Prelude.{◌≡◌, []};

use chv_defs::{
    Bytes, ControlCall, ControlEntry, ControlReply, Row, SessionEnd, SessionLog, SessionTrace,
    Trace,
};
use chv_io::MemSink;
use chv_tests_samples::numbers;
use chv_trace::{PrintError, print};
use std::alloc::{AllocError, Global};
use std::test::Fail;

fn push_call(control: &mut Row<ControlEntry>, call: ControlCall) -> Result<(), AllocError> {
    control.push(ControlEntry {
        caller: 1,
        call,
        reply: ControlReply::Done,
    })
}

// A session that took so many bytes, each a G, and was replied none.
fn push_session(
    alloc: Global,
    sessions: &mut Row<SessionTrace>,
    asked: usize,
) -> Result<(), AllocError> {
    let log = SessionLog {
        asked: Bytes::new(vec![in alloc; b'G'; asked]?),
        replied: Bytes::new(Vec::new(alloc)),
        end: SessionEnd::Ended,
    };
    sessions.push(SessionTrace { session: 1, log })
}

// A ping and a leave.
fn push_ping(control: &mut Row<ControlEntry>) -> Result<(), AllocError> {
    push_call(control, ControlCall::Ping)?;
    push_call(control, ControlCall::Bye)
}

/// How printing ends, and how many bytes are written.
type Printed = (Result<(), PrintError>, usize);

// What comes of printing a trace where the call of the output with this number fails.
fn printed(alloc: Global, trace: &Trace, failing: u64) -> Result<Printed, AllocError>
    requires { trace.now.disks ≡ [] }
{
    let mut out = MemSink::new(alloc, 200_000, numbers(alloc, &[failing])?)?;
    Ok((print(alloc, trace, &mut out), out.written().len()))
}

// What comes of the trace of a session that made a ping and took so many bytes.
fn ping(alloc: Global, asked: usize, failing: u64) -> Result<Printed, AllocError> {
    let mut control = Row::empty(alloc);
    let mut sessions = Row::empty(alloc);
    let called = push_ping(&mut control);
    let logged = push_session(alloc, &mut sessions, asked);
    let trace = Trace {
        disks: Row::empty(alloc),
        vcpus: Row::empty(alloc),
        control,
        banks: Row::empty(alloc),
        sessions,
    };
    let printed = printed(alloc, &trace, failing);
    drop(trace);
    called?;
    logged?;
    printed
}

/// What comes of printing a trace, by name: how many bytes its session took, the call of the output that fails, how
/// printing ends, and how many bytes are written. 75 bytes stand before the pairs of the bytes that were taken, so that the
/// first piece has 32,731 of these.
const OUTPUTS: [(&str, usize, u64, Printed); 3] = [
    ("the one piece fails", 2, 1, (Err(PrintError::Failed), 0)),
    (
        "the second of two pieces fails",
        40_000,
        2,
        (Err(PrintError::Failed), 65_537),
    ),
    ("both pieces are put", 40_000, 3, (Ok(()), 80_088)),
];

#[test]
fn outputs_that_fail(rt: HostRuntime) -> Result<(), Fail> {
    for (name, asked, failing, expected) in &OUTPUTS {
        assert!(rt; ping(rt.alloc(), *asked, *failing)? == *expected, "{name}");
    }
    Ok(())
}

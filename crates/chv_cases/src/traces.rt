// Traces as they are printed (`chv_trace`): what no scenario that is played comes to yet.
ghost use Rattle.std.specs.Prelude.{◌≡◌, []};

use crate::lines::with_lines;
use crate::trace_banks::push_banks;
use crate::trace_scenes::vcpus_of;
use chv_defs::{
    BookId, BusyAt, Bytes, ContextNote, ControlCall, ControlEntry, ControlReply, CpuNote,
    DiskCount, HandNote, MemAnswer, MemRequest, QueueFault, QueueNote, RegAccess, Role, Row, Rule,
    SessionEnd, SessionLog, SessionTrace, SliceEnd, Text, Trace, VcpuSection,
};
use chv_io::MemSink;
use chv_tests_answers::cut;
use chv_trace::print;
use std::alloc::{AllocError, Global};
use std::io;

const BANK: BookId = BookId::Bank { zone: 1, bank: 2 };

const SEALED: SliceEnd = SliceEnd::Sealed {
    book: BANK,
    block: 5,
    seen: 9,
};

const BROKEN: SliceEnd = SliceEnd::Broken(QueueFault::RingClosed(4096));

const QUEUE: QueueNote = QueueNote {
    slot: 2,
    last: 7,
    used: 8,
    counts: DiskCount {
        reads: 1,
        writes: 2,
        read_bytes: 512,
        write_bytes: 1024,
    },
};

const CPU: CpuNote = CpuNote {
    vcpu: 1,
    pos: 4,
    fuel: 1000,
    halted: true,
    regs: [10; 16],
};

const OUT: RegAccess = RegAccess::Out {
    width: 1,
    port: 0xcf8,
    value: 0x80,
};

const PLUG: MemRequest = MemRequest {
    kind: 1,
    addr: 0x1_0000_0000,
    blocks: 4,
};

const BUSY: MemAnswer = MemAnswer {
    kind: 1,
    state: 2,
    busy: Some(BusyAt {
        block: 7,
        caller: 18,
    }),
};

fn push_call(control: &mut Row<ControlEntry>, call: ControlCall) -> Result<(), AllocError> {
    control.push(ControlEntry {
        caller: 1,
        call,
        reply: ControlReply::Done,
    })
}

fn push_reply(control: &mut Row<ControlEntry>, reply: ControlReply) -> Result<(), AllocError> {
    control.push(ControlEntry {
        caller: 1,
        call: ControlCall::Ping,
        reply,
    })
}

fn push_hand(
    control: &mut Row<ControlEntry>,
    end: SliceEnd,
    order: Vec<BookId>,
) -> Result<(), AllocError> {
    push_call(
        control,
        ControlCall::Hand(HandNote {
            note: ContextNote::Queue(QUEUE),
            end,
            order: Row::new(order),
        }),
    )
}

fn push_calls(alloc: Global, control: &mut Row<ControlEntry>) -> Result<(), AllocError> {
    push_call(control, ControlCall::Take(Role::Vcpu(3)))?;
    push_hand(control, SEALED, vec![in alloc; BookId::Control, BANK]?)?;
    push_hand(control, BROKEN, Vec::new(alloc))?;
    push_call(
        control,
        ControlCall::Reg {
            context: 17,
            access: OUT,
        },
    )?;
    push_call(
        control,
        ControlCall::Mem {
            slot: 2,
            request: PLUG,
        },
    )
}

fn push_plain_replies(control: &mut Row<ControlEntry>) -> Result<(), AllocError> {
    push_reply(control, ControlReply::Ruled(Rule::BadImage(216)))?;
    push_reply(control, ControlReply::Taken(ContextNote::Cpu(CPU)))?;
    push_reply(control, ControlReply::Value(0x1af4))?;
    push_reply(control, ControlReply::Answer(BUSY))
}

fn push_added(alloc: Global, control: &mut Row<ControlEntry>) -> Result<(), AllocError> {
    let id = Text::of(alloc, "d1")?;
    push_reply(control, ControlReply::Added { id, slot: 2 })
}

fn push_restored(alloc: Global, control: &mut Row<ControlEntry>) -> Result<(), AllocError> {
    let image = Bytes::of(alloc, b"\xc0\x0f")?;
    push_reply(control, ControlReply::Restored(image))
}

fn push_entries(alloc: Global, control: &mut Row<ControlEntry>) -> Result<(), AllocError> {
    push_calls(alloc, control)?;
    push_plain_replies(control)?;
    push_added(alloc, control)?;
    push_restored(alloc, control)
}

// A session that took two bytes and was replied none.
fn push_session(alloc: Global, sessions: &mut Row<SessionTrace>) -> Result<(), AllocError> {
    let log = SessionLog {
        asked: Bytes::of(alloc, b"GG")?,
        replied: Bytes::new(Vec::new(alloc)),
        end: SessionEnd::Ended,
    };
    sessions.push(SessionTrace { session: 1, log })
}

// A run of a scenario with these sections of vCPUs, in which nothing happened.
fn trace_of(alloc: Global, vcpus: Row<VcpuSection>) -> Trace
    ensures { result.disks ≡ [] }
{
    Trace {
        disks: Row::empty(alloc),
        vcpus,
        control: Row::empty(alloc),
        banks: Row::empty(alloc),
        sessions: Row::empty(alloc),
    }
}

// The entries above, two banks, and a session.
fn fill_all(alloc: Global, trace: &mut Trace) -> Result<(), AllocError>
    ensures { trace.new.disks ≡ trace.old.disks }
{
    push_entries(alloc, &mut trace.control)?;
    push_banks(alloc, &mut trace.banks)?;
    push_session(alloc, &mut trace.sessions)
}

// The lines of a trace.
fn printed(alloc: Global, trace: &Trace) -> io::Result<String>
    requires { trace.now.disks ≡ [] }
{
    let mut out = MemSink::new(alloc, 2000, Row::empty(alloc))?;
    if print(alloc, trace, &mut out).is_err() {
        return Err(io::Error::other("the trace of the case is not printed"));
    }
    with_lines(alloc, "printed", out.written())
}

fn guests(alloc: Global) -> io::Result<String> {
    let mut trace = trace_of(alloc, Row::empty(alloc));
    let filled = fill_all(alloc, &mut trace);
    let printed = printed(alloc, &trace);
    drop(trace);
    filled?;
    printed
}

fn sections(alloc: Global, scenario: &str) -> io::Result<String> {
    let vcpus = vcpus_of(alloc, scenario)?;
    let trace = trace_of(alloc, vcpus);
    printed(alloc, &trace)
}

/// `trace guests`: how the trace is printed in which guests and queues make each call, and banks and sessions stand beside
/// them. `trace sections SCENARIO`: how the trace of this scenario is printed where nothing happened, with its sections of
/// vCPUs.
pub fn trace(alloc: Global, words: &str) -> io::Result<String> {
    let (name, scenario) = cut(words, ' ');
    match name {
        "guests" => guests(alloc),
        "sections" => sections(alloc, scenario),
        _ => Err(io::Error::other("the case names no trace")),
    }
}

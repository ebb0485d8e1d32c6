// The sessions of a trace.
ghost use Rattle.std.specs.Prelude.{◌≡◌, ◌≤◌, ◌++◌, IfOk, OnOk, OnErr, codes, flat_map, string_bytes};
ghost use Rattle.chv_io.specs.Outside.{Rose};
ghost use Rattle.chv_defs_base.specs.Numbers.{dec_text};
ghost use Rattle.chv_defs_scene.specs.ScriptText.{field};
ghost use Rattle.chv_defs.specs.TraceText.{pairs_or_dash, session_end_text, session_part};
ghost use Rattle.chv_trace.specs.Printing.{Adds, BreaksOff, end_line};

use crate::PrintError;
use crate::pieces::{push, push_pairs};
use chv_defs::{Bytes, SessionEnd, SessionTrace};
use chv_io::Sink;
use std::alloc::{AllocError, Global};

/// Adds the parts of sessions, one after another.
pub(crate) fn push_sessions<K: Sink>(
    alloc: Global,
    out: &mut K,
    buffer: &mut String,
    sessions: &[SessionTrace],
) -> Result<(), PrintError>
    ensures ok { OnOk result (Adds (K.written out.old) (string_bytes buffer.old) (K.written out.new) (string_bytes buffer.new) (flat_map session_part sessions.now)) }
    ensures part { OnErr result (BreaksOff (K.written out.old) (string_bytes buffer.old) (K.written out.new) (flat_map session_part sessions.now)) }
    ensures cause { result ≡ Err PrintError.Failed → Rose (K.write_faults out.old) (K.write_faults out.new) }
    ensures kept { OnOk result (K.write_faults out.new ≡ K.write_faults out.old) }
    ensures memory { result ≡ Err PrintError.Memory → K.write_faults out.new ≡ K.write_faults out.old }
    ensures later { K.write_faults out.old ≤ K.write_faults out.new }
{
    for session in sessions {
        push_session(alloc, out, buffer, session)?;
    }
    Ok(())
}

// The number and the end of a session, the bytes that it took, and the replies that were put.
fn push_session<K: Sink>(
    alloc: Global,
    out: &mut K,
    buffer: &mut String,
    session: &SessionTrace,
) -> Result<(), PrintError>
    ensures ok { OnOk result (Adds (K.written out.old) (string_bytes buffer.old) (K.written out.new) (string_bytes buffer.new) (session_part session.now)) }
    ensures part { OnErr result (BreaksOff (K.written out.old) (string_bytes buffer.old) (K.written out.new) (session_part session.now)) }
    ensures cause { result ≡ Err PrintError.Failed → Rose (K.write_faults out.old) (K.write_faults out.new) }
    ensures kept { OnOk result (K.write_faults out.new ≡ K.write_faults out.old) }
    ensures memory { result ≡ Err PrintError.Memory → K.write_faults out.new ≡ K.write_faults out.old }
    ensures later { K.write_faults out.old ≤ K.write_faults out.new }
{
    push_end(alloc, out, buffer, session)?;
    push_bytes(out, buffer, "ask ", &session.log.asked)?;
    push_bytes(out, buffer, "reply ", &session.log.replied)
}

// A line of the number and the end of a session.
fn push_end<K: Sink>(
    alloc: Global,
    out: &mut K,
    buffer: &mut String,
    session: &SessionTrace,
) -> Result<(), PrintError>
    ensures ok { OnOk result (Adds (K.written out.old) (string_bytes buffer.old) (K.written out.new) (string_bytes buffer.new) (end_line session.now)) }
    ensures part { OnErr result (BreaksOff (K.written out.old) (string_bytes buffer.old) (K.written out.new) (end_line session.now)) }
    ensures cause { result ≡ Err PrintError.Failed → Rose (K.write_faults out.old) (K.write_faults out.new) }
    ensures kept { OnOk result (K.write_faults out.new ≡ K.write_faults out.old) }
    ensures memory { result ≡ Err PrintError.Memory → K.write_faults out.new ≡ K.write_faults out.old }
    ensures later { K.write_faults out.old ≤ K.write_faults out.new }
{
    let line = end_line(alloc, session.session, session.log.end)?;
    push(out, buffer, line.as_str())
}

fn end_line(alloc: Global, number: u8, end: SessionEnd) -> Result<String, AllocError>
    ensures { IfOk result (λ line. string_bytes line ≡ codes "session" ++ field (dec_text number) ++ field (session_end_text end) ++ codes "\n") }
{
    let end = end_text(end);
    format!(in alloc; "session {number} {end}\n")
}

fn end_text(end: SessionEnd) -> &'static str
    ensures { result.now ≡ session_end_text end }
{
    match end {
        SessionEnd::Ended => "ended",
        SessionEnd::Cut => "cut",
        SessionEnd::Bad => "bad",
        SessionEnd::Closed => "closed",
        SessionEnd::Fault => "fault",
        SessionEnd::Limit => "limit",
        SessionEnd::Stopped => "stopped",
    }
}

// A line of a word and bytes.
fn push_bytes<K: Sink>(
    out: &mut K,
    buffer: &mut String,
    word: &str,
    bytes: &Bytes,
) -> Result<(), PrintError>
    ensures ok { OnOk result (Adds (K.written out.old) (string_bytes buffer.old) (K.written out.new) (string_bytes buffer.new) (word.now ++ pairs_or_dash bytes.now ++ codes "\n")) }
    ensures part { OnErr result (BreaksOff (K.written out.old) (string_bytes buffer.old) (K.written out.new) (word.now ++ pairs_or_dash bytes.now ++ codes "\n")) }
    ensures cause { result ≡ Err PrintError.Failed → Rose (K.write_faults out.old) (K.write_faults out.new) }
    ensures kept { OnOk result (K.write_faults out.new ≡ K.write_faults out.old) }
    ensures memory { result ≡ Err PrintError.Memory → K.write_faults out.new ≡ K.write_faults out.old }
    ensures later { K.write_faults out.old ≤ K.write_faults out.new }
{
    push(out, buffer, word)?;
    push_pairs(out, buffer, bytes)?;
    push(out, buffer, "\n")
}

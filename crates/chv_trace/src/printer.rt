// The printer of traces.
ghost use Rattle.std.specs.Prelude.{◌≡◌, ◌≤◌, ◌++◌, [], IfOk, OnOk, OnErr, flat_map, string_bytes};
ghost use Rattle.chv_io.specs.Outside.{Rose, Gains, GainsPart};
ghost use Rattle.chv_defs.specs.TraceText.{control_line, control_part, trace_text};
ghost use Rattle.chv_trace.specs.Printing.{Adds, BreaksOff, control_head};

use crate::PrintError;
use crate::banks::push_banks;
use crate::calls::call_text;
use crate::lines::{Line, push_lines};
use crate::pieces::{push, put_all};
use crate::replies::reply_text;
use crate::scene::push_scene;
use crate::sessions::push_sessions;
use chv_defs::{ControlEntry, Trace};
use chv_io::Sink;
use std::alloc::{AllocError, Global};

/// Puts the text of a trace into an output, piece by piece: beside one line, no more than a piece of 65,536 bytes is
/// held at a time. The scenario of the trace makes no disk here. `Memory` may come where memory is wanted, `Failed`
/// comes where the output fails; after either the output has a first part of the text.
pub fn print<K: Sink>(alloc: Global, trace: &Trace, out: &mut K) -> Result<(), PrintError>
    requires disks { trace.now.disks ≡ [] }
    ensures ok { OnOk result (Gains (K.written out.old) (K.written out.new) (trace_text trace.now)) }
    ensures part { OnErr result (GainsPart (K.written out.old) (K.written out.new) (trace_text trace.now)) }
    ensures cause { result ≡ Err PrintError.Failed → Rose (K.write_faults out.old) (K.write_faults out.new) }
    ensures kept { OnOk result (K.write_faults out.new ≡ K.write_faults out.old) }
    ensures memory { result ≡ Err PrintError.Memory → K.write_faults out.new ≡ K.write_faults out.old }
    ensures later { K.write_faults out.old ≤ K.write_faults out.new }
{
    let mut buffer = String::new(alloc);
    push_trace(alloc, out, &mut buffer, trace)?;
    put_all(out, &mut buffer)
}

fn push_trace<K: Sink>(
    alloc: Global,
    out: &mut K,
    buffer: &mut String,
    trace: &Trace,
) -> Result<(), PrintError>
    requires disks { trace.now.disks ≡ [] }
    ensures ok { OnOk result (Adds (K.written out.old) (string_bytes buffer.old) (K.written out.new) (string_bytes buffer.new) (trace_text trace.now)) }
    ensures part { OnErr result (BreaksOff (K.written out.old) (string_bytes buffer.old) (K.written out.new) (trace_text trace.now)) }
    ensures cause { result ≡ Err PrintError.Failed → Rose (K.write_faults out.old) (K.write_faults out.new) }
    ensures kept { OnOk result (K.write_faults out.new ≡ K.write_faults out.old) }
    ensures memory { result ≡ Err PrintError.Memory → K.write_faults out.new ≡ K.write_faults out.old }
    ensures later { K.write_faults out.old ≤ K.write_faults out.new }
{
    push_scene(alloc, out, buffer, trace)?;
    push_control(alloc, out, buffer, trace.control.as_slice())?;
    push_banks(alloc, out, buffer, trace.banks.as_slice())?;
    push_sessions(alloc, out, buffer, trace.sessions.as_slice())?;
    push(out, buffer, "end\n")
}

// The control book: how many entries it has, and these.
fn push_control<K: Sink>(
    alloc: Global,
    out: &mut K,
    buffer: &mut String,
    entries: &[ControlEntry],
) -> Result<(), PrintError>
    ensures ok { OnOk result (Adds (K.written out.old) (string_bytes buffer.old) (K.written out.new) (string_bytes buffer.new) (control_part entries.now)) }
    ensures part { OnErr result (BreaksOff (K.written out.old) (string_bytes buffer.old) (K.written out.new) (control_part entries.now)) }
    ensures cause { result ≡ Err PrintError.Failed → Rose (K.write_faults out.old) (K.write_faults out.new) }
    ensures kept { OnOk result (K.write_faults out.new ≡ K.write_faults out.old) }
    ensures memory { result ≡ Err PrintError.Memory → K.write_faults out.new ≡ K.write_faults out.old }
    ensures later { K.write_faults out.old ≤ K.write_faults out.new }
{
    let head = control_head(alloc, entries.len())?;
    push(out, buffer, head.as_str())?;
    push_lines(alloc, out, buffer, entries)
}

fn control_head(alloc: Global, entries: usize) -> Result<String, AllocError>
    ensures { IfOk result (λ head. string_bytes head ≡ control_head entries) }
{
    format!(in alloc; "control {entries}\n")
}

impl Line for ControlEntry {
    ghost text = { control_line };

    // The caller, the call, an arrow, the reply.
    fn line(&self, alloc: Global) -> Result<String, AllocError> {
        let caller = self.caller;
        let call = call_text(alloc, &self.call)?;
        let reply = reply_text(alloc, &self.reply)?;
        format!(in alloc; "{caller} {call} -> {reply}\n")
    }
}

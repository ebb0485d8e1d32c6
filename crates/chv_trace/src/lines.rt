// Lines, added one after another.
ghost use Rattle.std.specs.Prelude.{◌≡◌, ◌≤◌, ℕ, List, IfOk, OnOk, OnErr, flat_map, string_bytes};
ghost use Rattle.chv_io.specs.Outside.{Rose};
ghost use Rattle.chv_trace.specs.Printing.{Adds, BreaksOff};

use crate::PrintError;
use crate::pieces::push;
use chv_io::Sink;
use std::alloc::{AllocError, Global};

/// What is printed as a line.
pub(crate) trait Line {
    ghost text: { Self → List ℕ };

    /// The line, with its end.
    fn line(&self, alloc: Global) -> Result<String, AllocError>
        ensures { IfOk result (λ line. string_bytes line ≡ text self.now) };
}

/// Adds the lines of items, one after another.
pub(crate) fn push_lines<K: Sink, L: Line>(
    alloc: Global,
    out: &mut K,
    buffer: &mut String,
    items: &[L],
) -> Result<(), PrintError>
    ensures ok { OnOk result (Adds (K.written out.old) (string_bytes buffer.old) (K.written out.new) (string_bytes buffer.new) (flat_map L.text items.now)) }
    ensures part { OnErr result (BreaksOff (K.written out.old) (string_bytes buffer.old) (K.written out.new) (flat_map L.text items.now)) }
    ensures cause { result ≡ Err PrintError.Failed → Rose (K.write_faults out.old) (K.write_faults out.new) }
    ensures kept { OnOk result (K.write_faults out.new ≡ K.write_faults out.old) }
    ensures memory { result ≡ Err PrintError.Memory → K.write_faults out.new ≡ K.write_faults out.old }
    ensures later { K.write_faults out.old ≤ K.write_faults out.new }
{
    for item in items {
        push_line(alloc, out, buffer, item)?;
    }
    Ok(())
}

fn push_line<K: Sink, L: Line>(
    alloc: Global,
    out: &mut K,
    buffer: &mut String,
    item: &L,
) -> Result<(), PrintError>
    ensures ok { OnOk result (Adds (K.written out.old) (string_bytes buffer.old) (K.written out.new) (string_bytes buffer.new) (L.text item.now)) }
    ensures part { OnErr result (BreaksOff (K.written out.old) (string_bytes buffer.old) (K.written out.new) (L.text item.now)) }
    ensures cause { result ≡ Err PrintError.Failed → Rose (K.write_faults out.old) (K.write_faults out.new) }
    ensures kept { OnOk result (K.write_faults out.new ≡ K.write_faults out.old) }
    ensures memory { result ≡ Err PrintError.Memory → K.write_faults out.new ≡ K.write_faults out.old }
    ensures later { K.write_faults out.old ≤ K.write_faults out.new }
{
    let line = item.line(alloc)?;
    push(out, buffer, line.as_str())
}

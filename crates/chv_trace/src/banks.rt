// The banks of a trace.
ghost use Rattle.std.specs.Prelude.{◌≡◌, ◌≤◌, ◌++◌, IfOk, OnOk, OnErr, codes, flat_map, string_bytes};
ghost use Rattle.chv_io.specs.Outside.{Rose};
ghost use Rattle.chv_defs_base.specs.Numbers.{dec_text};
ghost use Rattle.chv_defs_scene.specs.ScriptText.{field};
ghost use Rattle.chv_defs.specs.TraceText.{bank_line, bank_part};
ghost use Rattle.chv_trace.specs.Printing.{Adds, BreaksOff, bank_head};

use crate::PrintError;
use crate::bank_texts::{call_text, reply_text};
use crate::lines::{Line, push_lines};
use crate::pieces::push;
use chv_defs::{BankEntry, BankTrace};
use chv_io::Sink;
use std::alloc::{AllocError, Global};

/// Adds the parts of banks, one after another.
pub(crate) fn push_banks<K: Sink>(
    alloc: Global,
    out: &mut K,
    buffer: &mut String,
    banks: &[BankTrace],
) -> Result<(), PrintError>
    ensures ok { OnOk result (Adds (K.written out.old) (string_bytes buffer.old) (K.written out.new) (string_bytes buffer.new) (flat_map bank_part banks.now)) }
    ensures part { OnErr result (BreaksOff (K.written out.old) (string_bytes buffer.old) (K.written out.new) (flat_map bank_part banks.now)) }
    ensures cause { result ≡ Err PrintError.Failed → Rose (K.write_faults out.old) (K.write_faults out.new) }
    ensures kept { OnOk result (K.write_faults out.new ≡ K.write_faults out.old) }
    ensures memory { result ≡ Err PrintError.Memory → K.write_faults out.new ≡ K.write_faults out.old }
    ensures later { K.write_faults out.old ≤ K.write_faults out.new }
{
    for bank in banks {
        push_bank(alloc, out, buffer, bank)?;
    }
    Ok(())
}

// The head line of a bank, and its entries.
fn push_bank<K: Sink>(
    alloc: Global,
    out: &mut K,
    buffer: &mut String,
    bank: &BankTrace,
) -> Result<(), PrintError>
    ensures ok { OnOk result (Adds (K.written out.old) (string_bytes buffer.old) (K.written out.new) (string_bytes buffer.new) (bank_part bank.now)) }
    ensures part { OnErr result (BreaksOff (K.written out.old) (string_bytes buffer.old) (K.written out.new) (bank_part bank.now)) }
    ensures cause { result ≡ Err PrintError.Failed → Rose (K.write_faults out.old) (K.write_faults out.new) }
    ensures kept { OnOk result (K.write_faults out.new ≡ K.write_faults out.old) }
    ensures memory { result ≡ Err PrintError.Memory → K.write_faults out.new ≡ K.write_faults out.old }
    ensures later { K.write_faults out.old ≤ K.write_faults out.new }
{
    push_head(alloc, out, buffer, bank)?;
    push_lines(alloc, out, buffer, bank.entries.as_slice())
}

// A line of the zone and the number of a bank, and how many entries it has.
fn push_head<K: Sink>(
    alloc: Global,
    out: &mut K,
    buffer: &mut String,
    bank: &BankTrace,
) -> Result<(), PrintError>
    ensures ok { OnOk result (Adds (K.written out.old) (string_bytes buffer.old) (K.written out.new) (string_bytes buffer.new) (bank_head bank.now)) }
    ensures part { OnErr result (BreaksOff (K.written out.old) (string_bytes buffer.old) (K.written out.new) (bank_head bank.now)) }
    ensures cause { result ≡ Err PrintError.Failed → Rose (K.write_faults out.old) (K.write_faults out.new) }
    ensures kept { OnOk result (K.write_faults out.new ≡ K.write_faults out.old) }
    ensures memory { result ≡ Err PrintError.Memory → K.write_faults out.new ≡ K.write_faults out.old }
    ensures later { K.write_faults out.old ≤ K.write_faults out.new }
{
    let line = head_line(alloc, bank.zone, bank.bank, bank.entries.len())?;
    push(out, buffer, line.as_str())
}

fn head_line(alloc: Global, zone: u8, bank: u8, entries: usize) -> Result<String, AllocError>
    ensures { IfOk result (λ line. string_bytes line ≡ codes "bank" ++ field (dec_text zone) ++ field (dec_text bank) ++ field (dec_text entries) ++ codes "\n") }
{
    format!(in alloc; "bank {zone} {bank} {entries}\n")
}

impl Line for BankEntry {
    ghost text = { bank_line };

    // The caller, the call, an arrow, the reply.
    fn line(&self, alloc: Global) -> Result<String, AllocError> {
        let caller = self.caller;
        let call = call_text(alloc, &self.call)?;
        let reply = reply_text(alloc, &self.reply)?;
        format!(in alloc; "{caller} {call} -> {reply}\n")
    }
}

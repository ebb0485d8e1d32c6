// The lines that the program writes where it does nothing else.
ghost use Rattle.std.specs.Prelude.{◌≡◌, ◌≤◌, IfOk, string_bytes};
ghost use Rattle.chv_defs.specs.ProgramText as lines;
ghost use Rattle.chv_defs.specs.TraceText as trace;
ghost use Rattle.chv_top.specs.Faultless.{WritesFaultless};
ghost use Rattle.chv_top.specs.Says.{Writes};

use crate::status::Status;
use chv_defs::{BookId, Full};
use chv_io::Sink;
use chv_scene::SceneFault;
use std::alloc::{AllocError, Global};

/// Writes a text, and says how that went: the status that is wanted, or a write fault.
pub fn write<K: Sink>(out: &mut K, text: &str, wanted: Status) -> Status
    ensures wrote { Writes (K.written out.old) (K.written out.new) (K.write_faults out.old) (K.write_faults out.new)
        text.now wanted result }
    ensures later { K.write_faults out.old ≤ K.write_faults out.new }
    ensures kept { WritesFaultless result (K.write_faults out.old) (K.write_faults out.new) }
{
    match out.put(text.as_bytes()) {
        Ok(()) => wanted,
        Err(_) => Status::WriteFault,
    }
}

/// The line for words that are none of the program's.
#[tactic(auto, unfolding(chv_defs::specs::ProgramText::usage_line))]
pub fn usage() -> &'static str
    ensures { result.now ≡ lines.usage_line }
{
    "chv: usage\n"
}

/// The line for an input that could not be read.
#[tactic(auto, unfolding(chv_defs::specs::ProgramText::read_fault_line))]
pub fn read_fault() -> &'static str
    ensures { result.now ≡ lines.read_fault_line }
{
    "chv: read fault\n"
}

/// The line for an input of more than 16,777,216 bytes.
#[tactic(auto, unfolding(chv_defs::specs::ProgramText::too_long_line))]
pub fn too_long() -> &'static str
    ensures { result.now ≡ lines.too_long_line }
{
    "chv: too long\n"
}

/// The line for a scenario that is refused.
pub fn scene_fault(alloc: Global, fault: SceneFault) -> Result<String, AllocError>
    ensures { IfOk result (λ line. string_bytes line ≡ lines.scene_fault_line fault.line fault.reason) }
{
    let line = fault.line;
    let reason = fault.reason.name();
    format!(in alloc; "chv: line {line}: {reason}\n")
}

/// The line for a book that is full.
pub fn full(alloc: Global, full: Full) -> Result<String, AllocError>
    ensures { IfOk result (λ line. string_bytes line ≡ lines.full_line full) }
{
    let book = book(alloc, full.book)?;
    let entries = full.entries;
    let bytes = full.bytes;
    format!(in alloc; "chv: full {book} {entries} {bytes}\n")
}

// The control book, or a bank by its zone and number.
fn book(alloc: Global, book: BookId) -> Result<String, AllocError>
    ensures { IfOk result (λ text. string_bytes text ≡ trace.book_text book) }
{
    match book {
        BookId::Control => String::from_str(alloc, "c"),
        BookId::Bank { zone, bank } => format!(in alloc; "{zone}.{bank}"),
    }
}

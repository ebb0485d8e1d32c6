// Contexts that are handed out and come home.
ghost use Rattle.std.specs.Prelude.{◌≡◌, ◌++◌, IfOk, codes, string_bytes};
ghost use Rattle.chv_defs_base.specs.Numbers.{dec_text};
ghost use Rattle.chv_defs_scene.specs.ScriptText.{field};
ghost use Rattle.chv_defs.specs.TraceText as text;

use crate::fields::{book_fields, book_text, flag, hex_fields};
use chv_defs::{
    BookId, ContextNote, ControlCall, CpuNote, DiskCount, HandNote, QueueFault, QueueNote, SliceEnd,
};
use std::alloc::{AllocError, Global};

/// A context: a vCPU's or a queue's.
pub(crate) fn note_text(alloc: Global, note: &ContextNote) -> Result<String, AllocError>
    ensures { IfOk result (λ shown. string_bytes shown ≡ text.note_text note.now) }
{
    match note {
        ContextNote::Cpu(cpu) => cpu_text(alloc, cpu),
        ContextNote::Queue(queue) => queue_text(alloc, queue),
    }
}

#[tactic(auto, using(crate::proofs::Joined::regrouped))]
fn cpu_text(alloc: Global, note: &CpuNote) -> Result<String, AllocError>
    ensures { IfOk result (λ shown. string_bytes shown ≡ text.note_text (ContextNote.Cpu note.now)) }
{
    let vcpu = note.vcpu;
    let pos = note.pos;
    let fuel = note.fuel;
    let halted = flag(note.halted);
    let regs = hex_fields(alloc, &note.regs)?;
    format!(in alloc; "cpu {vcpu} {pos} {fuel} {halted}{regs}")
}

fn queue_text(alloc: Global, note: &QueueNote) -> Result<String, AllocError>
    ensures { IfOk result (λ shown. string_bytes shown ≡ text.note_text (ContextNote.Queue note.now)) }
{
    let slot = note.slot;
    let last = note.last;
    let used = note.used;
    let counts = count_fields(alloc, note.counts)?;
    format!(in alloc; "slot {slot} {last} {used}{counts}")
}

// What a disk has done: requests and bytes, each after a space.
fn count_fields(alloc: Global, count: DiskCount) -> Result<String, AllocError>
    ensures { IfOk result (λ shown. string_bytes shown ≡ field (dec_text count.reads) ++ field (dec_text count.writes) ++ field (dec_text count.read_bytes) ++ field (dec_text count.write_bytes)) }
{
    let reads = count.reads;
    let writes = count.writes;
    let read_bytes = count.read_bytes;
    let write_bytes = count.write_bytes;
    format!(in alloc; " {reads} {writes} {read_bytes} {write_bytes}")
}

/// How a context comes home: its state, how its slice ended, and the books of its entries.
pub(crate) fn hand_text(alloc: Global, hand: &HandNote) -> Result<String, AllocError>
    ensures { IfOk result (λ shown. string_bytes shown ≡ text.call_text (ControlCall.Hand hand.now)) }
{
    let note = note_text(alloc, &hand.note)?;
    let end = slice_end_text(alloc, hand.end)?;
    let order = book_fields(alloc, hand.order.as_slice())?;
    format!(in alloc; "hand {note} end {end} order{order}")
}

fn slice_end_text(alloc: Global, end: SliceEnd) -> Result<String, AllocError>
    ensures { IfOk result (λ shown. string_bytes shown ≡ text.slice_end_text end) }
{
    match end {
        SliceEnd::Full => String::from_str(alloc, "full"),
        SliceEnd::Idle => String::from_str(alloc, "idle"),
        SliceEnd::Sealed { book, block, seen } => sealed_text(alloc, book, block, seen),
        SliceEnd::Broken(fault) => broken_text(alloc, fault),
        SliceEnd::Stopped => String::from_str(alloc, "stopped"),
    }
}

fn sealed_text(alloc: Global, book: BookId, block: u32, seen: u64) -> Result<String, AllocError>
    ensures { IfOk result (λ shown. string_bytes shown ≡ text.slice_end_text (SliceEnd.Sealed book block seen)) }
{
    let book = book_text(alloc, book)?;
    format!(in alloc; "sealed {book} {block} {seen}")
}

fn broken_text(alloc: Global, fault: QueueFault) -> Result<String, AllocError>
    ensures { IfOk result (λ shown. string_bytes shown ≡ codes "broken" ++ field (text.fault_text fault)) }
{
    match fault {
        QueueFault::BadIndex => String::from_str(alloc, "broken BadIndex"),
        QueueFault::Loop => String::from_str(alloc, "broken Loop"),
        QueueFault::Indirect => String::from_str(alloc, "broken Indirect"),
        QueueFault::Order => String::from_str(alloc, "broken Order"),
        QueueFault::TooLong => String::from_str(alloc, "broken TooLong"),
        QueueFault::Short => String::from_str(alloc, "broken Short"),
        QueueFault::RingClosed(addr) => format!(in alloc; "broken RingClosed 0x{addr:x}"),
        QueueFault::BufferClosed(addr) => format!(in alloc; "broken BufferClosed 0x{addr:x}"),
    }
}

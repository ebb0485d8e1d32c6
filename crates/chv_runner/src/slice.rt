// A slice of a vCPU.
ghost use Rattle.std.specs.Prelude.{◌≡◌, ◌==◌, ◌||◌, [], Some, None};
ghost use Rattle.chv_defs_guest.specs.Instruction.{CanBeRun};
ghost use Rattle.chv_defs_guest.specs.Moments.{moment};
ghost use Rattle.chv_defs_guest.specs.Slices.{IsMapOfZones, MakesSlice};
ghost use Rattle.chv_defs_guest.specs.VcpuCourse.{context_of, is_over};
ghost use Rattle.chv_defs_guest.specs.Worlds.{AccessesKeepTheDesk, AsksKeepTheReach, StaysOut};

use crate::answers::stopped;
use crate::cut::Cut;
use crate::instruction::{idle, instruct};
use chv_addr::AddrMap;
use chv_defs_api::{CpuNote, Desk, SliceEnd, StopCause};
use chv_defs_base::{BookId, Row};
use chv_defs_memory::Reach;
use chv_defs_scene::Script;
use std::alloc::Global;

/// How many instructions a slice executes at most.
const MOST_INSTRUCTIONS: usize = 64;

/// What a slice leaves, beside the note.
#[derive(Drop)]
pub struct SliceDone {
    pub end: SliceEnd,
    /// The book of each entry that it made, in order.
    pub order: Row<BookId>,
    /// Why the run stops, where a bank was full for this slice, or memory was wanted in it.
    pub cause: Option<StopCause>,
}

/// A slice of a vCPU that was taken, at a value through which its context reaches the banks and asks the control machine. It
/// executes 64 instructions, or fewer where the vCPU halts or spends its fuel, a block of its next access is sealed, or the
/// run stops. The note is left where the entries that it made have brought it. Want of memory is a cause in the answer.
pub fn vcpu_slice_on<R: Copy, W: Reach<R> + Desk<R>>(
    alloc: Global,
    rt: R,
    map: &AddrMap,
    script: &Script,
    note: &mut CpuNote,
    world: &mut W,
) -> SliceDone
    requires script { CanBeRun script.now.lines }
    requires map { IsMapOfZones map.now }
    requires lent { W.are_lent_to world.old (W.bank_caller world.old) }
    requires number { W.bank_caller world.old ≡ context_of note.old }
    requires context { W.context world.old ≡ Some (context_of note.old) }
    requires accesses_keep { AccessesKeepTheDesk W.accesses W.caller W.context W.answers W.refused }
    requires asks_keep { AsksKeepTheReach W.asks W.bank_caller W.own W.seen W.are_lent_to W.books_told }
    ensures slice { MakesSlice W.accesses W.asks map.now script.now.lines note.old
        world.old (moment (W.bank_caller world.old) (W.own world.old) (W.seen world.old) (W.answers world.old) (W.refused world.old) [] None)
        world.new (moment (W.bank_caller world.new) (W.own world.new) (W.seen world.new) (W.answers world.new) (W.refused world.new) result.order)
        note.new result.end result.cause }
    ensures out { StaysOut W.bank_caller W.are_lent_to W.books_told W.caller W.context world.old world.new }
    ensures vcpu { note.new.vcpu ≡ note.old.vcpu }
{
    let mut order = Vec::new(alloc);
    let cut = run(alloc, rt, map, script, note, world, &mut order);
    SliceDone {
        end: cut.end,
        order: Row::new(order),
        cause: cut.cause,
    }
}

// Executes the instructions of a slice, and notes the book of each entry.
fn run<R: Copy, W: Reach<R> + Desk<R>>(
    alloc: Global,
    rt: R,
    map: &AddrMap,
    script: &Script,
    note: &mut CpuNote,
    world: &mut W,
    order: &mut Vec<BookId>,
) -> Cut
    requires script { CanBeRun script.now.lines }
    requires map { IsMapOfZones map.now }
    requires lent { W.are_lent_to world.old (W.bank_caller world.old) }
    requires context { W.context world.old ≡ Some (context_of note.old) }
    requires accesses_keep { AccessesKeepTheDesk W.accesses W.caller W.context W.answers W.refused }
    requires asks_keep { AsksKeepTheReach W.asks W.bank_caller W.own W.seen W.are_lent_to W.books_told }
    ensures slice { MakesSlice W.accesses W.asks map.now script.now.lines note.old
        world.old (moment (W.bank_caller world.old) (W.own world.old) (W.seen world.old) (W.answers world.old) (W.refused world.old) order.old.items None)
        world.new (moment (W.bank_caller world.new) (W.own world.new) (W.seen world.new) (W.answers world.new) (W.refused world.new) order.new.items)
        note.new result.end result.cause }
    ensures out { StaysOut W.bank_caller W.are_lent_to W.books_told W.caller W.context world.old world.new }
    ensures vcpu { note.new.vcpu ≡ note.old.vcpu }
{
    let mut left = MOST_INSTRUCTIONS;
    while left > 0 {
        if is_over(note) {
            return idle();
        }
        match instruct(alloc, rt, map, script, note, world, order, left) {
            Ok(None) => {}
            Ok(Some(cut)) => return cut,
            Err(_) => return stopped(Some(StopCause::Memory)),
        }
        left -= 1;
    }
    if is_over(note) {
        return idle();
    }
    Cut {
        end: SliceEnd::Full,
        cause: None,
    }
}

// Whether a vCPU has halted or spent its fuel.
fn is_over(cpu: &CpuNote) -> bool
    ensures { result ≡ is_over cpu.now }
{
    cpu.halted || cpu.fuel == 0
}

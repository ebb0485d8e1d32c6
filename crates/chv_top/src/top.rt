// The public calls.
ghost use Rattle.std.specs.Prelude.{◌≡◌, ◌⊎◌, ◌≤◌, ◌↔◌, ℕ, IsTrue};
ghost use Rattle.chv_io.specs.Outside.{Rose, Gains, GainsPart};
ghost use Rattle.chv_defs.specs.ProgramText.{usage_line, read_fault_line};
ghost use Rattle.chv_defs_base.specs.declared.book.BookId.{BookId};
ghost use Rattle.chv_defs_base.specs.declared.rule.Reason.{Reason};
ghost use Rattle.chv_control.specs.Shelf.{shelf_of};
ghost use Rattle.chv_top.specs.Outcome.{IsComplete, IsFull, IsPartOfOwed, IsPlayed, IsRefused, IsTooLong, TakesAtMost};
ghost use Rattle.chv_top.specs.Faultless.{NoneRose, TellsFaults};
ghost use Rattle.chv_top.specs.Words.{ArePlay};

use crate::lines::{usage, write};
use crate::program::play_input;
use crate::status::{Ended, Status};
use chv_defs::Name;
use chv_io::{Disk, Sink, Source};
use std::alloc::Global;

/// Plays the scenario that the input is, and writes its trace. These disks stand by, each under its name. It waits for
/// nobody, and returns.
pub fn play_program<S: Source, K: Sink, D: Disk + Drop>(
    alloc: Global,
    input: &mut S,
    out: &mut K,
    disks: Vec<(Name, D)>,
) -> Ended<D>
    ensures done { result.status ≡ Status.Done → IsPlayed (shelf_of D.sector_count disks.items) (S.left input.old)
        (S.left input.new) (K.written out.old) (K.written out.new) }

    // Each other status has its cause.
    ensures usage { result.status ≡ Status.Usage → ⊥ }
    ensures scene { (line : ℕ) (reason : Reason) → result.status ≡ Status.Scene line reason
        → IsRefused (S.left input.old) (S.left input.new) (K.written out.old) (K.written out.new) line reason }
    ensures full { (book : BookId) (entries bytes : ℕ) → result.status ≡ Status.Full book entries bytes
        → IsFull (shelf_of D.sector_count disks.items) (S.left input.old) (S.left input.new) (K.written out.old)
        (K.written out.new) (record { book = book; entries = entries; bytes = bytes }) }
    ensures too_long { (bytes : ℕ) → result.status ≡ Status.TooLong bytes
        → (bytes ≡ 16777217) × IsTooLong (S.left input.old) (K.written out.old) (K.written out.new) }
    ensures read_fault { result.status ≡ Status.ReadFault → Rose (S.read_faults input.old) (S.read_faults input.new)
        × Gains (K.written out.old) (K.written out.new) read_fault_line }
    ensures write_fault { result.status ≡ Status.WriteFault → Rose (K.write_faults out.old) (K.write_faults out.new)
        × IsPartOfOwed (shelf_of D.sector_count disks.items) (S.left input.old) (S.read_faults input.old)
        (S.read_faults input.new) (K.written out.old) (K.written out.new) }
    ensures memory { result.status ≡ Status.Memory → (K.written out.new ≡ K.written out.old)
        ⊎ IsPartOfOwed (shelf_of D.sector_count disks.items) (S.left input.old) (S.read_faults input.old)
        (S.read_faults input.new) (K.written out.old) (K.written out.new) }

    // The status is that of what the input comes to, unless a fault or want of memory comes.
    ensures complete { IsComplete (shelf_of D.sector_count disks.items) (S.left input.old) (S.read_faults input.old)
        (S.read_faults input.new) (K.write_faults out.old) (K.write_faults out.new) result.status }

    // A fault is told as a fault: where the work is done, or memory was wanting, no count of faults rose, nor at any other
    // status that tells of none.
    ensures done_faultless { result.status ≡ Status.Done → NoneRose (S.read_faults input.old)
        (S.read_faults input.new) (K.write_faults out.old) (K.write_faults out.new) }
    ensures memory_faultless { result.status ≡ Status.Memory → NoneRose (S.read_faults input.old)
        (S.read_faults input.new) (K.write_faults out.old) (K.write_faults out.new) }
    ensures faults { TellsFaults result.status (S.read_faults input.old) (S.read_faults input.new)
        (K.write_faults out.old) (K.write_faults out.new) }

    // The disks come back. No more is read than shows that an input is too long, and no count of faults falls.
    ensures disks { result.disks.items ≡ disks.items }
    ensures few { TakesAtMost (S.left input.old) (S.left input.new) 16777217 }
    ensures reads { S.read_faults input.old ≤ S.read_faults input.new }
    ensures writes { K.write_faults out.old ≤ K.write_faults out.new }
{
    play_input(alloc, input, out, disks)
}

/// Does what the words of the command line ask for, over this input and output. These disks stand by, each under its
/// name; `main` hands in none.
pub fn run_program<S: Source, K: Sink, D: Disk + Drop>(
    alloc: Global,
    words: &[String],
    input: &mut S,
    out: &mut K,
    disks: Vec<(Name, D)>,
) -> Ended<D>
    ensures done { result.status ≡ Status.Done → ArePlay words.now
        × IsPlayed (shelf_of D.sector_count disks.items) (S.left input.old) (S.left input.new) (K.written out.old)
        (K.written out.new) }

    // Each other status has its cause. Where the words are none of the program's, nothing is read.
    ensures usage { result.status ≡ Status.Usage
        → (ArePlay words.now → ⊥) × Gains (K.written out.old) (K.written out.new) usage_line }
    ensures other_words { (ArePlay words.now → ⊥)
        → (input.new ≡ input.old) × ((result.status ≡ Status.Usage) ⊎ (result.status ≡ Status.WriteFault)) }
    ensures scene { (line : ℕ) (reason : Reason) → result.status ≡ Status.Scene line reason → ArePlay words.now
        × IsRefused (S.left input.old) (S.left input.new) (K.written out.old) (K.written out.new) line reason }
    ensures full { (book : BookId) (entries bytes : ℕ) → result.status ≡ Status.Full book entries bytes → ArePlay words.now
        × IsFull (shelf_of D.sector_count disks.items) (S.left input.old) (S.left input.new) (K.written out.old)
        (K.written out.new) (record { book = book; entries = entries; bytes = bytes }) }
    ensures too_long { (bytes : ℕ) → result.status ≡ Status.TooLong bytes → ArePlay words.now
        × ((bytes ≡ 16777217) × IsTooLong (S.left input.old) (K.written out.old) (K.written out.new)) }
    ensures read_fault { result.status ≡ Status.ReadFault → ArePlay words.now
        × (Rose (S.read_faults input.old) (S.read_faults input.new)
        × Gains (K.written out.old) (K.written out.new) read_fault_line) }
    ensures write_fault { result.status ≡ Status.WriteFault → Rose (K.write_faults out.old) (K.write_faults out.new) }
    ensures part_of_line { result.status ≡ Status.WriteFault → (ArePlay words.now → ⊥)
        → GainsPart (K.written out.old) (K.written out.new) usage_line }
    ensures part_of_owed { result.status ≡ Status.WriteFault → ArePlay words.now
        → IsPartOfOwed (shelf_of D.sector_count disks.items) (S.left input.old) (S.read_faults input.old)
        (S.read_faults input.new) (K.written out.old) (K.written out.new) }
    ensures memory { result.status ≡ Status.Memory → ArePlay words.now
        × ((K.written out.new ≡ K.written out.old)
        ⊎ IsPartOfOwed (shelf_of D.sector_count disks.items) (S.left input.old) (S.read_faults input.old)
        (S.read_faults input.new) (K.written out.old) (K.written out.new)) }

    // The status is that of what the input comes to, unless a fault or want of memory comes.
    ensures complete { ArePlay words.now
        → IsComplete (shelf_of D.sector_count disks.items) (S.left input.old) (S.read_faults input.old)
        (S.read_faults input.new) (K.write_faults out.old) (K.write_faults out.new) result.status }

    // A fault is told as a fault: where the work is done, or memory was wanting, no count of faults rose, nor at any other
    // status that tells of none.
    ensures done_faultless { result.status ≡ Status.Done → NoneRose (S.read_faults input.old)
        (S.read_faults input.new) (K.write_faults out.old) (K.write_faults out.new) }
    ensures memory_faultless { result.status ≡ Status.Memory → NoneRose (S.read_faults input.old)
        (S.read_faults input.new) (K.write_faults out.old) (K.write_faults out.new) }
    ensures faults { TellsFaults result.status (S.read_faults input.old) (S.read_faults input.new)
        (K.write_faults out.old) (K.write_faults out.new) }

    // The disks come back. No more is read than shows that an input is too long, and no count of faults falls.
    ensures disks { result.disks.items ≡ disks.items }
    ensures few { TakesAtMost (S.left input.old) (S.left input.new) 16777217 }
    ensures reads { S.read_faults input.old ≤ S.read_faults input.new }
    ensures writes { K.write_faults out.old ≤ K.write_faults out.new }
{
    if are_play(words) {
        play_program(alloc, input, out, disks)
    } else {
        Ended {
            status: write(out, usage(), Status::Usage),
            disks,
        }
    }
}

// Whether the words are the one word `play`.
fn are_play(words: &[String]) -> bool
    ensures { IsTrue result ↔ ArePlay words.now }
{
    match words {
        [word] => word.as_str() == "play",
        _ => false,
    }
}

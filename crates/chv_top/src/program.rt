// The program's calls.
ghost use Rattle.std.specs.Prelude.{◌≡◌, ◌≤◌, ◌<◌, true, false, List, Result, Ok, Err, IfOk, IfErr, IfSome, OnOk, MatchResult, length};
ghost use Rattle.chv_defs_api.specs.declared.shelf.OnShelf.{OnShelf};
ghost use Rattle.chv_defs_base.specs.declared.book.Full as defs_full;
ghost use Rattle.chv_defs.specs.declared.trace.Trace as defs_trace;
ghost use Rattle.chv_defs.specs.Schedule.{schedule};
ghost use Rattle.chv_control.specs.Shelf.{sectors_of, shelf_of};
ghost use Rattle.chv_play.specs.Played.{Comes};
ghost use Rattle.chv_top.specs.Faultless.{StopsFaultless, TellsFaults, WritesFaultless};
ghost use Rattle.chv_top.specs.Outcome.{TakesAtMost};
ghost use Rattle.chv_top.specs.Says.{IsPlain, IsScene, Reports, ReportsFull, ReportsTrace, Says, StopsBy, Tells};

use crate::disks::{given, handed_back};
use crate::input::{InputError, read_input};
use crate::lines::{full, read_fault, scene_fault, too_long, write};
use crate::status::{Ended, Status};
use chv_control::Start;
use chv_defs::{Asked, Full, Name, Row, Scene, StopCause, Trace};
use chv_guest::LentBanks;
use chv_io::{Disk, Sink, Source};
use chv_play::{Played, play};
use chv_scene::SceneFault;
use chv_store::AnyDisk;
use chv_trace::{PrintError, print};
use std::alloc::{AllocError, Global};

/// The most bytes that an input has.
const MOST_INPUT: usize = 16_777_216;

/// How many bytes are read at most: the one beyond `MOST_INPUT` shows that an input is longer.
const INPUT_LIMIT: usize = MOST_INPUT + 1;

/// The status of an input that is too long: so many bytes of it were read.
const TOO_LONG: Status = Status::TooLong {
    bytes: INPUT_LIMIT as u64,
};

/// Why nothing is played.
#[derive(Clone, Copy, PartialEq, Eq)]
pub enum Stop {
    Memory,
    ReadFault,
    TooLong,
    /// The input is no scenario.
    Scene(SceneFault),
}

/// Plays the scenario that the input is, and writes its trace, or the line that says why there is none.
pub fn play_input<S: Source, K: Sink, D: Disk + Drop>(
    alloc: Global,
    input: &mut S,
    out: &mut K,
    disks: Vec<(Name, D)>,
) -> Ended<D>
    ensures says { Says (shelf_of D.sector_count disks.items) (S.left input.old) (S.left input.new) (S.read_faults input.old)
        (S.read_faults input.new) (K.written out.old) (K.written out.new) (K.write_faults out.old) (K.write_faults out.new)
        result.status }
    ensures disks { result.disks.items ≡ disks.items }
    ensures few { TakesAtMost (S.left input.old) (S.left input.new) 16777217 }
    ensures reads { S.read_faults input.old ≤ S.read_faults input.new }
    ensures writes { K.write_faults out.old ≤ K.write_faults out.new }
    ensures faults { TellsFaults result.status (S.read_faults input.old) (S.read_faults input.new)
        (K.write_faults out.old) (K.write_faults out.new) }
{
    match scene_in(alloc, input) {
        Ok(scene) => play_scene(alloc, out, disks, &scene),
        Err(stop) => Ended {
            status: say(alloc, out, stop),
            disks,
        },
    }
}

// The scenario that the input is.
fn scene_in<S: Source>(alloc: Global, input: &mut S) -> Result<Scene, Stop>
    ensures ok { IfOk result (λ scene. IsScene (S.left input.old) (S.left input.new) scene) }
    ensures err { IfErr result (λ stop. StopsBy (S.left input.old) (S.left input.new) (S.read_faults input.old) (S.read_faults input.new) stop) }
    ensures few { TakesAtMost (S.left input.old) (S.left input.new) 16777217 }
    ensures later { S.read_faults input.old ≤ S.read_faults input.new }
    ensures kept { OnOk result (S.read_faults input.new ≡ S.read_faults input.old) }
    ensures counts { IfErr result (λ stop. StopsFaultless stop (S.read_faults input.old) (S.read_faults input.new)) }
{
    let text = match read_input(alloc, input, INPUT_LIMIT) {
        Ok(text) => text,
        Err(InputError::Memory) => return Err(Stop::Memory),
        Err(InputError::ReadFault) => return Err(Stop::ReadFault),
    };
    if is_too_long(text.len()) {
        return Err(Stop::TooLong);
    }
    or_stop(chv_scene::read_played(alloc, text.as_slice()))
}

// Whether an input of so many bytes is too long.
fn is_too_long(count: usize) -> bool
    ensures long { result ≡ true → 16777216 < count }
    ensures short { result ≡ false → count ≤ 16777216 }
{
    count > MOST_INPUT
}

// What was read, or why nothing is played.
fn or_stop<T: Drop>(read: Result<Result<T, SceneFault>, AllocError>) -> Result<T, Stop>
    ensures { MatchResult read (λ answer. MatchResult answer (λ scene. result ≡ Ok scene) (λ fault. result ≡ Err (Stop.Scene fault)))
        (λ _. result ≡ Err Stop.Memory) }
{
    match read {
        Ok(Ok(scene)) => Ok(scene),
        Ok(Err(fault)) => Err(Stop::Scene(fault)),
        Err(_) => Err(Stop::Memory),
    }
}

// Writes the line that says why nothing is played.
fn say<K: Sink>(alloc: Global, out: &mut K, stop: Stop) -> Status
    ensures said { Tells (K.written out.old) (K.written out.new) (K.write_faults out.old) (K.write_faults out.new) stop result }
    ensures later { K.write_faults out.old ≤ K.write_faults out.new }
    ensures kept { WritesFaultless result (K.write_faults out.old) (K.write_faults out.new) }
{
    match stop {
        Stop::Memory => Status::Memory,
        Stop::ReadFault => write(out, read_fault(), Status::ReadFault),
        Stop::TooLong => write(out, too_long(), TOO_LONG),
        Stop::Scene(fault) => say_fault(alloc, out, fault),
    }
}

fn say_fault<K: Sink>(alloc: Global, out: &mut K, fault: SceneFault) -> Status
    ensures said { Tells (K.written out.old) (K.written out.new) (K.write_faults out.old) (K.write_faults out.new)
        (Stop.Scene fault) result }
    ensures later { K.write_faults out.old ≤ K.write_faults out.new }
    ensures kept { WritesFaultless result (K.write_faults out.old) (K.write_faults out.new) }
{
    match scene_fault(alloc, fault) {
        Ok(line) => write(
            out,
            line.as_str(),
            Status::Scene {
                line: fault.line,
                reason: fault.reason,
            },
        ),
        Err(_) => Status::Memory,
    }
}

// Plays a scenario, and writes its trace, or the line of the book that is full.
fn play_scene<K: Sink, D: Disk + Drop>(
    alloc: Global,
    out: &mut K,
    disks: Vec<(Name, D)>,
    scene: &Scene,
) -> Ended<D>
    requires few { length scene.now.sessions ≤ 16 }
    ensures reports { Reports (shelf_of D.sector_count disks.items) (schedule (shelf_of D.sector_count disks.items) scene.now.sessions)
        (K.written out.old) (K.written out.new) (K.write_faults out.old) (K.write_faults out.new) result.status }
    ensures disks { result.disks.items ≡ disks.items }
    ensures later { K.write_faults out.old ≤ K.write_faults out.new }
    ensures kept { WritesFaultless result.status (K.write_faults out.old) (K.write_faults out.new) }
{
    let (disks, back) = match given(alloc, disks) {
        Ok(both) => both,
        Err(disks) => {
            return Ended {
                status: Status::Memory,
                disks,
            };
        }
    };
    let played = play_sessions(alloc, disks, scene.sessions.as_slice());
    Ended {
        status: report(alloc, out, played.trace, played.cause),
        disks: handed_back(played.disks, back),
    }
}

// Plays sessions over banks to which nothing happened yet.
fn play_sessions<D: Disk + Drop>(
    alloc: Global,
    disks: Vec<(Name, AnyDisk<D>)>,
    sessions: &[Row<Asked>],
) -> Played<D>
    requires few { length sessions.now ≤ 16 }
    ensures comes { Comes (shelf_of (sectors_of D.sector_count) disks.items)
        (schedule (shelf_of (sectors_of D.sector_count) disks.items) sessions.now) result.trace result.cause }
    ensures disks { result.disks.items ≡ disks.items }
{
    let Ok(zones) = LentBanks::new(alloc) else {
        return Played {
            trace: None,
            cause: Some(StopCause::Memory),
            disks,
        };
    };
    let start = Start {
        disks,
        zones,
        sessions: sessions.len() as u32,
    };
    play(alloc, start, sessions)
}

// Writes a trace, or the line of the book that is full.
fn report<K: Sink>(
    alloc: Global,
    out: &mut K,
    trace: Option<Trace>,
    cause: Option<StopCause>,
) -> Status
    requires plain { IfSome trace (λ trace. IsPlain trace) }
    ensures reports { (shelf : List OnShelf) (given : Result defs_trace.Trace defs_full.Full) → Comes shelf given trace cause
        → Reports shelf given (K.written out.old) (K.written out.new) (K.write_faults out.old) (K.write_faults out.new) result }
    ensures later { K.write_faults out.old ≤ K.write_faults out.new }
    ensures kept { WritesFaultless result (K.write_faults out.old) (K.write_faults out.new) }
{
    match (trace, cause) {
        (Some(trace), None) => report_trace(alloc, out, &trace),
        (None, Some(StopCause::Full(book))) => report_full(alloc, out, book),
        _ => Status::Memory,
    }
}

// Writes a trace.
fn report_trace<K: Sink>(alloc: Global, out: &mut K, trace: &Trace) -> Status
    requires plain { IsPlain trace.now }
    ensures reports { ReportsTrace trace.now (K.written out.old) (K.written out.new) (K.write_faults out.old) (K.write_faults out.new) result }
    ensures later { K.write_faults out.old ≤ K.write_faults out.new }
    ensures kept { WritesFaultless result (K.write_faults out.old) (K.write_faults out.new) }
{
    match print(alloc, trace, out) {
        Ok(()) => Status::Done,
        Err(PrintError::Memory) => Status::Memory,
        Err(PrintError::Failed) => Status::WriteFault,
    }
}

// Writes the line of a book that is full.
fn report_full<K: Sink>(alloc: Global, out: &mut K, book: Full) -> Status
    ensures reports { ReportsFull book (K.written out.old) (K.written out.new) (K.write_faults out.old) (K.write_faults out.new) result }
    ensures later { K.write_faults out.old ≤ K.write_faults out.new }
    ensures kept { WritesFaultless result (K.write_faults out.old) (K.write_faults out.new) }
{
    match full(alloc, book) {
        Ok(line) => write(
            out,
            line.as_str(),
            Status::Full {
                book: book.book,
                entries: book.entries,
                bytes: book.bytes,
            },
        ),
        Err(_) => Status::Memory,
    }
}

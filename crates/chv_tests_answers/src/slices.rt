// Slices of a vCPU (`chv_runner`).
ghost use Rattle.std.specs.Prelude.{◌≡◌, ℕ, [], ◌∷◌, false, true, IfOk};
ghost use Rattle.chv_defs_guest.specs.Instruction.{CanBeRun};
ghost use Rattle.chv_defs_guest.specs.Slices.{IsMapOfZones};
ghost use Rattle.chv_defs_memory.specs.BankState.{is_frozen};
ghost use Rattle.chv_defs_memory.specs.Lending.{is_in};
ghost use Rattle.chv_defs_memory.specs.Zones.{IsBank, OtherBanksStay, OtherZonesStay};
ghost use Rattle.chv_defs_memory.specs.declared.bank.BankCall.TheVariants as call;
ghost use Rattle.chv_defs_memory.specs.declared.bank.BankReply.TheVariants as reply;
ghost use Rattle.chv_guest.specs.LentBanks.{fresh_banks, fresh_zones, known_at};

use crate::answers::allocated;
use crate::routes::map_of;
use crate::steps::{cpu_of, script_of, with_state};
use crate::words::cut;
use chv_addr::AddrMap;
use chv_defs_api::{ControlCall, ControlReply, CpuNote, Desk, SliceEnd, Stopped};
use chv_defs_base::BookId;
use chv_defs_memory::{BankCall, Lends, Zones};
use chv_defs_scene::Script;
use chv_guest::LentBanks;
use chv_runner::{SliceDone, vcpu_slice};
use std::alloc::{AllocError, Global};
use std::io;

/// How many blocks of zone 0 are open: 512 MiB.
const OPEN_BLOCKS: u32 = 256;

/// The context of vCPU 0, as which it calls on banks.
const CONTEXT: u32 = 1;

// A desk of vCPU 0's runner at which memory is wanting for each call.
#[derive(Drop)]
struct WantingDesk;

impl Desk<()> for WantingDesk {
    ghost use Rattle.std.specs.Prelude.{◌≡◌, [], Some, None};

    ghost caller = { λ _. 17 };

    ghost context = { λ _. Some 1 };

    ghost answers = { λ _. [] };

    ghost refused = { λ _. None };

    ghost asks = { λ before call after. after ≡ before };

    fn ask(
        &mut self,
        _rt: (),
        _call: &ControlCall,
    ) -> Result<Result<ControlReply, Stopped>, AllocError> {
        Err(AllocError)
    }
}

/// `slice BODY FUEL REGISTERS LINES`: how the first slice of vCPU 0 ends that has this script, in a machine of the configuration in
/// a body of which the first 256 blocks of zone 0 are open, and the books of its entries; then its state. A register access finds
/// memory wanting.
pub fn slice(alloc: Global, words: &str) -> io::Result<String> {
    let (body, behind) = cut(words, ' ');
    let (fuel, behind) = cut(behind, ' ');
    let (registers, lines) = cut(behind, ' ');
    let mut cpu = cpu_of("0", fuel, registers)?;
    let map = map_of(alloc, body)?;
    let script = script_of(alloc, lines)?;
    let shown = made(alloc, &map, &script, &mut cpu);
    drop(script);
    drop(map);
    allocated(shown)
}

fn made(
    alloc: Global,
    map: &AddrMap,
    script: &Script,
    cpu: &mut CpuNote,
) -> Result<String, AllocError>
    requires script { CanBeRun script.now.lines }
    requires map { IsMapOfZones map.now }
{
    cpu.vcpu = 0;
    let mut zones = lent_banks(alloc)?;
    let done = slice_of(alloc, map, script, cpu, &mut zones);
    drop(zones);
    let shown = done_text(alloc, &done);
    drop(done);
    with_state(shown?, cpu)
}

fn slice_of(
    alloc: Global,
    map: &AddrMap,
    script: &Script,
    cpu: &mut CpuNote,
    zones: &mut LentBanks,
) -> SliceDone
    requires script { CanBeRun script.now.lines }
    requires map { IsMapOfZones map.now }
    requires vcpu { cpu.old.vcpu ≡ 0 }
    requires lent { is_in CONTEXT zones.old.lent ≡ true }
{
    let mut reach = zones.as_caller(CONTEXT);
    let mut desk = WantingDesk;
    vcpu_slice(alloc, (), map, script, cpu, &mut reach, &mut desk)
}

// Banks that are lent to vCPU 0's context, and of which the first 256 blocks of zone 0 are open.
fn lent_banks(alloc: Global) -> Result<LentBanks, AllocError>
    ensures { IfOk result (λ zones. is_in CONTEXT zones.lent ≡ true) }
{
    let mut zones = LentBanks::new(alloc)?;
    open_blocks(&mut zones)?;
    let mut passes = ();
    zones.lend(CONTEXT, &mut passes);
    Ok(zones)
}

// Opens blocks in banks to which nothing happened yet.
fn open_blocks(zones: &mut LentBanks) -> Result<(), AllocError>
    requires { zones.old ≡ fresh_zones }
    ensures home { zones.new.lent ≡ [] }
    ensures thawed { IfOk result (λ _. (zone bank : ℕ) → IsBank zone bank → is_frozen (known_at zones.new.books zone bank).history ≡ false) }
{
    if has_room(zones)? {
        shape(zones);
        return Ok(());
    }
    Err(AllocError)
}

// Makes room for an entry in zone 0.
fn has_room(zones: &mut LentBanks) -> Result<bool, AllocError>
    requires { zones.old ≡ fresh_zones }
    ensures made { IfOk result (λ made. made ≡ true → known_at zones.new.books 0 0 ≡ record { history = []; entries = 1; pages = 0 }) }
    ensures home { zones.new.lent ≡ [] }
    ensures others { OtherZonesStay (known_at fresh_banks) (known_at zones.new.books) 0 }
{
    Ok(zones.room((), 0, 1, 0)?.is_ok())
}

// Opens the blocks, for which there is room.
fn shape(zones: &mut LentBanks)
    requires home { zones.old.lent ≡ [] }
    requires room { known_at zones.old.books 0 0 ≡ record { history = []; entries = 1; pages = 0 } }
    ensures home { zones.new.lent ≡ [] }
    ensures shaped { (known_at zones.new.books 0 0).history ≡ record { caller = 0; call = call.Shape OPEN_BLOCKS; reply = reply.Done } ∷ [] }
    ensures others { OtherBanksStay (known_at zones.old.books) (known_at zones.new.books) 0 0 }
{
    zones.owner((), 0, 0, &BankCall::Shape(OPEN_BLOCKS));
}

// How a slice ended, and the books of its entries.
fn done_text(alloc: Global, done: &SliceDone) -> Result<String, AllocError> {
    let mut text = String::from_str(alloc, end_word(&done.end))?;
    for book in done.order.as_slice() {
        push_book(&mut text, book)?;
    }
    Ok(text)
}

fn end_word(end: &SliceEnd) -> &'static str {
    match end {
        SliceEnd::Full => "full",
        SliceEnd::Idle => "idle",
        SliceEnd::Sealed { .. } => "sealed",
        SliceEnd::Broken(_) => "broken",
        SliceEnd::Stopped => "stopped",
    }
}

fn push_book(text: &mut String, book: &BookId) -> Result<(), AllocError> {
    match book {
        BookId::Control => text.push_str(" c"),
        BookId::Bank { zone, bank } => write!(text, " {zone}.{bank}"),
    }
}

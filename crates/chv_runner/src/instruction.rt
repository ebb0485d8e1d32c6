// One instruction of a slice, with the call that it makes.
ghost use Rattle.std.specs.Prelude.{◌≡◌, ◌<◌, ◌-◌, ◌^◌, true, false, Some, None, IfOk, OnErr, vec_len};
ghost use Rattle.std.specs.Vec.{vec_capacity};
ghost use Rattle.chv_defs_api.specs.Registers.{IsRegAccess};
ghost use Rattle.chv_defs_api.specs.declared.context.CpuNote.{CpuNote};
ghost use Rattle.chv_defs_api.specs.declared.context.SliceEnd.TheVariants as end;
ghost use Rattle.chv_defs_api.specs.declared.control.ControlCall.TheVariants as call;
ghost use Rattle.chv_defs_memory.specs.BankState.{is_owner_call, IsCall};
ghost use Rattle.chv_defs_memory.specs.Zones.{IsBank};
ghost use Rattle.chv_defs_guest.specs.declared.want.Got.{Got};
ghost use Rattle.chv_defs_guest.specs.Course.{Accesses, Asks, Course};
ghost use Rattle.chv_defs_guest.specs.Instruction.{is_asking, settled, CanBeRun, CanSettle, CanStep};
ghost use Rattle.chv_defs_guest.specs.Moments.{moment};
ghost use Rattle.chv_defs_guest.specs.Pieces.{has_width, CanBeMade};
ghost use Rattle.chv_defs_guest.specs.Routing.{bank_call_of, piece_of, route_of, width_of};
ghost use Rattle.chv_defs_guest.specs.Slices.{IsMapOfZones};
ghost use Rattle.chv_defs_guest.specs.VcpuCourse.{behind_access, behind_ask, context_of, instruction_course, on_or_end, piece_course};
ghost use Rattle.chv_defs_guest.specs.Worlds.{AccessesKeepTheDesk, AsksKeepTheReach, Does, StaysOut};
ghost use Rattle.chv_runner.specs.Cuts.{end_of, why_of, GivesWidth};

use crate::answers::{behind_access, behind_ask, settle_with};
use crate::calls::{access, ask};
use crate::cut::Cut;
use chv_addr::AddrMap;
use chv_bus::route;
use chv_defs_api::{ControlCall, CpuNote, Desk, RegAccess, SliceEnd};
use chv_defs_base::{BookId, Bytes};
use chv_defs_guest::{Got, Route, Want};
use chv_defs_memory::{BANKS, BankCall, Reach};
use chv_defs_scene::Script;
use chv_vcpu::step;
use std::alloc::{AllocError, Global};

/// One instruction, or the halt behind the last line, of a slice that has so many instructions left, this one among them. None
/// where the slice goes on. Where memory is wanted for a call before it is made, nothing has changed.
pub(crate) fn instruct<R: Copy, W: Reach<R> + Desk<R>>(
    alloc: Global,
    rt: R,
    map: &AddrMap,
    script: &Script,
    cpu: &mut CpuNote,
    world: &mut W,
    order: &mut Vec<BookId>,
    left: usize,
) -> Result<Option<Cut>, AllocError>
    requires can { CanStep cpu.old }
    requires script { CanBeRun script.now.lines }
    requires map { IsMapOfZones map.now }
    requires left { 0 < left }
    requires lent { W.are_lent_to world.old (W.bank_caller world.old) }
    requires context { W.context world.old ≡ Some (context_of cpu.old) }
    requires accesses_keep { AccessesKeepTheDesk W.accesses W.caller W.context W.answers W.refused }
    requires asks_keep { AsksKeepTheReach W.asks W.bank_caller W.own W.seen W.are_lent_to W.books_told }
    ensures does { IfOk result (λ cut. (on : CpuNote → Course CpuNote) → Does W.accesses W.asks (instruction_course map.now script.now.lines on cpu.old)
        world.old (moment (W.bank_caller world.old) (W.own world.old) (W.seen world.old) (W.answers world.old) (W.refused world.old) order.old.items None)
        world.new (moment (W.bank_caller world.new) (W.own world.new) (W.seen world.new) (W.answers world.new) (W.refused world.new) order.new.items (why_of cut))
        (on_or_end on cpu.new (end_of cut))) }
    ensures err { OnErr result ((cpu.new ≡ cpu.old) × (world.new ≡ world.old) × (order.new.items ≡ order.old.items)) }
    ensures out { StaysOut W.bank_caller W.are_lent_to W.books_told W.caller W.context world.old world.new }
    ensures vcpu { cpu.new.vcpu ≡ cpu.old.vcpu }
{
    let want = step(alloc, cpu, script)?;
    match want {
        Want::Nothing => Ok(None),
        Want::Halted => Ok(Some(idle())),
        want => {
            order.reserve(left)?;
            Ok(get(alloc, rt, map, cpu, want, world, order))
        }
    }
}

// The end of a slice behind which there is nothing to do.
pub(crate) fn idle() -> Cut
    ensures end { result.end ≡ end.Idle }
    ensures cause { result.cause ≡ None }
{
    Cut {
        end: SliceEnd::Idle,
        cause: None,
    }
}

// Gets an instruction what it asks for.
fn get<R: Copy, W: Reach<R> + Desk<R>>(
    alloc: Global,
    rt: R,
    map: &AddrMap,
    cpu: &mut CpuNote,
    want: Want,
    world: &mut W,
    order: &mut Vec<BookId>,
) -> Option<Cut>
    requires asking { is_asking want ≡ true }
    requires can { CanSettle want cpu.old }
    requires width { has_width want ≡ true }
    requires made { CanBeMade want (piece_of want (route_of map.now want)) }
    requires room { vec_len order.old < vec_capacity order.old }
    requires lent { W.are_lent_to world.old (W.bank_caller world.old) }
    requires context { W.context world.old ≡ Some (context_of cpu.old) }
    requires accesses_keep { AccessesKeepTheDesk W.accesses W.caller W.context W.answers W.refused }
    requires asks_keep { AsksKeepTheReach W.asks W.bank_caller W.own W.seen W.are_lent_to W.books_told }
    ensures does { (on : CpuNote → Course CpuNote) → Does W.accesses W.asks (piece_course on cpu.old want (piece_of want (route_of map.now want)))
        world.old (moment (W.bank_caller world.old) (W.own world.old) (W.seen world.old) (W.answers world.old) (W.refused world.old) order.old.items None)
        world.new (moment (W.bank_caller world.new) (W.own world.new) (W.seen world.new) (W.answers world.new) (W.refused world.new) order.new.items (why_of result))
        (on_or_end on cpu.new (end_of result)) }
    ensures out { StaysOut W.bank_caller W.are_lent_to W.books_told W.caller W.context world.old world.new }
    ensures vcpu { cpu.new.vcpu ≡ cpu.old.vcpu }
{
    match route(map, &want) {
        Route::Ram {
            zone,
            block,
            offset,
        } => {
            let bank = (block % BANKS as u32) as u8;
            let (call, rest) = bank_call(alloc, want, block, offset);
            in_bank(rt, cpu, &rest, world, order, zone, bank, &call)
        }
        Route::Control(made) => at_control(rt, cpu, &want, world, order, made),
        Route::Ones => known(cpu, &want, Got::Value(all_ones(&want))),
        Route::Drop => known(cpu, &want, Got::Done),
        Route::Bad => known(cpu, &want, Got::Fault),
    }
}

// The call in the bank of a block, and what is left to settle behind it, without the bytes of a store.
fn bank_call(alloc: Global, want: Want, block: u32, offset: u32) -> (BankCall, Want)
    ensures call { result.0 ≡ bank_call_of want block offset }
    ensures settles { (cpu : CpuNote) (got : Got) → settled cpu result.1 got ≡ settled cpu want got }
    ensures can { (cpu : CpuNote) → CanSettle want cpu → CanSettle result.1 cpu }
{
    match want {
        Want::Load { addr, width, reg } => (
            BankCall::Read {
                block,
                offset,
                len: width as u32,
            },
            Want::Load { addr, width, reg },
        ),
        Want::Store { addr, bytes, put } => (
            BankCall::Write {
                block,
                offset,
                bytes,
            },
            Want::Store {
                addr,
                bytes: Bytes::new(Vec::new(alloc)),
                put,
            },
        ),
        other => (
            BankCall::Read {
                block,
                offset,
                len: 0,
            },
            other,
        ),
    }
}

// An instruction whose access goes to a bank.
fn in_bank<R: Copy, W: Reach<R> + Desk<R>>(
    rt: R,
    cpu: &mut CpuNote,
    want: &Want,
    world: &mut W,
    order: &mut Vec<BookId>,
    zone: u8,
    bank: u8,
    call: &BankCall,
) -> Option<Cut>
    requires can { CanSettle want.now cpu.old }
    requires width { GivesWidth call.now }
    requires bank { IsBank zone bank }
    requires call { IsCall bank call.now }
    requires access { is_owner_call call.now ≡ false }
    requires room { vec_len order.old < vec_capacity order.old }
    requires lent { W.are_lent_to world.old (W.bank_caller world.old) }
    requires keeps { AccessesKeepTheDesk W.accesses W.caller W.context W.answers W.refused }
    ensures does { (on : CpuNote → Course CpuNote) → Does W.accesses W.asks (Accesses zone bank call.now (behind_access on cpu.old want.now zone bank))
        world.old (moment (W.bank_caller world.old) (W.own world.old) (W.seen world.old) (W.answers world.old) (W.refused world.old) order.old.items None)
        world.new (moment (W.bank_caller world.new) (W.own world.new) (W.seen world.new) (W.answers world.new) (W.refused world.new) order.new.items (why_of result))
        (on_or_end on cpu.new (end_of result)) }
    ensures out { StaysOut W.bank_caller W.are_lent_to W.books_told W.caller W.context world.old world.new }
    ensures vcpu { cpu.new.vcpu ≡ cpu.old.vcpu }
{
    let came = access(rt, world, order, zone, bank, call);
    behind_access(cpu, want, zone, bank, &came)
}

// An instruction whose access is one of a port or of a device's window.
fn at_control<R: Copy, W: Reach<R> + Desk<R>>(
    rt: R,
    cpu: &mut CpuNote,
    want: &Want,
    world: &mut W,
    order: &mut Vec<BookId>,
    made: RegAccess,
) -> Option<Cut>
    requires can { CanSettle want.now cpu.old }
    requires made { IsRegAccess made }
    requires room { vec_len order.old < vec_capacity order.old }
    requires lent { W.are_lent_to world.old (W.bank_caller world.old) }
    requires context { W.context world.old ≡ Some (context_of cpu.old) }
    requires keeps { AsksKeepTheReach W.asks W.bank_caller W.own W.seen W.are_lent_to W.books_told }
    ensures does { (on : CpuNote → Course CpuNote) → Does W.accesses W.asks (Asks (call.Reg (context_of cpu.old) made) (behind_ask on cpu.old want.now))
        world.old (moment (W.bank_caller world.old) (W.own world.old) (W.seen world.old) (W.answers world.old) (W.refused world.old) order.old.items None)
        world.new (moment (W.bank_caller world.new) (W.own world.new) (W.seen world.new) (W.answers world.new) (W.refused world.new) order.new.items (why_of result))
        (on_or_end on cpu.new (end_of result)) }
    ensures out { StaysOut W.bank_caller W.are_lent_to W.books_told W.caller W.context world.old world.new }
    ensures vcpu { cpu.new.vcpu ≡ cpu.old.vcpu }
{
    let call = ControlCall::Reg {
        context: cpu.vcpu as u32 + 1,
        access: made,
    };
    let came = ask(rt, world, order, &call);
    behind_ask(cpu, want, &came)
}

// An instruction whose answer is known without a call.
fn known(cpu: &mut CpuNote, want: &Want, got: Got) -> Option<Cut>
    requires { CanSettle want.now cpu.old }
    ensures on { result ≡ None }
    ensures state { cpu.new ≡ settled cpu.old want.now got }
    ensures vcpu { cpu.new.vcpu ≡ cpu.old.vcpu }
{
    settle_with(cpu, want, got);
    None
}

// All ones, of as many bytes as a load has.
fn all_ones(want: &Want) -> u64
    requires { has_width want.now ≡ true }
    ensures { result ≡ 256 ^ width_of want.now - 1 }
{
    match want {
        Want::Load { width: 1, .. } => 0xff,
        Want::Load { width: 2, .. } => 0xffff,
        Want::Load { width: 4, .. } => 0xffff_ffff,
        Want::Load { .. } => u64::MAX,
        _ => 0,
    }
}

// A slice at a reach and a desk of their own.
ghost use Rattle.std.specs.Prelude.{◌≡◌, [], Some, None};
ghost use Rattle.chv_defs_guest.specs.Instruction.{CanBeRun};
ghost use Rattle.chv_defs_guest.specs.Moments.{moment};
ghost use Rattle.chv_defs_guest.specs.Slices.{IsMapOfZones, MakesSlice};
ghost use Rattle.chv_defs_guest.specs.VcpuCourse.{context_of};
ghost use Rattle.chv_runner.specs.Pairs.{desk_asks, reach_accesses};

use crate::slice::{SliceDone, vcpu_slice_on};
use chv_addr::AddrMap;
use chv_defs_api::{ControlCall, ControlReply, CpuNote, Desk, Stopped};
use chv_defs_memory::{BankCall, BankReply, Reach, Refusal, Told};
use chv_defs_scene::Script;
use std::alloc::{AllocError, Global};

// A reach and a desk, as one value.
#[derive(Drop)]
struct Pair<'a, X, T> {
    reach: &'a mut X,
    desk: &'a mut T,
}

impl<X: Told, T> Told for Pair<'_, X, T> {
    ghost are_empty = { λ p. X.are_empty p.reach.now };

    ghost are_lent_to = { λ p number. X.are_lent_to p.reach.now number };

    ghost seen = { λ p. X.seen p.reach.now };

    ghost books_told = { λ p. X.books_told p.reach.now };
}

impl<R: Copy, X: Reach<R>, T> Reach<R> for Pair<'_, X, T> {
    ghost bank_caller = { λ p. X.bank_caller p.reach.now };

    ghost own = { λ p. X.own p.reach.now };

    ghost accesses = { λ before zone bank call answer after. (after.reach.ghost_name ≡ before.reach.ghost_name)
        × (after.desk ≡ before.desk)
        × X.accesses before.reach.now zone bank call answer after.reach.now };

    fn access(
        &mut self,
        rt: R,
        zone: u8,
        bank: u8,
        call: &BankCall,
    ) -> Result<Result<BankReply, Refusal>, AllocError> {
        self.reach.access(rt, zone, bank, call)
    }

    ghost tells_own = { λ p zone bank lent there. X.tells_own p.reach.now zone bank lent there };
}

impl<R: Copy, X, T: Desk<R>> Desk<R> for Pair<'_, X, T> {
    ghost caller = { λ p. T.caller p.desk.now };

    ghost context = { λ p. T.context p.desk.now };

    ghost answers = { λ p. T.answers p.desk.now };

    ghost refused = { λ p. T.refused p.desk.now };

    ghost asks = { λ before call after. (after.desk.ghost_name ≡ before.desk.ghost_name)
        × (after.reach ≡ before.reach)
        × T.asks before.desk.now call after.desk.now };

    fn ask(
        &mut self,
        rt: R,
        call: &ControlCall,
    ) -> Result<Result<ControlReply, Stopped>, AllocError> {
        self.desk.ask(rt, call)
    }
}

/// A slice of a vCPU that was taken, whose context reaches the banks at one value and asks the control machine at another. It is
/// the slice that `vcpu_slice_on` makes at the two as one value.
pub fn vcpu_slice<R: Copy, X: Reach<R>, T: Desk<R>>(
    alloc: Global,
    rt: R,
    map: &AddrMap,
    script: &Script,
    note: &mut CpuNote,
    reach: &mut X,
    desk: &mut T,
) -> SliceDone
    requires script { CanBeRun script.now.lines }
    requires map { IsMapOfZones map.now }
    requires lent { X.are_lent_to reach.old (X.bank_caller reach.old) }
    requires number { X.bank_caller reach.old ≡ context_of note.old }
    requires context { T.context desk.old ≡ Some (context_of note.old) }
    ensures slice { MakesSlice (reach_accesses X.accesses) (desk_asks T.asks) map.now script.now.lines note.old
        (reach.old, desk.old) (moment (X.bank_caller reach.old) (X.own reach.old) (X.seen reach.old) (T.answers desk.old) (T.refused desk.old) [] None)
        (reach.new, desk.new) (moment (X.bank_caller reach.new) (X.own reach.new) (X.seen reach.new) (T.answers desk.new) (T.refused desk.new) result.order)
        note.new result.end result.cause }
    ensures vcpu { note.new.vcpu ≡ note.old.vcpu }
    // The context is still out.
    ensures still_lent { X.are_lent_to reach.new (X.bank_caller reach.new) }
    ensures same_bank_caller { X.bank_caller reach.new ≡ X.bank_caller reach.old }
    ensures same_books { X.books_told reach.new ≡ X.books_told reach.old }
    ensures same_caller { T.caller desk.new ≡ T.caller desk.old }
    ensures same_context { T.context desk.new ≡ T.context desk.old }
{
    let mut world = Pair { reach, desk };
    slice_at(alloc, rt, map, script, note, &mut world)
}

// The same at the two as one value, which stays the two.
fn slice_at<R: Copy, X: Reach<R>, T: Desk<R>>(
    alloc: Global,
    rt: R,
    map: &AddrMap,
    script: &Script,
    note: &mut CpuNote,
    world: &mut Pair<'_, X, T>,
) -> SliceDone
    requires script { CanBeRun script.now.lines }
    requires map { IsMapOfZones map.now }
    requires lent { X.are_lent_to world.old.reach.now (X.bank_caller world.old.reach.now) }
    requires number { X.bank_caller world.old.reach.now ≡ context_of note.old }
    requires context { T.context world.old.desk.now ≡ Some (context_of note.old) }
    ensures slice { MakesSlice (reach_accesses X.accesses) (desk_asks T.asks) map.now script.now.lines note.old
        (world.old.reach.now, world.old.desk.now)
        (moment (X.bank_caller world.old.reach.now) (X.own world.old.reach.now) (X.seen world.old.reach.now) (T.answers world.old.desk.now) (T.refused world.old.desk.now) [] None)
        (world.new.reach.now, world.new.desk.now)
        (moment (X.bank_caller world.new.reach.now) (X.own world.new.reach.now) (X.seen world.new.reach.now) (T.answers world.new.desk.now) (T.refused world.new.desk.now) result.order)
        note.new result.end result.cause }
    ensures vcpu { note.new.vcpu ≡ note.old.vcpu }
    ensures still_lent { X.are_lent_to world.new.reach.now (X.bank_caller world.new.reach.now) }
    ensures same_bank_caller { X.bank_caller world.new.reach.now ≡ X.bank_caller world.old.reach.now }
    ensures same_books { X.books_told world.new.reach.now ≡ X.books_told world.old.reach.now }
    ensures same_caller { T.caller world.new.desk.now ≡ T.caller world.old.desk.now }
    ensures same_context { T.context world.new.desk.now ≡ T.context world.old.desk.now }
    ensures same_reach { world.new.reach.ghost_name ≡ world.old.reach.ghost_name }
    ensures same_desk { world.new.desk.ghost_name ≡ world.old.desk.ghost_name }
{
    vcpu_slice_on(alloc, rt, map, script, note, world)
}

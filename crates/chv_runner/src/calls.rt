// The calls of a slice: each is noted in the order where it made an entry.
ghost use Rattle.std.specs.Prelude.{◌≡◌, ◌<◌, ◌++◌, false, [], ◌∷◌, None, vec_len};
ghost use Rattle.std.specs.Vec.{vec_capacity};
ghost use Rattle.chv_defs_api.specs.Desks.{MayAsk};
ghost use Rattle.chv_defs_memory.specs.BankBook.{HasItsNumber};
ghost use Rattle.chv_defs_memory.specs.BankState.{is_owner_call, IsCall};
ghost use Rattle.chv_defs_memory.specs.Zones.{IsBank};
ghost use Rattle.chv_defs_guest.specs.Course.{access_cause, book_if, outcome_cause, Accessed, Asked};
ghost use Rattle.chv_defs_guest.specs.Moments.{moment, Makes};
ghost use Rattle.chv_defs_guest.specs.Worlds.{AccessesKeepTheDesk, AsksKeepTheReach, StaysOut};

use chv_defs_api::{ControlCall, ControlReply, Desk, Stopped};
use chv_defs_base::BookId;
use chv_defs_memory::{BankCall, BankReply, Reach, Refusal};
use std::alloc::AllocError;

/// Makes an access in a bank.
pub(crate) fn access<R: Copy, W: Reach<R> + Desk<R>>(
    rt: R,
    world: &mut W,
    order: &mut Vec<BookId>,
    zone: u8,
    bank: u8,
    call: &BankCall,
) -> Result<Result<BankReply, Refusal>, AllocError>
    requires room { vec_len order.old < vec_capacity order.old }
    requires lent { W.are_lent_to world.old (W.bank_caller world.old) }
    requires bank { IsBank zone bank }
    requires call { IsCall bank call.now }
    requires access { is_owner_call call.now ≡ false }
    requires number { HasItsNumber (W.own world.old zone bank) (W.bank_caller world.old) call.now }
    requires keeps { AccessesKeepTheDesk W.accesses W.caller W.context W.answers W.refused }
    ensures makes { Makes
        (moment (W.bank_caller world.old) (W.own world.old) (W.seen world.old) (W.answers world.old) (W.refused world.old) order.old.items None)
        (Accessed zone bank call.now result ∷ [])
        (moment (W.bank_caller world.new) (W.own world.new) (W.seen world.new) (W.answers world.new) (W.refused world.new) order.new.items (access_cause result)) }
    ensures related { W.accesses world.old zone bank call.now result world.new }
    ensures out { StaysOut W.bank_caller W.are_lent_to W.books_told W.caller W.context world.old world.new }
{
    let came = world.access(rt, zone, bank, call);
    note(order, BookId::Bank { zone, bank }, &came);
    came
}

/// Makes a call at the control machine.
pub(crate) fn ask<R: Copy, W: Reach<R> + Desk<R>>(
    rt: R,
    world: &mut W,
    order: &mut Vec<BookId>,
    call: &ControlCall,
) -> Result<Result<ControlReply, Stopped>, AllocError>
    requires room { vec_len order.old < vec_capacity order.old }
    requires lent { W.are_lent_to world.old (W.bank_caller world.old) }
    requires may { MayAsk (W.caller world.old) (W.context world.old) (W.answers world.old) call.now }
    requires keeps { AsksKeepTheReach W.asks W.bank_caller W.own W.seen W.are_lent_to W.books_told }
    ensures makes { Makes
        (moment (W.bank_caller world.old) (W.own world.old) (W.seen world.old) (W.answers world.old) (W.refused world.old) order.old.items None)
        (Asked call.now result ∷ [])
        (moment (W.bank_caller world.new) (W.own world.new) (W.seen world.new) (W.answers world.new) (W.refused world.new) order.new.items (outcome_cause result)) }
    ensures related { W.asks world.old call.now world.new }
    ensures out { StaysOut W.bank_caller W.are_lent_to W.books_told W.caller W.context world.old world.new }
{
    let came = world.ask(rt, call);
    note(order, BookId::Control, &came);
    came
}

// Notes a book, where what was done there was replied to.
fn note<A, B>(order: &mut Vec<BookId>, book: BookId, came: &Result<Result<A, B>, AllocError>)
    requires { vec_len order.old < vec_capacity order.old }
    ensures { order.new.items ≡ order.old.items ++ book_if book came.now }
{
    if let Ok(Ok(_)) = came {
        order.push_reserved(book);
    }
}

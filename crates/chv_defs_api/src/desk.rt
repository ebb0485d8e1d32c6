// Where a caller asks the control machine.
ghost use Rattle.std.specs.Prelude.{◌≡◌, ◌++◌, ◌∷◌, ℕ, true, List, [], Option, Some, IfOk, OnErr};
ghost use Rattle.chv_defs_api.specs.declared.control.ControlCall.{ControlCall};
ghost use Rattle.chv_defs_api.specs.Desks.{Answer, MayAsk, can_have};

use crate::{ControlCall, ControlReply};
use std::alloc::AllocError;

/// The run stops: a `Stop` stands in the control history, or a book refused the call with Full.
#[derive(Clone, Copy, PartialEq, Eq)]
pub struct Stopped;

/// A caller's place at the control machine. `R` is what a call that waits needs, and `()` where nothing waits.
pub trait Desk<R> {
    /// The caller's number.
    ghost caller: { Self → ℕ };

    /// The number of the context that is out with the caller, as which it calls on banks, where one is.
    ghost context: { Self → Option ℕ };

    /// The calls that the caller has made, in order, each with its answer.
    ghost answers: { Self → List Answer };

    /// The last of its calls that was answered `Stopped`, where one was.
    ghost refused: { Self → Option ControlCall };

    /// What holds between the desk before this call was asked and the desk behind it, whatever the answer.
    ghost asks: { Self → ControlCall → Self → Type 0 };

    /// Makes one call. An answer stands in the control history, as an entry of the caller; `Stopped` and want of memory
    /// make no entry.
    fn ask(
        &mut self,
        rt: R,
        call: &ControlCall,
    ) -> Result<Result<ControlReply, Stopped>, AllocError>
        requires { MayAsk (caller self.old) (context self.old) (answers self.old) call.now }
        ensures caller { caller self.new ≡ caller self.old }
        ensures context { context self.new ≡ context self.old }
        ensures answered { IfOk result (λ answer. IfOk answer (λ reply. (answers self.new ≡ answers self.old ++ record { call = call.now; reply = reply } ∷ []) × (refused self.new ≡ refused self.old))) }
        ensures fits { IfOk result (λ answer. IfOk answer (λ reply. can_have call.now reply ≡ true)) }
        ensures halted { IfOk result (λ answer. OnErr answer ((answers self.new ≡ answers self.old) × (refused self.new ≡ Some call.now))) }
        ensures err { OnErr result ((answers self.new ≡ answers self.old) × (refused self.new ≡ refused self.old)) }
        ensures asked { asks self.old call.now self.new };
}

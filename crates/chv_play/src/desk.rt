// The desk of the sessions that are played.
ghost use Rattle.std.specs.Prelude.{◌≡◌, ◌≢◌, ◌≤◌, ℕ, true, false, None, Some, IfOk, OnErr};
ghost use Rattle.chv_defs_api.specs.Desks.{is_held};
ghost use Rattle.chv_defs_control.specs.LegalControl.{answers_by};
ghost use Rattle.chv_defs_control.specs.ControlStep.{MayCall};
ghost use Rattle.chv_defs_control.specs.ApiStep.{reply_to};
ghost use Rattle.chv_defs_api.specs.Desks.{can_have, is_session_call};
ghost use Rattle.chv_control.specs.Control.{unless_full};
ghost use Rattle.chv_play.specs.Banks.{entered_with_banks, IsWhole};
ghost use Rattle.chv_play.specs.Desk.{full_of, full_for, IsAnswered};

use chv_control::{Control, Inner};
use chv_defs::{ControlCall, ControlReply, Desk, Full, Stopped, copy_of};
use chv_guest::LentBanks;
use chv_io::Disk;
use std::alloc::AllocError;

/// A call for which a book was full.
#[derive(Drop)]
pub(crate) struct Refused {
    pub(crate) call: ControlCall,
    pub(crate) full: Full,
}

/// The desk of the sessions that are played: the control value, the number of the session whose turn it is, and the call
/// of this turn for which a book was full, where there was one.
pub(crate) struct PlayDesk<D: Disk> {
    pub(crate) control: Control<D, LentBanks>,
    pub(crate) caller: u32,
    pub(crate) refused: Option<Refused>,
}

impl<D: Disk> PlayDesk<D> {
    ghost use Rattle.chv_control.specs.Shelf.{shelf_of, sectors_of};

    /// A desk at this control value, before the first turn.
    pub(crate) fn new(control: Control<D, LentBanks>) -> PlayDesk<D>
        ensures { result.control ≡ control }
    {
        PlayDesk {
            control,
            caller: 0,
            refused: None,
        }
    }

    /// It is the turn of the session with this number. No session's latest answer is Holding, so that none has a call to
    /// settle.
    pub(crate) fn turn_to(&mut self, caller: u32)
        ensures turn { self.new ≡ record self.old { caller = caller; refused = None } }
        ensures settled { is_held (answers_by caller self.new.control.history) ≡ false }
    {
        self.recall();
        self.caller = caller;
        drop(self.refused.take());
    }

    /// What the control value and its banks tell of themselves. It does nothing: a caller that needs it says so.
    fn recall(&self)
        ensures whole { IsWhole self.now.control }
        ensures settled { (caller : ℕ) → is_held (answers_by caller self.now.control.history) ≡ false }
    {
        self.control.history();
        self.control.zones().recall();
    }

    /// The book that was full for a call of this turn, where it was.
    pub(crate) fn full(&self) -> Option<Full>
        ensures { result ≡ full_of self.now.refused }
    {
        match &self.refused {
            Some(refused) => Some(refused.full),
            None => None,
        }
    }

    // Makes a call of the session whose turn it is.
    fn make(&mut self, call: &ControlCall) -> Result<Result<ControlReply, Stopped>, AllocError>
        requires may { MayCall self.old.control.machine self.old.caller call.now }
        requires session { is_session_call call.now ≡ true }
        ensures { IsAnswered (shelf_of (sectors_of D.sector_count) self.old.control.disks) self.old call.now self.new result }
    {
        match self.apply(call)? {
            Ok(reply) => Ok(Ok(reply)),
            Err(Inner::Full(full)) => self.refuse(call, full),
            Err(Inner::Again { .. }) => unreachable!(),
            Err(Inner::NotYet) => unreachable!(),
            Err(Inner::Over) => unreachable!(),
        }
    }

    // Makes a call at the control value; the answer is as the schedule has it. Where the call is not entered, nothing changes.
    fn apply(&mut self, call: &ControlCall) -> Result<Result<ControlReply, Inner>, AllocError>
        requires may { MayCall self.old.control.machine self.old.caller call.now }
        ensures answer { IfOk result (λ answer. answer
            ≡ unless_full (full_for (shelf_of (sectors_of D.sector_count) self.old.control.disks) self.old.control self.old.caller call.now)
            (reply_to (shelf_of (sectors_of D.sector_count) self.old.control.disks) self.old.control.machine call.now)) }
        ensures entered { IfOk result (λ answer. IfOk answer (λ reply. self.new ≡ record self.old {
          control = entered_with_banks self.old.control (record { caller = self.old.caller; call = call.now; reply = reply });
        })) }
        ensures fits { is_session_call call.now ≡ true → IfOk result (λ answer. IfOk answer (λ reply. can_have call.now reply ≡ true)) }
        ensures refused { IfOk result (λ answer. OnErr answer (self.new ≡ self.old)) }
        ensures err { OnErr result (self.new ≡ self.old) }
    {
        self.recall();
        let answer = self.control.apply((), self.caller, call);
        self.recall();
        answer
    }

    // Keeps a call with the book that is full for it.
    fn refuse(
        &mut self,
        call: &ControlCall,
        full: Full,
    ) -> Result<Result<ControlReply, Stopped>, AllocError>
        requires { full_for (shelf_of (sectors_of D.sector_count) self.old.control.disks) self.old.control self.old.caller call.now
            ≡ Some full }
        ensures { IsAnswered (shelf_of (sectors_of D.sector_count) self.old.control.disks) self.old call.now self.new result }
    {
        let call = copy_of(call)?;
        self.keep(Refused { call, full });
        Ok(Err(Stopped))
    }

    fn keep(&mut self, refused: Refused)
        ensures { self.new ≡ record self.old { refused = Some refused } }
    {
        drop(self.refused.replace(refused));
    }

    /// The control value.
    pub(crate) fn into_control(self) -> Control<D, LentBanks>
        ensures { result ≡ self.control }
    {
        let PlayDesk {
            control,
            caller: _caller,
            refused,
        } = self;
        drop(refused);
        control
    }
}

impl<D: Disk> Desk<()> for PlayDesk<D> {
    ghost use Rattle.chv_control.specs.Shelf.{shelf_of, sectors_of};
    ghost use Rattle.chv_play.specs.Desk.{IsAskedOf, call_of};

    ghost caller = { λ d. d.caller };

    // A session takes no context.
    ghost context = { λ _. None };

    ghost answers = { λ d. answers_by d.caller d.control.history };

    ghost refused = { λ d. call_of d.refused };

    ghost asks = { λ before call after. IsAskedOf (shelf_of (sectors_of D.sector_count) before.control.disks) before call after };

    fn ask(
        &mut self,
        _rt: (),
        call: &ControlCall,
    ) -> Result<Result<ControlReply, Stopped>, AllocError> {
        // No caller's latest answer is Holding, so that no Settle comes.
        self.recall();
        self.make(call)
    }
}

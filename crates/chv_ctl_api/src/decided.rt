// What a call comes to.
ghost use Rattle.std.specs.Prelude.{◌≡◌};
ghost use Rattle.chv_defs_api.specs.declared.control.ControlReply.TheVariants.{Done, Ruled};
ghost use Rattle.chv_ctl_api.specs.declared.decided.Change.TheVariants.{Stays};

use chv_defs_api::{Checked, ControlReply};
use chv_defs_base::{Row, Rule};

/// What a call comes to: its reply, and what it changes of the machine.
#[derive(Drop)]
pub struct Decided {
    pub reply: ControlReply,
    pub change: Change,
}

/// What a call changes of the machine. All that needs memory was made when it was decided.
#[derive(Drop)]
pub enum Change {
    /// Nothing.
    Stays,
    /// There is a machine, of this configuration.
    Created(Checked),
    /// The machine has this configuration.
    Reconfigured(Checked),
    Booted,
    ShutDown,
    Deleted,
    /// These sessions have ended.
    Ended(Row<u32>),
    Stopped,
}

/// A reply by which nothing is changed.
pub fn stays(reply: ControlReply) -> Decided
    ensures { result ≡ record { reply = reply; change = Stays } }
{
    Decided {
        reply,
        change: Change::Stays,
    }
}

/// A refusal by rule.
pub fn refused(rule: Rule) -> Decided
    ensures { result ≡ record { reply = Ruled rule; change = Stays } }
{
    stays(ControlReply::Ruled(rule))
}

/// Done, by which this is changed.
pub fn done(change: Change) -> Decided
    ensures { result ≡ record { reply = Done; change = change } }
{
    Decided {
        reply: ControlReply::Done,
        change,
    }
}

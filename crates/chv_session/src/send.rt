// Puts a reply, and ends a session.
ghost use Rattle.std.specs.Prelude.{◌≡◌, ◌≢◌, ◌≤◌, true, None, IfOk, MatchResult, OnErr};
ghost use Rattle.chv_defs_api.specs.Desks.{IsSession};
ghost use Rattle.chv_defs_api.specs.Desks.{IsOnlyAsked};
ghost use Rattle.chv_io.specs.Links.{WriteLeaves};
ghost use Rattle.chv_session.specs.Response.{sent, Sends, Finishes, IsEnd};
ghost use Rattle.chv_session.specs.Step.{said_at};
ghost use Rattle.chv_session.specs.Counts.{CountsStay, StaysUnlessEnding};
ghost use Rattle.chv_session.specs.Moment.{faults};
ghost use Rattle.chv_session.specs.Wire.{wire, Closes, StaysButClosed};

use crate::fill::keep;
use crate::respond::{Response, Then};
use crate::state::State;
use chv_defs_api::{ControlCall, Desk, SessionEnd, Stopped};
use chv_io::{Failed, Link, write_to};
use std::alloc::AllocError;

/// Puts the reply of a response, where there is one, and keeps it. There is room for it before it is put.
pub(crate) fn send<K: Link>(
    replied: &mut Vec<u8>,
    link: &mut K,
    response: &Response,
) -> Result<Then, AllocError>
    ensures sends { IfOk result (λ after. Sends response.now.reply response.now.then after
        (sent replied.old.items (K.written link.old) (K.write_faults link.old))
        (sent replied.new.items (K.written link.new) (K.write_faults link.new))) }
    ensures err_some { OnErr result (response.now.reply ≢ None) }
    ensures err_replied { OnErr result (replied.new.items ≡ replied.old.items) }
    ensures err_written { OnErr result (K.written link.new ≡ K.written link.old) }
    ensures leaves { WriteLeaves (K.left link.old) (K.left link.new) (K.gave link.old) (K.gave link.new)
        (K.closed link.old) (K.closed link.new) (K.read_faults link.old) (K.read_faults link.new) }
    ensures most { K.most link.new ≡ K.most link.old }
    ensures later { K.write_faults link.old ≤ K.write_faults link.new }
    ensures counts { IfOk result (λ after. StaysUnlessEnding after (faults (K.read_faults link.old) (K.read_faults link.new)
        (K.write_faults link.old) (K.write_faults link.new))) }
    ensures err_counts { OnErr result (CountsStay (faults (K.read_faults link.old) (K.read_faults link.new)
        (K.write_faults link.old) (K.write_faults link.new))) }
{
    let bytes = match &response.reply {
        Some(bytes) => bytes,
        None => return Ok(response.then),
    };
    replied.reserve(bytes.len())?;
    match write_to(link, bytes.as_slice()) {
        Ok(()) => {
            keep(replied, bytes.as_slice());
            Ok(response.then)
        }
        Err(Failed) => Ok(Then::End(SessionEnd::Fault)),
    }
}

/// Ends a session so: closes the connection, and makes the call Bye. Answers where the session stands then: it has ended
/// so, or Stopped where the run stopped at the Bye.
pub(crate) fn leave<R: Copy, K: Link, T: Desk<R>>(
    rt: R,
    link: &mut K,
    desk: &mut T,
    end: SessionEnd,
) -> Result<State, AllocError>
    requires { IsSession (T.caller desk.old) }
    ensures caller { T.caller desk.new ≡ T.caller desk.old }
    ensures leaves { IfOk result (λ stands. Finishes (Then.End end) stands (T.answers desk.old) (T.answers desk.new)
        (T.refused desk.old) (T.refused desk.new)) }
    ensures err { OnErr result (T.answers desk.new ≡ T.answers desk.old) }
    ensures err_goes_on { OnErr result (T.refused desk.new ≡ T.refused desk.old) }
    ensures asked { IsOnlyAsked T.asks desk.old desk.new }
    ensures closed { K.closed link.new ≡ true }
    ensures stays { StaysButClosed
        (wire (K.left link.old) (K.gave link.old) (K.written link.old) (K.most link.old) (K.read_faults link.old) (K.write_faults link.old))
        (wire (K.left link.new) (K.gave link.new) (K.written link.new) (K.most link.new) (K.read_faults link.new) (K.write_faults link.new)) }
{
    link.close();
    let answer = desk.ask(rt, &ControlCall::Bye)?;
    Ok(end_by(answer, end))
}

/// Where a session stands whose Bye was answered so. It has ended, and makes no further Bye.
fn end_by<T: Drop>(answer: Result<T, Stopped>, end: SessionEnd) -> State
    ensures { MatchResult answer (λ _. result ≡ State.Ended end) (λ _. result ≡ State.Ended SessionEnd.Stopped) }
{
    match answer {
        Ok(_) => State::Ended(end),
        Err(Stopped) => State::Ended(SessionEnd::Stopped),
    }
}

/// Says where a session stands then. At an end that no reply told of, it leaves.
pub(crate) fn finish<R: Copy, K: Link, T: Desk<R>>(
    rt: R,
    link: &mut K,
    desk: &mut T,
    then: Then,
) -> Result<State, AllocError>
    requires { IsSession (T.caller desk.old) }
    ensures caller { T.caller desk.new ≡ T.caller desk.old }
    ensures finishes { IfOk result (λ stands. Finishes then stands (T.answers desk.old) (T.answers desk.new)
        (T.refused desk.old) (T.refused desk.new)) }
    ensures err { OnErr result (T.answers desk.new ≡ T.answers desk.old) }
    ensures err_goes_on { OnErr result (T.refused desk.new ≡ T.refused desk.old) }
    ensures asked { IsOnlyAsked T.asks desk.old desk.new }
    ensures err_end { OnErr result (IsEnd then) }
    ensures err_closed { OnErr result (K.closed link.new ≡ true) }
    ensures closes { IfOk result (λ stands. Closes (said_at stands) (K.closed link.old) (K.closed link.new)) }
    ensures stays { StaysButClosed
        (wire (K.left link.old) (K.gave link.old) (K.written link.old) (K.most link.old) (K.read_faults link.old) (K.write_faults link.old))
        (wire (K.left link.new) (K.gave link.new) (K.written link.new) (K.most link.new) (K.read_faults link.new) (K.write_faults link.new)) }
{
    match then {
        Then::GoOn => Ok(State::Open),
        Then::Leave(end) => Ok(State::Leaving(end)),
        Then::Stop => {
            link.close();
            Ok(State::Ended(SessionEnd::Stopped))
        }
        Then::End(end) => leave(rt, link, desk, end),
    }
}

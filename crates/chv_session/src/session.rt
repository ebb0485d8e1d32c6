// The session of one connection.
ghost use Rattle.std.specs.Prelude.{◌≡◌, ◌≢◌, ◌≤◌, true, false, vec_len, IfOk, MatchResult, OnErr, Ok, Err};
ghost use Rattle.chv_defs_api.specs.Desks.{IsSession};
ghost use Rattle.chv_defs_api.specs.Desks.{IsOnlyAsked, is_held};
ghost use Rattle.chv_defs_api.specs.SessionBytes.{session_limit};
ghost use Rattle.chv_session.specs.Talk.{new_talk, talk_of, end_of};
ghost use Rattle.chv_session.specs.Taking.{intake, TakesPieces};
ghost use Rattle.chv_session.specs.Moment.{faults, moment};
ghost use Rattle.chv_session.specs.Counts.{IsFaultless, IsLostFaultless};
ghost use Rattle.chv_session.specs.Wire.{wire, Closes, Drains, StaysButClosed};
ghost use Rattle.chv_session.specs.Step.{Step, IsReady, Breaks, ComesTo, GetsLost, ClosesLost, said_at, is_over};

use crate::fill::fill;
use crate::next::Next;
use crate::respond::respond;
use crate::send::{finish, leave, send};
use crate::state::State;
use chv_defs_api::{Desk, SessionEnd, SessionLog};
use chv_defs_base::Bytes;
use chv_http::Parser;
use chv_io::Link;
use std::alloc::{AllocError, Global};
use std::marker::Model;

/// What an open session does at one call.
fn step<R: Copy, K: Link, T: Desk<R>>(
    alloc: Global,
    parser: &mut Parser,
    asked: &mut Vec<u8>,
    replied: &mut Vec<u8>,
    rt: R,
    link: &mut K,
    desk: &mut T,
) -> Result<State, AllocError>
    requires room { vec_len asked.old ≤ session_limit }
    requires session { IsSession (T.caller desk.old) }

    // What it takes, whatever the answer.
    ensures taken { TakesPieces
        (intake asked.old.items parser.old (K.left link.old) (K.gave link.old) (K.most link.old) (K.read_faults link.old))
        (intake asked.new.items parser.new (K.left link.new) (K.gave link.new) (K.most link.new) (K.read_faults link.new)) }
    ensures within { vec_len asked.new ≤ session_limit }

    // What it comes to.
    ensures step { IfOk result (λ stands. Step (said_at stands)
        (moment (talk_of asked.old.items parser.old replied.old.items State.Open) (T.answers desk.old) (T.refused desk.old) (K.written link.old)
        (K.read_faults link.old) (K.write_faults link.old))
        (moment (talk_of asked.new.items parser.new replied.new.items stands) (T.answers desk.new) (T.refused desk.new) (K.written link.new)
        (K.read_faults link.new) (K.write_faults link.new))) }
    ensures closes { IfOk result (λ stands. Closes (said_at stands) (K.closed link.old) (K.closed link.new)) }
    ensures drains { IfOk result (λ stands. Drains (said_at stands)
        (intake asked.old.items parser.old (K.left link.old) (K.gave link.old) (K.most link.old) (K.read_faults link.old))
        (intake asked.new.items parser.new (K.left link.new) (K.gave link.new) (K.most link.new) (K.read_faults link.new))) }

    // Want of memory.
    ensures err { OnErr result (Breaks
        (moment (talk_of asked.old.items parser.old replied.old.items State.Open) (T.answers desk.old) (T.refused desk.old) (K.written link.old)
        (K.read_faults link.old) (K.write_faults link.old))
        (moment (talk_of asked.new.items parser.new replied.new.items State.Lost) (T.answers desk.new) (T.refused desk.new) (K.written link.new)
        (K.read_faults link.new) (K.write_faults link.new))) }
    ensures err_goes_on { OnErr result (T.refused desk.new ≡ T.refused desk.old) }
    ensures err_closes { OnErr result (ClosesLost State.Open
        (moment (talk_of asked.old.items parser.old replied.old.items State.Open) (T.answers desk.old) (T.refused desk.old) (K.written link.old)
        (K.read_faults link.old) (K.write_faults link.old))
        (moment (talk_of asked.new.items parser.new replied.new.items State.Lost) (T.answers desk.new) (T.refused desk.new) (K.written link.new)
        (K.read_faults link.new) (K.write_faults link.new)) (K.closed link.old) (K.closed link.new)) }

    // What stays.
    ensures caller { T.caller desk.new ≡ T.caller desk.old }
    ensures asked { IsOnlyAsked T.asks desk.old desk.new }
    ensures most { K.most link.new ≡ K.most link.old }
    ensures read_later { K.read_faults link.old ≤ K.read_faults link.new }
    ensures write_later { K.write_faults link.old ≤ K.write_faults link.new }

    // Without a fault no count of the connection's faults rose.
    ensures faultless { IfOk result (λ stands. IsFaultless (said_at stands) (T.refused desk.new) (faults (K.read_faults link.old) (K.read_faults link.new)
        (K.write_faults link.old) (K.write_faults link.new))) }
    ensures err_faultless { OnErr result (IsLostFaultless (K.closed link.new) (faults (K.read_faults link.old) (K.read_faults link.new)
        (K.write_faults link.old) (K.write_faults link.new))) }
{
    let found = fill(parser, asked, link)?;
    let response = respond(alloc, rt, desk, found, parser.is_empty())?;
    let then = send(replied, link, &response)?;
    let stands = finish(rt, link, desk, then)?;
    Ok(stands)
}

/// The session of one connection. Contracts see what it took, what of that is not answered, what it replied, and where it
/// stands.
#[derive(Drop)]
pub struct Session {
    alloc: Global,
    parser: Parser,
    asked: Vec<u8>,
    replied: Vec<u8>,
    state: State,
}

impl Model for Session {
    ghost use Rattle.std.specs.Prelude.{◌≤◌, vec_len};
    ghost use Rattle.chv_defs_api.specs.SessionBytes.{session_limit};
    ghost use Rattle.chv_session.specs.Talk.{Talk};

    ghost Value = { Talk };

    ghost view = { λ s. record {
      asked = s.asked.items;
      rest = s.parser;
      replied = s.replied.items;
      state = s.state;
    } };

    ghost invariant = { λ s. vec_len s.asked ≤ session_limit };
}

/// What a call says that left a session there.
fn said(stands: State) -> Next
    ensures { result ≡ said_at stands }
{
    match stands {
        State::Open | State::Leaving(_) => Next::Answered,
        State::Ended(end) => Next::Ended(end),
        State::Lost => Next::Ended(SessionEnd::Stopped),
    }
}

/// Has a session stand where a call left it, and answers what that call says. Want of memory leaves it lost.
fn stand(state: &mut State, left: Result<State, AllocError>) -> Result<Next, AllocError>
    ensures { MatchResult left (λ stands. (state.new ≡ stands) × (result ≡ Ok (said_at stands)))
        (λ error. (state.new ≡ State.Lost) × (result ≡ Err error)) }
{
    match left {
        Ok(stands) => {
            *state = stands;
            Ok(said(stands))
        }
        Err(error) => {
            *state = State::Lost;
            Err(error)
        }
    }
}

impl Session {
    /// A session of which nothing came so far.
    pub fn new(alloc: Global) -> Result<Session, AllocError>
        ensures { IfOk result (λ session. session ≡ new_talk) }
    {
        Ok(Session {
            alloc,
            parser: Parser::new(alloc)?,
            asked: Vec::new(alloc),
            replied: Vec::new(alloc),
            state: State::Open,
        })
    }

    /// One turn of the session: it answers the next request, or it ends. It takes of the connection until a request or a
    /// refusal is there, makes the request's calls at the desk, and puts the reply. Behind a last request and behind a
    /// refusal the next call is its end. At an end it closes the connection and makes the call Bye, but where the run
    /// stopped before; after an end it answers that end again. After want of memory it answers that again, and the session
    /// is of use for its log alone; the connection is closed then where memory was wanting at the Bye of an end, and else
    /// as it was.
    pub fn next<R: Copy, K: Link, T: Desk<R>>(
        &mut self,
        rt: R,
        link: &mut K,
        desk: &mut T,
    ) -> Result<Next, AllocError>
        requires session { IsSession (T.caller desk.old) }
        requires settled { self.old.state ≡ State.Open → is_held (T.answers desk.old) ≡ false }

        // The bytes that it takes, whatever the answer.
        ensures taken { TakesPieces
            (intake self.old.asked self.old.rest (K.left link.old) (K.gave link.old) (K.most link.old) (K.read_faults link.old))
            (intake self.new.asked self.new.rest (K.left link.new) (K.gave link.new) (K.most link.new) (K.read_faults link.new)) }

        // What it comes to, by where it stood: its request, calls and reply, or its end.
        ensures outcome { IfOk result (λ next. ComesTo next
            (moment self.old (T.answers desk.old) (T.refused desk.old) (K.written link.old)
            (K.read_faults link.old) (K.write_faults link.old))
            (moment self.new (T.answers desk.new) (T.refused desk.new) (K.written link.new)
            (K.read_faults link.new) (K.write_faults link.new))) }
        ensures ready { IfOk result (λ next. IsReady next (T.answers desk.new)) }

        // The connection, which is closed at an end.
        ensures closes { is_over self.old.state ≡ false → IfOk result (λ next. Closes next (K.closed link.old) (K.closed link.new)) }
        ensures drains { self.old.state ≡ State.Open → IfOk result (λ next. Drains next
            (intake self.old.asked self.old.rest (K.left link.old) (K.gave link.old) (K.most link.old) (K.read_faults link.old))
            (intake self.new.asked self.new.rest (K.left link.new) (K.gave link.new) (K.most link.new) (K.read_faults link.new))) }

        // Want of memory.
        ensures lost { OnErr result (GetsLost
            (moment self.old (T.answers desk.old) (T.refused desk.old) (K.written link.old)
            (K.read_faults link.old) (K.write_faults link.old))
            (moment self.new (T.answers desk.new) (T.refused desk.new) (K.written link.new)
            (K.read_faults link.new) (K.write_faults link.new))) }
        ensures lost_closes { OnErr result (ClosesLost self.old.state
            (moment self.old (T.answers desk.old) (T.refused desk.old) (K.written link.old)
            (K.read_faults link.old) (K.write_faults link.old))
            (moment self.new (T.answers desk.new) (T.refused desk.new) (K.written link.new)
            (K.read_faults link.new) (K.write_faults link.new)) (K.closed link.old) (K.closed link.new)) }

        // What stays: without a fault the counts of the connection's faults; all of the connection but whether it is closed, where the session is not open; and all else where it
        // is over.
        ensures caller { T.caller desk.new ≡ T.caller desk.old }
        ensures asked { IsOnlyAsked T.asks desk.old desk.new }
        ensures most { K.most link.new ≡ K.most link.old }
        ensures read_later { K.read_faults link.old ≤ K.read_faults link.new }
        ensures write_later { K.write_faults link.old ≤ K.write_faults link.new }
        ensures faultless { IfOk result (λ next. IsFaultless next (T.refused desk.new) (faults (K.read_faults link.old) (K.read_faults link.new)
            (K.write_faults link.old) (K.write_faults link.new))) }
        ensures lost_faultless { OnErr result (IsLostFaultless (K.closed link.new) (faults (K.read_faults link.old) (K.read_faults link.new)
            (K.write_faults link.old) (K.write_faults link.new))) }
        ensures link_stays { self.old.state ≢ State.Open → StaysButClosed
            (wire (K.left link.old) (K.gave link.old) (K.written link.old) (K.most link.old) (K.read_faults link.old) (K.write_faults link.old))
            (wire (K.left link.new) (K.gave link.new) (K.written link.new) (K.most link.new) (K.read_faults link.new) (K.write_faults link.new)) }
        ensures link_rests { is_over self.old.state ≡ true → link.new ≡ link.old }
        ensures desk_rests { is_over self.old.state ≡ true → desk.new ≡ desk.old }
    {
        match self.state {
            State::Ended(end) => Ok(Next::Ended(end)),
            State::Lost => Err(AllocError),
            State::Leaving(end) => {
                let left = leave(rt, link, desk, end);
                stand(&mut self.state, left)
            }
            State::Open => {
                let left = step(
                    self.alloc,
                    &mut self.parser,
                    &mut self.asked,
                    &mut self.replied,
                    rt,
                    link,
                    desk,
                );
                stand(&mut self.state, left)
            }
        }
    }

    /// What the session leaves: its bytes, its replies, and how it ended, Stopped where it has not.
    pub fn log(self) -> SessionLog
        ensures { result ≡ record { asked = self.asked; replied = self.replied; end = end_of self.state } }
    {
        let end = match self.state {
            State::Ended(end) => end,
            State::Open | State::Leaving(_) | State::Lost => SessionEnd::Stopped,
        };
        SessionLog {
            asked: Bytes::new(self.asked),
            replied: Bytes::new(self.replied),
            end,
        }
    }
}

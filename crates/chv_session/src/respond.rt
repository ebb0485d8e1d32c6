// Makes the control calls of what was found, and the reply to it. Calls and replies are given to `drop`, so that a proof has
// one call in place of a case for each kind of call and reply.
ghost use Rattle.std.specs.Prelude.{◌≡◌, true, Some, None, IfOk, OnErr};
ghost use Rattle.chv_defs_api.specs.Desks.{IsSession};
ghost use Rattle.chv_defs_api.specs.declared.control.ControlCall.TheVariants.{Settle};
ghost use Rattle.chv_defs_api.specs.declared.control.ControlReply.TheVariants.{Holding};
ghost use Rattle.chv_defs_api.specs.Desks.{IsOnlyAsked, is_session_call, is_held, is_holding};
ghost use Rattle.chv_defs_api.specs.Routes.{reply_to_call};
ghost use Rattle.chv_session.specs.Response.{Serves, Responds, BreaksIn, BreaksOn, then_after, HasMadeAlso};
ghost use Rattle.chv_session.specs.Counts.{IsNoFault};
ghost use Rattle.chv_session.specs.Making.{Settles, IsAnswer, MakesCall, ServesCall, last_call};

use crate::fill::Found;
use chv_api::{calls_of, refusal_of, reply_of};
use chv_defs_api::{ControlCall, ControlReply, Desk, Request, SessionEnd, Stopped};
use chv_defs_base::Bytes;
use std::alloc::{AllocError, Global};

/// What comes behind a reply.
#[derive(Clone, Copy)]
pub(crate) enum Then {
    /// The session goes on.
    GoOn,
    /// It makes its Bye at the next call, and ends so.
    Leave(SessionEnd),
    /// It makes its Bye now, and ends so.
    End(SessionEnd),
    /// The run has stopped.
    Stop,
}

/// A reply, where there is one, and what comes behind it.
#[derive(Drop)]
pub(crate) struct Response {
    pub reply: Option<Bytes>,
    pub then: Then,
}

/// What comes behind the reply to a request. The session leaves behind a last one.
fn behind(last: bool) -> Then
    ensures { result ≡ then_after last }
{
    if last {
        Then::Leave(SessionEnd::Closed)
    } else {
        Then::GoOn
    }
}

/// A reply to a request.
fn answered(bytes: Bytes, last: bool) -> Response
    ensures reply { result.reply ≡ Some bytes }
    ensures then { result.then ≡ then_after last }
{
    Response {
        reply: Some(bytes),
        then: behind(last),
    }
}

/// No reply, and what comes then.
fn silent(then: Then) -> Response
    ensures { result ≡ record { reply = None; then = then } }
{
    Response { reply: None, then }
}

/// Whether a call is to be settled.
fn holds(reply: &ControlReply) -> bool
    ensures { result ≡ is_holding reply.now }
{
    matches!(reply, ControlReply::Holding)
}

/// The last answer to a call: its own, or that of its Settle.
#[derive(Drop)]
pub(crate) struct Made {
    pub reply: ControlReply,
    pub settled: bool,
}

/// Makes the Settle of a call that was answered Holding.
fn settle<R: Copy, T: Desk<R>>(rt: R, desk: &mut T) -> Result<Result<Made, Stopped>, AllocError>
    requires session { IsSession (T.caller desk.old) }
    requires held { is_held (T.answers desk.old) ≡ true }
    ensures caller { T.caller desk.new ≡ T.caller desk.old }
    ensures settles { Settles Holding result (T.answers desk.old) (T.answers desk.new) (T.refused desk.old) (T.refused desk.new) }
    ensures asked { T.asks desk.old Settle desk.new }
{
    match desk.ask(rt, &ControlCall::Settle)? {
        Ok(reply) => Ok(Ok(Made {
            reply,
            settled: true,
        })),
        Err(stopped) => Ok(Err(stopped)),
    }
}

/// Settles a call that was answered so, where that is Holding.
fn settle_held<R: Copy, T: Desk<R>>(
    rt: R,
    desk: &mut T,
    reply: ControlReply,
) -> Result<Result<Made, Stopped>, AllocError>
    requires session { IsSession (T.caller desk.old) }
    requires held { is_held (T.answers desk.old) ≡ is_holding reply }
    ensures caller { T.caller desk.new ≡ T.caller desk.old }
    ensures settles { Settles reply result (T.answers desk.old) (T.answers desk.new) (T.refused desk.old) (T.refused desk.new) }
    ensures asked { IsOnlyAsked T.asks desk.old desk.new }
{
    if holds(&reply) {
        drop(reply);
        return settle(rt, desk);
    }
    Ok(Ok(Made {
        reply,
        settled: false,
    }))
}

/// Makes a call, and where it is answered Holding its Settle.
fn make<R: Copy, T: Desk<R>>(
    rt: R,
    desk: &mut T,
    call: &ControlCall,
) -> Result<Result<Made, Stopped>, AllocError>
    requires session { IsSession (T.caller desk.old) }
    requires api { is_session_call call.now ≡ true }
    ensures caller { T.caller desk.new ≡ T.caller desk.old }
    ensures makes { MakesCall call.now result (T.answers desk.old) (T.answers desk.new) (T.refused desk.old) (T.refused desk.new) }
    ensures asked { IsOnlyAsked T.asks desk.old desk.new }
{
    match desk.ask(rt, call)? {
        Ok(reply) => settle_held(rt, desk, reply),
        Err(stopped) => Ok(Err(stopped)),
    }
}

/// Answers a request whose call was answered so.
fn answer(
    alloc: Global,
    call: &ControlCall,
    made: &Made,
    last: bool,
) -> Result<Response, AllocError>
    ensures { IfOk result (λ response. IsAnswer response (reply_to_call (last_call call.now made.now.settled) made.now.reply last) last) }
{
    let bytes = if made.settled {
        reply_of(alloc, &made.reply, &ControlCall::Settle, last)?
    } else {
        reply_of(alloc, &made.reply, call, last)?
    };
    Ok(answered(bytes, last))
}

/// Makes a call of a request, and the reply to it.
fn serve_call<R: Copy, T: Desk<R>>(
    alloc: Global,
    rt: R,
    desk: &mut T,
    call: &ControlCall,
    last: bool,
) -> Result<Response, AllocError>
    requires session { IsSession (T.caller desk.old) }
    requires api { is_session_call call.now ≡ true }
    ensures caller { T.caller desk.new ≡ T.caller desk.old }
    ensures served { ServesCall call.now last result (T.answers desk.old) (T.answers desk.new) (T.refused desk.old) (T.refused desk.new) }
    ensures asked { IsOnlyAsked T.asks desk.old desk.new }
{
    match make(rt, desk, call)? {
        Ok(made) => {
            let response = answer(alloc, call, &made, last);
            drop(made);
            response
        }
        Err(Stopped) => Ok(silent(Then::Stop)),
    }
}

/// Makes the calls of a request, and the reply to it.
fn serve<R: Copy, T: Desk<R>>(
    alloc: Global,
    rt: R,
    desk: &mut T,
    request: &Request,
) -> Result<Response, AllocError>
    requires { IsSession (T.caller desk.old) }
    ensures caller { T.caller desk.new ≡ T.caller desk.old }
    ensures served { IfOk result (λ response. HasMadeAlso (T.answers desk.old) (T.answers desk.new)
        (λ made. Serves request.now response.reply response.then made (T.refused desk.old) (T.refused desk.new))) }
    ensures err { OnErr result (HasMadeAlso (T.answers desk.old) (T.answers desk.new) (λ made. BreaksIn request.now made)) }
    ensures err_goes_on { OnErr result (T.refused desk.new ≡ T.refused desk.old) }
    ensures asked { IsOnlyAsked T.asks desk.old desk.new }
{
    match calls_of(alloc, request)? {
        Ok(call) => {
            let response = serve_call(alloc, rt, desk, &call, request.last);
            drop(call);
            response
        }
        Err(rule) => {
            let bytes = refusal_of(alloc, rule, request.last)?;
            Ok(answered(bytes, request.last))
        }
    }
}

/// Makes the calls of what was found, and the reply to it. `all` says that no byte is left unanswered.
pub(crate) fn respond<R: Copy, T: Desk<R>>(
    alloc: Global,
    rt: R,
    desk: &mut T,
    found: Found,
    all: bool,
) -> Result<Response, AllocError>
    requires { IsSession (T.caller desk.old) }
    ensures caller { T.caller desk.new ≡ T.caller desk.old }
    ensures responds { IfOk result (λ response. HasMadeAlso (T.answers desk.old) (T.answers desk.new)
        (λ made. Responds found all response made (T.refused desk.old) (T.refused desk.new))) }
    ensures err { OnErr result (HasMadeAlso (T.answers desk.old) (T.answers desk.new) (λ made. BreaksOn found made)) }
    ensures err_found { OnErr result (IsNoFault found) }
    ensures err_goes_on { OnErr result (T.refused desk.new ≡ T.refused desk.old) }
    ensures asked { IsOnlyAsked T.asks desk.old desk.new }
{
    match found {
        Found::Request(request) => {
            let response = serve(alloc, rt, desk, &request);
            drop(request);
            response
        }
        Found::Bad(rule) => Ok(Response {
            reply: Some(refusal_of(alloc, rule, true)?),
            then: Then::Leave(SessionEnd::Bad),
        }),
        Found::End if all => Ok(silent(Then::End(SessionEnd::Ended))),
        Found::End => Ok(silent(Then::End(SessionEnd::Cut))),
        Found::Fault => Ok(silent(Then::End(SessionEnd::Fault))),
        Found::Limit => Ok(silent(Then::End(SessionEnd::Limit))),
    }
}

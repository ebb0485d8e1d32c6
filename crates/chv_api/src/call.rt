// The control call of a request.
ghost use Rattle.std.specs.Prelude.{◌≡◌, IfOk, option_copied};
ghost use Rattle.chv_defs_api.specs.Routes as routes;

use crate::route::{get_call, put_call};
use chv_defs_api::{ControlCall, Request};
use chv_defs_base::Rule;
use std::alloc::{AllocError, Global};

// The name of the route that a target asks for: what stands behind `/api/v1/`.
#[tactic(auto, unfolding(chv_defs_api::specs::Routes::target_front))]
fn route_name(target: &str) -> Option<&str>
    ensures { option_copied result ≡ routes.route_name target.now }
{
    target.strip_prefix("/api/v1/")
}

/// The control call that a request makes, or the rule that refuses it before the control machine is asked: NoRoute where
/// no route has this method and target; then what its body breaks first; and BadName where a snapshot's URL names none.
#[tactic(auto, unfolding(chv_defs_api::specs::Routes::call_of_request))]
pub fn calls_of(alloc: Global, request: &Request) -> Result<Result<ControlCall, Rule>, AllocError>
    ensures { IfOk result (λ answer. answer ≡ routes.call_of_request request.now) }
{
    match route_name(request.target.as_str()) {
        Some(name) if request.get => Ok(get_call(name)),
        Some(name) if request.put => put_call(alloc, name, request.body.as_slice()),
        _ => Ok(Err(Rule::NoRoute)),
    }
}

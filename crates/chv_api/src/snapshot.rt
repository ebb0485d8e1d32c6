// The names of snapshots, in the URLs that requests give.
ghost use Rattle.std.specs.Prelude.{◌≡◌, IfOk};
ghost use Rattle.chv_defs_api.specs.Routes as routes;
ghost use Rattle.chv_api.specs.Snapshots as snapshots;

use chv_defs_api::last_component;
use chv_defs_base::{Name, Rule, Text};
use chv_json::text_of;
use std::alloc::{AllocError, Global};

// A URL without the one `/` at its end, where it has one.
fn without_final_slash(url: &str) -> &str
    ensures { result.now ≡ routes.without_final_slash url.now }
{
    match url.strip_suffix('/') {
        Some(front) => front,
        None => url,
    }
}

// The name of the snapshot that a URL names.
fn snapshot_name(alloc: Global, url: &str) -> Result<Result<Name, Rule>, AllocError>
    ensures { IfOk result (λ name. name ≡ routes.snapshot_name url.now) }
{
    let last = last_component(without_final_slash(url));
    match Name::of(Text::of(alloc, last)?) {
        Ok(name) => Ok(Ok(name)),
        Err(_) => Ok(Err(Rule::BadName)),
    }
}

/// The name of the snapshot whose URL stands at a key of a body, or the first rule that the body breaks.
pub(crate) fn snapshot_at(
    alloc: Global,
    body: &[u8],
    key: &str,
) -> Result<Result<Name, Rule>, AllocError>
    ensures { IfOk result (λ name. name ≡ snapshots.snapshot_at body.now key.now) }
{
    match text_of(alloc, body, key)? {
        Ok(url) => snapshot_name(alloc, url.as_str()),
        Err(rule) => Ok(Err(rule)),
    }
}

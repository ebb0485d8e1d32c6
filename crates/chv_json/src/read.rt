// The bodies that are read.
ghost use Rattle.std.specs.Prelude.{◌≡◌, IfOk};
ghost use Rattle.serde_json.specs.View.{view};
ghost use Rattle.chv_defs_api.specs.JsonBodies as bodies;
ghost use Rattle.chv_json.specs.Gives.{Gives, answer_of};

use crate::fields::{an_object, text, whole, whole_given};
use crate::from_json::FromJson;
use crate::refused::Refused;
use chv_defs_api::{DiskConfig, VmConfig};
use chv_defs_base::{Rule, Text};
use serde_json::Value;
use std::alloc::{AllocError, Global};
use std::str::from_utf8;

fn value_of(alloc: Global, body: &[u8]) -> Result<Value, Refused>
    ensures { Gives view result (bodies.value_of body.now) }
{
    match from_utf8(body) {
        Ok(text) => match Value::from_str(alloc, text) {
            Ok(value) => Ok(value),
            Err(error) => if error.is_memory() {
                Err(Refused::Memory)
            } else {
                Err(Refused::Broken(Rule::NotJson))
            },
        },
        Err(_) => Err(Refused::Broken(Rule::NotJson)),
    }
}

fn answer<T>(read: Result<T, Refused>) -> Result<Result<T, Rule>, AllocError>
    ensures { result ≡ answer_of read }
{
    match read {
        Ok(value) => Ok(Ok(value)),
        Err(Refused::Memory) => Err(AllocError),
        Err(Refused::Broken(rule)) => Ok(Err(rule)),
    }
}

#[tactic(auto, unfolding(chv_defs_api::specs::JsonBodies::config_of))]
fn config(alloc: Global, body: &[u8]) -> Result<VmConfig, Refused>
    ensures { Gives (λ x. x) result (bodies.config_of body.now) }
{
    let value = value_of(alloc, body)?;
    VmConfig::from_json(alloc, &value)
}

#[tactic(auto, unfolding(chv_defs_api::specs::JsonBodies::disk_of))]
fn disk(alloc: Global, body: &[u8]) -> Result<DiskConfig, Refused>
    ensures { Gives (λ x. x) result (bodies.disk_of body.now) }
{
    let value = value_of(alloc, body)?;
    DiskConfig::from_json(alloc, &value)
}

#[tactic(auto, unfolding(chv_defs_api::specs::JsonBodies::resize_of))]
fn resize(alloc: Global, body: &[u8]) -> Result<(Option<u64>, Option<u64>), Refused>
    ensures { Gives (λ x. x) result (bodies.resize_of body.now) }
{
    let value = value_of(alloc, body)?;
    resize_in(&value)
}

fn resize_in(value: &Value) -> Result<(Option<u64>, Option<u64>), Refused>
    ensures { Gives (λ x. x) result (bodies.resize_in (view value.now)) }
{
    let object = an_object(value)?;
    let vcpus = whole_given(object, "desired_vcpus")?;
    let ram = whole_given(object, "desired_ram")?;
    Ok((vcpus, ram))
}

#[tactic(auto, unfolding(chv_defs_api::specs::JsonBodies::zone_of))]
fn zone(alloc: Global, body: &[u8]) -> Result<(Text, u64), Refused>
    ensures { Gives (λ x. x) result (bodies.zone_of body.now) }
{
    let value = value_of(alloc, body)?;
    zone_in(alloc, &value)
}

fn zone_in(alloc: Global, value: &Value) -> Result<(Text, u64), Refused>
    ensures { Gives (λ x. x) result (bodies.zone_resize_in (view value.now)) }
{
    let object = an_object(value)?;
    let id = text(alloc, object, "id")?;
    let ram = whole(object, "desired_ram")?;
    Ok((id, ram))
}

#[tactic(auto, unfolding(chv_defs_api::specs::JsonBodies::text_of))]
fn text_at(alloc: Global, body: &[u8], key: &str) -> Result<Text, Refused>
    ensures { Gives (λ x. x) result (bodies.text_of body.now key.now) }
{
    let value = value_of(alloc, body)?;
    let object = an_object(&value)?;
    text(alloc, object, key)
}

/// The configuration in the body of `vm.create`, or the first rule that the body breaks.
pub fn config_of(alloc: Global, body: &[u8]) -> Result<Result<VmConfig, Rule>, AllocError>
    ensures { IfOk result (λ r. r ≡ bodies.config_of body.now) }
{
    answer(config(alloc, body))
}

/// The disk in the body of `vm.add-disk`, or the first rule that the body breaks.
pub fn disk_of(alloc: Global, body: &[u8]) -> Result<Result<DiskConfig, Rule>, AllocError>
    ensures { IfOk result (λ r. r ≡ bodies.disk_of body.now) }
{
    answer(disk(alloc, body))
}

/// The vCPUs and the bytes of memory that the body of `vm.resize` asks for, or the first rule
/// that it breaks.
pub fn resize_of(
    alloc: Global,
    body: &[u8],
) -> Result<Result<(Option<u64>, Option<u64>), Rule>, AllocError>
    ensures { IfOk result (λ r. r ≡ bodies.resize_of body.now) }
{
    answer(resize(alloc, body))
}

/// The zone and its bytes of memory that the body of `vm.resize-zone` asks for, or the first rule
/// that it breaks.
pub fn zone_of(alloc: Global, body: &[u8]) -> Result<Result<(Text, u64), Rule>, AllocError>
    ensures { IfOk result (λ r. r ≡ bodies.zone_of body.now) }
{
    answer(zone(alloc, body))
}

/// The text at one key of a body, or the first rule that the body breaks.
pub fn text_of(alloc: Global, body: &[u8], key: &str) -> Result<Result<Text, Rule>, AllocError>
    ensures { IfOk result (λ r. r ≡ bodies.text_of body.now key.now) }
{
    answer(text_at(alloc, body, key))
}

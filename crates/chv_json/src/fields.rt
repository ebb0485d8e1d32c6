// The fields of an object, each with its kind.
ghost use Rattle.std.specs.Prelude.{◌≡◌, Ok, Err, option_map, MatchResult};
ghost use Rattle.serde_json.specs.View.{view};
ghost use Rattle.chv_defs_api.specs.JsonBodies as bodies;
ghost use Rattle.chv_json.specs.Gives.{Gives};

use crate::refused::Refused;
use chv_defs_api::Hotplug;
use chv_defs_base::{Rule, Text};
use serde_json::Value;
use std::alloc::Global;

/// The value of a key. One that is null counts as absent.
pub(crate) fn field<'v>(object: &'v Value, key: &str) -> Option<&'v Value>
    ensures { option_map (λ v. view v.now) result ≡ bodies.field key.now (view object.now) }
{
    match object.get(key) {
        Some(found) => if found.is_null() { None } else { Some(found) },
        None => None,
    }
}

/// The value, which has to be an object.
pub(crate) fn an_object(value: &Value) -> Result<&Value, Rule>
    ensures { MatchResult result
        (λ v. bodies.an_object (view value.now) ≡ Ok (view v.now))
        (λ rule. bodies.an_object (view value.now) ≡ Err rule) }
{
    if value.is_object() {
        Ok(value)
    } else {
        Err(Rule::NotObject)
    }
}

fn a_whole(value: &Value) -> Result<u64, Rule>
    ensures { result ≡ bodies.a_whole (view value.now) }
{
    value.as_u64().ok_or(Rule::NotWhole)
}

fn a_bool(value: &Value) -> Result<bool, Rule>
    ensures { result ≡ bodies.a_bool (view value.now) }
{
    value.as_bool().ok_or(Rule::NotBool)
}

fn a_text(alloc: Global, value: &Value) -> Result<Text, Refused>
    ensures { Gives (λ t. t) result (bodies.a_text (view value.now)) }
{
    match value.as_str() {
        Some(text) => Ok(Text::of(alloc, text)?),
        None => Err(Refused::Broken(Rule::NotText)),
    }
}

fn a_method(value: &Value) -> Result<Hotplug, Rule>
    ensures { result ≡ bodies.a_method (view value.now) }
{
    match value.as_str() {
        Some(name) => method_named(name),
        None => Err(Rule::NotText),
    }
}

fn method_named(name: &str) -> Result<Hotplug, Rule>
    ensures { result ≡ bodies.method_named name.now }
{
    if name == "Acpi" || name == "acpi" {
        Ok(Hotplug::Acpi)
    } else if name == "VirtioMem" || name == "virtio-mem" {
        Ok(Hotplug::VirtioMem)
    } else {
        Err(Rule::NotText)
    }
}

/// An object, or `absent` where there is none.
pub(crate) fn object_or<'v>(
    object: &'v Value,
    key: &str,
    absent: &'v Value,
) -> Result<&'v Value, Rule>
    ensures { MatchResult result
        (λ v. bodies.defaulted bodies.an_object (view absent.now) key.now (view object.now)
        ≡ Ok (view v.now))
        (λ rule. bodies.defaulted bodies.an_object (view absent.now) key.now (view object.now)
        ≡ Err rule) }
{
    match field(object, key) {
        Some(value) => an_object(value),
        None => Ok(absent),
    }
}

/// A number that has to stand there.
pub(crate) fn whole(object: &Value, key: &str) -> Result<u64, Rule>
    ensures { result ≡ bodies.needed bodies.a_whole key.now (view object.now) }
{
    a_whole(field(object, key).ok_or(Rule::Missing)?)
}

/// A number, or `absent` where there is none.
pub(crate) fn whole_or(object: &Value, key: &str, absent: u64) -> Result<u64, Rule>
    ensures { result ≡ bodies.defaulted bodies.a_whole absent key.now (view object.now) }
{
    match field(object, key) {
        Some(value) => a_whole(value),
        None => Ok(absent),
    }
}

/// A number that may be absent.
pub(crate) fn whole_given(object: &Value, key: &str) -> Result<Option<u64>, Rule>
    ensures { result ≡ bodies.given bodies.a_whole key.now (view object.now) }
{
    match field(object, key) {
        Some(value) => Ok(Some(a_whole(value)?)),
        None => Ok(None),
    }
}

/// Yes or no, or `absent` where there is neither.
pub(crate) fn bool_or(object: &Value, key: &str, absent: bool) -> Result<bool, Rule>
    ensures { result ≡ bodies.defaulted bodies.a_bool absent key.now (view object.now) }
{
    match field(object, key) {
        Some(value) => a_bool(value),
        None => Ok(absent),
    }
}

/// How memory is plugged, or `absent` where it is not said.
pub(crate) fn method_or(object: &Value, key: &str, absent: Hotplug) -> Result<Hotplug, Rule>
    ensures { result ≡ bodies.defaulted bodies.a_method absent key.now (view object.now) }
{
    match field(object, key) {
        Some(value) => a_method(value),
        None => Ok(absent),
    }
}

/// A text that has to stand there.
pub(crate) fn text(alloc: Global, object: &Value, key: &str) -> Result<Text, Refused>
    ensures { Gives (λ t. t) result (bodies.needed bodies.a_text key.now (view object.now)) }
{
    match field(object, key) {
        Some(value) => a_text(alloc, value),
        None => Err(Refused::Broken(Rule::Missing)),
    }
}

/// A text that may be absent.
pub(crate) fn text_given(alloc: Global, object: &Value, key: &str) -> Result<Option<Text>, Refused>
    ensures { Gives (λ t. t) result (bodies.given bodies.a_text key.now (view object.now)) }
{
    match field(object, key) {
        Some(value) => Ok(Some(a_text(alloc, value)?)),
        None => Ok(None),
    }
}
